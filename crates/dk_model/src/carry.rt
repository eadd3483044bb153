//! Patterns, rules and entries over other terms, in memory of their own.
ghost use Rattle.std.specs.Prelude.{◌≡◌, IfOk, map};
ghost use Rattle.dk_model.specs.Trees.{Tree};
ghost use Rattle.dk_model.specs.Signatures.{entry_by, maybe_by, pattern_by, rule_by};

use crate::{Entry, Listed, NoMemory, Pat, Rule};
use std::alloc::Global;

/// How a term is made into one of maybe another type that means the same, in memory of its own.
pub trait Carry {
    /// The terms that are read.
    type Source;
    /// The terms that are made.
    type Target: Drop;

    // The tree of a term that is read.
    ghost read_tree: { Self.Source → Tree };

    // The tree of a term that is made.
    ghost made_tree: { Self.Target → Tree };

    fn carry(alloc: Global, term: &Self::Source) -> Result<Self::Target, NoMemory>
        ensures { IfOk result (λ t. made_tree t ≡ read_tree term.now) };
}

fn carry_maybe<C: Carry>(
    alloc: Global,
    term: &Option<C::Source>,
) -> Result<Option<C::Target>, NoMemory>
    ensures { IfOk result (λ t. maybe_by C.made_tree t ≡ maybe_by C.read_tree term.now) }
{
    match term {
        Some(term) => Ok(Some(C::carry(alloc, term)?)),
        None => Ok(None),
    }
}

fn carry_notes<C: Carry>(
    alloc: Global,
    notes: &[Option<C::Source>],
) -> Result<Listed<Option<C::Target>>, NoMemory>
    ensures { IfOk result (λ ts. map (maybe_by C.made_tree) ts ≡ map (maybe_by C.read_tree) notes.now) }
{
    let mut carried = Listed::from_vec(Vec::with_capacity(alloc, notes.len())?);
    for note in notes {
        carried.push(carry_maybe::<C>(alloc, note)?)?;
    }
    Ok(carried)
}

/// The same pattern over the other terms.
#[cycle(carrying)]
pub fn carry_pattern<C: Carry>(
    alloc: Global,
    pattern: &Pat<C::Source>,
) -> Result<Pat<C::Target>, NoMemory>
    ensures { IfOk result (λ p. pattern_by C.made_tree p ≡ pattern_by C.read_tree pattern.now) }
{
    match pattern {
        Pat::Rvar(variable, arguments) => Ok(Pat::Rvar(
            *variable,
            Listed::from_slice(alloc, arguments.as_slice())?,
        )),
        Pat::Any => Ok(Pat::Any),
        Pat::Guard(term) => Ok(Pat::Guard(C::carry(alloc, term)?)),
        Pat::Sym(symbol, arguments) => Ok(Pat::Sym(
            *symbol,
            carry_patterns::<C>(alloc, arguments.as_slice())?,
        )),
        Pat::Var(variable, arguments) => Ok(Pat::Var(
            *variable,
            carry_patterns::<C>(alloc, arguments.as_slice())?,
        )),
        Pat::Abs(body) => Ok(Pat::Abs(Box::new(alloc, carry_pattern::<C>(alloc, body)?)?)),
    }
}

#[cycle(carrying)]
fn carry_patterns<C: Carry>(
    alloc: Global,
    patterns: &[Pat<C::Source>],
) -> Result<Listed<Pat<C::Target>>, NoMemory>
    ensures { IfOk result (λ ps. map (pattern_by C.made_tree) ps
        ≡ map (pattern_by C.read_tree) patterns.now) }
{
    let mut carried = Listed::from_vec(Vec::with_capacity(alloc, patterns.len())?);
    for pattern in patterns {
        carried.push(carry_pattern::<C>(alloc, pattern)?)?;
    }
    Ok(carried)
}

/// The same rule over the other terms.
pub fn carry_rule<C: Carry>(
    alloc: Global,
    rule: &Rule<C::Source>,
) -> Result<Rule<C::Target>, NoMemory>
    ensures { IfOk result (λ r. rule_by C.made_tree r ≡ rule_by C.read_tree rule.now) }
{
    Ok(Rule {
        head: rule.head,
        vars: rule.vars,
        pats: carry_patterns::<C>(alloc, rule.pats.as_slice())?,
        notes: carry_notes::<C>(alloc, rule.notes.as_slice())?,
        right: C::carry(alloc, &rule.right)?,
    })
}

/// The same rules over the other terms.
pub fn carry_rules<C: Carry>(
    alloc: Global,
    rules: &[Rule<C::Source>],
) -> Result<Listed<Rule<C::Target>>, NoMemory>
    ensures { IfOk result (λ rs. map (rule_by C.made_tree) rs ≡ map (rule_by C.read_tree) rules.now) }
{
    let mut carried = Listed::from_vec(Vec::with_capacity(alloc, rules.len())?);
    for rule in rules {
        carried.push(carry_rule::<C>(alloc, rule)?)?;
    }
    Ok(carried)
}

/// The same entry over the other terms.
pub fn carry_entry<C: Carry>(
    alloc: Global,
    entry: &Entry<C::Source>,
) -> Result<Entry<C::Target>, NoMemory>
    ensures { IfOk result (λ e. entry_by C.made_tree e ≡ entry_by C.read_tree entry.now) }
{
    match entry {
        Entry::Symbol { sort, typ, body } => Ok(Entry::Symbol {
            sort: *sort,
            typ: C::carry(alloc, typ)?,
            body: carry_maybe::<C>(alloc, body)?,
        }),
        Entry::Rules(rules) => Ok(Entry::Rules(carry_rules::<C>(alloc, rules.as_slice())?)),
    }
}
