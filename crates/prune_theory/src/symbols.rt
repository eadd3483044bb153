//! The symbols that a command mentions, and those that head its rules.
//!
//! The walks nest with brackets and binders, and not with the arguments of an application.
ghost use Rattle.std.specs.Prelude.{◌≡◌, ◌++◌, map, IfOk, OnOk};
ghost use Rattle.dk_model.specs.Trees.{tree};
ghost use Rattle.dk_model.specs.Signatures.{maybe_tree};
ghost use Rattle.dk_model.specs.Scoping.{plain_asked, plain_command, plain_left, plain_scoped_rule};
ghost use Rattle.dk_model.specs.Shapes.{left_head};
ghost use Rattle.prune_theory.specs.Mentions.{asked_symbols, heads_of, left_symbols, maybe_symbols, notes_symbols, rules_heads, rules_symbols, rule_symbols, symbols_of, term_symbols};

use crate::left_spine::left_spine;
use dk_model::{Asked, Left, Listed, NoMemory, Scoped, ScopedRule, Term, spine};
use std::alloc::Global;

/// Adds the symbols of a term, each as often as it stands there.
#[tactic(auto, using(crate::proofs::Adding::both_added, crate::proofs::Adding::one_added, crate::proofs::Stacks::wound_added, crate::proofs::Stacks::stack_pushed, dk_model::proofs::Winding::references_total))]
fn add_term(alloc: Global, found: &mut Vec<u32>, term: &Term) -> Result<(), NoMemory>
    ensures { OnOk result (found.new.items ≡ found.old.items ++ term_symbols (tree term.now)) }
{
    match term {
        Term::Star => Ok(()),
        Term::Kind => Ok(()),
        Term::Sym(k) => Ok(found.push(*k)?),
        Term::Var(_) => Ok(()),
        Term::Rvar(_) => Ok(()),
        Term::App(f, a) => {
            let (head, arguments) = spine(alloc, f, a)?;
            let mut arguments = arguments;
            add_term(alloc, found, head)?;
            while let Some(argument) = arguments.pop() {
                add_term(alloc, found, argument)?;
            }
            Ok(())
        }
        Term::Abs(None, b) => add_term(alloc, found, b),
        Term::Abs(Some(n), b) => {
            add_term(alloc, found, n)?;
            add_term(alloc, found, b)
        }
        Term::Prod(a, b) => {
            add_term(alloc, found, a)?;
            add_term(alloc, found, b)
        }
    }
}

/// Adds those of a term, where there is one.
fn add_maybe(alloc: Global, found: &mut Vec<u32>, term: &Option<Term>) -> Result<(), NoMemory>
    ensures { OnOk result
        (found.new.items ≡ found.old.items ++ maybe_symbols (maybe_tree term.now)) }
{
    match term {
        Some(term) => add_term(alloc, found, term),
        None => Ok(()),
    }
}

/// Adds those of annotations.
#[tactic(auto, using(crate::proofs::Adding::one_added))]
fn add_notes(alloc: Global, found: &mut Vec<u32>, notes: &[Option<Term>]) -> Result<(), NoMemory>
    ensures { OnOk result
        (found.new.items ≡ found.old.items ++ notes_symbols (map maybe_tree notes.now)) }
{
    let mut rest = notes;
    while let Some((note, others)) = rest.split_first() {
        add_maybe(alloc, found, note)?;
        rest = others;
    }
    Ok(())
}

/// Adds those of a left side.
#[tactic(auto, using(crate::proofs::Adding::both_added, crate::proofs::Adding::one_added, crate::proofs::Stacks::left_wound_added, crate::proofs::Stacks::left_stack_pushed, crate::proofs::Stacks::left_total_pushed))]
fn add_left(alloc: Global, found: &mut Vec<u32>, left: &Left) -> Result<(), NoMemory>
    ensures { OnOk result
        (found.new.items ≡ found.old.items ++ left_symbols (plain_left left.now)) }
{
    match left {
        Left::Sym(k) => Ok(found.push(*k)?),
        Left::Rvar(_) => Ok(()),
        Left::Var(_) => Ok(()),
        Left::Any => Ok(()),
        Left::Guard(t) => add_term(alloc, found, t),
        Left::Abs(b) => add_left(alloc, found, b),
        Left::App(f, a) => {
            let (head, arguments) = left_spine(alloc, f, a)?;
            let mut arguments = arguments;
            add_left(alloc, found, head)?;
            while let Some(argument) = arguments.pop() {
                add_left(alloc, found, argument)?;
            }
            Ok(())
        }
    }
}

/// Adds those of a rule.
#[tactic(auto, using(crate::proofs::Adding::all_added))]
fn add_rule(alloc: Global, found: &mut Vec<u32>, rule: &ScopedRule) -> Result<(), NoMemory>
    ensures { OnOk result
        (found.new.items ≡ found.old.items ++ rule_symbols (plain_scoped_rule rule.now)) }
{
    add_notes(alloc, found, rule.notes.as_slice())?;
    add_left(alloc, found, &rule.left)?;
    add_term(alloc, found, &rule.right)
}

/// Adds those of rules.
#[tactic(auto, using(crate::proofs::Adding::one_added))]
fn add_rules(alloc: Global, found: &mut Vec<u32>, rules: &[ScopedRule]) -> Result<(), NoMemory>
    ensures { OnOk result
        (found.new.items ≡ found.old.items ++ rules_symbols (map plain_scoped_rule rules.now)) }
{
    let mut rest = rules;
    while let Some((rule, others)) = rest.split_first() {
        add_rule(alloc, found, rule)?;
        rest = others;
    }
    Ok(())
}

/// Adds those of what a query asks.
#[tactic(auto, using(crate::proofs::Adding::both_added))]
fn add_asked(alloc: Global, found: &mut Vec<u32>, asked: &Asked) -> Result<(), NoMemory>
    ensures { OnOk result
        (found.new.items ≡ found.old.items ++ asked_symbols (plain_asked asked.now)) }
{
    match asked {
        Asked::Typed(t, typ) => {
            add_term(alloc, found, t)?;
            add_term(alloc, found, typ)
        }
        Asked::Equal(t, u) => {
            add_term(alloc, found, t)?;
            add_term(alloc, found, u)
        }
        Asked::Infer(t) => add_term(alloc, found, t),
        Asked::Eval(t) => add_term(alloc, found, t),
    }
}

/// The symbols that a command mentions anywhere, by their numbers, from left to right, each as often as it stands there.
#[tactic(auto, using(crate::proofs::Adding::both_added))]
pub fn mentions(alloc: Global, command: &Scoped) -> Result<Listed<u32>, NoMemory>
    ensures { IfOk result (λ ks. ks ≡ symbols_of (plain_command command.now)) }
{
    let mut found = Vec::new(alloc);
    match command {
        Scoped::Declare { typ, body, .. } => {
            add_maybe(alloc, &mut found, typ)?;
            add_maybe(alloc, &mut found, body)?;
        }
        Scoped::Rules(rules) => add_rules(alloc, &mut found, rules.as_slice())?,
        Scoped::Query { asked, .. } => add_asked(alloc, &mut found, asked)?,
    }
    Ok(Listed::from_vec(found))
}

/// The symbol at the head of a left side.
fn head_of(left: &Left) -> Option<u32>
    ensures { result ≡ left_head (plain_left left.now) }
{
    let mut head = left;
    loop {
        match head {
            Left::App(f, _) => head = f,
            Left::Sym(k) => return Some(*k),
            Left::Rvar(_) => return None,
            Left::Var(_) => return None,
            Left::Any => return None,
            Left::Guard(_) => return None,
            Left::Abs(_) => return None,
        }
    }
}

/// Adds the heads of rules.
#[tactic(auto, using(crate::proofs::Adding::one_added))]
fn add_heads(found: &mut Vec<u32>, rules: &[ScopedRule]) -> Result<(), NoMemory>
    ensures { OnOk result
        (found.new.items ≡ found.old.items ++ rules_heads (map plain_scoped_rule rules.now)) }
{
    let mut rest = rules;
    while let Some((rule, others)) = rest.split_first() {
        if let Some(head) = head_of(&rule.left) {
            found.push(head)?;
        }
        rest = others;
    }
    Ok(())
}

/// The symbols that head the rules of a command, from left to right.
pub fn heads(alloc: Global, command: &Scoped) -> Result<Listed<u32>, NoMemory>
    ensures { IfOk result (λ ks. ks ≡ heads_of (plain_command command.now)) }
{
    match command {
        Scoped::Rules(rules) => {
            let mut found = Vec::new(alloc);
            add_heads(&mut found, rules.as_slice())?;
            Ok(Listed::from_vec(found))
        }
        Scoped::Declare { .. } => Ok(Listed::new(alloc)),
        Scoped::Query { .. } => Ok(Listed::new(alloc)),
    }
}
