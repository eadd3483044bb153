//! The rule that a scoped rule stands for.
ghost use Rattle.std.specs.Prelude.{◌≡◌, IfOk, map};
ghost use Rattle.dk_model.specs.Signatures.{maybe_tree, plain_entry, plain_signature};
ghost use Rattle.dk_model.specs.Scoping.{plain_scoped_rule};
ghost use Rattle.dk_model.specs.Shapes.{shape_of, is_definable, is_definable_entry};
ghost use Rattle.pattern_compile.specs.Answers.{GivesRule, GivesRules, command_shapes};

use crate::copies;
use crate::mark::{is_covered, variable_marks};
use crate::pattern::{head, patterns};
use dk_model::{
    Code, Entry, Fault, Left, Listed, NoMemory, Rule, ScopedRule, Signature, SymSort, Term,
};
use std::alloc::Global;

/// Copies of the annotations of a context.
fn copied(alloc: Global, notes: &[Option<Term>]) -> Result<Listed<Option<Term>>, NoMemory>
    ensures { IfOk result (λ ns. map maybe_tree ns ≡ map maybe_tree notes.now) }
{
    let mut copies = Listed::new(alloc);
    for note in notes {
        let copy = match note {
            Some(note) => Some(copies::copied(alloc, note)?),
            None => None,
        };
        copies.push(copy)?;
    }
    Ok(copies)
}

/// The rule that a scoped rule stands for, or the first of these codes: E31 where its head isn't a
/// symbol, E32 where an argument isn't a pattern, E33 where a rule variable is missing in
/// the patterns. The head may be any symbol. The rule keeps all annotations, in memory of its own.
pub fn shape(alloc: Global, rule: &ScopedRule) -> Result<Rule, Fault>
    ensures { GivesRule (shape_of (plain_scoped_rule rule.now)) result }
{
    let head = match head(&rule.left) {
        Left::Sym(symbol) => *symbol,
        _ => return Err(Fault::Refused(Code::E31)),
    };
    let pats = match patterns(alloc, rule.vars, &rule.left)? {
        Some(pats) => pats,
        None => return Err(Fault::Refused(Code::E32)),
    };
    let marks = variable_marks(alloc, rule.vars, pats.as_slice())?;
    if !is_covered(marks.as_slice(), rule, pats.as_slice()) {
        return Err(Fault::Refused(Code::E33));
    }
    Ok(Rule {
        head,
        vars: rule.vars,
        pats,
        notes: copied(alloc, rule.notes.as_slice())?,
        right: copies::copied(alloc, &rule.right)?,
    })
}

fn is_definable_entry(entry: &Entry) -> bool
    ensures { result ≡ is_definable_entry (plain_entry entry.now) }
{
    match entry {
        Entry::Symbol { sort, .. } => match sort {
            SymSort::Definable => true,
            SymSort::Static => false,
            SymSort::Theorem => false,
        },
        Entry::Rules(_) => false,
    }
}

/// Whether the symbol was declared by `def`.
fn is_definable(signature: &Signature, symbol: u32) -> bool
    ensures { result ≡ is_definable (plain_signature signature.now) symbol }
{
    match signature.entries.get(symbol as usize) {
        Some(entry) => is_definable_entry(entry),
        None => false,
    }
}

/// The rules of a command over this signature, or the first code of the first rule that has one:
/// those of `shape`, then E30 where the head wasn't declared by `def`.
pub fn shape_all(
    alloc: Global,
    signature: &Signature,
    rules: &Listed<ScopedRule>,
) -> Result<Listed<Rule>, Fault>
    ensures { GivesRules (command_shapes signature.now rules.now) result }
{
    let mut shapes = Listed::new(alloc);
    for rule in rules.as_slice() {
        let rule = shape(alloc, rule)?;
        if !is_definable(signature, rule.head) {
            return Err(Fault::Refused(Code::E30));
        }
        shapes.push(rule)?;
    }
    Ok(shapes)
}
