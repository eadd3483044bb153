//! The entry that an accepted command adds.
ghost use Rattle.std.specs.Prelude.{◌≡◌, IfErr, IfOk};
ghost use Rattle.dk_model.specs.Signatures.{maybe_by, maybe_tree};
ghost use Rattle.dk_model.specs.Scoping.{plain_command};
ghost use Rattle.dk_model.specs.Verdicts.{entry_of, entry_type_of, kept_body};
ghost use Rattle.shared_term.specs.Storage.{stored_term};
ghost use Rattle.signature_log.specs.Versions.{entries_of, stored_entry};
ghost use Rattle.command_kinds.specs.Faults.{IsEntryFault};
ghost use Rattle.command_check.specs.Given.{command_shapes, GivesRules};

use crate::shapes::shapes_of;
use dk_model::{Entry, Listed, NoMemory, Rule, Scoped, ScopedRule, SymSort, Term, TypeFault};
use pattern_compile::erase_all;
use shared_term::Stored;
use signature_log::{Version, store_rules};
use std::alloc::Global;

/// The declared type without annotations, or the inferred one.
fn entry_type(
    alloc: Global,
    declared: &Option<Term>,
    inferred: Option<Stored>,
) -> Result<Stored, NoMemory>
    ensures { IfOk result (λ t. stored_term t
        ≡ entry_type_of (maybe_tree declared.now) (maybe_by stored_term inferred)) }
{
    match declared {
        Some(typ) => Stored::from_erased(alloc, typ),
        None => match inferred {
            Some(typ) => Ok(typ),
            None => Stored::from_term(alloc, &Term::Kind),
        },
    }
}

/// The body without annotations, which a definition alone keeps.
fn entry_body(alloc: Global, sort: SymSort, body: &Option<Term>) -> Result<Option<Stored>, NoMemory>
    ensures { IfOk result (λ b. maybe_by stored_term b ≡ kept_body sort (maybe_tree body.now)) }
{
    match sort {
        SymSort::Definable => match body {
            Some(body) => Ok(Some(Stored::from_erased(alloc, body)?)),
            None => Ok(None),
        },
        SymSort::Static => Ok(None),
        SymSort::Theorem => Ok(None),
    }
}

/// The rules of a command as an entry keeps them: without annotations in guards and right sides.
#[tactic(auto, using(crate::proofs::Entering::rules_kept))]
pub(crate) fn entry_rules(
    alloc: Global,
    version: &Version,
    rules: &Listed<ScopedRule>,
) -> Result<Listed<Rule<Stored>>, TypeFault>
    ensures { GivesRules (command_shapes (entries_of version.now) rules.now) result }
{
    let kept = erase_all(alloc, shapes_of(alloc, version, rules)?)?;
    Ok(store_rules(alloc, kept.as_slice())?)
}

/// The entry of an accepted command, with the type that was inferred for a definition without a declared one.
///
/// Each rule of a command has its shape, or the first code of the first rule that has one (E31, E32, E33, then E30). A query adds no rule.
pub fn entry_of(
    alloc: Global,
    version: &Version,
    command: &Scoped,
    inferred: Option<Stored>,
) -> Result<Entry<Stored>, TypeFault>
    ensures ok { IfOk result (λ e. stored_entry e
        ≡ entry_of (entries_of version.now) (plain_command command.now)
        (maybe_by stored_term inferred)) }
    ensures err { IfErr result (IsEntryFault (entries_of version.now) (plain_command command.now)) }
{
    match command {
        Scoped::Declare { sort, typ, body } => Ok(Entry::Symbol {
            sort: *sort,
            typ: entry_type(alloc, typ, inferred)?,
            body: entry_body(alloc, *sort, body)?,
        }),
        Scoped::Rules(rules) => Ok(Entry::Rules(entry_rules(alloc, version, rules)?)),
        Scoped::Query { .. } => Ok(Entry::Rules(Listed::new(alloc))),
    }
}
