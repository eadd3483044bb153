//! The entry that an accepted command adds whose terms are stored.
ghost use Rattle.std.specs.Prelude.{◌≡◌, IfErr, IfOk};
ghost use Rattle.dk_model.specs.Signatures.{maybe_by};
ghost use Rattle.dk_model.specs.Verdicts.{entry_of, entry_type_of, kept_body};
ghost use Rattle.shared_term.specs.Commands.{stored_command};
ghost use Rattle.shared_term.specs.Storage.{stored_term};
ghost use Rattle.signature_log.specs.Versions.{entries_of, stored_entry};
ghost use Rattle.command_kinds.specs.Faults.{IsEntryFault};

use crate::entry::entry_rules;
use dk_model::{Entry, Listed, NoMemory, SymSort, Term, TypeFault};
use shared_term::{Stored, StoredCommand};
use signature_log::Version;
use std::alloc::Global;

/// The declared type without annotations, or the inferred one.
fn entry_type(
    alloc: Global,
    declared: &Option<Stored>,
    inferred: Option<Stored>,
) -> Result<Stored, NoMemory>
    ensures { IfOk result (λ t. stored_term t
        ≡ entry_type_of (maybe_by stored_term declared.now) (maybe_by stored_term inferred)) }
{
    match declared {
        Some(typ) => typ.without_annotations(alloc),
        None => match inferred {
            Some(typ) => Ok(typ),
            None => Stored::from_term(alloc, &Term::Kind),
        },
    }
}

/// The body without annotations, which a definition alone keeps.
fn entry_body(
    alloc: Global,
    sort: SymSort,
    body: &Option<Stored>,
) -> Result<Option<Stored>, NoMemory>
    ensures { IfOk result
        (λ b. maybe_by stored_term b ≡ kept_body sort (maybe_by stored_term body.now)) }
{
    match sort {
        SymSort::Definable => match body {
            Some(body) => Ok(Some(body.without_annotations(alloc)?)),
            None => Ok(None),
        },
        SymSort::Static => Ok(None),
        SymSort::Theorem => Ok(None),
    }
}

/// The entry of an accepted command, as `entry_of` has it.
pub fn entry_of_stored(
    alloc: Global,
    version: &Version,
    command: &StoredCommand,
    inferred: Option<Stored>,
) -> Result<Entry<Stored>, TypeFault>
    ensures ok { IfOk result (λ e. stored_entry e
        ≡ entry_of (entries_of version.now) (stored_command command.now)
        (maybe_by stored_term inferred)) }
    ensures err { IfErr result
        (IsEntryFault (entries_of version.now) (stored_command command.now)) }
{
    match command {
        StoredCommand::Declare { sort, typ, body } => Ok(Entry::Symbol {
            sort: *sort,
            typ: entry_type(alloc, typ, inferred)?,
            body: entry_body(alloc, *sort, body)?,
        }),
        StoredCommand::Rules(rules) => Ok(Entry::Rules(entry_rules(alloc, version, rules)?)),
        StoredCommand::Query { .. } => Ok(Entry::Rules(Listed::new(alloc))),
    }
}
