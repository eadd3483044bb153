//! A command with its names as numbers, whose rules have their shapes.
ghost use Rattle.std.specs.Prelude.{◌≡◌, true, OnOk, OnErr, IfOk, IfErr};
ghost use Rattle.dk_model.specs.PlainEntries.{PlainSignature};
ghost use Rattle.dk_model.specs.Scoping.{plain_command};
ghost use Rattle.dk_parser.specs.RawViews.{written_form};
ghost use Rattle.scope_terms.specs.Names.{reading};
ghost use Rattle.scope_terms.specs.Reading.{after_command};
ghost use Rattle.signature_log.specs.Versions.{entries_of};
ghost use Rattle.edit_session.specs.Shaping.{IsEntryFor, IsNotShaped, IsShapedAs, IsUnshaped, ShapesAll};

use crate::Judge;
use command_kinds::is_untyped;
use dk_model::{Entry, Fault, NoMemory, Scoped, TypeFault};
use dk_parser::Raw;
use scope_terms::Names;
use shared_term::Stored;
use signature_log::Version;
use std::alloc::Global;

/// A command that is scoped and has its shapes.
#[derive(Drop)]
pub struct Shaped {
    pub command: Scoped,
    /// The entry that it adds, if that doesn't wait for a type.
    pub entry: Option<Entry<Stored>>,
}

// Whether the entry has a rule for each of the command. Where one hasn't its shape, no rule would be kept.
fn has_all(command: &Scoped, entry: &Entry<Stored>) -> bool
    ensures { result ≡ true → ShapesAll (plain_command command.now) entry.now }
{
    match (command, entry) {
        (Scoped::Rules(rules), Entry::Rules(kept)) => rules.len() == kept.len(),
        (Scoped::Rules(_), _) => false,
        _ => true,
    }
}

// The entry of a command, where its rules have their shapes and no type is to be inferred first.
fn entry_now<J: Judge>(
    judge: &mut J,
    version: &Version,
    command: &Scoped,
) -> Result<Option<Entry<Stored>>, Fault>
    ensures ok { IfOk result (IsEntryFor (entries_of version.now) (plain_command command.now)) }
    ensures err { IfErr result (IsUnshaped (entries_of version.now) (plain_command command.now)) }
{
    if is_untyped(command) {
        return Ok(None);
    }
    match judge.entry_of(version, command, None) {
        Ok(entry) if has_all(command, &entry) => Ok(Some(entry)),
        Ok(entry) => {
            drop(entry);
            Err(Fault::NoMemory)
        }
        Err(TypeFault::Refused(code)) => Err(Fault::Refused(code)),
        Err(TypeFault::Ended | TypeFault::NoMemory) => Err(Fault::NoMemory),
    }
}

// The two in a block, so that whoever lets them go lets a pointer go.
fn in_block(
    alloc: Global,
    command: Scoped,
    entry: Option<Entry<Stored>>,
) -> Result<Box<Shaped>, NoMemory>
    ensures command { IfOk result (λ shaped. shaped.value.command ≡ command) }
    ensures entry { IfOk result (λ shaped. shaped.value.entry ≡ entry) }
{
    Ok(Box::new(alloc, Shaped { command, entry })?)
}

/// The command with its names as numbers, where its rules have their shapes; else the first code.
pub fn shape<J: Judge>(
    alloc: Global,
    judge: &mut J,
    names: &mut Names,
    version: &Version,
    raw: &Raw,
) -> Result<Box<Shaped>, Fault>
    ensures ok { IfOk result (λ shaped. IsShapedAs (reading names.old) (entries_of version.now)
        (written_form raw.now.form) shaped.value) }
    ensures names { OnOk result
        (reading names.new ≡ after_command (reading names.old) (written_form raw.now.form)) }
    ensures err { IfErr result (IsNotShaped (reading names.old) (entries_of version.now)
        (written_form raw.now.form)) }
{
    if names.count() == u32::MAX {
        return Err(Fault::NoMemory);
    }
    let command = names.scope(alloc, raw)?;
    match entry_now(judge, version, &command) {
        Ok(entry) => Ok(in_block(alloc, command, entry)?),
        Err(fault) => {
            drop(command);
            Err(fault)
        }
    }
}
