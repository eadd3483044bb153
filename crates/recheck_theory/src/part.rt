//! One part of a certificate, at the front of what is left of it.
ghost use Rattle.std.specs.Prelude.{◌≡◌, ◌<◌, ◌++◌, ◌∷◌, [], length, position, None, Err, IfOk, IfSome};
ghost use Rattle.dk_model.specs.Scoping.{plain_command};
ghost use Rattle.dk_model.specs.Signatures.{maybe_by, maybe_tree};
ghost use Rattle.dk_model.specs.Verdicts.{entry_of};
ghost use Rattle.shared_term.specs.Storage.{stored_term};
ghost use Rattle.signature_log.specs.Versions.{entries_of};
ghost use Rattle.certificate_lines.specs.declared.line.Line.{Line};
ghost use Rattle.certificate_items.specs.Reading.{is_newline, HasNoLine};
ghost use Rattle.certificate_items.specs.Texts.{BeginsWith};
ghost use Rattle.recheck_theory.specs.Parts.{BeginsWithout, HasNoPart, HasPart, HasShapes};

use certificate_items::take_items;
use certificate_lines::{Line, read_line};
use command_check::entry_of;
use dk_model::{NoMemory, Scoped, Term, TypeFault};
use recheck::{Wrong, recheck_items};
use shared_term::Stored;
use signature_log::Version;
use std::alloc::Global;
use std::sync::Arc;

fn newline(bytes: &[u8]) -> Option<usize>
    ensures value { result ≡ position is_newline bytes.now }
    ensures within { IfSome result (λ at. at < length bytes.now) }
{
    bytes.iter().position(|byte| *byte == b'\n')
}

/// The line at the front of the bytes, and what stands behind its LF.
#[tactic(auto, using(certificate_items::proofs::Cutting::no_line, certificate_items::proofs::Cutting::no_newline))]
fn take_line(bytes: &[u8]) -> Option<(Line, &[u8])>
    ensures some { IfSome result (λ p. BeginsWith (p.0 ∷ []) bytes.now p.1.now) }
    ensures none { result ≡ None → HasNoLine bytes.now }
{
    let end = newline(bytes)?;
    let line = read_line(&bytes[..end])?;
    Some((line, &bytes[end + 1..]))
}

/// What stands behind the first line of a certificate, where the bytes begin with it.
pub fn behind_first(bytes: &[u8]) -> Option<&[u8]>
    ensures some { IfSome result (λ rest. BeginsWith (Line.First ∷ []) bytes.now rest.now) }
    ensures none { result ≡ None → BeginsWithout Line.First bytes.now }
{
    let (line, rest) = take_line(bytes)?;
    match line {
        Line::First => Some(rest),
        _ => None,
    }
}

/// What stands behind the first line of the part of this command, where the bytes begin with it.
fn behind_number(number: u64, bytes: &[u8]) -> Option<&[u8]>
    ensures some { IfSome result (λ rest. BeginsWith (Line.Part number ∷ []) bytes.now rest.now) }
    ensures none { result ≡ None → BeginsWithout (Line.Part number) bytes.now }
{
    let (line, rest) = take_line(bytes)?;
    match line {
        Line::Part(found) => if found == number { Some(rest) } else { None },
        _ => None,
    }
}

/// The part of the command of this number, at the front of the bytes: the type that its items give
/// to a definition without a declared one, and what stands behind it.
#[tactic(auto, using(crate::proofs::Shaped::checked_shapes))]
pub fn take_part<'b>(
    alloc: Global,
    version: &Version,
    command: &Scoped,
    number: u64,
    bytes: &'b [u8],
) -> Result<(Option<Term>, &'b [u8]), Wrong>
    ensures ok { IfOk result (λ p. HasPart (entries_of version.now) number
        (plain_command command.now) bytes.now (maybe_tree p.0) p.1.now) }
    ensures shapes { IfOk result (λ _. HasShapes (entries_of version.now)
        (plain_command command.now)) }
    ensures rejected { result ≡ Err Wrong.Rejected → HasNoPart (entries_of version.now) number
        (plain_command command.now) bytes.now }
{
    let Some(begun) = behind_number(number, bytes) else {
        return Err(Wrong::Rejected);
    };
    let (items, behind) = take_items(alloc, begun)?;
    let typ = recheck_items(alloc, version, command, items.as_slice())?;
    Ok((typ, behind))
}

fn stored(alloc: Global, typ: &Option<Term>) -> Result<Option<Stored>, NoMemory>
    ensures { IfOk result (λ s. maybe_by stored_term s ≡ maybe_tree typ.now) }
{
    match typ {
        Some(typ) => Ok(Some(Stored::from_term(alloc, typ)?)),
        None => Ok(None),
    }
}

/// The version with the entry of a command, whose definition without a declared type has this one.
/// Rules have their shapes, so that no entry is refused.
#[tactic(auto, using(crate::proofs::Shaped::entry_fault))]
pub fn with_entry(
    alloc: Global,
    version: &Version,
    command: &Scoped,
    typ: &Option<Term>,
) -> Result<Version, NoMemory>
    requires shapes { HasShapes (entries_of version.now) (plain_command command.now) }
    ensures { IfOk result (λ v. entries_of v ≡ entries_of version.now
        ++ entry_of (entries_of version.now) (plain_command command.now)
        (maybe_tree typ.now) ∷ []) }
{
    let entry = match entry_of(alloc, version, command, stored(alloc, typ)?) {
        Ok(entry) => entry,
        Err(TypeFault::NoMemory) => return Err(NoMemory),
        Err(TypeFault::Refused(_)) => unreachable!(),
        Err(TypeFault::Ended) => unreachable!(),
    };
    match version.append(Arc::new(alloc, entry)?) {
        Ok(version) => Ok(version),
        Err(_) => Err(NoMemory),
    }
}
