//! One command: its items, its entry, and its part of the certificate.
ghost use Rattle.std.specs.Prelude.{◌∷◌, IfErr, IfOk, OnOk};
ghost use Rattle.dk_io.specs.Causes.{HasCause};
ghost use Rattle.dk_io.specs.Gathered.{Gathers};
ghost use Rattle.dk_model.specs.Scoping.{plain_command};
ghost use Rattle.dk_model.specs.Verdicts.{verdict_of};
ghost use Rattle.signature_log.specs.Versions.{entries_of};
ghost use Rattle.certificate_lines.specs.declared.line.Line.{Line};
ghost use Rattle.certificate_items.specs.Texts.{lines_of, lines_text, AreShort};
ghost use Rattle.certificate_items.specs.Views.{plain_items};
ghost use Rattle.told_items.specs.Faults.{IsFaultOf};
ghost use Rattle.certify_theory.specs.Putting.{IsNext};

use certificate_items::Item;
use certificate_lines::Line;
use certificate_text::{put_items, put_line};
use dk_io::{Buffer, Failed, Sink};
use dk_model::{Listed, Scoped, TypeFault};
use recheck_theory::with_entry;
use signature_log::Version;
use told_items::{Certified, certify_command};
use told_steps::Tells;

/// The items of a command, and the version with its entry.
#[tactic(auto, using(recheck_theory::proofs::Shaped::checked_shapes))]
pub fn certify_next<T: Tells>(
    evaluation: &mut T,
    budget: u64,
    version: &Version,
    command: &Scoped,
) -> Result<(Listed<Item>, Version), TypeFault>
    ensures next { IfOk result (λ p. IsNext budget (entries_of version.now)
        (plain_command command.now) (plain_items p.0) (entries_of p.1)) }
    ensures fault { IfErr result (λ fault. IsFaultOf
        (verdict_of (entries_of version.now) (plain_command command.now) budget) fault) }
{
    let Certified { items, typ } = certify_command(evaluation, budget, version, command)?;
    let version = with_entry(evaluation.alloc(), version, command, &typ)?;
    Ok((items, version))
}

/// Puts the part of the command of this number.
pub fn put_part<K: Sink>(
    buffer: &mut Buffer,
    sink: &mut K,
    number: u64,
    items: &[Item],
) -> Result<(), Failed>
    ensures put { Gathers (K.taken sink.old) buffer.old (K.taken sink.new) buffer.new
        (lines_text (Line.Part number ∷ lines_of (plain_items items.now))) result }
    ensures short { OnOk result (AreShort (Line.Part number ∷ lines_of (plain_items items.now))) }
    ensures cause { HasCause (K.faults sink.old) (K.faults sink.new) result }
{
    match put_line(buffer, sink, &Line::Part(number)) {
        Ok(()) => put_items(buffer, sink, items),
        Err(failed) => Err(failed),
    }
}
