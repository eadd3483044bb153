//! All commands, one after the other.
ghost use Rattle.std.specs.Prelude.{◌∷◌, [], ◌++◌, IfErr, OnOk, map};
ghost use Rattle.dk_io.specs.Causes.{HasCause};
ghost use Rattle.dk_io.specs.Writing.{Wrote};
ghost use Rattle.dk_model.specs.Scoping.{plain_command};
ghost use Rattle.certificate_lines.specs.declared.line.Line.{Line};
ghost use Rattle.certificate_items.specs.Texts.{lines_text};
ghost use Rattle.certify_theory.specs.Ends.{EndsBy, RisesWhereFailed, TakesCertificate};
ghost use Rattle.certify_theory.specs.Putting.{PutAll, StopsBy};

use crate::fault::{CertifyFault, fault_at};
use crate::part::{certify_next, put_part};
use certificate_lines::Line;
use certificate_text::put_line;
use dk_io::{Buffer, Failed, Sink};
use dk_model::Scoped;
use signature_log::Version;
use told_steps::Tells;

/// Puts the first line and the parts of all commands, in order.
fn put_parts<T: Tells, K: Sink>(
    buffer: &mut Buffer,
    evaluation: &mut T,
    sink: &mut K,
    budget: u64,
    commands: &[Scoped],
) -> Result<(), CertifyFault>
    ensures ok { OnOk result (PutAll (map plain_command commands.now)
        (K.taken sink.old) buffer.old (K.taken sink.new) buffer.new) }
    ensures fault { IfErr result (λ fault. StopsBy budget (map plain_command commands.now)
        (K.taken sink.old) buffer.old (K.taken sink.new) buffer.new fault) }
    ensures cause { RisesWhereFailed (K.faults sink.old) (K.faults sink.new) result }
{
    match put_line(buffer, sink, &Line::First) {
        Ok(()) => {}
        Err(_) => return Err(CertifyFault::Failed),
    }
    let Ok(mut version) = Version::empty(evaluation.alloc()) else {
        return Err(CertifyFault::NoMemory(1));
    };
    for (done, command) in commands.iter().enumerate() {
        let number = done as u64 + 1;
        match certify_next(evaluation, budget, &version, command) {
            Ok((items, next)) => match put_part(buffer, sink, number, items.as_slice()) {
                Ok(()) => version = next,
                Err(_) => return Err(CertifyFault::Failed),
            },
            Err(fault) => return Err(fault_at(number, fault)),
        }
    }
    Ok(())
}

/// Puts the last line, and writes what waits.
fn put_last<K: Sink>(buffer: &mut Buffer, sink: &mut K) -> Result<(), Failed>
    ensures wrote { Wrote (K.taken sink.old) (K.taken sink.new)
        (buffer.old ++ lines_text (Line.Last ∷ [])) result }
    ensures cause { HasCause (K.faults sink.old) (K.faults sink.new) result }
{
    match put_line(buffer, sink, &Line::Last) {
        Ok(()) => buffer.flush(sink),
        Err(failed) => Err(failed),
    }
}

/// Checks the commands of a theory, in order, each with so many units, and writes their certificate.
///
/// The part of a command is put before the next one is looked at, so memory follows the largest command and the entries. After a
/// fault the sink has taken a front of a certificate of the first commands.
#[tactic(auto, using(crate::proofs::Ends::front_taken, crate::proofs::Ends::parts_taken, crate::proofs::Ends::parts_cut))]
pub fn certify<T: Tells, K: Sink>(
    evaluation: &mut T,
    sink: &mut K,
    budget: u64,
    commands: &[Scoped],
) -> Result<(), CertifyFault>
    ensures ok { OnOk result (TakesCertificate (map plain_command commands.now)
        (K.taken sink.old) (K.taken sink.new)) }
    ensures fault { IfErr result (λ fault. EndsBy budget (map plain_command commands.now)
        (K.taken sink.old) (K.taken sink.new) fault) }
    ensures cause { RisesWhereFailed (K.faults sink.old) (K.faults sink.new) result }
{
    let mut buffer = Buffer::new();
    match put_parts(&mut buffer, evaluation, sink, budget, commands) {
        Ok(()) => match put_last(&mut buffer, sink) {
            Ok(()) => Ok(()),
            Err(_) => Err(CertifyFault::Failed),
        },
        Err(CertifyFault::Failed) => Err(CertifyFault::Failed),
        Err(CertifyFault::NotAccepted(number)) => match buffer.flush(sink) {
            Ok(()) => Err(CertifyFault::NotAccepted(number)),
            Err(_) => Err(CertifyFault::Failed),
        },
        Err(CertifyFault::NoMemory(number)) => match buffer.flush(sink) {
            Ok(()) => Err(CertifyFault::NoMemory(number)),
            Err(_) => Err(CertifyFault::Failed),
        },
    }
}
