//! All parts of a certificate, one after the other.
ghost use Rattle.std.specs.Prelude.{◌≡◌, [], IfOk, map};
ghost use Rattle.dk_model.specs.Scoping.{plain_command};
ghost use Rattle.recheck_theory.specs.Answers.{Answers, AnswersBehind};
ghost use Rattle.recheck_theory.specs.Views.{plain_answer};

use crate::answer::Answer;
use crate::part::{behind_first, take_part, with_entry};
use dk_model::{NoMemory, Scoped};
use recheck::Wrong;
use signature_log::Version;
use std::alloc::Global;

/// The parts of the commands, in order, and the end behind them.
fn recheck_parts(alloc: Global, commands: &[Scoped], bytes: &[u8]) -> Result<Answer, NoMemory>
    ensures { IfOk result (λ a.
        AnswersBehind [] 0 (map plain_command commands.now) bytes.now (plain_answer a)) }
{
    let mut version = Version::empty(alloc)?;
    let mut rest = bytes;
    for (done, command) in commands.iter().enumerate() {
        let number = done as u64 + 1;
        match take_part(alloc, &version, command, number, rest) {
            Ok((typ, behind)) => {
                version = with_entry(alloc, &version, command, &typ)?;
                rest = behind;
            }
            Err(Wrong::Rejected) => return Ok(Answer::Rejected(number)),
            Err(Wrong::NoMemory) => return Err(NoMemory),
        }
    }
    let count = commands.len() as u64;
    if rest == b"end\n".as_slice() {
        Ok(Answer::Rechecked(count))
    } else {
        Ok(Answer::Rejected(count + 1))
    }
}

/// Rechecks the commands of a theory, in order, each against its part of a certificate.
///
/// Want of memory says nothing of the certificate; it comes too where joins nest deeper than is
/// read (README).
pub fn recheck(alloc: Global, commands: &[Scoped], bytes: &[u8]) -> Result<Answer, NoMemory>
    ensures { IfOk result (λ a.
        Answers (map plain_command commands.now) bytes.now (plain_answer a)) }
{
    match behind_first(bytes) {
        Some(rest) => recheck_parts(alloc, commands, rest),
        None => Ok(Answer::Rejected(0)),
    }
}
