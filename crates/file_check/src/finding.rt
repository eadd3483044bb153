//! What the reader finds of a command itself, before it is put.
ghost use Rattle.std.specs.Prelude.{◌≡◌, true, IfOk, IfErr};
ghost use Rattle.dk_model.specs.Answering.{is_untyped};
ghost use Rattle.dk_model.specs.Signatures.{maybe_by};
ghost use Rattle.dk_model.specs.Verdicts.{inferred_type, verdict_of};
ghost use Rattle.shared_term.specs.Commands.{stored_command};
ghost use Rattle.shared_term.specs.Storage.{stored_term};
ghost use Rattle.signature_log.specs.Versions.{entries_of};
ghost use Rattle.file_check.specs.Findings.{Finds, is_early};
ghost use Rattle.file_check.specs.Jobs.{IsOtherVerdict};

use crate::job::Worker;
use command_kinds::{is_answered_stored, is_untyped_stored};
use dk_model::Verdict;
use shared_term::{Found, Stored, StoredCommand};
use signature_log::Version;

/// What the reader finds of a command itself: the next version needs the type of a definition without a declared one, and
/// the report shows what a query found.
#[derive(Drop)]
pub struct Findings {
    pub typ: Option<Stored>,
    pub found: Option<Found>,
}

/// Whether the reader checks the command itself.
pub fn is_early(command: &StoredCommand) -> bool
    ensures { result ≡ is_early (stored_command command.now) }
{
    is_untyped_stored(command) || is_answered_stored(command)
}

/// What the reader finds of a command itself, where that is accepted; else its verdict. Of other commands it finds nothing.
#[tactic(auto, using(crate::proofs::Preparing::finds_answer, crate::proofs::Preparing::finds_type, crate::proofs::Preparing::early_untyped))]
pub fn find(
    worker: &mut Worker,
    version: &Version,
    command: &StoredCommand,
    budget: u64,
) -> Result<Findings, Verdict>
    ensures ok { IfOk result
        (Finds (entries_of version.now) (stored_command command.now) budget) }
    ensures accepted { IfOk result (λ _. is_early (stored_command command.now) ≡ true →
        verdict_of (entries_of version.now) (stored_command command.now) budget
        ≡ Verdict.Accepted) }
    ensures err { IfErr result (IsOtherVerdict
        (verdict_of (entries_of version.now) (stored_command command.now) budget)) }
{
    if is_answered_stored(command) {
        let found = worker.query(version, command, budget)?;
        return Ok(Findings {
            typ: None,
            found: Some(found),
        });
    }
    let typ = inferred(worker, version, command, budget)?;
    Ok(Findings { typ, found: None })
}

// The type that is inferred for a definition without a declared one; else its verdict. Other commands have none.
#[tactic(auto, using(crate::proofs::Preparing::typed_infers_none))]
fn inferred(
    worker: &mut Worker,
    version: &Version,
    command: &StoredCommand,
    budget: u64,
) -> Result<Option<Stored>, Verdict>
    ensures ok { IfOk result (λ t. maybe_by stored_term t
        ≡ inferred_type (entries_of version.now) (stored_command command.now) budget) }
    ensures accepted { IfOk result (λ _. is_untyped (stored_command command.now) ≡ true →
        verdict_of (entries_of version.now) (stored_command command.now) budget
        ≡ Verdict.Accepted) }
    ensures err { IfErr result (IsOtherVerdict
        (verdict_of (entries_of version.now) (stored_command command.now) budget)) }
{
    if !is_untyped_stored(command) {
        return Ok(None);
    }
    match worker.infer(version, command, budget) {
        Ok(typ) => Ok(Some(typ)),
        Err(verdict) => Err(verdict),
    }
}
