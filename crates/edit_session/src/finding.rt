//! What a command comes to, by the one who checks it.
ghost use Rattle.std.specs.Prelude.{◌≡◌, None, IfOk};
ghost use Rattle.dk_model.specs.Scoping.{plain_command};
ghost use Rattle.signature_log.specs.Versions.{entries_of};
ghost use Rattle.edit_session.specs.Answers.{answer_on};
ghost use Rattle.dk_model.specs.Signatures.{maybe_by};
ghost use Rattle.std.specs.Option.{option_map};
ghost use Rattle.shared_term.specs.Finding.{plain_found};
ghost use Rattle.shared_term.specs.Storage.{stored_term};
ghost use Rattle.edit_session.specs.Held.{plain_answer};

use crate::Judge;
use crate::both::both;
use command_kinds::{is_answered, is_untyped};
use dk_model::{NoMemory, Scoped, Verdict};
use shared_term::{Found, Stored};
use signature_log::Version;
use std::alloc::Global;

/// The verdict on a command; the type of a definition without one; what a query found that only asks.
#[derive(Drop)]
pub struct Findings {
    pub verdict: Verdict,
    pub typ: Option<Stored>,
    pub found: Option<Found>,
}

impl Findings {
    /// The same in memory of their own.
    pub fn copy(&self, alloc: Global) -> Result<Findings, NoMemory>
        ensures { IfOk result (λ f. plain_answer f ≡ plain_answer self.now) }
    {
        let (typ, found) = both(copy_type(alloc, &self.typ), copy_found(alloc, &self.found))?;
        Ok(Findings {
            verdict: self.verdict,
            typ,
            found,
        })
    }
}

fn copy_type(alloc: Global, typ: &Option<Stored>) -> Result<Option<Stored>, NoMemory>
    ensures { IfOk result (λ t. maybe_by stored_term t ≡ maybe_by stored_term typ.now) }
{
    match typ {
        Some(typ) => Ok(Some(typ.copy(alloc)?)),
        None => Ok(None),
    }
}

fn copy_found(alloc: Global, found: &Option<Found>) -> Result<Option<Found>, NoMemory>
    ensures { IfOk result (λ f. option_map plain_found f ≡ option_map plain_found found.now) }
{
    match found {
        None => Ok(None),
        Some(Found::Yes) => Ok(Some(Found::Yes)),
        Some(Found::No) => Ok(Some(Found::No)),
        Some(Found::Of(typ)) => Ok(Some(Found::Of(typ.copy(alloc)?))),
        Some(Found::Value(value)) => Ok(Some(Found::Value(value.copy(alloc)?))),
    }
}

// A verdict alone; want of memory is none.
fn verdict_alone(verdict: Verdict) -> Result<Findings, NoMemory>
    ensures { IfOk result (λ f. (f ≡ record { verdict = verdict; typ = None; found = None })
        × ¬ (verdict ≡ Verdict.Memory)) }
{
    match verdict {
        Verdict::Memory => Err(NoMemory),
        verdict => Ok(Findings {
            verdict,
            typ: None,
            found: None,
        }),
    }
}

/// Checks a command over the version of those before it.
#[tactic(auto, using(crate::proofs::Answered::query_found_is, crate::proofs::Answered::type_found_is, crate::proofs::Answered::refused_alone, crate::proofs::Answered::checked_alone))]
pub fn find<J: Judge>(
    judge: &mut J,
    version: &Version,
    command: &Scoped,
    budget: u64,
) -> Result<Findings, NoMemory>
    ensures { IfOk result (λ f. plain_answer f
        ≡ answer_on (entries_of version.now) (plain_command command.now) budget) }
{
    if is_answered(command) {
        return match judge.query(version, command, budget) {
            Ok(found) => Ok(Findings {
                verdict: Verdict::Accepted,
                typ: None,
                found: Some(found),
            }),
            Err(verdict) => verdict_alone(verdict),
        };
    }
    if is_untyped(command) {
        return match judge.infer_type(version, command, budget) {
            Ok(typ) => Ok(Findings {
                verdict: Verdict::Accepted,
                typ: Some(typ),
                found: None,
            }),
            Err(verdict) => verdict_alone(verdict),
        };
    }
    verdict_alone(judge.check_command(version, command, budget))
}
