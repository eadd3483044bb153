//! The verdict on a command whose body is split.
ghost use Rattle.std.specs.Prelude.{◌≡◌, ℕ, IfOk, List, Some};
ghost use Rattle.dk_model.specs.Answering.{IsVerdictOrMemory};
ghost use Rattle.dk_model.specs.Typing.{Judged};
ghost use Rattle.dk_model.specs.Verdicts.{declaration_checked, verdict, verdict_of};
ghost use Rattle.dk_model.specs.WellFormed.{IsSignature};
ghost use Rattle.dk_model.specs.declared.code.Verdict.TheVariants.{Accepted};
ghost use Rattle.shared_term.specs.Storage.{stored_term};
ghost use Rattle.signature_log.specs.Reducers.{Keeps};
ghost use Rattle.signature_log.specs.Versions.{entries_of};
ghost use Rattle.typing_model.specs.Derivations.{HasDerivation};
ghost use Rattle.infer_check.specs.Walks.{Follows};
ghost use Rattle.command_check.specs.Commands.{stored_command};
ghost use Rattle.split_parts.specs.Parts.{combined, part};
ghost use Rattle.split_parts.specs.declared.part.PartResult.{PartResult};
ghost use Rattle.split_check.specs.Due.{AreDue, IsDue};
ghost use Rattle.split_check.specs.Steps.{steps_due};

use crate::crew::Crew;
use crate::forks::Forks;
use crate::judging::{judge_here, judge_steps, left_over};
use crate::laying::{Laying, lay_sort};
use crate::sizes::{MOST, size};
use crate::step::Step;
use crate::typing::{Sized, lay_check};
use board_core::Gate;
use command_check::check_stored;
use dk_model::{NoMemory, Verdict};
use infer_check::Walk;
use shared_term::{Stored, StoredCommand};
use signature_log::{Reducer, Version};
use split_parts::{PartOut, PartResult, combine};
use std::sync::Wait;
use std::thread::Threads;
use typing_model::laws::accepted_has_derivation;

/// A declared type and its body.
#[derive(Drop)]
struct Declared<'a> {
    typ: &'a Stored,
    body: &'a Stored,
}

/// The verdict on a command over the version of the commands before it, as `check_stored` of command_check gives it; the body
/// of a declaration with a type is split.
#[tactic(auto, using(command_check::proofs::Verdicts::derived))]
pub fn check_split<R: Forks + Drop + Send, W: Threads + Wait + Sync, G: Gate + Sync>(
    crew: &Crew<W, G>,
    reducer: &mut R,
    c: &StoredCommand,
    budget: u64,
) -> Verdict
where
    R::T: Send,
    requires { R.serves (entries_of crew.now.version.now) reducer.old }
    ensures due { IsVerdictOrMemory
        (verdict_of (entries_of crew.now.version.now) (stored_command c.now) budget) result }
    ensures derivation { result ≡ Accepted → IsSignature (entries_of crew.now.version.now)
        → HasDerivation (entries_of crew.now.version.now) (stored_command c.now) }
    ensures keeps { Keeps R.owns R.denotes reducer.old reducer.new }
    ensures serves { R.serves (entries_of crew.now.version.now) reducer.new }
{
    match c {
        StoredCommand::Declare { typ, body, .. } => match typ {
            Some(typ) => match body {
                Some(body) => {
                    accepted_has_derivation();
                    check_declared(crew, reducer, Declared { typ, body }, budget)
                }
                None => check_stored(reducer, crew.version, c, budget),
            },
            None => check_stored(reducer, crew.version, c, budget),
        },
        StoredCommand::Rules(_) => check_stored(reducer, crew.version, c, budget),
        StoredCommand::Query { .. } => check_stored(reducer, crew.version, c, budget),
    }
}

/// The verdict on a declared type and its body.
#[tactic(auto, using(signature_log::proofs::Keeping::keeps_further))]
fn check_declared<R: Forks + Drop + Send, W: Threads + Wait + Sync, G: Gate + Sync>(
    crew: &Crew<W, G>,
    reducer: &mut R,
    declared: Declared<'_>,
    budget: u64,
) -> Verdict
where
    R::T: Send,
    requires { R.serves (entries_of crew.now.version.now) reducer.old }
    ensures due { IsVerdictOrMemory (verdict (declaration_checked (entries_of crew.now.version.now)
        (Some (stored_term declared.entry.typ.now)) (Some (stored_term declared.entry.body.now))
        budget)) result }
    ensures keeps { Keeps R.owns R.denotes reducer.old reducer.new }
    ensures serves { R.serves (entries_of crew.now.version.now) reducer.new }
{
    let Ok(steps) = lay_declared(reducer, crew.version, crew.nodes, declared, budget) else {
        return Verdict::Memory;
    };
    if left_over(steps.as_slice()) < 2 {
        let results = judge_here(crew, reducer, steps.as_slice(), budget);
        return told_by(results, budget);
    }
    let Ok(other) = reducer.fresh() else {
        return Verdict::Memory;
    };
    let (_other, results) = judge_steps(crew, other, steps.as_slice(), budget);
    told_by(results, budget)
}

/// The verdict that is told by the results of the steps.
fn told_by(results: Result<Vec<PartResult>, NoMemory>, budget: u64) -> Verdict
    ensures { (due : Judged (Unit {0})) (dues : List PartResult)
        → combined dues budget ≡ part budget due → IfOk results (λ v. AreDue dues v.items)
        → IsVerdictOrMemory (verdict due) result }
{
    match results {
        Ok(results) => told(combine(results.as_slice(), budget)),
        Err(_) => Verdict::Memory,
    }
}

/// The verdict that is told by what all steps come to.
#[tactic(auto, using(crate::proofs::Commands::told_due))]
fn told(found: PartResult) -> Verdict
    ensures { (due : Judged (Unit {0})) (budget : ℕ) → IsDue (part budget due) found
        → IsVerdictOrMemory (verdict due) result }
{
    match found.out {
        PartOut::Fine => Verdict::Accepted,
        PartOut::Refused(code) => Verdict::Refused(code),
        PartOut::Ended => Verdict::Ended,
        PartOut::Memory => Verdict::Memory,
    }
}

/// The steps of a declared type and its body: that the type has a sort, and that the body fits it.
#[tactic(auto, using(signature_log::proofs::Keeping::keeps_none, signature_log::proofs::Keeping::keeps_further, infer_check::proofs::Walks::follows, infer_check::proofs::Walks::ready, infer_check::proofs::Contexts::context_empty))]
fn lay_declared<R: Reducer>(
    r: &mut R,
    version: &Version,
    nodes: u32,
    declared: Declared<'_>,
    budget: u64,
) -> Result<Vec<Step>, NoMemory>
    requires { R.serves (entries_of version.now) r.old }
    ensures steps { IfOk result (λ s.
        combined (steps_due (entries_of version.now) budget s.items) budget
        ≡ part budget (declaration_checked (entries_of version.now)
        (Some (stored_term declared.entry.typ.now)) (Some (stored_term declared.entry.body.now))
        budget)) }
    ensures follows { Follows R.owns R.denotes R.serves (entries_of version.now) r.old r.new }
{
    let alloc = r.alloc();
    let mut laying = Laying {
        walk: Walk::new(alloc, budget),
        steps: Vec::new(alloc),
        whole: budget,
        nodes: u64::from(nodes),
        apart: false,
    };
    let typ = r.bring(declared.typ)?;
    if !lay_sort(r, version, &mut laying, &typ)? {
        return Ok(laying.steps);
    }
    let expected = r.erase(&typ)?;
    let term = r.bring(declared.body)?;
    let nodes = size(r, &term, MOST)?;
    let sized = Sized { term, nodes };
    let _fits = lay_check(r, version, &mut laying, sized, expected)?;
    Ok(laying.steps)
}
