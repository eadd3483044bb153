//! The steps that are left, done by threads.
ghost use Rattle.std.specs.Prelude.{◌≡◌, ◌≤◌, ◌+◌, ◌++◌, IfOk, List, length};
ghost use denote.Param.Send.{IsSend, IsSync};
ghost use Rattle.split_parts.specs.declared.part.PartResult.{PartResult};
ghost use Rattle.dk_model.specs.Typing.{checked};
ghost use Rattle.shared_term.specs.Storage.{stored_term};
ghost use Rattle.infer_check.specs.Given.{GivesFit};
ghost use Rattle.infer_check.specs.Walks.{Follows};
ghost use Rattle.signature_log.specs.Versions.{entries_of};
ghost use Rattle.split_check.specs.Due.{AreDue, IsDue};
ghost use Rattle.split_check.specs.Steps.{sent_bound_types, sent_rule_types, step_due, steps_due};

use crate::context::brought_context;
use crate::crew::Crew;
use crate::forks::Forks;
use crate::step::{Part, Step, fit_result};
use board_core::Gate;
use core::thread::Stack;
use dk_model::{NoMemory, TypeFault};
use infer_check::{Walk, check};
use signature_log::{Reducer, Version};
use split_parts::PartResult;
use std::sync::Wait;
use std::thread;
use std::thread::{Promise, Threads};

/// What the check of a part comes to.
fn judge_part<R: Reducer>(
    r: &mut R,
    version: &Version,
    part: &Part,
    left: &mut u64,
) -> Result<(), TypeFault>
    requires { R.serves (entries_of version.now) r.old }
    ensures gives { GivesFit (checked (entries_of version.now) (sent_rule_types part.now.context)
        (sent_bound_types part.now.context) (stored_term part.now.argument)
        (stored_term part.now.domain) left.old) result left.new }
    ensures follows { Follows R.owns R.denotes R.serves (entries_of version.now) r.old r.new }
    ensures spent { left.new ≤ left.old }
{
    let context = brought_context(r, &part.context)?;
    let term = r.bring(&part.argument)?;
    let domain = r.bring(&part.domain)?;
    let mut walk = Walk {
        context,
        left: *left,
    };
    let fits = check(r, version, &mut walk, &term, &domain);
    *left = walk.left;
    fits
}

/// What a step comes to.
fn judge_step<R: Reducer, W, G: Gate>(
    crew: &Crew<W, G>,
    r: &mut R,
    step: &Step,
    whole: u64,
) -> PartResult
    requires { R.serves (entries_of crew.now.version.now) r.old }
    ensures due { IsDue (step_due (entries_of crew.now.version.now) whole step.now) result }
    ensures follows { Follows R.owns R.denotes R.serves (entries_of crew.now.version.now)
        r.old r.new }
{
    match step {
        Step::Done(result) => *result,
        Step::Check(part) => {
            crew.gate.enter_part(crew.number, part.place);
            let mut left = whole;
            let fits = judge_part(r, crew.version, part, &mut left);
            crew.gate.leave_part(crew.number, part.place);
            fit_result(fits, whole, left)
        }
    }
}

/// What the steps come to, one after the other.
#[tactic(auto, using(crate::proofs::Judged::due_further, signature_log::proofs::Keeping::keeps_none, signature_log::proofs::Keeping::keeps_further, infer_check::proofs::Walks::follows))]
pub(crate) fn judge_here<R: Reducer, W, G: Gate>(
    crew: &Crew<W, G>,
    r: &mut R,
    steps: &[Step],
    whole: u64,
) -> Result<Vec<PartResult>, NoMemory>
    requires { R.serves (entries_of crew.now.version.now) r.old }
    ensures due { IfOk result (λ v. AreDue
        (steps_due (entries_of crew.now.version.now) whole steps.now) v.items) }
    ensures follows { Follows R.owns R.denotes R.serves (entries_of crew.now.version.now)
        r.old r.new }
{
    let mut results = Vec::new(r.alloc());
    let mut rest = steps;
    while let Some((step, others)) = rest.split_first() {
        results.push(judge_step(crew, r, step, whole))?;
        rest = others;
    }
    Ok(results)
}

/// How many steps are left.
pub(crate) fn left_over(steps: &[Step]) -> usize {
    let mut count: usize = 0;
    for step in steps {
        if let Step::Check(_) = step {
            count = count.saturating_add(1);
        }
    }
    count
}

/// Where the steps are cut, so that about half of those that are left lie on each side.
fn middle(steps: &[Step]) -> usize
    requires { 2 ≤ length steps.now }
    ensures front { 1 ≤ result }
    ensures back { result + 1 ≤ length steps.now }
{
    let half = left_over(steps) / 2;
    let mut seen: usize = 0;
    for place in 1..steps.len() {
        if let Step::Check(_) = &steps[place - 1] {
            seen = seen.saturating_add(1);
        }
        if seen >= half {
            return place;
        }
    }
    steps.len() / 2
}

/// The steps that another thread does.
struct StepsOf<'a> {
    version: &'a Version,
    steps: &'a [Step],
    whole: u64,
}

impl<'a> Drop for StepsOf<'a> {
    fn drop(self) {
        let StepsOf {
            version: _,
            steps: _,
            whole: _,
        } = self;
    }
}

impl<'a> Promise<Result<Vec<PartResult>, NoMemory>> for StepsOf<'a> {
    ghost use Rattle.std.specs.Prelude.{IfOk};
    ghost use Rattle.signature_log.specs.Versions.{entries_of};
    ghost use Rattle.split_check.specs.Due.{AreDue};
    ghost use Rattle.split_check.specs.Steps.{steps_due};

    ghost kept_by = { λ p r. IfOk r (λ v. AreDue
        (steps_due (entries_of p.version.now) p.whole p.steps.now) v.items) };
}

/// What the steps come to, in their order. Where there is a thread to spare the second half of those that are left is its.
#[cycle(judging)]
pub(crate) fn judge_steps<R: Forks + Drop + Send, W: Threads + Wait + Sync, G: Gate + Sync>(
    crew: &Crew<W, G>,
    mut reducer: R,
    steps: &[Step],
    whole: u64,
) -> (R, Result<Vec<PartResult>, NoMemory>)
where
    R::T: Send,
    requires { R.serves (entries_of crew.now.version.now) reducer }
    ensures due { IfOk result.1 (λ v. AreDue
        (steps_due (entries_of crew.now.version.now) whole steps.now) v.items) }
    ensures serves { R.serves (entries_of crew.now.version.now) result.0 }
{
    // A list of one step has no halves, so that each half is shorter.
    if steps.len() < 2 || left_over(steps) < 2 {
        let results = judge_here(crew, &mut reducer, steps, whole);
        return (reducer, results);
    }
    let (front, back) = steps.split_at(middle(steps));
    let (reducer, first, second) = judge_halves(crew, reducer, Halves { front, back }, whole);
    (reducer, both(first, second))
}

/// The two halves of some steps.
#[derive(Drop)]
struct Halves<'a> {
    front: &'a [Step],
    back: &'a [Step],
}

/// What the steps of each half come to.
#[cycle(judging)]
fn judge_halves<R: Forks + Drop + Send, W: Threads + Wait + Sync, G: Gate + Sync>(
    crew: &Crew<W, G>,
    reducer: R,
    halves: Halves<'_>,
    whole: u64,
) -> (
    R,
    Result<Vec<PartResult>, NoMemory>,
    Result<Vec<PartResult>, NoMemory>,
)
where
    R::T: Send,
    requires { R.serves (entries_of crew.now.version.now) reducer }
    ensures first { IfOk result.1 (λ v. AreDue
        (steps_due (entries_of crew.now.version.now) whole halves.entry.front.now) v.items) }
    ensures second { IfOk result.2 (λ v. AreDue
        (steps_due (entries_of crew.now.version.now) whole halves.entry.back.now) v.items) }
    ensures serves { R.serves (entries_of crew.now.version.now) result.0 }
{
    let Halves { front, back } = halves;
    if crew.spare.take() {
        match reducer.fresh() {
            Ok(other) => judge_beside(crew, (reducer, other), Halves { front, back }, whole),
            Err(_) => {
                crew.spare.give_back();
                (reducer, Err(NoMemory), Err(NoMemory))
            }
        }
    } else {
        let (reducer, first) = judge_steps(crew, reducer, front, whole);
        let (reducer, second) = judge_steps(crew, reducer, back, whole);
        (reducer, first, second)
    }
}

/// The same, the second half in a thread of its own, which was taken. Where none can be started it is done here.
#[cycle(judging)]
fn judge_beside<R: Forks + Drop + Send, W: Threads + Wait + Sync, G: Gate + Sync>(
    crew: &Crew<W, G>,
    reducers: (R, R),
    halves: Halves<'_>,
    whole: u64,
) -> (
    R,
    Result<Vec<PartResult>, NoMemory>,
    Result<Vec<PartResult>, NoMemory>,
)
where
    R::T: Send,
    requires here { R.serves (entries_of crew.now.version.now) reducers.0 }
    requires there { R.serves (entries_of crew.now.version.now) reducers.1 }
    ensures first { IfOk result.1 (λ v. AreDue
        (steps_due (entries_of crew.now.version.now) whole halves.entry.front.now) v.items) }
    ensures second { IfOk result.2 (λ v. AreDue
        (steps_due (entries_of crew.now.version.now) whole halves.entry.back.now) v.items) }
    ensures serves { R.serves (entries_of crew.now.version.now) result.0 }
{
    let Halves { front, back } = halves;
    let (here, there) = reducers;
    thread::scope(
        thread::scope_env(),
        crew.rt,
        move |scope| -> (
            R,
            Result<Vec<PartResult>, NoMemory>,
            Result<Vec<PartResult>, NoMemory>,
        )
            requires { IsSend R.row × IsSync W.row × IsSync G.row
                × R.serves (entries_of crew.now.version.now) here
                × R.serves (entries_of crew.now.version.now) there }
            ensures { IfOk result.1 (λ v. AreDue
                (steps_due (entries_of crew.entry.now.version.now) whole front.entry.now) v.items)
                × IfOk result.2 (λ v. AreDue
                (steps_due (entries_of crew.entry.now.version.now) whole back.entry.now) v.items)
                × R.serves (entries_of crew.entry.now.version.now) result.0 }
        {
            let promise = StepsOf {
                version: crew.version,
                steps: back,
                whole,
            };
            match Stack::new().stack_size(crew.stack).spawn_scoped_with(
                scope,
                promise,
                move || -> Result<Vec<PartResult>, NoMemory>
                    requires { IsSend R.row × IsSync W.row × IsSync G.row
                        × R.serves (entries_of crew.now.version.now) there }
                    ensures { IfOk result (λ v. AreDue
                        (steps_due (entries_of crew.entry.now.version.now) whole back.entry.now)
                        v.items) }
                {
                    let (_there, results) = judge_steps(crew, there, back, whole);
                    crew.spare.give_back();
                    results
                },
            ) {
                Ok(child) => {
                    let (here, first) = judge_steps(crew, here, front, whole);
                    (here, first, child.join(crew.rt))
                }
                Err(refused) => {
                    let (here, first) = judge_steps(crew, here, front, whole);
                    (here, first, (refused.value)())
                }
            }
        },
    )
}

/// The results of two halves.
#[tactic(auto, using(crate::proofs::Dues::due_both))]
fn both(
    first: Result<Vec<PartResult>, NoMemory>,
    second: Result<Vec<PartResult>, NoMemory>,
) -> Result<Vec<PartResult>, NoMemory>
    ensures { (ds es : List PartResult) → IfOk first (λ v. AreDue ds v.items)
        → IfOk second (λ v. AreDue es v.items) → IfOk result (λ v. AreDue (ds ++ es) v.items) }
{
    let mut all = first?;
    let more = second?;
    all.extend_from_slice(more.as_slice())?;
    Ok(all)
}
