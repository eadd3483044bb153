//! What a worker does with its pass.
ghost use Rattle.std.specs.Prelude.{◌≡◌, ◌⊎◌};
ghost use Rattle.dk_model.specs.declared.code.Verdict.TheVariants.{Memory};
ghost use Rattle.task_board.specs.Passes.{IsIdle, IsOver};

use crate::bell::Bell;
use crate::patience::Patience;
use crate::threaded::ThreadedChecker;
use board_core::{Checker, Claimed, Gate};
use dk_model::Verdict;
use std::sync::Wait;
use std::thread::Threads;
use task_board::{Board, WorkerPass};

/// Claims, checks and answers until nothing can be claimed and the board is sealed or stopped. While
/// nothing can be claimed yet it rests and asks again.
pub fn work<R: Wait, C: Checker, G: Gate>(
    rt: &R,
    board: &Board<C::Job>,
    mut pass: WorkerPass<C::Job>,
    checker: &C,
    gate: &G,
) -> WorkerPass<C::Job>
where
    C::Job: Drop,
    C::Kit: Drop,
    requires own { pass.seat.table_id ≡ board.now }
    requires idle { IsIdle pass.seat.me.0 }
    ensures own { result.seat.table_id ≡ board.now }
    ensures number { result.number ≡ pass.number }
    ensures idle { IsIdle result.seat.me.0 }
    ensures over { IsOver result.seat.me.0 }
{
    let bell = Bell::new(1);
    let mut kit = checker.kit();
    let mut patience = Patience::of(pass.number, &bell);
    for _ in rt.forever() {
        match board.claim(rt, &mut pass) {
            Claimed::Over => return pass,
            Claimed::Empty => patience.rest(rt, &bell),
            Claimed::Task(task) => {
                let verdict = gated(checker, gate, &mut kit, task.number, &*task.job);
                board.answer(rt, &mut pass, task, verdict);
                patience = Patience::of(pass.number, &bell);
            }
        }
    }
    unreachable!()
}

/// The same of a checker that may start threads; the bell ends each rest.
pub fn work_until_rung<R: Threads + Wait + Sync, C: ThreadedChecker, G: Gate + Sync>(
    rt: &R,
    board: &Board<C::Job>,
    mut pass: WorkerPass<C::Job>,
    checker: &C,
    gate: &G,
    bell: &Bell,
) -> WorkerPass<C::Job>
where
    C::Job: Drop,
    C::Kit: Drop,
    requires own { pass.seat.table_id ≡ board.now }
    requires idle { IsIdle pass.seat.me.0 }
    ensures own { result.seat.table_id ≡ board.now }
    ensures number { result.number ≡ pass.number }
    ensures idle { IsIdle result.seat.me.0 }
    ensures over { IsOver result.seat.me.0 }
{
    let mut kit = checker.kit();
    let mut patience = Patience::of(pass.number, bell);
    for _ in rt.forever() {
        match board.claim(rt, &mut pass) {
            Claimed::Over => return pass,
            Claimed::Empty => patience.rest(rt, bell),
            Claimed::Task(task) => {
                gate.enter(task.number);
                let verdict = checker.check(rt, &mut kit, &*task.job);
                gate.leave(task.number);
                board.answer(rt, &mut pass, task, verdict);
                patience = Patience::of(pass.number, bell);
            }
        }
    }
    unreachable!()
}

/// The verdict of the job, between the two calls of the gate.
fn gated<C: Checker, G: Gate>(
    checker: &C,
    gate: &G,
    kit: &mut C::Kit,
    number: u32,
    job: &C::Job,
) -> Verdict
    ensures { (result ≡ C.Job.due job.now) ⊎ (result ≡ Memory) }
{
    gate.enter(number);
    let verdict = checker.check(kit, job);
    gate.leave(number);
    verdict
}
