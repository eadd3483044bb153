//! Several workers beside the reader.
ghost use Rattle.std.specs.Prelude.{◌≡◌, ◌≤◌, [], All, OnOk, length, vec_capacity, vec_len};
ghost use denote.Param.Send.{IsSend, IsSync};
ghost use Rattle.task_board.specs.Passes.{IsIdle, IsOver};

use crate::bell::Bell;
use crate::room::with_room;
use crate::threaded::ThreadedChecker;
use crate::worker::work_until_rung;
use board_core::{Checkable, Gate};
use core::thread::Stack;
use dk_model::{Listed, NoMemory};
use std::alloc::Global;
use std::snapshot::Snapshot;
use std::sync::Wait;
use std::thread;
use std::thread::{Promise, Threads};
use task_board::{Board, WorkerPass};

/// What is read beside the workers. It is no closure, since no clause says what a closure that was handed over wrote
/// through a `&mut` that it holds: what was lent to it comes back in what it gives.
pub trait Reading {
    type Given;

    ghost can_read: { Self → Type 0 };

    ghost gives: { Self → Self.Given → Type 0 };

    /// Reads, and seals the board.
    fn read(self) -> Self::Given
        requires { can_read self }
        ensures { gives self result };
}

/// What a worker's thread gives back for the pass that it was given.
struct Returned<J: Checkable> {
    given: Snapshot<WorkerPass<J>>,
}

impl<J: Checkable> Drop for Returned<J> {
    fn drop(self) {
        let Returned { given: _ } = self;
    }
}

impl<J: Checkable> Promise<WorkerPass<J>> for Returned<J> {
    ghost use Rattle.std.specs.Prelude.{◌≡◌};
    ghost use Rattle.task_board.specs.Passes.{IsIdle, IsOver};

    ghost kept_by = { λ p r. (r.seat.table_id ≡ p.given.value.seat.table_id)
        × IsIdle r.seat.me.0 × IsOver r.seat.me.0 };
}

/// Starts a worker for each pass, with a stack of so many bytes, lets the reader read, works itself
/// with the passes whose threads had no room or couldn't be made, and gives all passes back with what
/// the reader gave. The reader has to seal the board, or no worker ends. Where there is no memory for
/// the workers' handles no thread is made.
pub fn run_crew<
    R: Threads + Wait + Sync,
    C: ThreadedChecker + Send + Sync,
    G: Gate + Sync,
    D: Reading<Given = T> + Drop,
    T,
>(
    rt: &R,
    alloc: Global,
    stack: usize,
    board: &Board<C::Job>,
    passes: Listed<WorkerPass<C::Job>>,
    checker: &C,
    gate: &G,
    reading: D,
) -> (T, Listed<WorkerPass<C::Job>>)
where
    C::Job: Drop + Send + Sync,
    C::Kit: Drop + Send,
    requires idle { All (λ p. (p.seat.table_id ≡ board.now) × IsIdle p.seat.me.0) passes }
    requires read { D.can_read reading }
    ensures read { D.gives reading result.0 }
    ensures count { length result.1 ≡ length passes }
    ensures over { All (λ p. (p.seat.table_id ≡ board.now)
        × IsIdle p.seat.me.0 × IsOver p.seat.me.0) result.1 }
{
    let bell = Bell::of_machine(rt);
    let bell = &bell;
    thread::scope(
        thread::scope_env(),
        rt,
        move |scope| -> (T, Listed<WorkerPass<C::Job>>)
            requires { IsSend C.row × IsSend C.Job.row × IsSend C.Kit.row
                × IsSync R.row × IsSync C.row × IsSync G.row × IsSync C.Job.row
                × All (λ p. (p.seat.table_id ≡ board.now) × IsIdle p.seat.me.0) passes
                × D.can_read reading }
            ensures { D.gives reading result.0 × (length result.1 ≡ length passes)
                × All (λ p. (p.seat.table_id ≡ board.entry.now)
                × IsIdle p.seat.me.0 × IsOver p.seat.me.0) result.1 }
        {
            let mut passes = passes.into_vec();
            let mut handles = Vec::new(alloc);
            let mut late = Vec::new(alloc);
            let Ok(()) = make_room(&mut handles, &mut late, passes.len()) else {
                let given = reading.read();
                let passes = work_off(rt, board, passes, checker, gate);
                return (given, Listed::from_vec(passes));
            };
            let spare = passes.len() - with_room(alloc, stack, passes.len());
            while passes.len() > spare {
                let Some(pass) = passes.pop() else {
                    unreachable!()
                };
                let given = Snapshot::of(&pass);
                match Stack::new().stack_size(stack).spawn_scoped_with(
                    scope,
                    Returned { given },
                    move || -> WorkerPass<C::Job>
                        requires { (pass.seat.table_id ≡ board.now) × IsIdle pass.seat.me.0 }
                        ensures { (result.seat.table_id ≡ pass.seat.table_id)
                            × IsIdle result.seat.me.0 × IsOver result.seat.me.0 }
                    { work_until_rung(rt, board, pass, checker, gate, bell) },
                ) {
                    Ok(child) => handles.push_reserved(child),
                    Err(refused) => late.push_reserved(refused.value),
                }
            }
            let given = reading.read();
            bell.ring();
            let mut passes = work_off(rt, board, passes, checker, gate);
            while let Some(worker) = late.pop() {
                passes.push_reserved(worker());
            }
            while let Some(child) = handles.pop() {
                passes.push_reserved(child.join(rt));
            }
            let _kept = board;
            (given, Listed::from_vec(passes))
        },
    )
}

/// Makes room for so many handles and so many workers that weren't started.
fn make_room<H, L>(handles: &mut Vec<H>, late: &mut Vec<L>, count: usize) -> Result<(), NoMemory>
    requires { (handles.old.items ≡ []) × (late.old.items ≡ []) }
    ensures handles { handles.new.items ≡ [] }
    ensures late { late.new.items ≡ [] }
    ensures handles_room { OnOk result (count ≤ vec_capacity handles.new) }
    ensures late_room { OnOk result (count ≤ vec_capacity late.new) }
{
    handles.reserve(count)?;
    late.reserve(count)?;
    Ok(())
}

/// Works with all passes here, one after the other.
pub fn work_off<R: Threads + Wait + Sync, C: ThreadedChecker, G: Gate + Sync>(
    rt: &R,
    board: &Board<C::Job>,
    mut passes: Vec<WorkerPass<C::Job>>,
    checker: &C,
    gate: &G,
) -> Vec<WorkerPass<C::Job>>
where
    C::Job: Drop,
    C::Kit: Drop,
    requires waiting { All (λ p. (p.seat.table_id ≡ board.now) × IsIdle p.seat.me.0) passes.items }
    ensures count { vec_len result ≡ vec_len passes }
    ensures room { vec_capacity result ≡ vec_capacity passes }
    ensures over { All (λ p. (p.seat.table_id ≡ board.now)
        × IsIdle p.seat.me.0 × IsOver p.seat.me.0) result.items }
{
    let bell = Bell::new(1);
    let count = passes.len();
    for turn in 0..count {
        let pass = passes.remove(0);
        passes.push_reserved(work_until_rung(rt, board, pass, checker, gate, &bell));
    }
    passes
}
