//! Passes that are taken out of a list and put back.
ghost use Rattle.std.specs.Prelude.{◌≡◌, ◌+◌, All, length};
ghost use Rattle.std.specs.List.{Any};
ghost use Rattle.task_board.specs.Passes.{IsIdle, IsOver};

use crate::told::Own;
use dk_model::Listed;
use std::process::Abort;
use task_board::{Board, WorkerPass};

/// The last of the passes.
pub fn last_pass<R: Abort>(
    rt: &R,
    board: &Board<Own>,
    passes: &mut Vec<WorkerPass<Own>>,
) -> WorkerPass<Own>
    requires { All (λ p. (p.seat.table_id ≡ board.now) × IsIdle p.seat.me.0) passes.old.items }
    ensures rest { All (λ p. (p.seat.table_id ≡ board.now) × IsIdle p.seat.me.0) passes.new.items }
    ensures last { (result.seat.table_id ≡ board.now) × IsIdle result.seat.me.0 }
{
    let Some(pass) = passes.pop() else {
        panic!(rt; "there is a pass");
    };
    pass
}

/// Puts a pass into the list.
pub fn pass_back<R: Abort>(
    rt: &R,
    board: &Board<Own>,
    passes: &mut Listed<WorkerPass<Own>>,
    pass: WorkerPass<Own>,
)
    requires pass { (pass.seat.table_id ≡ board.now) × IsIdle pass.seat.me.0 }
    requires own { All (λ p. p.seat.table_id ≡ board.now) passes.old }
    requires idle { All (λ p. IsIdle p.seat.me.0) passes.old }
    ensures own { All (λ p. p.seat.table_id ≡ board.now) passes.new }
    ensures idle { All (λ p. IsIdle p.seat.me.0) passes.new }
    ensures count { length passes.new ≡ length passes.old + 1 }
    ensures over { IsOver pass.seat.me.0 → Any (λ p. IsOver p.seat.me.0) passes.new }
{
    let Ok(()) = passes.push(pass) else {
        panic!(rt; "there is memory for a pass");
    };
}
