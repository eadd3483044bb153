//! The worked history of two workers, on a shared board. Each job is its own verdict.
ghost use Rattle.std.specs.Prelude.{◌≡◌, ◌+◌, ◌<◌, true, length};
ghost use Rattle.std.specs.Arc.{arc_value};
ghost use Rattle.std.specs.List.{list_any};
ghost use Rattle.board_core.specs.Events.{is_fault};
ghost use Rattle.task_board.specs.Histories.{events_in};
ghost use Rattle.task_board.specs.Passes.{HasTask, IsIdle};

use crate::passes::{last_pass, pass_back};
use crate::told::{Own, are_steps};
use board_core::{Book, Claimed, End, PutRefused, Task};
use dk_model::{Code, Listed, Verdict};
use std::alloc::Global;
use std::process::Abort;
use std::sync::{Arc, Wait};
use task_board::{Board, ReaderPass, WorkerPass};

// Puts an open job that isn't refused.
fn put<R: Wait + Abort>(
    rt: &R,
    alloc: Global,
    board: &Board<Own>,
    pass: &mut ReaderPass<Own>,
    job: Verdict,
) -> u32
    requires own { pass.old.seat.table_id ≡ board.now }
    requires few { length pass.old.seat.me.0.known < 4294967294 }
    ensures own { pass.new.seat.table_id ≡ board.now }
    ensures made { pass.new.seat.me.0.made ≡ pass.old.seat.me.0.made }
    ensures known { length pass.new.seat.me.0.known ≡ length pass.old.seat.me.0.known + 1 }
{
    let job = Arc::new(alloc, Own(job)).expect(rt, "memory for a job");
    match board.put(rt, pass, job, false) {
        Ok(number) => number,
        Err(_) => panic!(rt; "the job was refused"),
    }
}

// Puts a job that is refused: the number and the verdict of the fault, and the job.
fn put_late<R: Wait + Abort>(
    rt: &R,
    alloc: Global,
    board: &Board<Own>,
    pass: &mut ReaderPass<Own>,
    job: Verdict,
) -> (u32, Verdict, Verdict)
    requires own { pass.old.seat.table_id ≡ board.now }
    requires few { length pass.old.seat.me.0.known < 4294967294 }
    ensures own { pass.new.seat.table_id ≡ board.now }
    ensures made { pass.new.seat.me.0.made ≡ pass.old.seat.me.0.made }
    ensures stopped { list_any is_fault (events_in pass.new.seat.me.0.seen) ≡ true }
{
    let job = Arc::new(alloc, Own(job)).expect(rt, "memory for a job");
    match board.put(rt, pass, job, false) {
        Err(
            PutRefused::Stopped {
                number,
                verdict,
                job,
            },
        ) => (number, verdict, job.0),
        _ => panic!(rt; "the job was put"),
    }
}

// The task that the worker is given.
fn must_claim<R: Wait + Abort>(rt: &R, board: &Board<Own>, pass: &mut WorkerPass<Own>) -> Task<Own>
    requires own { pass.old.seat.table_id ≡ board.now }
    requires idle { IsIdle pass.old.seat.me.0 }
    ensures own { pass.new.seat.table_id ≡ board.now }
    ensures task { HasTask pass.new.seat.me.0 result.number (arc_value result.job) }
{
    match board.claim(rt, pass) {
        Claimed::Task(task) => task,
        _ => panic!(rt; "there was a task"),
    }
}

// Whether all is over, for a worker that is given no task.
fn finds_nothing<R: Wait + Abort>(rt: &R, board: &Board<Own>, pass: &mut WorkerPass<Own>) -> bool
    requires own { pass.old.seat.table_id ≡ board.now }
    requires idle { IsIdle pass.old.seat.me.0 }
    ensures own { pass.new.seat.table_id ≡ board.now }
    ensures idle { IsIdle pass.new.seat.me.0 }
{
    match board.claim(rt, pass) {
        Claimed::Empty => false,
        Claimed::Over => true,
        Claimed::Task(Task { number: _, job: _ }) => panic!(rt; "there was no task"),
    }
}

// Answers a task with its job's verdict.
fn answer<R: Wait + Abort>(rt: &R, board: &Board<Own>, pass: &mut WorkerPass<Own>, task: Task<Own>)
    requires own { pass.old.seat.table_id ≡ board.now }
    requires task { HasTask pass.old.seat.me.0 task.number (arc_value task.job) }
    ensures own { pass.new.seat.table_id ≡ board.now }
    ensures idle { IsIdle pass.new.seat.me.0 }
{
    let verdict = task.job.0;
    board.answer(rt, pass, task, verdict);
}

// Whether the book has two jobs, a fault at the first one, and this history.
fn is_stopped_at_the_first(alloc: Global, book: &Book<Own>) -> bool {
    let fault = Verdict::Refused(Code::E21);
    let steps = [
        (b'p', 0, 1, None),
        (b'p', 0, 2, None),
        (b'c', 1, 1, None),
        (b'c', 2, 2, None),
        (b'a', 2, 2, Some(Verdict::Accepted)),
        (b'a', 1, 1, Some(fault)),
        (b's', 0, 0, None),
    ];
    book.len() == 2
        && book.fault() == Some((1, fault))
        && matches!(book.end(), Some(End::Stopped))
        && are_steps(alloc, book.history(), &steps)
}

#[test]
fn keeps_two_workers_apart_and_stops_at_a_fault(rt: HostRuntime) {
    let alloc = rt.alloc();
    let fault = Verdict::Refused(Code::E21);
    let (board, mut reader, passes) = Board::<Own>::new(alloc, 2).expect(&rt, "memory for a board");
    let mut passes = passes.into_vec();
    let mut second = last_pass(&rt, &board, &mut passes);
    let mut first = last_pass(&rt, &board, &mut passes);
    let one = put(&rt, alloc, &board, &mut reader, fault);
    let two = put(&rt, alloc, &board, &mut reader, Verdict::Accepted);
    let task = must_claim(&rt, &board, &mut first);
    let other = must_claim(&rt, &board, &mut second);
    let numbers = [one, two, task.number, other.number];
    answer(&rt, &board, &mut second, other);
    let waits = !finds_nothing(&rt, &board, &mut second);
    answer(&rt, &board, &mut first, task);
    let refused = put_late(&rt, alloc, &board, &mut reader, Verdict::Ended);
    let over = finds_nothing(&rt, &board, &mut first);
    let sealed = board.seal(&rt, reader, End::Stopped);
    let mut passes = Listed::new(alloc);
    pass_back(&rt, &board, &mut passes, first);
    pass_back(&rt, &board, &mut passes, second);
    let book = board.close(sealed, passes);
    let told = numbers == [1, 2, 1, 2] && waits && refused == (1, fault, Verdict::Ended) && over;
    assert!(rt; told && is_stopped_at_the_first(alloc, &book));
}

// The board keeps no share of a settled job, and of an answered one only until the next put or the seal. Beside the shares
// of the job: that of this test, and that of the job that waits, is checked, or waits for the reader.
#[test]
fn lets_a_job_go(rt: HostRuntime) {
    let alloc = rt.alloc();
    let (board, mut reader, passes) = Board::<Own>::new(alloc, 1).expect(&rt, "memory for a board");
    let mut passes = passes.into_vec();
    let mut worker = last_pass(&rt, &board, &mut passes);
    let job = Arc::new(alloc, Own(Verdict::Accepted)).expect(&rt, "memory for a job");
    let open = job.clone().expect(&rt, "a share");
    let first = board.put(&rt, &mut reader, open, false).is_ok();
    let settled = job.clone().expect(&rt, "a share");
    let second = board.put(&rt, &mut reader, settled, true).is_ok();
    let waits = Arc::strong_count(&job);
    let task = must_claim(&rt, &board, &mut worker);
    let checked = Arc::strong_count(&job);
    answer(&rt, &board, &mut worker, task);
    let answered = Arc::strong_count(&job);
    let open = job.clone().expect(&rt, "a share");
    let third = board.put(&rt, &mut reader, open, false).is_ok();
    let again = Arc::strong_count(&job);
    let task = must_claim(&rt, &board, &mut worker);
    answer(&rt, &board, &mut worker, task);
    let sealed = board.seal(&rt, reader, End::Whole);
    let let_go = Arc::strong_count(&job);
    let mut passes = Listed::new(alloc);
    pass_back(&rt, &board, &mut passes, worker);
    let book = board.close(sealed, passes);
    let put = first && second && third && book.len() == 3;
    assert!(rt; put && [waits, checked, answered, again, let_go] == [2, 2, 2, 2, 1]);
}
