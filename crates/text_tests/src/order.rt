//! A history of two workers on a book whose first fault isn't the first one in time.
ghost use Rattle.std.specs.Prelude.{◌≡◌, ◌≢◌, ℕ, ◌+◌, ◌<◌, false, true, length};
ghost use Rattle.std.specs.List.{list_any};
ghost use Rattle.board_core.specs.Events.{is_seal, is_fault};
ghost use Rattle.board_core.specs.Machine.{Holds, HoldsNone};

use crate::told::are_steps;
use board_core::{Book, Claimed, End, PutRefused, Task, finished_when_drained};
use dk_model::{Code, Verdict};
use std::alloc::Global;
use std::process::Abort;
use std::sync::Arc;
use verdict_book::first_fault;

// Puts a job that isn't refused.
fn put<R: Abort>(rt: &R, alloc: Global, book: &mut Book<u32>, job: u32, settled: bool) -> u32
    requires few { length book.old.jobs < 4294967294 }
    requires unsealed { list_any is_seal book.old.events ≡ false }
    ensures one_more { length book.new.jobs ≡ length book.old.jobs + 1 }
    ensures unsealed { list_any is_seal book.new.events ≡ false }
    ensures idle { (w : ℕ) → HoldsNone w book.old.events → HoldsNone w book.new.events }
{
    let share = Arc::new(alloc, job).expect(rt, "memory for a job");
    match book.put(share, settled) {
        Ok(number) => number,
        Err(_) => panic!(rt; "the job was refused"),
    }
}

// Answers, and says what stays of the others.
fn answer(book: &mut Book<u32>, worker: u32, number: u32, verdict: Verdict)
    requires { Holds worker number book.old.events }
    ensures idle { HoldsNone worker book.new.events }
    ensures others { (u n : ℕ) → u ≢ worker → Holds u n book.old.events → Holds u n book.new.events }
    ensures jobs { book.new.jobs ≡ book.old.jobs }
    ensures sealed { list_any is_seal book.new.events ≡ list_any is_seal book.old.events }
    ensures still { (u : ℕ) → HoldsNone u book.old.events → HoldsNone u book.new.events }
{
    book.answer(worker, number, verdict);
}

// A board with jobs 1 and 2.
fn two_jobs<R: Abort>(rt: &R, alloc: Global) -> Book<u32>
    ensures jobs { length result.jobs ≡ 2 }
    ensures unsealed { list_any is_seal result.events ≡ false }
    ensures idle { (w : ℕ) → HoldsNone w result.events }
{
    let mut book: Book<u32> = Book::new(alloc).expect(rt, "memory for a book");
    assert_eq!(rt; put(rt, alloc, &mut book, 10, false), 1);
    assert_eq!(rt; put(rt, alloc, &mut book, 20, false), 2);
    book
}

// The worker must be given this number and job.
fn must_claim<R: Abort>(rt: &R, book: &mut Book<u32>, worker: u32, want: u32, want_job: u32)
    requires { HoldsNone worker book.old.events }
    ensures holds { Holds worker want book.new.events }
    ensures others { (u n : ℕ) → u ≢ worker → Holds u n book.old.events → Holds u n book.new.events }
    ensures idle { (u : ℕ) → u ≢ worker → HoldsNone u book.old.events → HoldsNone u book.new.events }
    ensures jobs { book.new.jobs ≡ book.old.jobs }
    ensures sealed { list_any is_seal book.new.events ≡ list_any is_seal book.old.events }
{
    match book.claim(worker) {
        Claimed::Task(Task { number, job }) => {
            assert_eq!(rt; *job, want_job);
            if number != want {
                panic!(rt; "the worker was given job {number}");
            }
        }
        Claimed::Empty => panic!(rt; "the worker was given no task"),
        Claimed::Over => panic!(rt; "the worker was told that all is over"),
    }
}

// Workers 1 and 2 claim jobs 1 and 2.
fn both_claim<R: Abort>(rt: &R, book: &mut Book<u32>)
    requires { (w : ℕ) → HoldsNone w book.old.events }
    ensures holds { Holds 1 1 book.new.events × Holds 2 2 book.new.events }
    ensures others { (u : ℕ) → u ≢ 1 → u ≢ 2 → HoldsNone u book.new.events }
    ensures jobs { book.new.jobs ≡ book.old.jobs }
    ensures sealed { list_any is_seal book.new.events ≡ list_any is_seal book.old.events }
{
    must_claim(rt, book, 1, 1, 10);
    must_claim(rt, book, 2, 2, 20);
}

// A further job is refused: this number has this verdict.
fn refused<R: Abort>(rt: &R, alloc: Global, book: &mut Book<u32>, want: (u32, Verdict))
    requires few { length book.old.jobs < 4294967294 }
    requires unsealed { list_any is_seal book.old.events ≡ false }
    ensures kept { book.new ≡ book.old }
    ensures fault { list_any is_fault book.old.events ≡ true }
{
    let further = Arc::new(alloc, 40).expect(rt, "memory for a job");
    match book.put(further, false) {
        Err(
            PutRefused::Stopped {
                number,
                verdict,
                job,
            },
        ) => {
            assert_eq!(rt; ((number, verdict), *job), (want, 40));
        }
        _ => panic!(rt; "a further job was put"),
    }
}

// Worker 1 accepts job 1, claims job 3 and refuses it, while worker 2 has job 2.
fn last_is_refused<R: Abort>(rt: &R, book: &mut Book<u32>)
    requires { Holds 1 1 book.old.events × Holds 2 2 book.old.events }
    ensures holds { Holds 2 2 book.new.events }
    ensures idle { HoldsNone 1 book.new.events }
    ensures others { (u : ℕ) → u ≢ 1 → HoldsNone u book.old.events → HoldsNone u book.new.events }
    ensures jobs { book.new.jobs ≡ book.old.jobs }
    ensures sealed { list_any is_seal book.new.events ≡ list_any is_seal book.old.events }
{
    answer(book, 1, 1, Verdict::Accepted);
    must_claim(rt, book, 1, 3, 30);
    answer(book, 1, 3, Verdict::Refused(Code::E20));
}

// Seals a stopped book.
fn seal_stopped(book: &mut Book<u32>)
    requires unsealed { list_any is_seal book.old.events ≡ false }
    requires fault { list_any is_fault book.old.events ≡ true }
    ensures sealed { list_any is_seal book.new.events ≡ true }
    ensures idle { (w : ℕ) → HoldsNone w book.old.events → HoldsNone w book.new.events }
{
    book.seal(End::Stopped);
}

// The first fault of a sealed book of which nobody has a task.
fn fault_of_sealed(book: &mut Book<u32>) -> Option<(u32, Verdict)>
    requires sealed { list_any is_seal book.old.events ≡ true }
    requires idle { (w : ℕ) → HoldsNone w book.old.events }
{
    match book.claim(1) {
        Claimed::Over => {
            finished_when_drained();
            first_fault(book)
        }
        Claimed::Empty => None,
        Claimed::Task(Task { number: _, job: _ }) => None,
    }
}

// Whether the events say what was done, and the book says the same.
fn ends_at_the_least(alloc: Global, book: &Book<u32>) -> bool {
    if book.len() != 3 {
        return false;
    }
    let fault = Verdict::Refused(Code::E21);
    let accepted = Some(Verdict::Accepted);
    let steps = [
        (b'p', 0, 1, None),
        (b'p', 0, 2, None),
        (b'p', 0, 3, None),
        (b'c', 1, 1, None),
        (b'c', 2, 2, None),
        (b'a', 1, 1, accepted),
        (b'c', 1, 3, None),
        (b'a', 1, 3, Some(Verdict::Refused(Code::E20))),
        (b'a', 2, 2, Some(fault)),
        (b's', 0, 0, None),
    ];
    let verdicts = [book.verdict(1), book.verdict(2)];
    are_steps(alloc, book.history(), &steps)
        && !book.is_settled(2)
        && verdicts == [accepted, Some(fault)]
        && book.fault() == Some((2, fault))
        && matches!(book.end(), Some(End::Stopped))
}

#[test]
fn names_the_least_fault_and_not_the_first_in_time(rt: HostRuntime) {
    let alloc = rt.alloc();
    let mut book = two_jobs(&rt, alloc);
    put(&rt, alloc, &mut book, 30, false);
    both_claim(&rt, &mut book);
    last_is_refused(&rt, &mut book);
    refused(&rt, alloc, &mut book, (3, Verdict::Refused(Code::E20)));
    answer(&mut book, 2, 2, Verdict::Refused(Code::E21));
    refused(&rt, alloc, &mut book, (2, Verdict::Refused(Code::E21)));
    seal_stopped(&mut book);
    let first = fault_of_sealed(&mut book);
    let blank = Arc::new(alloc, 0).expect(&rt, "memory for a job");
    let replayed = book.replay(&blank).expect(&rt, "memory for a replay");
    let is_same = ends_at_the_least(alloc, &book) && ends_at_the_least(alloc, &replayed);
    assert!(rt; is_same && first == Some((2, Verdict::Refused(Code::E21))));
}
