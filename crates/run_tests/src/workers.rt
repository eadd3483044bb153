//! The same answers from any number of workers, and checks that run beside each other.
use crate::rows::{EMPTY, Row, is_answered};
use board_core::Gate;
use dk_check_run::NoGate;
use dk_io::NoMemory;
use std::alloc::Global;
use std::sync::Wait;
use std::sync::atomic::{AtomicU64, Ordering};
use std::test::Fail;
use std::thread;
use std::thread::Threads;

// A file's text, the shelf's call that fails (0: none), the status and the report, for every number of workers.
const ROWS: [(&str, u64, u8, &str); 10] = [
    (
        "a : Type. b : Type. x : a. thm t : b := x. c c.",
        0,
        1,
        "ok 1 a\nok 2 b\nok 3 x\nrefused 4 line 1 E21\n",
    ),
    // A later job is at fault too.
    (
        "a : Type. b : Type. x : a. thm t : b := x. thm u : a := b.",
        0,
        1,
        "ok 1 a\nok 2 b\nok 3 x\nrefused 4 line 1 E21\n",
    ),
    // The next version rests on a type that only the refused definition would have.
    (
        "a : Type. x : a. def y := x x. thm t : y := x.",
        0,
        1,
        "ok 1 a\nok 2 x\nrefused 3 line 1 E20\n",
    ),
    (
        "a : Type. b : Type. x : a. thm t : b := x. def y := x x.",
        0,
        1,
        "ok 1 a\nok 2 b\nok 3 x\nrefused 4 line 1 E21\n",
    ),
    // The file ends at fault behind a command that is.
    (
        "a : Type. b : Type. x : a. thm t : b := x. (; open",
        0,
        1,
        "ok 1 a\nok 2 b\nok 3 x\nrefused 4 line 1 E21\n",
    ),
    // A read fails behind a command that is at fault.
    (
        "a : Type. b : Type. x : a. thm t : b := x.\n",
        3,
        1,
        "ok 1 a\nok 2 b\nok 3 x\nrefused 4 line 1 E21\n",
    ),
    (
        "a : Type. x : a. thm t : a := x. ",
        3,
        3,
        "ok 1 a\nok 2 x\nok 3 t\nunread 4\n",
    ),
    (
        "a : Type. def f : Type. x : a. thm t : f := x. [] f --> a.",
        0,
        1,
        "ok 1 a\nok 2 f\nok 3 x\nrefused 4 line 1 E21\n",
    ),
    // A rule without an end.
    (
        "def c : Type. [] c --> c. a : Type. x : a. thm t : c := x.",
        0,
        6,
        "ok 1 c\nok 2 c\nok 3 a\nok 4 x\nbudget 5 line 1 1000\n",
    ),
    // The rules overlap, and their order decides.
    (
        "nat : Type. z : nat. x : nat. a : Type. b : Type. ca : a. cb : b. def f : nat -> Type. [] f z --> a [n] f n --> b. thm t1 : f z := ca. thm t2 : f x := cb. thm t3 : f z := cb.",
        0,
        1,
        "ok 1 nat\nok 2 z\nok 3 x\nok 4 a\nok 5 b\nok 6 ca\nok 7 cb\nok 8 f\nok 9 f\nok 10 t1\nok 11 t2\nrefused 12 line 1 E21\n",
    ),
];

/// The first file that isn't answered as it is due under these words.
fn first_wrong<R: Threads + Wait + Sync>(
    rt: &R,
    alloc: Global,
    words: &str,
) -> Result<Option<&'static str>, NoMemory> {
    for (text, shelf_call, status, report) in &ROWS {
        let row = Row {
            words,
            text: text.as_bytes(),
            shelf_call: *shelf_call,
            status: *status,
            taken: report.as_bytes(),
            ..EMPTY
        };
        if !is_answered(rt, alloc, &row, &NoGate)? {
            return Ok(Some(*text));
        }
    }
    Ok(None)
}

#[test]
fn reports_the_same_for_any_workers(rt: HostRuntime) -> Result<(), Fail> {
    for words in [
        "check --budget=1000 --workers=1 f.dk",
        "check --budget=1000 --workers=2 f.dk",
        "check --budget=1000 --workers=8 f.dk",
        "check --budget=1000 --workers=64 f.dk",
    ] {
        assert_eq!(rt; first_wrong(&rt, rt.alloc(), words)?, None, "of {words}");
    }
    Ok(())
}

// How often a check that is held up looks for the other before it gives up.
const LOOKS: u32 = 10_000_000;

// Holds the check of one job up until that of another is done.
#[derive(Drop)]
struct Held {
    first: u32,
    second: u32,
    left: AtomicU64,
    seen: AtomicU64,
}

impl Gate for Held {
    fn enter(&self, number: u32) {
        if number != self.first {
            return;
        }
        for _ in 0..LOOKS {
            if self.left.load(Ordering::SeqCst) == 1 {
                self.seen.store(1, Ordering::SeqCst);
                return;
            }
            thread::yield_now();
        }
    }

    fn leave(&self, number: u32) {
        if number == self.second {
            self.left.store(1, Ordering::SeqCst);
        }
    }

    fn enter_part(&self, _: u32, _: u32) {}

    fn leave_part(&self, _: u32, _: u32) {}
}

/// Whether a check by two workers, where that of one job waits until that of another is done, is answered as it is due and
/// saw that.
fn is_held_up<R: Threads + Wait + Sync>(
    rt: &R,
    alloc: Global,
    row: &Row<'_>,
    first: u32,
    second: u32,
) -> Result<bool, NoMemory> {
    let gate = Held {
        first,
        second,
        left: AtomicU64::new(0),
        seen: AtomicU64::new(0),
    };
    Ok(is_answered(rt, alloc, row, &gate)? && gate.seen.load(Ordering::SeqCst) == 1)
}

// The check of the first theorem waits until that of the second is done; then a fault that comes first in the file is found
// last.
#[test]
fn gate_holds_first(rt: HostRuntime) -> Result<(), Fail> {
    for (text, first, second, status, taken) in [
        (
            b"a : Type. x : a. thm t : a := x. thm u : a := x.".as_slice(),
            3,
            4,
            0,
            b"ok 1 a\nok 2 x\nok 3 t\nok 4 u\naccepted 4\n".as_slice(),
        ),
        (
            b"a : Type. b : Type. x : a. thm t : b := x. thm u : a := b.".as_slice(),
            4,
            5,
            1,
            b"ok 1 a\nok 2 b\nok 3 x\nrefused 4 line 1 E21\n".as_slice(),
        ),
    ] {
        let row = Row {
            words: "check --workers=2 f.dk",
            text,
            status,
            taken,
            ..EMPTY
        };
        assert!(rt;
            is_held_up(&rt, rt.alloc(), &row, first, second)?,
            "at {first}"
        );
    }
    Ok(())
}
