//! Theories of several files: each failing call of the shelf, and the first fault.
use crate::rows::{Books, EMPTY, Row, is_answered};
use dk_check_run::NoGate;
use dk_io::NoMemory;
use std::alloc::Global;
use std::sync::Wait;
use std::test::Fail;
use std::thread::Threads;

// Two modules, which two commands need one after the other.
const THREE: Books = &[
    ("f.dk", "x : m.a.\ny : n.b.\n"),
    ("m.dk", "a : Type.\n"),
    ("n.dk", "b : Type.\n"),
];

// The status and the report where this call of the shelf fails and each book comes in one piece; a book's end is a read of
// its own.
fn report_at_call(call: u64) -> (u8, &'static [u8]) {
    match call {
        1 => (3, b"unopened f.dk\n"),
        2 => (3, b"unread 1\n"),
        3 => (3, b"unopened m.dk\n"),
        4 => (3, b"unread 1 in m.dk\n"),
        5 => (3, b"ok 1 m.a\nunread 2 in m.dk\n"),
        6 => (3, b"ok 1 m.a\nok 2 x\nunopened n.dk\n"),
        7 => (3, b"ok 1 m.a\nok 2 x\nunread 3 in n.dk\n"),
        8 => (3, b"ok 1 m.a\nok 2 x\nok 3 n.b\nunread 4 in n.dk\n"),
        9 => (3, b"ok 1 m.a\nok 2 x\nok 3 n.b\nok 4 y\nunread 5\n"),
        _ => (0, b"ok 1 m.a\nok 2 x\nok 3 n.b\nok 4 y\naccepted 4\n"),
    }
}

// The same where each read gives a byte: which of the calls above it is like. The dot behind a qualified name needs no byte
// behind it, that behind a plain one does.
fn call_of_byte(call: u64) -> u64 {
    match call {
        1 => 1,
        2..=9 => 2,
        10 => 3,
        11..=20 => 4,
        21 => 5,
        31 => 6,
        32..=41 => 7,
        42 => 8,
        43..=44 => 9,
        _ => 10,
    }
}

/// The first call of the shelf whose failure isn't answered as it is due, with reads of a piece or of a byte.
fn first_call<R: Threads + Wait + Sync>(
    rt: &R,
    alloc: Global,
    words: &str,
) -> Result<Option<u64>, NoMemory> {
    for call in 1..46 {
        let whole = Row {
            words,
            books: THREE,
            shelf_call: call,
            ..EMPTY
        };
        let (status, taken) = report_at_call(call);
        let row = Row {
            status,
            taken,
            ..whole
        };
        if !is_answered(rt, alloc, &row, &NoGate)? {
            return Ok(Some(call));
        }
        // The second line of the file.
        let (status, taken) = match call {
            22..=30 => (3, b"ok 1 m.a\nok 2 x\nunread 3\n".as_slice()),
            _ => report_at_call(call_of_byte(call)),
        };
        let row = Row {
            piece: 1,
            status,
            taken,
            ..whole
        };
        if !is_answered(rt, alloc, &row, &NoGate)? {
            return Ok(Some(call));
        }
    }
    Ok(None)
}

#[test]
fn answers_each_failing_call(rt: HostRuntime) -> Result<(), Fail> {
    for words in [
        "check --workers=1 f.dk",
        "check --workers=2 f.dk",
        "check --workers=8 f.dk",
        "check --workers=64 f.dk",
    ] {
        assert_eq!(rt; first_call(&rt, rt.alloc(), words)?, None, "of {words}");
    }
    Ok(())
}

// A module that is at fault, behind which nothing more is opened or read; where the call fails, it is too late.
const FAULT: Books = &[
    ("f.dk", "x : m.a.\ny : n.b.\n"),
    ("m.dk", "a : Type.\nb : Type.\nc : a.\nthm t : b := c.\n"),
    ("n.dk", "b : Type.\n"),
];

#[test]
fn reports_the_first_fault(rt: HostRuntime) -> Result<(), Fail> {
    for call in [0, 5, 6, 7, 8, 9, 10] {
        for words in [
            "check --workers=1 f.dk",
            "check --workers=2 f.dk",
            "check --workers=8 f.dk",
            "check --workers=64 f.dk",
        ] {
            let row = Row {
                words,
                books: FAULT,
                shelf_call: call,
                status: 1,
                taken: b"ok 1 m.a\nok 2 m.b\nok 3 m.c\nrefused 4 line 4 E21 in m.dk\n",
                ..EMPTY
            };
            assert!(rt;
                is_answered(&rt, rt.alloc(), &row, &NoGate)?,
                "at {call}, {words}"
            );
        }
    }
    Ok(())
}
