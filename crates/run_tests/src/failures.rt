//! What failing calls of shelf and sink lead to, of a check and where a theory is made.
use crate::rows::{EMPTY, Row, is_answered};
use dk_check_run::NoGate;
use dk_io::NoMemory;
use std::alloc::Global;
use std::sync::Wait;
use std::test::Fail;
use std::thread::Threads;

const TWO: &[u8] = b"a : Type.\nb : Type.\n";

const WRONG: &[u8] = b"a : Type. b : Type. x : a. thm t : b := x.\n";

const FAILURES: [Row<'static>; 13] = [
    Row {
        words: "check --quiet f.dk",
        text: TWO,
        piece: 7,
        sink_piece: 9,
        status: 0,
        taken: b"accepted 2\n",
        ..EMPTY
    },
    Row {
        words: "check --budget=1 f.dk",
        text: TWO,
        piece: 1,
        sink_piece: 1,
        status: 0,
        taken: b"ok 1 a\nok 2 b\naccepted 2\n",
        ..EMPTY
    },
    Row {
        words: "check --quiet --quiet",
        text: TWO,
        piece: 1,
        sink_call: 1,
        status: 5,
        taken: b"",
        ..EMPTY
    },
    Row {
        words: "check --budget=9 g.dk",
        text: TWO,
        piece: 1,
        sink_piece: 3,
        status: 3,
        taken: b"unopened g.dk\n",
        ..EMPTY
    },
    Row {
        words: "check --budget=9 g.dk",
        text: TWO,
        piece: 1,
        sink_piece: 3,
        sink_call: 2,
        status: 5,
        taken: b"uno",
        ..EMPTY
    },
    Row {
        words: "check --budget=9 f.dk",
        text: TWO,
        piece: 1,
        shelf_call: 1,
        status: 3,
        taken: b"unopened f.dk\n",
        ..EMPTY
    },
    Row {
        words: "check --budget=9 f.dk",
        text: TWO,
        piece: 1,
        shelf_call: 11,
        status: 3,
        taken: b"unread 1\n",
        ..EMPTY
    },
    Row {
        words: "check --budget=9 f.dk",
        text: TWO,
        piece: 1,
        shelf_call: 12,
        status: 3,
        taken: b"ok 1 a\nunread 2\n",
        ..EMPTY
    },
    Row {
        words: "check --budget=9 f.dk",
        text: TWO,
        piece: 1,
        shelf_call: 22,
        status: 3,
        taken: b"ok 1 a\nok 2 b\nunread 3\n",
        ..EMPTY
    },
    Row {
        words: "check --budget=9 f.dk",
        text: TWO,
        piece: 1,
        shelf_call: 23,
        status: 0,
        taken: b"ok 1 a\nok 2 b\naccepted 2\n",
        ..EMPTY
    },
    Row {
        words: "check --budget=9 f.dk",
        text: TWO,
        shelf_call: 3,
        status: 3,
        taken: b"ok 1 a\nok 2 b\nunread 3\n",
        ..EMPTY
    },
    Row {
        words: "check --budget=9 f.dk",
        text: TWO,
        sink_piece: 1,
        sink_call: 6,
        status: 5,
        taken: b"ok 1 ",
        ..EMPTY
    },
    Row {
        words: "check --budget=9 f.dk",
        text: WRONG,
        shelf_call: 3,
        status: 1,
        taken: b"ok 1 a\nok 2 b\nok 3 x\nrefused 4 line 1 E21\n",
        ..EMPTY
    },
];

/// The first of the failures that isn't answered as it is due.
fn first_failure<R: Threads + Wait + Sync>(
    rt: &R,
    alloc: Global,
) -> Result<Option<&'static str>, NoMemory> {
    for row in &FAILURES {
        if !is_answered(rt, alloc, row, &NoGate)? {
            return Ok(Some(row.words));
        }
    }
    Ok(None)
}

// The status and the report of two commands of ten bytes, read byte by byte, where this call of the shelf fails; the first is
// the opening.
fn report_at_call(call: u64) -> (u8, &'static [u8]) {
    match call {
        1 => (3, b"unopened f.dk\n"),
        2..=11 => (3, b"unread 1\n"),
        12..=21 => (3, b"ok 1 a\nunread 2\n"),
        22 => (3, b"ok 1 a\nok 2 b\nunread 3\n"),
        _ => (0, b"ok 1 a\nok 2 b\naccepted 2\n"),
    }
}

/// The first call of the shelf whose failure isn't answered as it is due.
fn first_call<R: Threads + Wait + Sync>(rt: &R, alloc: Global) -> Result<Option<u64>, NoMemory> {
    for call in 1..24 {
        let (status, taken) = report_at_call(call);
        let row = Row {
            text: TWO,
            piece: 1,
            shelf_call: call,
            status,
            taken,
            ..EMPTY
        };
        if !is_answered(rt, alloc, &row, &NoGate)? {
            return Ok(Some(call));
        }
    }
    Ok(None)
}

/// The first write of a byte of the report whose failure isn't answered by 5, with the bytes before it taken.
fn first_write<R: Threads + Wait + Sync>(
    rt: &R,
    alloc: Global,
    words: &str,
    report: &[u8],
) -> Result<Option<u64>, NoMemory> {
    let mut call = 1;
    for length in 0..=report.len() {
        let row = Row {
            words,
            text: b"nat : Type.",
            sink_piece: 1,
            sink_call: call,
            status: if length < report.len() { 5 } else { 0 },
            taken: report.get(..length).unwrap_or(b"$"),
            ..EMPTY
        };
        if !is_answered(rt, alloc, &row, &NoGate)? {
            return Ok(Some(call));
        }
        call = call.saturating_add(1);
    }
    Ok(None)
}

#[test]
fn answers_each_failure(rt: HostRuntime) -> Result<(), Fail> {
    let failure = first_failure(&rt, rt.alloc())?;
    let call = first_call(&rt, rt.alloc())?;
    let check = first_write(&rt, rt.alloc(), "check f.dk", b"ok 1 nat\naccepted 1\n")?;
    let make = first_write(&rt, rt.alloc(), "make 1", b"make 1 bytes 235\naccepted 8\n")?;
    let none = failure.is_none() && call.is_none() && check.is_none() && make.is_none();
    assert!(rt; none, "{failure:?} {call:?} {check:?} {make:?}");
    Ok(())
}
