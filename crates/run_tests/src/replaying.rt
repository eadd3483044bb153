//! Each failure of shelf and sink while a script is replayed, and small limits.
ghost use Rattle.std.specs.Prelude.{◌<◌};

use crate::rows::{EMPTY, Row, is_answered, is_limited};
use dk_check_run::NoGate;
use dk_io::NoMemory;
use dk_model::Limits;
use std::alloc::Global;
use std::sync::Wait;
use std::test::Fail;
use std::thread::Threads;

// Two lines of two and seven bytes.
const TWO: &str = "x\nreport\n";

const ANSWER: &str = "bad 1\naccepted 0\nchecked 0\n";

// The status and the text where the script is read byte by byte and this call of the shelf fails; the first is the opening.
fn text_at_call(call: u64) -> (u8, &'static [u8]) {
    match call {
        1 => (3, b"unopened f.dk\n"),
        2..=3 => (3, b"unread 1\n"),
        4..=10 => (3, b"bad 1\nunread 2\n"),
        11 => (3, b"bad 1\naccepted 0\nchecked 0\nunread 3\n"),
        _ => (0, ANSWER.as_bytes()),
    }
}

/// The first call of the shelf whose failure isn't answered as it is due.
fn first_call<R: Threads + Wait + Sync>(rt: &R, alloc: Global) -> Result<Option<u64>, NoMemory> {
    for call in 1..14 {
        let (status, taken) = text_at_call(call);
        let row = Row {
            words: "replay f.dk",
            text: TWO.as_bytes(),
            piece: 1,
            shelf_call: call,
            status,
            taken,
            ..EMPTY
        };
        if !is_answered(rt, alloc, &row, &NoGate)? {
            return Ok(Some(call));
        }
    }
    Ok(None)
}

/// The first write of a byte whose failure isn't answered by 5, with the bytes before it taken.
fn first_write<R: Threads + Wait + Sync>(rt: &R, alloc: Global) -> Result<Option<u64>, NoMemory> {
    let mut call = 1;
    for length in 0..=ANSWER.len() {
        let row = Row {
            words: "replay f.dk",
            text: TWO.as_bytes(),
            sink_piece: 1,
            sink_call: call,
            status: if length < ANSWER.len() { 5 } else { 0 },
            taken: ANSWER.as_bytes().get(..length).unwrap_or(b"$"),
            ..EMPTY
        };
        if !is_answered(rt, alloc, &row, &NoGate)? {
            return Ok(Some(call));
        }
        call = call.saturating_add(1);
    }
    Ok(None)
}

// How many bytes a script may have, and what the two lines write then.
const LONG: [(u32, &str); 6] = [
    (1, "bad 1\n"),
    (2, "bad 1\nbad 2\n"),
    (3, "bad 1\nbad 2\n"),
    (8, "bad 1\nbad 2\n"),
    (9, ANSWER),
    (10, ANSWER),
];

/// The first limit of a script that isn't kept to.
fn first_limit<R: Threads + Wait + Sync>(rt: &R, alloc: Global) -> Result<Option<u32>, NoMemory> {
    for (most, taken) in LONG {
        let mut limits = Limits::standard();
        limits.input_bytes = most;
        let row = Row {
            words: "replay f.dk",
            text: TWO.as_bytes(),
            piece: 3,
            taken: taken.as_bytes(),
            ..EMPTY
        };
        if !(limits.commands < 4294967294 && is_limited(rt, alloc, limits, &row)?) {
            return Ok(Some(most));
        }
    }
    Ok(None)
}

/// Whether a command past the limit, which is two here, is refused and isn't counted.
fn is_full<R: Threads + Wait + Sync>(rt: &R, alloc: Global) -> Result<bool, NoMemory> {
    let mut limits = Limits::standard();
    limits.commands = 2;
    let row = Row {
        words: "replay f.dk",
        text: b"insert 1 a : Type.\ninsert 2 b : Type.\ninsert 3 c : Type.\nreport\n",
        taken: b"ok 1 a\nok 2 b\nrefused 3 line 3 E08\nchecked 2\n",
        ..EMPTY
    };
    is_limited(rt, alloc, limits, &row)
}

#[test]
fn answers_each_failure_of_a_replay(rt: HostRuntime) -> Result<(), Fail> {
    let call = first_call(&rt, rt.alloc())?;
    let write = first_write(&rt, rt.alloc())?;
    let limit = first_limit(&rt, rt.alloc())?;
    let full = is_full(&rt, rt.alloc())?;
    let none = call.is_none() && write.is_none() && limit.is_none() && full;
    assert!(rt; none, "{call:?} {write:?} {limit:?} {full}");
    Ok(())
}
