//! Certificates that are cut at each byte, and each failure of shelf and sink while one is read.
ghost use Rattle.std.specs.Prelude.{◌<◌};

use crate::rows::{Books, EMPTY, Row, is_answered, is_limited};
use dk_check_run::NoGate;
use dk_io::NoMemory;
use dk_model::Limits;
use std::alloc::Global;
use std::sync::Wait;
use std::test::Fail;
use std::thread::Threads;

const THREE: Books = &[("g.dk", "nat : Type. z : nat. thm t : nat := z.")];

const WHOLE: &str = "dk certificate 1\nc 1\nr 0\nc 2\nr 0\nc 3\nr 0\nj 0 0\nend\n";

// What is answered of so many first bytes of the certificate: a part that is cut off is rejected itself.
fn text_at_front(length: usize) -> (u8, &'static [u8]) {
    match length {
        0..=16 => (1, b"rejected 0\n"),
        17..=24 => (1, b"rejected 1\n"),
        25..=32 => (1, b"rejected 2\n"),
        33..=46 => (1, b"rejected 3\n"),
        47..=50 => (1, b"rejected 4\n"),
        _ => (0, b"rechecked 3\n"),
    }
}

/// The first front of the certificate that isn't answered as it is due, cut there, and where it is past the limit.
fn first_front<R: Threads + Wait + Sync>(rt: &R, alloc: Global) -> Result<Option<usize>, NoMemory> {
    for length in 0..=WHOLE.len() {
        let (status, taken) = text_at_front(length);
        let row = Row {
            words: "recheck g.dk f.dk",
            books: THREE,
            text: WHOLE.as_bytes().get(..length).unwrap_or(b"$"),
            status,
            taken,
            ..EMPTY
        };
        if !is_answered(rt, alloc, &row, &NoGate)? {
            return Ok(Some(length));
        }
    }
    Ok(None)
}

/// The first limit of bytes, of those that the file keeps to, at which the certificate isn't answered as it is due.
fn first_limit<R: Threads + Wait + Sync>(rt: &R, alloc: Global) -> Result<Option<u32>, NoMemory> {
    for most in 38..53 {
        let mut limits = Limits::standard();
        limits.input_bytes = most;
        let (status, taken) = text_at_front(most as usize);
        let row = Row {
            words: "recheck g.dk f.dk",
            books: THREE,
            text: WHOLE.as_bytes(),
            piece: 3,
            status,
            taken,
            ..EMPTY
        };
        if !(limits.commands < 4294967294 && is_limited(rt, alloc, limits, &row)?) {
            return Ok(Some(most));
        }
    }
    Ok(None)
}

const ONE: Books = &[("g.dk", "a : Type.\n")];

const PART: &[u8] = b"dk certificate 1\nc 1\nr 0\nend\n";

// The status and the text where file and certificate are read byte by byte and this call of the shelf fails: the first is the
// opening of the file, of ten bytes, the thirteenth that of the certificate, of lines of 17, 4, 4 and 4.
fn text_at_call(call: u64) -> (u8, &'static [u8]) {
    match call {
        1 => (3, b"unopened g.dk\n"),
        2..=11 => (3, b"unread 1\n"),
        12 => (3, b"unread 2\n"),
        13 => (3, b"unopened f.dk\n"),
        14..=30 => (3, b"unread 1\n"),
        31..=34 => (3, b"unread 2\n"),
        35..=38 => (3, b"unread 3\n"),
        39..=42 => (3, b"unread 4\n"),
        43 => (3, b"unread 5\n"),
        _ => (0, b"rechecked 1\n"),
    }
}

/// The first call of the shelf whose failure isn't answered as it is due.
fn first_call<R: Threads + Wait + Sync>(rt: &R, alloc: Global) -> Result<Option<u64>, NoMemory> {
    for call in 1..46 {
        let (status, taken) = text_at_call(call);
        let row = Row {
            words: "recheck g.dk f.dk",
            books: ONE,
            text: PART,
            piece: 1,
            shelf_call: call,
            status,
            taken,
            ..EMPTY
        };
        if !is_answered(rt, alloc, &row, &NoGate)? {
            return Ok(Some(call));
        }
    }
    Ok(None)
}

/// The first write of a byte whose failure isn't answered by 5, with the bytes before it taken.
fn first_write<R: Threads + Wait + Sync>(
    rt: &R,
    alloc: Global,
    text: &[u8],
    status: u8,
    answer: &[u8],
) -> Result<Option<u64>, NoMemory> {
    let mut call = 1;
    for length in 0..=answer.len() {
        let row = Row {
            words: "recheck g.dk f.dk",
            books: ONE,
            text,
            sink_piece: 1,
            sink_call: call,
            status: if length < answer.len() { 5 } else { status },
            taken: answer.get(..length).unwrap_or(b"$"),
            ..EMPTY
        };
        if !is_answered(rt, alloc, &row, &NoGate)? {
            return Ok(Some(call));
        }
        call = call.saturating_add(1);
    }
    Ok(None)
}

#[test]
fn rejects_each_front_of_a_certificate(rt: HostRuntime) -> Result<(), Fail> {
    let front = first_front(&rt, rt.alloc())?;
    let limit = first_limit(&rt, rt.alloc())?;
    let none = front.is_none() && limit.is_none();
    assert!(rt; none, "{front:?} {limit:?}");
    Ok(())
}

#[test]
fn answers_each_failure_of_a_recheck(rt: HostRuntime) -> Result<(), Fail> {
    let call = first_call(&rt, rt.alloc())?;
    let right = first_write(&rt, rt.alloc(), PART, 0, b"rechecked 1\n")?;
    let wrong = first_write(&rt, rt.alloc(), b"", 1, b"rejected 0\n")?;
    let none = call.is_none() && right.is_none() && wrong.is_none();
    assert!(rt; none, "{call:?} {right:?} {wrong:?}");
    Ok(())
}
