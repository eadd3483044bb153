//! Each failure of shelf and sink while a file is pruned.
use crate::rows::{EMPTY, Row, is_answered};
use dk_check_run::NoGate;
use dk_io::NoMemory;
use std::alloc::Global;
use std::sync::Wait;
use std::test::Fail;
use std::thread::Threads;

pub(crate) const TWO: &str = "a : Type.\nb : Type.\n";

// The status and the text of two commands of ten bytes, read byte by byte, where this call of the shelf fails; the first is
// the opening.
fn text_at_call(call: u64) -> (u8, &'static [u8]) {
    match call {
        1 => (3, b"unopened f.dk\n"),
        2..=11 => (3, b"unread 1\n"),
        12..=21 => (3, b"unread 2\n"),
        22 => (3, b"unread 3\n"),
        _ => (0, b"b : Type.\n"),
    }
}

/// The first call of the shelf whose failure isn't answered as it is due.
fn first_call<R: Threads + Wait + Sync>(rt: &R, alloc: Global) -> Result<Option<u64>, NoMemory> {
    for call in 1..24 {
        let (status, taken) = text_at_call(call);
        let row = Row {
            words: "prune b f.dk",
            text: TWO.as_bytes(),
            piece: 1,
            shelf_call: call,
            status,
            taken,
            ..EMPTY
        };
        if !is_answered(rt, alloc, &row, &NoGate)? {
            return Ok(Some(call));
        }
    }
    Ok(None)
}

/// The first write of a byte whose failure isn't answered by 5, with the bytes before it taken.
pub(crate) fn first_write<R: Threads + Wait + Sync>(
    rt: &R,
    alloc: Global,
    words: &str,
    text: &[u8],
    status: u8,
) -> Result<Option<u64>, NoMemory> {
    let mut call = 1;
    for length in 0..=text.len() {
        let row = Row {
            words,
            text: TWO.as_bytes(),
            sink_piece: 1,
            sink_call: call,
            status: if length < text.len() { 5 } else { status },
            taken: text.get(..length).unwrap_or(b"$"),
            ..EMPTY
        };
        if !is_answered(rt, alloc, &row, &NoGate)? {
            return Ok(Some(call));
        }
        call = call.saturating_add(1);
    }
    Ok(None)
}

#[test]
fn answers_each_failure_while_pruning(rt: HostRuntime) -> Result<(), Fail> {
    let call = first_call(&rt, rt.alloc())?;
    let known = first_write(&rt, rt.alloc(), "prune b f.dk", b"b : Type.\n", 0)?;
    let unknown = first_write(&rt, rt.alloc(), "prune c f.dk", b"unknown c\n", 1)?;
    let none = call.is_none() && known.is_none() && unknown.is_none();
    assert!(rt; none, "{call:?} {known:?} {unknown:?}");
    Ok(())
}
