//! Each failure of shelf and sink while a certificate is made.
use crate::pruning::{TWO, first_write};
use crate::rows::{EMPTY, Row, is_answered};
use dk_check_run::NoGate;
use dk_io::NoMemory;
use std::alloc::Global;
use std::sync::Wait;
use std::test::Fail;
use std::thread::Threads;

const OF_TWO: &str = "dk certificate 1\nc 1\nr 0\nc 2\nr 0\nend\n";

// The status and the text of two commands of ten bytes, read byte by byte, where this call of the
// shelf fails: the openings are the first and the 23rd, and each reading ends with a read of
// nothing.
fn text_at_call(call: u64) -> (u8, &'static str) {
    match call {
        1 | 23 => (3, "unopened f.dk\n"),
        2..=11 | 24..=33 => (3, "unread 1\n"),
        12..=21 | 34..=43 => (3, "unread 2\n"),
        22 | 44 => (3, "unread 3\n"),
        _ => (0, OF_TWO),
    }
}

/// The first call of the shelf whose failure isn't answered as it is due.
fn first_call<R: Threads + Wait + Sync>(rt: &R, alloc: Global) -> Result<Option<u64>, NoMemory> {
    for call in 1..46 {
        let (status, taken) = text_at_call(call);
        let row = Row {
            words: "certify f.dk",
            text: TWO.as_bytes(),
            piece: 1,
            shelf_call: call,
            status,
            taken: taken.as_bytes(),
            ..EMPTY
        };
        if !is_answered(rt, alloc, &row, &NoGate)? {
            return Ok(Some(call));
        }
    }
    Ok(None)
}

#[test]
fn answers_each_failure_while_certifying(rt: HostRuntime) -> Result<(), Fail> {
    let call = first_call(&rt, rt.alloc())?;
    let write = first_write(&rt, rt.alloc(), "certify f.dk", OF_TWO.as_bytes(), 0)?;
    let none = call.is_none() && write.is_none();
    assert!(rt; none, "{call:?} {write:?}");
    Ok(())
}
