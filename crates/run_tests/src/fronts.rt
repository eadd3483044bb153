//! Files that are cut off, and files of one byte.
use crate::rows::{EMPTY, Row, is_answered};
use dk_check_run::NoGate;
use dk_io::NoMemory;
use std::alloc::Global;
use std::sync::Wait;
use std::test::Fail;
use std::thread::Threads;

// Numbers, their addition and a theorem.
const NUMBERS: &str =
    "nat : Type.\nz : nat.\ns : nat -> nat.\ndef plus : nat -> nat -> nat.\n[n] plus z n --> n\n[m, n] plus (s m) n --> s (plus m n).\neq : nat -> nat -> Type.\nrefl : n : nat -> eq n n.\nthm two : eq (plus (s (s z)) (s (s z))) (s (s (s (s z)))) := refl (s (s (s (s z)))).\n";

// Fronts of the text from so many bytes to fewer than so many, with the status and the last line of their report.
const FRONTS: [(usize, usize, u8, &str); 19] = [
    (0, 1, 0, "accepted 0\n"),
    (1, 11, 1, "refused 1 line 1 E03\n"),
    (11, 13, 0, "accepted 1\n"),
    (13, 20, 1, "refused 2 line 2 E03\n"),
    (20, 22, 0, "accepted 2\n"),
    (22, 36, 1, "refused 3 line 3 E03\n"),
    (36, 38, 0, "accepted 3\n"),
    (38, 66, 1, "refused 4 line 4 E03\n"),
    (66, 68, 0, "accepted 4\n"),
    (68, 123, 1, "refused 5 line 5 E03\n"),
    (123, 125, 0, "accepted 5\n"),
    (125, 148, 1, "refused 6 line 7 E03\n"),
    (148, 150, 0, "accepted 6\n"),
    (150, 174, 1, "refused 7 line 8 E03\n"),
    (174, 176, 0, "accepted 7\n"),
    (176, 234, 1, "refused 8 line 9 E03\n"),
    // A colon, behind a colon and a term; it is the front of a sign that may stand there.
    (234, 235, 1, "refused 8 line 9 E02\n"),
    (235, 259, 1, "refused 8 line 9 E03\n"),
    (259, 261, 0, "accepted 8\n"),
];

/// The first length of a front that isn't answered as it is due.
fn first_front<R: Threads + Wait + Sync>(rt: &R, alloc: Global) -> Result<Option<usize>, NoMemory> {
    let bytes = NUMBERS.as_bytes();
    for (first, end, status, last) in FRONTS {
        for length in first..end {
            let row = Row {
                words: "check --quiet f.dk",
                text: bytes.get(..length).unwrap_or(b"$"),
                status,
                taken: last.as_bytes(),
                ..EMPTY
            };
            if !is_answered(rt, alloc, &row, &NoGate)? {
                return Ok(Some(length));
            }
        }
    }
    Ok(None)
}

// A blank; a sign that begins no command; what the end of the input leaves unfinished; what begins nothing.
fn report_of_byte(byte: u8) -> (u8, &'static str) {
    match byte {
        b'\t' | b'\n' | b'\r' | b' ' => (0, "accepted 0\n"),
        b'(' | b')' | b',' | b'.' | b':' | b']' | b'_' | b'}' => (1, "refused 1 line 1 E02\n"),
        b'!' | b'-' | b'=' | b'?' | b'[' | b'{' => (1, "refused 1 line 1 E03\n"),
        b'0'..=b'9' | b'A'..=b'Z' | b'a'..=b'z' => (1, "refused 1 line 1 E03\n"),
        _ => (1, "refused 1 line 1 E01\n"),
    }
}

/// The first byte whose file isn't answered as it is due.
fn first_byte<R: Threads + Wait + Sync>(rt: &R, alloc: Global) -> Result<Option<u8>, NoMemory> {
    for byte in 0..=255u8 {
        let (status, report) = report_of_byte(byte);
        let text = Vec::from_slice(alloc, &[byte])?;
        let row = Row {
            words: "check f.dk",
            text: text.as_slice(),
            status,
            taken: report.as_bytes(),
            ..EMPTY
        };
        if !is_answered(rt, alloc, &row, &NoGate)? {
            return Ok(Some(byte));
        }
    }
    Ok(None)
}

#[test]
fn reports_each_front_and_each_byte(rt: HostRuntime) -> Result<(), Fail> {
    let front = first_front(&rt, rt.alloc())?;
    let byte = first_byte(&rt, rt.alloc())?;
    assert_eq!(rt; (front, byte), (None, None), "of the files");
    Ok(())
}
