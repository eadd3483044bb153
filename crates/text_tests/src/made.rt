//! The stated text: by hand for few theorems, and its size for many.
ghost use Rattle.std.specs.Prelude.{◌<◌};

use dk_io::{Failed, MemSink};
use dk_make::make;
use std::alloc::{AllocError, Global};
use std::test::Fail;

// The beginning and the first ten theorems.
const LINES: [&str; 18] = [
    "nat : Type.",
    "z : nat.",
    "s : nat -> nat.",
    "def plus : nat -> nat -> nat.",
    "[n] plus z n --> n",
    "[m, n] plus (s m) n --> s (plus m n).",
    "eq : nat -> nat -> Type.",
    "refl : n : nat -> eq n n.",
    "thm t1 : eq (plus (s z) (s z)) (s (s z)) := refl (s (s z)).",
    "thm t2 : eq (plus (s (s z)) (s (s z))) (s (s (s (s z)))) := refl (s (s (s (s z)))).",
    "thm t3 : eq (plus (s (s (s z))) (s (s (s z)))) (s (s (s (s (s (s z)))))) := refl (s (s (s (s (s (s z)))))).",
    "thm t4 : eq (plus (s (s (s (s z)))) (s (s (s (s z))))) (s (s (s (s (s (s (s (s z)))))))) := refl (s (s (s (s (s (s (s (s z)))))))).",
    "thm t5 : eq (plus (s (s (s (s (s z))))) z) (s (s (s (s (s z))))) := refl (s (s (s (s (s z))))).",
    "thm t6 : eq (plus (s (s (s (s (s (s z)))))) (s z)) (s (s (s (s (s (s (s z))))))) := refl (s (s (s (s (s (s (s z))))))).",
    "thm t7 : eq (plus z (s (s z))) (s (s z)) := refl (s (s z)).",
    "thm t8 : eq (plus (s z) (s (s (s z)))) (s (s (s (s z)))) := refl (s (s (s (s z)))).",
    "thm t9 : eq (plus (s (s z)) (s (s (s (s z))))) (s (s (s (s (s (s z)))))) := refl (s (s (s (s (s (s z)))))).",
    "thm t10 : eq (plus (s (s (s z))) z) (s (s (s z))) := refl (s (s (s z))).",
];

// The theorem with the greatest sum, and the next one, with the least.
const LAST: [&str; 2] = [
    "thm t34 : eq (plus (s (s (s (s (s (s z)))))) (s (s (s (s z))))) (s (s (s (s (s (s (s (s (s (s z)))))))))) := refl (s (s (s (s (s (s (s (s (s (s z)))))))))).",
    "thm t35 : eq (plus z z) z := refl z.",
];

// The lines, each with its newline.
fn text_of(alloc: Global, lines: &[&str]) -> Result<Vec<u8>, AllocError> {
    let mut text = Vec::new(alloc);
    for line in lines {
        text.extend_from_slice(line.as_bytes())?;
        text.push(b'\n')?;
    }
    Ok(text)
}

// A sink after so many theorems were made into it, and whether all were.
fn made(
    alloc: Global,
    n: u32,
    room: usize,
    piece: usize,
    failing: &[u64],
) -> Result<(MemSink, bool), Fail>
    requires { 0 < piece }
{
    let failing = Vec::from_slice(alloc, failing)?;
    let mut sink = MemSink::new(alloc, room, piece, failing)?;
    let whole = match make(n, &mut sink) {
        Ok(()) => true,
        Err(Failed) => false,
    };
    Ok((sink, whole))
}

// Whether the text of so many theorems is the first of the lines.
fn is_as_written(alloc: Global, n: u32, count: usize, piece: usize) -> Result<bool, Fail>
    requires { 0 < piece }
{
    let text = text_of(alloc, LINES.get(..count).ok_or("so many lines")?)?;
    let (sink, whole) = made(alloc, n, 2000, piece, &[])?;
    Ok(whole && sink.bytes() == text.as_slice())
}

// Whether the text of 35 theorems ends with the last lines.
fn ends_as_written(alloc: Global) -> Result<bool, Fail> {
    let end = text_of(alloc, &LAST)?;
    let (sink, whole) = made(alloc, 35, 4000, 4096, &[])?;
    Ok(whole && sink.bytes().ends_with(&end))
}

// Whether a sink of so much room, with this piece and failing call, has the whole text, or a front of so many bytes.
fn takes(
    alloc: Global,
    n: u32,
    room: usize,
    piece: usize,
    failing: u64,
    taken: (usize, bool),
) -> Result<bool, Fail>
    requires { 0 < piece }
{
    let (text, _) = made(alloc, n, 10_000_000, 4096, &[])?;
    let (sink, whole) = made(alloc, n, room, piece, &[failing])?;
    Ok((sink.bytes().len(), whole) == taken && text.bytes().starts_with(sink.bytes()))
}

// The stated lines; then the stated size, which is 175 bytes, and for each theorem 35 and the digits of its number and 12 a
// successor of its sum, where the sums of 35 theorems in a row have 175 successors together; then fronts: 98,104 bytes are
// 23 whole buffers and 3,896 bytes more.
#[test]
fn makes_the_stated_text(rt: HostRuntime) -> Result<(), Fail> {
    let alloc = rt.alloc();
    let mut as_stated = ends_as_written(alloc)?;
    for (n, count) in [(0, 8), (1, 9), (2, 10), (9, 17), (10, 18)] {
        as_stated = is_as_written(alloc, n, count, 7)? && as_stated;
    }
    for (n, room, piece, failing, taken) in [
        (0, 10_000_000, 4096, 0, (175, true)),
        (1, 10_000_000, 4096, 0, (235, true)),
        (35, 10_000_000, 4096, 0, (3561, true)),
        (1000, 10_000_000, 4096, 0, (98104, true)),
        (100000, 10_000_000, 4096, 0, (9989070, true)),
        (1000, 234, 4096, 0, (234, false)),
        (1000, 98103, 4096, 0, (98103, false)),
        (1000, 98104, 4096, 1, (0, false)),
        (1000, 98104, 4096, 2, (4096, false)),
        (1000, 98104, 4096, 24, (94208, false)),
        (1000, 98104, 1, 175, (174, false)),
    ] {
        as_stated = piece > 0 && takes(alloc, n, room, piece, failing, taken)? && as_stated;
    }
    assert!(rt; as_stated);
    Ok(())
}
