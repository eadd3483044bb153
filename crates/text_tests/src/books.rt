ghost use Rattle.std.specs.Prelude.{◌≡◌, ◌<◌, ◌≤◌, ◌+◌, [], IfOk, Some, length, map};

use dk_io::{Book, Buffer, Failed, MemShelf, MemSink, OsShelf, OsSink, Shelf, Sink, put};
use std::alloc::{AllocError, Global};
use std::fs::Files;
use std::io;
use std::io::Write;
use std::test::Fail;

fn one_book(alloc: Global, name: &str, bytes: &[u8]) -> Result<Vec<Book>, AllocError> {
    let name = String::from_str(alloc, name)?;
    let bytes = Vec::from_slice(alloc, bytes)?;
    let mut books = Vec::new(alloc);
    books.push(Book { name, bytes })?;
    Ok(books)
}

// What a call answers, as one letter: a digit for so many bytes, `o` for an opened book and `F` for a
// failure. `a` and `b` open the book of that name, and `r` reads into a buffer of four bytes.
#[tactic(auto, using(crate::proofs::Asides::one_more, crate::proofs::Asides::as_many))]
fn answer_of(shelf: &mut MemShelf, call: u8) -> u8
    requires few { length (map Some shelf.old.aside) < 64 }
    ensures { length (map Some shelf.new.aside) ≤ length (map Some shelf.old.aside) + 1 }
{
    let mut buf = [0u8; 4];
    match call {
        b'a' => opened(shelf.open_book("a.dk")),
        b'b' => opened(shelf.open_book("b.dk")),
        _ => match shelf.read(&mut buf) {
            Ok(count) => digit(count),
            Err(Failed) => b'F',
        },
    }
}

// What the calls of a script answer, the first 60 of them.
fn played(alloc: Global, shelf: &mut MemShelf, script: &str) -> Result<Vec<u8>, AllocError>
    requires none { shelf.old.aside ≡ [] }
{
    let mut answers = Vec::new(alloc);
    let mut calls: u32 = 0;
    for call in script.as_bytes() {
        if calls >= 60 {
            break;
        }
        calls += 1;
        let answer = answer_of(shelf, *call);
        answers.push(answer)?;
    }
    Ok(answers)
}

fn opened(answer: Result<(), Failed>) -> u8 {
    match answer {
        Ok(()) => b'o',
        Err(Failed) => b'F',
    }
}

fn digit(count: usize) -> u8 {
    match count {
        0 => b'0',
        1 => b'1',
        2 => b'2',
        3 => b'3',
        4 => b'4',
        _ => b'?',
    }
}

// A shelf with one book, `a.dk`, of seven bytes.
fn shelf_of(alloc: Global, piece: usize, failing: &[u64]) -> Result<MemShelf, Fail>
    requires { 0 < piece }
    ensures none { IfOk result (λ s. s.aside ≡ []) }
{
    let failing = Vec::from_slice(alloc, failing)?;
    let books = one_book(alloc, "a.dk", b"seven b")?;
    Ok(MemShelf::new(alloc, books, piece, failing)?)
}

// Whether the shelf answers this to a script.
fn answers(
    alloc: Global,
    piece: usize,
    failing: &[u64],
    script: &str,
    due: &str,
) -> Result<bool, Fail>
    requires { 0 < piece }
{
    let mut shelf = shelf_of(alloc, piece, failing)?;
    let found = played(alloc, &mut shelf, script)?;
    Ok(found.as_slice() == due.as_bytes())
}

fn shelves_answer(alloc: Global) -> Result<bool, Fail> {
    for (piece, failing, script, due) in [
        // before any book there is nothing to read; after the end there is nothing more
        (9, [0, 0], "rarrrr", "0o4300"),
        // at most a piece at a time
        (3, [0, 0], "arrrr", "o3310"),
        // openings and reads are numbered together, from 1
        (9, [1, 3], "aarrr", "FoF43"),
        // a failed read takes nothing, and a failed opening leaves the book where it was
        (9, [3, 4], "arrrr", "o4FF3"),
        (9, [3, 0], "araraar", "o4F3oo4"),
        // a book that isn't there
        (9, [0, 0], "barbr", "Fo4F3"),
    ] {
        if !answers(alloc, piece, failing.as_slice(), script, due)? {
            return Ok(false);
        }
    }
    Ok(true)
}

// How much is read into a buffer of four bytes: of a book, of one that is opened inside it, and of the first one again,
// which goes on where it was left; and what is in the buffer then.
#[tactic(auto, using(crate::proofs::Asides::count_more, crate::proofs::Asides::some_more))]
fn read_around<H: Shelf>(
    shelf: &mut H,
    outer: &str,
    inner: &str,
) -> Option<([Result<usize, Failed>; 3], [u8; 4])>
    requires few { length (H.aside shelf.old) < 63 }
{
    let mut buf = [0u8; 4];
    let Ok(()) = shelf.open_book(outer) else {
        return None;
    };
    let before = shelf.read(&mut buf);
    let Ok(()) = shelf.open_book(inner) else {
        return None;
    };
    let inside = shelf.read(&mut buf);
    shelf.back();
    let after = shelf.read(&mut buf);
    Some(([before, inside, after], buf))
}

fn books_go_on(alloc: Global) -> Result<bool, Fail> {
    let mut shelf = shelf_of(alloc, 9, &[])?;
    let read = read_around(&mut shelf, "a.dk", "a.dk");
    Ok(read == Some(([Ok(4), Ok(4), Ok(3)], *b"n be")))
}

// Whether a sink takes just this of a line, and says whether that is all.
fn takes(alloc: Global, room: usize, piece: usize, failing: u64, taken: &str) -> Result<bool, Fail>
    requires { 0 < piece }
{
    let failing = Vec::from_slice(alloc, [failing].as_slice())?;
    let mut sink = MemSink::new(alloc, room, piece, failing)?;
    let whole = put(&mut sink, b"ok 1 nat\n").is_ok();
    Ok(sink.bytes() == taken.as_bytes() && whole == (taken.len() == 9))
}

fn sinks_take(alloc: Global) -> Result<bool, Fail> {
    for (room, piece, failing, taken) in [
        (99, 99, 0, "ok 1 nat\n"),
        // five calls of one byte, and the sixth fails
        (99, 1, 6, "ok 1 "),
        (99, 4, 2, "ok 1"),
        // full after five bytes
        (5, 2, 0, "ok 1 "),
        (9, 2, 0, "ok 1 nat\n"),
    ] {
        if !takes(alloc, room, piece, failing, taken)? {
            return Ok(false);
        }
    }
    Ok(true)
}

fn put_lines(buffer: &mut Buffer, sink: &mut MemSink, lines: usize) -> bool {
    for _ in 0..lines {
        if buffer
            .put_all(sink, &[b"ok 1 ".as_slice(), b"nat", b"\n"])
            .is_err()
        {
            return false;
        }
    }
    buffer.flush(sink).is_ok()
}

// Whether so many lines are put whole, and how many bytes went out.
fn put_in_pieces(alloc: Global, lines: usize, failing: u64) -> Result<(bool, usize), Fail> {
    let failing = Vec::from_slice(alloc, [failing].as_slice())?;
    let mut sink = MemSink::new(alloc, 10000, 10000, failing)?;
    let whole = put_lines(&mut Buffer::new(), &mut sink, lines);
    Ok((whole, sink.bytes().len()))
}

// A line has nine bytes, so a buffer of 4,096 is full after 455 of them and a byte.
fn lines_go_out_in_few_large_pieces(alloc: Global) -> Result<bool, Fail> {
    for (lines, failing, whole, taken) in [
        (0, 1, true, 0),
        (1, 1, false, 0),
        (455, 2, true, 4095),
        (456, 2, false, 4096),
        (456, 3, true, 4104),
        (1000, 3, false, 8192),
        (1000, 4, true, 9000),
    ] {
        if put_in_pieces(alloc, lines, failing)? != (whole, taken) {
            return Ok(false);
        }
    }
    Ok(true)
}

// A writer that takes up to so many bytes a call, and whose flush fails if it is told so.
#[derive(Drop)]
struct Slow {
    most: usize,
    flushes: bool,
}

impl Write for Slow {
    fn write(&mut self, buf: &[u8]) -> io::Result<usize> {
        Ok(self.most.min(buf.len()))
    }

    fn flush(&mut self) -> io::Result<()> {
        if self.flushes {
            Ok(())
        } else {
            Err(io::Error::from(io::ErrorKind::Other))
        }
    }
}

fn outputs_flush_and_take_at_least_a_byte() -> bool {
    for (most, flushes, answer) in [
        (9, true, Ok(3)),
        (2, true, Ok(2)),
        (0, true, Err(Failed)),
        (9, false, Err(Failed)),
    ] {
        let mut sink = OsSink::new(Slow { most, flushes });
        if sink.write(b"abc") != answer {
            return false;
        }
    }
    true
}

// Whether the shelf of files opens what is there, and goes on with a file that was put aside.
fn files_open<R: Files>(rt: &R, alloc: Global) -> Result<bool, Fail> {
    let mut shelf = OsShelf::new(rt, alloc)?;
    let before = shelf.read(&mut [0u8; 4]);
    let missing = shelf.open_book("no/such/file.dk");
    let read = read_around(&mut shelf, "/dev/zero", "/dev/null");
    let is_read = read == Some(([Ok(4), Ok(0), Ok(4)], [0; 4]));
    Ok(before == Ok(0) && missing == Err(Failed) && is_read)
}

#[test]
fn shelves_and_sinks_answer_and_fail_as_listed(rt: HostRuntime) -> Result<(), Fail> {
    let alloc = rt.alloc();
    let memory = shelves_answer(alloc)? && books_go_on(alloc)? && sinks_take(alloc)?;
    let lines = lines_go_out_in_few_large_pieces(alloc)?;
    let system = outputs_flush_and_take_at_least_a_byte() && files_open(&rt, alloc)?;
    assert!(rt; memory && lines && system);
    Ok(())
}
