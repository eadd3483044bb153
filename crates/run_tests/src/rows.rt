//! What the program is asked over a shelf in memory, and whether it answers what is due.
ghost use Rattle.std.specs.Prelude.{◌≡◌, ◌<◌, [], IfOk, false};

use board_core::Gate;
use dk_check_run::{NoGate, run, run_with};
use dk_io::{Book, MemShelf, MemSink, NoMemory};
use dk_model::Limits;
use std::alloc::Global;
use std::sync::Wait;
use std::thread::Threads;

/// The books of a shelf, each with its name and text.
pub(crate) type Books = &'static [(&'static str, &'static str)];

/// What the program is asked over a shelf with these books and `f.dk`, and what it answers.
#[derive(Clone, Copy)]
pub(crate) struct Row<'a> {
    /// The words behind the program's name.
    pub(crate) words: &'a str,
    /// The books, each with its name and text; and the text of `f.dk`, if it isn't among them.
    pub(crate) books: Books,
    pub(crate) text: &'a [u8],
    /// The most bytes of a read, and the shelf's call that fails (0: none). Its first call is the opening.
    pub(crate) piece: usize,
    pub(crate) shelf_call: u64,
    /// The most bytes of a write, and the sink's call that fails (0: none).
    pub(crate) sink_piece: usize,
    pub(crate) sink_call: u64,
    pub(crate) status: u8,
    /// What the sink has taken.
    pub(crate) taken: &'a [u8],
}

/// An empty file.
pub(crate) const EMPTY: Row<'static> = Row {
    words: "check f.dk",
    books: &[],
    text: b"",
    piece: 4096,
    shelf_call: 0,
    sink_piece: 4096,
    sink_call: 0,
    status: 0,
    taken: b"accepted 0\n",
};

fn book(alloc: Global, name: &str, text: &[u8]) -> Result<Book, NoMemory> {
    Ok(Book {
        name: String::from_str(alloc, name)?,
        bytes: Vec::from_slice(alloc, text)?,
    })
}

fn shelf_of(alloc: Global, row: &Row<'_>) -> Result<MemShelf, NoMemory>
    requires { 0 < row.now.piece }
    ensures aside { IfOk result (λ s. s.aside ≡ []) }
    ensures closed { IfOk result (λ s. s.is_open ≡ false) }
{
    let mut books = Vec::new(alloc);
    for (name, text) in row.books {
        books.push(book(alloc, name, text.as_bytes())?)?;
    }
    books.push(book(alloc, "f.dk", row.text)?)?;
    let failing = Vec::from_slice(alloc, &[row.shelf_call])?;
    MemShelf::new(alloc, books, row.piece, failing)
}

fn sink_of(alloc: Global, row: &Row<'_>) -> Result<MemSink, NoMemory>
    requires { 0 < row.now.sink_piece }
{
    let failing = Vec::from_slice(alloc, &[row.sink_call])?;
    MemSink::new(alloc, 1000, row.sink_piece, failing)
}

/// The words of a line, between its spaces, behind the program's name.
fn words_of(alloc: Global, line: &str) -> Result<Vec<String>, NoMemory> {
    let mut words = Vec::new(alloc);
    words.push(String::from_str(alloc, "dk_check")?)?;
    for word in line.split_whitespace() {
        words.push(String::from_str(alloc, word)?)?;
    }
    Ok(words)
}

/// Whether `run` answers a row.
pub(crate) fn is_answered<R: Threads + Wait + Sync, G: Gate + Sync>(
    rt: &R,
    alloc: Global,
    row: &Row<'_>,
    gate: &G,
) -> Result<bool, NoMemory> {
    if row.piece == 0 || row.sink_piece == 0 {
        return Ok(false);
    }
    let words = words_of(alloc, row.words)?;
    let mut shelf = shelf_of(alloc, row)?;
    let mut sink = sink_of(alloc, row)?;
    let status = run(rt, alloc, words.as_slice(), &mut shelf, &mut sink, gate);
    Ok(status == row.status && sink.bytes() == row.taken)
}

/// Whether `run_with` answers a row, within these limits.
pub(crate) fn is_limited<R: Threads + Wait + Sync>(
    rt: &R,
    alloc: Global,
    limits: Limits,
    row: &Row<'_>,
) -> Result<bool, NoMemory>
    requires { limits.commands < 4294967294 }
{
    if row.piece == 0 || row.sink_piece == 0 {
        return Ok(false);
    }
    let words = words_of(alloc, row.words)?;
    let mut shelf = shelf_of(alloc, row)?;
    let mut sink = sink_of(alloc, row)?;
    let status = run_with(
        rt,
        alloc,
        limits,
        words.as_slice(),
        &mut shelf,
        &mut sink,
        &NoGate,
    );
    Ok(status == row.status && sink.bytes() == row.taken)
}
