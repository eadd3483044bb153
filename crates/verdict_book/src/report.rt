//! The lines of a report.
ghost use Rattle.std.specs.Prelude.{◌++◌, codes};
ghost use Rattle.dk_io.specs.Causes.{HasCause};
ghost use Rattle.dk_io.specs.Gathered.{Gathers};
ghost use Rattle.verdict_book.specs.Report.{in_book, last_line, name_in, ok_name, shown_line, stop_text, text_line, word_line};
ghost use Rattle.verdict_book.specs.Stops.{IsFault, StopsAtFault};

use crate::shown::{Kind, ShownRef};
use crate::{Outcome, Piece, put_pieces};
use dk_io::{Buffer, Failed, Sink};
use dk_model::Verdict;

/// How the lines of a report are written.
#[derive(Drop)]
pub struct Style<'a> {
    /// The number in the line that says that the budget ended.
    pub budget: u64,
    /// Without `ok` lines.
    pub quiet: bool,
    /// What stands before the name of a module's file.
    pub folder: &'a str,
}

// A word, the number of a command, and a text.
fn put_text<'x, K: Sink>(
    buffer: &mut Buffer,
    sink: &mut K,
    word: &'x str,
    number: u64,
    text: &'x [u8],
) -> Result<(), Failed>
    ensures put { Gathers (K.taken sink.old) buffer.old (K.taken sink.new) buffer.new
        (text_line word.now number text.now) result }
    ensures cause { HasCause (K.faults sink.old) (K.faults sink.new) result }
{
    let word = Piece::Text(word.as_bytes());
    let blank = Piece::Text(b" ");
    let number = Piece::Number(number);
    let text = Piece::Text(text);
    let end = Piece::Text(b"\n");
    put_pieces(buffer, sink, &[word, blank, number, blank, text, end])
}

// A word and the number of a command.
fn put_word<'x, K: Sink>(
    buffer: &mut Buffer,
    sink: &mut K,
    word: &'x str,
    number: u64,
) -> Result<(), Failed>
    ensures put { Gathers (K.taken sink.old) buffer.old (K.taken sink.new) buffer.new
        (word_line word.now number) result }
    ensures cause { HasCause (K.faults sink.old) (K.faults sink.new) result }
{
    let word = Piece::Text(word.as_bytes());
    let blank = Piece::Text(b" ");
    let number = Piece::Number(number);
    let end = Piece::Text(b"\n");
    put_pieces(buffer, sink, &[word, blank, number, end])
}

// The `ok` line of an accepted command of this module.
fn put_ok<'x, K: Sink>(
    buffer: &mut Buffer,
    sink: &mut K,
    number: u64,
    module: &'x [u8],
    name: &'x [u8],
) -> Result<(), Failed>
    ensures put { Gathers (K.taken sink.old) buffer.old (K.taken sink.new) buffer.new
        (shown_line number (ok_name (name_in «module».now name.now))) result }
    ensures cause { HasCause (K.faults sink.old) (K.faults sink.new) result }
{
    if module.is_empty() {
        return put_text(buffer, sink, "ok", number, name);
    }
    let ok = Piece::Text(b"ok ");
    let blank = Piece::Text(b" ");
    let number = Piece::Number(number);
    let module = Piece::Text(module);
    let dot = Piece::Text(b".");
    let name = Piece::Text(name);
    let end = Piece::Text(b"\n");
    put_pieces(buffer, sink, &[ok, number, blank, module, dot, name, end])
}

/// The line of an accepted command.
pub fn put_shown<'x, K: Sink>(
    buffer: &mut Buffer,
    sink: &mut K,
    number: u64,
    shown: &'x ShownRef<'x>,
) -> Result<(), Failed>
    ensures put { Gathers (K.taken sink.old) buffer.old (K.taken sink.new) buffer.new
        (shown_line number shown.now) result }
    ensures cause { HasCause (K.faults sink.old) (K.faults sink.new) result }
{
    match shown.kind {
        Kind::Name => put_ok(buffer, sink, number, shown.module, shown.text),
        Kind::Asserted => put_text(buffer, sink, "ok", number, b"#ASSERT"),
        Kind::Yes => put_word(buffer, sink, "yes", number),
        Kind::No => put_word(buffer, sink, "no", number),
        Kind::Of => put_text(buffer, sink, "type", number, shown.text),
        Kind::Value => put_text(buffer, sink, "value", number, shown.text),
    }
}

// What the last line says up to its place's module.
fn put_stop<K: Sink>(
    buffer: &mut Buffer,
    sink: &mut K,
    place: (u32, u32),
    verdict: Verdict,
    budget: u64,
) -> Result<(), Failed>
    requires { IsFault verdict }
    ensures put { Gathers (K.taken sink.old) buffer.old (K.taken sink.new) buffer.new
        (stop_text place.0 place.1 verdict budget) result }
    ensures cause { HasCause (K.faults sink.old) (K.faults sink.new) result }
{
    let number = Piece::Number(place.0 as u64);
    let line = Piece::Number(place.1 as u64);
    let at = Piece::Text(b" line ");
    let blank = Piece::Text(b" ");
    match verdict {
        Verdict::Accepted => unreachable!(),
        Verdict::Refused(code) => {
            let refused = Piece::Text(b"refused ");
            let code = Piece::Text(code.spelling());
            put_pieces(buffer, sink, &[refused, number, at, line, blank, code])
        }
        Verdict::Ended => {
            let ended = Piece::Text(b"budget ");
            let budget = Piece::Number(budget);
            put_pieces(buffer, sink, &[ended, number, at, line, blank, budget])
        }
        Verdict::Memory => {
            let memory = Piece::Text(b"memory ");
            put_pieces(buffer, sink, &[memory, number, at, line])
        }
    }
}

// The end of a last line about a place of this module.
fn put_place<'x, K: Sink>(
    buffer: &mut Buffer,
    sink: &mut K,
    folder: &'x str,
    module: &'x [u8],
) -> Result<(), Failed>
    ensures put { Gathers (K.taken sink.old) buffer.old (K.taken sink.new) buffer.new
        (in_book folder.now «module».now ++ codes "\n") result }
    ensures cause { HasCause (K.faults sink.old) (K.faults sink.new) result }
{
    let end = Piece::Text(b"\n");
    if module.is_empty() {
        return put_pieces(buffer, sink, &[end]);
    }
    let within = Piece::Text(b" in ");
    let folder = Piece::Text(folder.as_bytes());
    let module = Piece::Text(module);
    let ending = Piece::Text(b".dk");
    put_pieces(buffer, sink, &[within, folder, module, ending, end])
}

/// The last line.
pub fn put_last<'x, K: Sink>(
    buffer: &mut Buffer,
    sink: &mut K,
    outcome: &'x Outcome<'x>,
    style: &'x Style<'x>,
) -> Result<(), Failed>
    requires { StopsAtFault outcome.now }
    ensures put { Gathers (K.taken sink.old) buffer.old (K.taken sink.new) buffer.new
        (last_line outcome.now style.now.budget style.now.folder.now) result }
    ensures cause { HasCause (K.faults sink.old) (K.faults sink.new) result }
{
    match outcome {
        Outcome::Accepted(count) => {
            let accepted = Piece::Text(b"accepted ");
            let end = Piece::Text(b"\n");
            put_pieces(buffer, sink, &[accepted, Piece::Number(*count as u64), end])
        }
        Outcome::Stopped(number, place, verdict) => {
            let at = (*number, place.line());
            match put_stop(buffer, sink, at, *verdict, style.budget) {
                Ok(()) => put_place(buffer, sink, style.folder, place.module()),
                Err(failed) => Err(failed),
            }
        }
        Outcome::Unread(number, place) => {
            let unread = Piece::Text(b"unread ");
            match put_pieces(buffer, sink, &[unread, Piece::Number(*number as u64)]) {
                Ok(()) => put_place(buffer, sink, style.folder, place.module()),
                Err(failed) => Err(failed),
            }
        }
        Outcome::Unopened(module) => {
            let unopened = Piece::Text(b"unopened ");
            let folder = Piece::Text(style.folder.as_bytes());
            let ending = Piece::Text(b".dk\n");
            put_pieces(
                buffer,
                sink,
                &[unopened, folder, Piece::Text(module.name()), ending],
            )
        }
    }
}
