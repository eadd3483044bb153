//! Rechecks the commands of a file against a certificate (docs/certificates.md).
ghost use Rattle.std.specs.Prelude.{◌≡◌, ◌≢◌, ◌<◌, [], IfOk, length, map};
ghost use Rattle.dk_io.specs.Causes.{HasCause};
ghost use Rattle.dk_io.specs.Writing.{Wrote};
ghost use Rattle.dk_model.specs.Scoping.{plain_command};
ghost use Rattle.command_line.specs.Requests.{to_recheck};
ghost use Rattle.command_line.specs.Views.{plain_recheck};
ghost use Rattle.verdict_book.specs.Report.{last_line, status_of, word_line};
ghost use Rattle.verdict_book.specs.Stops.{StopsAtFault};
ghost use Rattle.book_reader.specs.Shelves.{shelf_of};
ghost use Rattle.recheck_theory.specs.Views.{plain_answer};
ghost use Rattle.dk_check_run.specs.Held.{FitsGiving};
ghost use Rattle.dk_check_run.specs.Recheck.{answer_line, answer_status, certificate_limit, line_due};
ghost use Rattle.dk_check_run.specs.Rechecking.{GivesAnswer, PutsEnd};
ghost use Rattle.dk_check_run.specs.Run.{Writes, sink_of};
ghost use Rattle.dk_check_run.specs.Table.{RunsCommand};

use crate::answering::{folder_of, put_memory, put_unopened, root_of, standard_modules};
use crate::held::{Given, Giving, take_book};
use command_line::RecheckRequest;
use dk_io::{Failed, Shelf, Sink};
use dk_model::{Limits, NoMemory, Scoped, Verdict};
use recheck_theory::{Answer, recheck};
use replay_script::put_line;
use std::alloc::Global;
use theory_reading::{ReadingEnd, read_theory};
use verdict_book::{ModuleRef, Outcome, Piece, PlaceRef, status, write_last};

// A word and a number.
fn put_number<K: Sink>(sink: &mut K, word: &str, number: u64) -> Result<(), Failed>
    ensures wrote { Wrote (K.taken sink.old) (K.taken sink.new)
        (word_line word.now number) result }
    ensures cause { HasCause (K.faults sink.old) (K.faults sink.new) result }
{
    let pieces = [
        Piece::Text(word.as_bytes()),
        Piece::Text(b" "),
        Piece::Number(number),
        Piece::Text(b"\n"),
    ];
    put_line(sink, &pieces)
}

// A word and a number, and the status that they come with.
fn put_told<K: Sink>(sink: &mut K, word: &str, number: u64, status: u8) -> u8
    requires { status ≢ 5 }
    ensures { Writes (sink_of K.Sink sink.old) (sink_of K.Sink sink.new)
        (word_line word.now number) status result }
{
    match put_number(sink, word, number) {
        Ok(()) => status,
        Err(_) => status::SINK_FAILED,
    }
}

fn put_answer<K: Sink>(sink: &mut K, answer: Answer) -> u8
    ensures { Writes (sink_of K.Sink sink.old) (sink_of K.Sink sink.new)
        (answer_line (plain_answer answer)) (answer_status (plain_answer answer)) result }
{
    match answer {
        Answer::Rechecked(count) => put_told(sink, "rechecked", count, status::ACCEPTED),
        Answer::Rejected(number) => put_told(sink, "rejected", number, status::REFUSED),
    }
}

// The last line of a report, of a file in this folder.
pub fn put_outcome<'x, K: Sink>(
    sink: &mut K,
    outcome: &'x Outcome<'x>,
    budget: u64,
    folder: &str,
) -> u8
    requires { StopsAtFault outcome.now }
    ensures { Writes (sink_of K.Sink sink.old) (sink_of K.Sink sink.new)
        (last_line outcome.now budget folder.now) (status_of outcome.now) result }
{
    match write_last(&[], outcome, budget, folder, sink) {
        Ok(()) => outcome.status(),
        Err(_) => status::SINK_FAILED,
    }
}

// Why the file wasn't read to its end.
pub fn put_end<K: Sink>(sink: &mut K, end: &ReadingEnd, file: &str) -> u8
    ensures { PutsEnd (sink_of K.Sink sink.old) (sink_of K.Sink sink.new)
        file.now end.now result }
{
    let folder = folder_of(file);
    match end {
        ReadingEnd::Refused(number, place, code) => {
            let verdict = Verdict::Refused(*code);
            let outcome = Outcome::Stopped(*number, PlaceRef::of(place), verdict);
            put_outcome(sink, &outcome, 0, folder)
        }
        ReadingEnd::Unread(number, place) => {
            let outcome = Outcome::Unread(*number, PlaceRef::of(place));
            put_outcome(sink, &outcome, 0, folder)
        }
        ReadingEnd::Unopened(module) => {
            let outcome = Outcome::Unopened(ModuleRef::of(module));
            put_outcome(sink, &outcome, 0, folder)
        }
        ReadingEnd::NoFile => put_unopened(sink, file),
        ReadingEnd::NoMemory => put_memory(sink),
    }
}

// The number of the line that is due behind these bytes.
fn line_due(bytes: &[u8]) -> u64
    requires { length bytes.now < 4294967296 }
    ensures { result ≡ line_due bytes.now }
{
    let mut line = 1;
    let mut rest = bytes;
    while let Some((byte, others)) = rest.split_first() {
        if *byte == b'\n' {
            line += 1;
        }
        rest = others;
    }
    line
}

// How many bytes a certificate may have.
fn certificate_limit(limits: &Limits) -> u32
    ensures { result ≡ certificate_limit limits.now }
{
    limits.input_bytes.min(4_294_967_294)
}

// What is answered of what was given of a certificate, which is past the limit or whole.
fn answer_of(
    alloc: Global,
    most: u32,
    commands: &[Scoped],
    given: &Given,
) -> Result<Answer, NoMemory>
    requires { FitsGiving most given.now.bytes.items given.now.how }
    ensures { IfOk result (λ answer. GivesAnswer most (map plain_command commands.now)
        given.now.bytes.items given.now.how (plain_answer answer)) }
{
    let bytes = given.bytes.as_slice();
    match given.how {
        Giving::TooLong => match recheck(alloc, commands, &bytes[..most as usize])? {
            Answer::Rechecked(_) => Ok(Answer::Rejected(commands.len() as u64 + 1)),
            Answer::Rejected(number) => Ok(Answer::Rejected(number)),
        },
        _ => recheck(alloc, commands, bytes),
    }
}

/// Reads the file with its modules, and rechecks its commands against the certificate.
pub fn recheck_book<H: Shelf, K: Sink>(
    alloc: Global,
    limits: Limits,
    shelf: &mut H,
    sink: &mut K,
    request: &RecheckRequest<'_>,
) -> u8
    requires limit { limits.commands < 4294967294 }
    requires shelf { H.aside shelf.old ≡ [] }
    ensures { RunsCommand limits (to_recheck (plain_recheck request.now))
        (shelf_of H.Shelf shelf.old) (shelf_of H.Shelf shelf.new)
        (sink_of K.Sink sink.old) (sink_of K.Sink sink.new) result }
{
    let most = certificate_limit(&limits);
    let Ok(root) = root_of(alloc, limits, standard_modules(), request.file) else {
        return put_memory(sink);
    };
    let commands = match read_theory(alloc, root, shelf) {
        Ok(commands) => commands,
        Err(end) => return put_end(sink, &end, request.file),
    };
    if let Err(_) = shelf.open_book(request.certificate) {
        return put_unopened(sink, request.certificate);
    }
    let Ok(given) = take_book(alloc, most, shelf) else {
        return put_memory(sink);
    };
    match given.how {
        Giving::Failed => {
            let line = line_due(given.bytes.as_slice());
            put_told(sink, "unread", line, status::UNREAD)
        }
        _ => match answer_of(alloc, most, commands.as_slice(), &given) {
            Ok(answer) => put_answer(sink, answer),
            Err(_) => put_memory(sink),
        },
    }
}
