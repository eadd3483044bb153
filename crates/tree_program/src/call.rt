//! What a call of the program does, over any shelf and sink.
ghost use Rattle.std.specs.Prelude.{◌≡◌, [], length};
ghost use Rattle.board_core.specs.Machine.{IsFinished, marks_of};

use crate::trial::try_book;
use crate::tried::Tried;
use command_line::{CheckRequest, Request, read_request, usage_text};
use dk_io::{Failed, Shelf, Sink, put, put_all};
use dk_model::Limits;
use std::alloc::Global;
use std::io::ErrorKind;
use verdict_book::{outcome_of, status, write_report};

/// Does what the words ask, and answers the status (docs/report.md). The only thing that can be asked is the check of a
/// file; the number of workers is taken and changes nothing.
pub fn answer_call<H: Shelf, K: Sink>(
    alloc: Global,
    words: &Result<Vec<String>, ErrorKind>,
    shelf: &mut H,
    sink: &mut K,
) -> u8
    requires shelf { H.aside shelf.old ≡ [] }
{
    let words = match words {
        Ok(words) => words.as_slice(),
        Err(ErrorKind::OutOfMemory) => return status::MEMORY,
        Err(_) => return status::USAGE,
    };
    match read_request(alloc, words) {
        Ok(Some(Request::Check(request))) => check_file(alloc, shelf, sink, &request),
        Ok(_) => told(put(sink, usage_text()), status::USAGE),
        Err(_) => put_memory(sink),
    }
}

// The status of a report that is written.
fn told(written: Result<(), Failed>, status: u8) -> u8 {
    match written {
        Ok(()) => status,
        Err(Failed) => status::SINK_FAILED,
    }
}

// Memory ended before the first command.
fn put_memory<K: Sink>(sink: &mut K) -> u8 {
    told(put(sink, b"memory 0 line 0\n"), status::MEMORY)
}

fn check_file<H: Shelf, K: Sink>(
    alloc: Global,
    shelf: &mut H,
    sink: &mut K,
    request: &CheckRequest<'_>,
) -> u8
    requires shelf { H.aside shelf.old ≡ [] }
{
    let Ok(()) = shelf.open_book(request.file) else {
        let line = [
            b"unopened ".as_slice(),
            request.file.as_bytes(),
            b"\n".as_slice(),
        ];
        return told(put_all(sink, &line), status::UNREAD);
    };
    match try_book(alloc, Limits::standard(), request.budget, shelf) {
        Ok(tried) => put_report(sink, &tried, request),
        Err(_) => put_memory(sink),
    }
}

fn put_report<K: Sink>(sink: &mut K, tried: &Tried, request: &CheckRequest<'_>) -> u8
    requires finished { IsFinished (marks_of tried.now.book.jobs) tried.now.book.events }
    requires all { length tried.now.titles ≡ length tried.now.book.jobs }
{
    let Tried { book, titles } = tried;
    let outcome = outcome_of(book, titles);
    let written = write_report(book, titles, request.budget, request.quiet, "", sink);
    told(written, outcome.status())
}
