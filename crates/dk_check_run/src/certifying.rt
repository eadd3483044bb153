//! Checks a file, and writes the certificate of its commands (docs/certificates.md).
ghost use Rattle.std.specs.Prelude.{◌≡◌, ◌<◌, [], false, length, map};
ghost use Rattle.command_line.specs.Requests.{to_certify};
ghost use Rattle.command_line.specs.Views.{plain_certify};
ghost use Rattle.dk_model.specs.Scoping.{plain_command};
ghost use Rattle.board_core.specs.Machine.{IsFinished, marks_of};
ghost use Rattle.verdict_book.specs.Books.{IsReportOf};
ghost use Rattle.verdict_book.specs.Report.{FileReport};
ghost use Rattle.book_reader.specs.Shelves.{ShelfState, shelf_of};
ghost use Rattle.dk_check_run.specs.Certifying.{PutsCertificate, PutsOther, WasAccepted};
ghost use Rattle.dk_check_run.specs.Run.{sink_of};
ghost use Rattle.dk_check_run.specs.Table.{RunsCommand};

use crate::answering::{folder_of, put_memory, put_unopened, root_of, standard_modules};
use crate::rechecking::{put_end, put_outcome};
use accepted_theory::accepted_are_read;
use board_core::Gate;
use certify_theory::{CertifyFault, certify};
use command_line::CertifyRequest;
use dk_io::{Shelf, Sink};
use dk_model::{Limits, Scoped};
use file_check::{Asked, CheckedBook, Unchecked, check_books};
use std::alloc::Global;
use std::sync::Wait;
use std::thread::Threads;
use theory_reading::read_theory;
use told_steps::Tells;
use tree_evaluation::Telling;
use verdict_book::{Outcome, outcome_of, status};

// The last line of the report of what was checked; or nothing, where all is accepted.
fn put_other<K: Sink>(
    sink: &mut K,
    checked: CheckedBook,
    request: &CertifyRequest<'_>,
) -> Option<u8>
    requires finished { IsFinished (marks_of checked.book.jobs) checked.book.events }
    requires all { length checked.titles ≡ length checked.book.jobs }
    ensures { (report : FileReport) → IsReportOf checked.titles checked.book.events report →
        PutsOther (plain_certify request.now)
        (sink_of K.Sink sink.old) (sink_of K.Sink sink.new) report.outcome result }
{
    let CheckedBook { book, titles } = checked;
    match outcome_of(&book, &titles) {
        Outcome::Accepted(_) => None,
        outcome => {
            let folder = folder_of(request.file);
            Some(put_outcome(sink, &outcome, request.budget, folder))
        }
    }
}

// The certificate of these commands, as far as memory goes.
fn put_certificate<K: Sink, T: Tells>(
    sink: &mut K,
    evaluation: &mut T,
    budget: u64,
    commands: &[Scoped],
) -> u8
    ensures { PutsCertificate (map plain_command commands.now)
        (sink_of K.Sink sink.old) (sink_of K.Sink sink.new) result }
{
    match certify(evaluation, sink, budget, commands) {
        Ok(()) => status::ACCEPTED,
        Err(CertifyFault::Failed) => status::SINK_FAILED,
        Err(CertifyFault::NoMemory(_)) => put_memory(sink),
        // A file that was accepted gets here only where it is another one by now.
        Err(CertifyFault::NotAccepted(_)) => put_memory(sink),
    }
}

// Reads the commands of an accepted file again, and writes their certificate.
fn certify_read<H: Shelf, K: Sink>(
    alloc: Global,
    limits: Limits,
    shelf: &mut H,
    sink: &mut K,
    request: &CertifyRequest<'_>,
) -> u8
    requires limit { limits.commands < 4294967294 }
    requires shelf { H.aside shelf.old ≡ [] }
    ensures { (before : ShelfState) →
        WasAccepted limits (plain_certify request.now) before (shelf_of H.Shelf shelf.old) →
        RunsCommand limits (to_certify (plain_certify request.now))
        before (shelf_of H.Shelf shelf.new)
        (sink_of K.Sink sink.old) (sink_of K.Sink sink.new) result }
{
    accepted_are_read();
    let Ok(root) = root_of(alloc, limits, standard_modules(), request.file) else {
        return put_memory(sink);
    };
    match read_theory(alloc, root, shelf) {
        Ok(commands) => {
            let mut evaluation = Telling::new(alloc);
            put_certificate(sink, &mut evaluation, request.budget, commands.as_slice())
        }
        Err(end) => put_end(sink, &end, request.file),
    }
}

/// Checks the file, with all that it needs, and where it is accepted writes the certificate of its
/// commands, which are read again for that.
pub fn certify_book<R: Threads + Wait + Sync, H: Shelf, K: Sink, G: Gate + Sync>(
    rt: &R,
    alloc: Global,
    limits: Limits,
    shelf: &mut H,
    sink: &mut K,
    gate: &G,
    request: &CertifyRequest<'_>,
) -> u8
    requires limit { limits.commands < 4294967294 }
    requires shelf { H.aside shelf.old ≡ [] }
    requires closed { H.is_open shelf.old ≡ false }
    ensures { RunsCommand limits (to_certify (plain_certify request.now))
        (shelf_of H.Shelf shelf.old) (shelf_of H.Shelf shelf.new)
        (sink_of K.Sink sink.old) (sink_of K.Sink sink.new) result }
{
    let Ok(root) = root_of(alloc, limits, standard_modules(), request.file) else {
        return put_memory(sink);
    };
    let (budget, workers) = (request.budget, 4);
    let asked = Asked {
        root,
        budget,
        workers,
        split: None,
    };
    match check_books(rt, alloc, asked, shelf, gate) {
        Ok(checked) => match put_other(sink, checked, request) {
            Some(status) => status,
            None => certify_read(alloc, limits, shelf, sink, request),
        },
        Err(Unchecked::Unopened) => put_unopened(sink, request.file),
        Err(Unchecked::NoMemory) => put_memory(sink),
    }
}
