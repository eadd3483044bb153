//! What the program does: reads its words, checks what they ask for and writes the report.
ghost use Rattle.std.specs.Prelude.{◌≡◌, ◌<◌, ◌≤◌, ◌++◌, [], IfOk, length, map};
ghost use Rattle.std.specs.String.{string_bytes};
ghost use Rattle.command_line.specs.Requests.{request_of, to_check, to_make};
ghost use Rattle.command_line.specs.Usage.{usage_text};
ghost use Rattle.command_line.specs.Views.{IsWorkerCount, plain_check, plain_make};
ghost use Rattle.board_core.specs.Machine.{IsFinished, marks_of};
ghost use Rattle.verdict_book.specs.Books.{IsReportOf};
ghost use Rattle.verdict_book.specs.Pieces.{pieces_text};
ghost use Rattle.verdict_book.specs.Report.{FileReport, last_line, report_of, status_of};
ghost use Rattle.verdict_book.specs.Stops.{StopsAtFault};
ghost use Rattle.theory_walk.specs.BookNames.{folder_of};
ghost use Rattle.book_reader.specs.Shelves.{ShelfState, shelf_of};
ghost use Rattle.dk_check_run.specs.Books.{standard_modules};
ghost use Rattle.dk_check_run.specs.Certify.{IsClosedFor};
ghost use Rattle.dk_check_run.specs.Roots.{IsRootOf};
ghost use Rattle.dk_check_run.specs.Run.{Writes, made_line, memory_at_once, sink_of, text_of, unopened};
ghost use Rattle.dk_check_run.specs.Summaries.{is_at_once, text_by};
ghost use Rattle.dk_check_run.specs.Table.{Runs, RunsCommand};

use crate::certifying::certify_book;
use crate::pruning::prune_book;
use crate::rechecking::recheck_book;
use crate::replaying::replay_book;
use board_core::Gate;
use book_reader::{Root, own_module};
use command_line::{CheckRequest, MakeRequest, Request, read_request, usage_text};
use dk_io::{Shelf, Sink, put, put_all};
use dk_make::MadeText;
use dk_model::{Limits, NoMemory, Verdict};
use file_check::{Asked, CheckedBook, Unchecked, check_books};
use std::alloc::Global;
use std::sync::Wait;
use std::thread::Threads;
use theory_walk::ModuleLimits;
use verdict_book::{Outcome, Piece, PlaceRef, outcome_of, status, write_last, write_report};

fn put_usage<K: Sink>(sink: &mut K) -> u8
    ensures { Writes (sink_of K.Sink sink.old) (sink_of K.Sink sink.new) usage_text 2 result }
{
    match put(sink, usage_text()) {
        Ok(()) => status::USAGE,
        Err(_) => status::SINK_FAILED,
    }
}

// Writes these pieces, and the last line of a report behind them.
pub fn put_last<'x, K: Sink>(
    sink: &mut K,
    head: &[Piece<'_>],
    outcome: &'x Outcome<'x>,
    budget: u64,
) -> u8
    requires { StopsAtFault outcome.now }
    ensures { Writes (sink_of K.Sink sink.old) (sink_of K.Sink sink.new)
        (pieces_text head.now ++ last_line outcome.now budget []) (status_of outcome.now) result }
{
    match write_last(head, outcome, budget, "", sink) {
        Ok(()) => outcome.status(),
        Err(_) => status::SINK_FAILED,
    }
}

// That memory ended before the first command was begun.
pub fn put_memory<K: Sink>(sink: &mut K) -> u8
    ensures { Writes (sink_of K.Sink sink.old) (sink_of K.Sink sink.new) memory_at_once 4 result }
{
    let outcome = Outcome::Stopped(0, PlaceRef::nowhere(), Verdict::Memory);
    put_last(sink, &[], &outcome, 0)
}

pub fn put_unopened<K: Sink>(sink: &mut K, file: &str) -> u8
    ensures { Writes (sink_of K.Sink sink.old) (sink_of K.Sink sink.new)
        (unopened file.now) 3 result }
{
    let pieces = [b"unopened ".as_slice(), file.as_bytes(), b"\n".as_slice()];
    match put_all(sink, &pieces) {
        Ok(()) => status::UNREAD,
        Err(_) => status::SINK_FAILED,
    }
}

// The part of a file's name up to and with its last slash, or nothing.
pub fn folder_of(file: &str) -> &str
    ensures { result.now ≡ folder_of file.now }
{
    match file.rfind('/') {
        Some(slash) => &file[..slash + 1],
        None => "",
    }
}

// Writes the report of what was checked.
fn put_report<K: Sink>(sink: &mut K, checked: &CheckedBook, request: &CheckRequest<'_>) -> u8
    requires finished { IsFinished (marks_of checked.now.book.jobs) checked.now.book.events }
    requires all { length checked.now.titles ≡ length checked.now.book.jobs }
    ensures { (report : FileReport) →
        IsReportOf checked.now.titles checked.now.book.events report →
        Writes (sink_of K.Sink sink.old) (sink_of K.Sink sink.new)
        (text_of (plain_check request.now) report) (status_of report.outcome) result }
{
    let CheckedBook { book, titles } = checked;
    let outcome = outcome_of(book, titles);
    let folder = folder_of(request.file);
    match write_report(book, titles, request.budget, request.quiet, folder, sink) {
        Ok(()) => outcome.status(),
        Err(_) => status::SINK_FAILED,
    }
}

// How many files may be open, and how many modules opened besides the file.
#[tactic(auto, unfolding(crate::specs::Books::standard_modules))]
pub fn standard_modules() -> ModuleLimits
    ensures value { result ≡ standard_modules }
    ensures files { (0 < result.files) × (result.files ≤ 64) }
{
    ModuleLimits {
        files: 64,
        modules: 1_000,
    }
}

// What is read where the file has this name.
pub fn root_of(
    alloc: Global,
    limits: Limits,
    most: ModuleLimits,
    file: &str,
) -> Result<Root, NoMemory>
    ensures { IfOk result (IsRootOf limits most file.now) }
{
    let own = own_module(alloc, file.as_bytes())?;
    let file = String::from_str(alloc, file)?;
    Ok(Root {
        limits,
        most,
        file,
        own,
    })
}

// Checks the file, with all that it needs.
fn check_file<R: Threads + Wait + Sync, H: Shelf, K: Sink, G: Gate + Sync>(
    rt: &R,
    alloc: Global,
    limits: Limits,
    shelf: &mut H,
    sink: &mut K,
    gate: &G,
    request: &CheckRequest<'_>,
) -> u8
    requires limit { limits.commands < 4294967294 }
    requires some { IsWorkerCount request.now.workers }
    requires shelf { H.aside shelf.old ≡ [] }
    ensures { RunsCommand limits (to_check (plain_check request.now))
        (shelf_of H.Shelf shelf.old) (shelf_of H.Shelf shelf.new)
        (sink_of K.Sink sink.old) (sink_of K.Sink sink.new) result }
{
    let Ok(root) = root_of(alloc, limits, standard_modules(), request.file) else {
        return put_memory(sink);
    };
    let (budget, workers) = (request.budget, request.workers);
    let asked = Asked {
        root,
        budget,
        workers,
        split: request.split,
    };
    match check_books(rt, alloc, asked, shelf, gate) {
        Ok(checked) => put_report(sink, &checked, request),
        Err(Unchecked::Unopened) => put_unopened(sink, request.file),
        Err(Unchecked::NoMemory) => put_memory(sink),
    }
}

// Whether memory ended before the first command.
fn is_at_once(outcome: &Outcome<'_>) -> bool
    ensures { result ≡ is_at_once outcome.now }
{
    match outcome {
        Outcome::Stopped(number, _, Verdict::Memory) => *number == 0,
        _ => false,
    }
}

// Writes the summary of a made theory of so many bytes, whose check ended so.
fn put_summary<'x, K: Sink>(
    sink: &mut K,
    request: &MakeRequest,
    size: usize,
    outcome: &'x Outcome<'x>,
) -> u8
    requires { StopsAtFault outcome.now }
    ensures { Writes (sink_of K.Sink sink.old) (sink_of K.Sink sink.new)
        (text_by (made_line request.now.count size) request.now.budget outcome.now)
        (status_of outcome.now) result }
{
    if is_at_once(outcome) {
        return put_memory(sink);
    }
    let head = [
        Piece::Text(b"make "),
        Piece::Number(request.count as u64),
        Piece::Text(b" bytes "),
        Piece::Number(size as u64),
        Piece::Text(b"\n"),
    ];
    put_last(sink, &head, outcome, request.budget)
}

// Makes the theory, checks it and writes its summary.
fn check_theory<R: Threads + Wait + Sync, K: Sink, G: Gate + Sync>(
    rt: &R,
    alloc: Global,
    limits: Limits,
    sink: &mut K,
    gate: &G,
    request: &MakeRequest,
) -> u8
    requires limit { limits.commands < 4294967294 }
    requires some { IsWorkerCount request.now.workers }
    ensures { (shelf : ShelfState) →
        RunsCommand limits (to_make (plain_make request.now)) shelf shelf
        (sink_of K.Sink sink.old) (sink_of K.Sink sink.new) result }
{
    let Ok(mut text) = MadeText::new(alloc, request.count) else {
        return put_memory(sink);
    };
    let size = text.size();
    let alone = ModuleLimits {
        files: 1,
        modules: 0,
    };
    let Ok(root) = root_of(alloc, limits, alone, "") else {
        return put_memory(sink);
    };
    let (budget, workers) = (request.budget, request.workers);
    let asked = Asked {
        root,
        budget,
        workers,
        split: None,
    };
    match check_books(rt, alloc, asked, &mut text, gate) {
        Ok(checked) => {
            let outcome = outcome_of(&checked.book, &checked.titles);
            put_summary(sink, request, size, &outcome)
        }
        Err(_) => put_memory(sink),
    }
}

/// `run`, with reading at these limits.
pub fn run_with<R: Threads + Wait + Sync, H: Shelf, K: Sink, G: Gate + Sync>(
    rt: &R,
    alloc: Global,
    limits: Limits,
    words: &[String],
    shelf: &mut H,
    sink: &mut K,
    gate: &G,
) -> u8
    requires limit { limits.commands < 4294967294 }
    requires shelf { H.aside shelf.old ≡ [] }
    requires closed { IsClosedFor (request_of (map string_bytes words.now)) (H.is_open shelf.old) }
    ensures { Runs limits (request_of (map string_bytes words.now))
        (shelf_of H.Shelf shelf.old) (shelf_of H.Shelf shelf.new)
        (sink_of K.Sink sink.old) (sink_of K.Sink sink.new) result }
{
    let request = match read_request(alloc, words) {
        Ok(Some(request)) => request,
        Ok(None) => return put_usage(sink),
        Err(_) => return put_memory(sink),
    };
    match request {
        Request::Check(request) => check_file(rt, alloc, limits, shelf, sink, gate, &request),
        Request::Make(request) => check_theory(rt, alloc, limits, sink, gate, &request),
        Request::Certify(request) => certify_book(rt, alloc, limits, shelf, sink, gate, &request),
        Request::Recheck(request) => recheck_book(alloc, limits, shelf, sink, &request),
        Request::Prune(request) => prune_book(rt, alloc, limits, shelf, sink, gate, &request),
        Request::Replay(request) => replay_book(alloc, limits, shelf, sink, &request),
    }
}
