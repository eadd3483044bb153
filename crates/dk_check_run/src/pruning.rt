//! Writes what a file is pruned to for a name (docs/pruning.md).
ghost use Rattle.std.specs.Prelude.{◌≡◌, ◌<◌, []};
ghost use Rattle.command_line.specs.Requests.{to_prune};
ghost use Rattle.command_line.specs.Views.{plain_prune};
ghost use Rattle.theory_walk.specs.BookNames.{own_module};
ghost use Rattle.book_reader.specs.Shelves.{shelf_of};
ghost use Rattle.prune_file.specs.Files.{IsAccepted};
ghost use Rattle.prune_file.specs.Laws.{text_at};
ghost use Rattle.prune_file.specs.Told.{told_verdict};
ghost use Rattle.dk_check_run.specs.Held.{PutsPruned};
ghost use Rattle.dk_check_run.specs.Prune.{unknown};
ghost use Rattle.dk_check_run.specs.Run.{Writes, sink_of};
ghost use Rattle.dk_check_run.specs.Table.{RunsCommand};

use crate::answering::{put_last, put_memory, put_unopened, root_of};
use crate::held::{Alone, Giving, HeldBook, take_book};
use board_core::Gate;
use book_reader::own_module;
use command_line::PruneRequest;
use command_texts::Span;
use dk_io::{Shelf, Sink, put_all};
use dk_model::{Code, Limits, Verdict};
use file_check::{Asked, check_books};
use prune_file::{pruned_spans, reported_is_accepted, write_texts};
use std::alloc::Global;
use std::sync::Wait;
use std::thread::Threads;
use theory_walk::ModuleLimits;
use verdict_book::{Outcome, outcome_of, status};

// A need of another module is told as such.
fn told(verdict: Verdict) -> Verdict
    ensures { result ≡ told_verdict verdict }
{
    match verdict {
        Verdict::Refused(Code::E14) => Verdict::Refused(Code::E17),
        Verdict::Refused(Code::E15) => Verdict::Refused(Code::E17),
        verdict => verdict,
    }
}

// That no command declares the name.
fn put_unknown<K: Sink>(sink: &mut K, name: &str) -> u8
    ensures { Writes (sink_of K.Sink sink.old) (sink_of K.Sink sink.new) (unknown name.now) 1 result }
{
    let pieces = [b"unknown ".as_slice(), name.as_bytes(), b"\n".as_slice()];
    match put_all(sink, &pieces) {
        Ok(()) => status::REFUSED,
        Err(_) => status::SINK_FAILED,
    }
}

// The texts that have these spans.
fn put_texts<K: Sink>(sink: &mut K, bytes: &[u8], spans: &[Span]) -> u8
    ensures { Writes (sink_of K.Sink sink.old) (sink_of K.Sink sink.new)
        (text_at bytes.now spans.now) 0 result }
{
    match write_texts(sink, bytes, spans) {
        Ok(()) => status::ACCEPTED,
        Err(_) => status::SINK_FAILED,
    }
}

// What this accepted file is pruned to.
fn put_pruned<K: Sink>(
    alloc: Global,
    limits: Limits,
    sink: &mut K,
    bytes: &[u8],
    request: &PruneRequest<'_>,
) -> u8
    requires { IsAccepted limits (own_module request.now.file.now) request.now.budget bytes.now }
    ensures { PutsPruned limits (plain_prune request.now) bytes.now
        (sink_of K.Sink sink.old) (sink_of K.Sink sink.new) result }
{
    let Ok(own) = own_module(alloc, request.file.as_bytes()) else {
        return put_memory(sink);
    };
    match pruned_spans(alloc, limits, &own, request.name.as_bytes(), bytes) {
        Ok(Some(spans)) => put_texts(sink, bytes, spans.as_slice()),
        Ok(None) => put_unknown(sink, request.name),
        Err(_) => put_memory(sink),
    }
}

/// Checks the file, alone, and writes what it is pruned to.
pub fn prune_book<R: Threads + Wait + Sync, H: Shelf, K: Sink, G: Gate + Sync>(
    rt: &R,
    alloc: Global,
    limits: Limits,
    shelf: &mut H,
    sink: &mut K,
    gate: &G,
    request: &PruneRequest<'_>,
) -> u8
    requires limit { limits.commands < 4294967294 }
    requires shelf { H.aside shelf.old ≡ [] }
    ensures { RunsCommand limits (to_prune (plain_prune request.now))
        (shelf_of H.Shelf shelf.old) (shelf_of H.Shelf shelf.new)
        (sink_of K.Sink sink.old) (sink_of K.Sink sink.new) result }
{
    reported_is_accepted();
    if let Err(_) = shelf.open_book(request.file) {
        return put_unopened(sink, request.file);
    }
    let Ok(given) = take_book(alloc, limits.input_bytes, shelf) else {
        return put_memory(sink);
    };
    let alone = ModuleLimits {
        files: 1,
        modules: 0,
    };
    let Ok(root) = root_of(alloc, limits, alone, request.file) else {
        return put_memory(sink);
    };
    let (budget, workers) = (request.budget, 4);
    let asked = Asked {
        root,
        budget,
        workers,
        split: None,
    };
    let mut book = HeldBook {
        shelf: &*shelf,
        file: request.file,
        bytes: given.bytes.as_slice(),
        how: given.how,
        at: 0,
        is_open: false,
        lies: Alone,
        is_below: false,
        faults: 0,
        missed: 0,
    };
    let Ok(checked) = check_books(rt, alloc, asked, &mut book, gate) else {
        return put_memory(sink);
    };
    match outcome_of(&checked.book, &checked.titles) {
        Outcome::Accepted(_) => match given.how {
            Giving::Whole => put_pruned(alloc, limits, sink, given.bytes.as_slice(), request),
            _ => put_memory(sink),
        },
        Outcome::Unread(number, place) => match given.how {
            Giving::Failed => put_last(sink, &[], &Outcome::Unread(number, place), budget),
            _ => put_memory(sink),
        },
        Outcome::Unopened(_) => put_memory(sink),
        Outcome::Stopped(number, place, verdict) => {
            let outcome = Outcome::Stopped(number, place, told(verdict));
            put_last(sink, &[], &outcome, budget)
        }
    }
}
