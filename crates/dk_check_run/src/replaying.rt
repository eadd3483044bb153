//! Takes the edits of a script, and writes what its lines write (docs/sessions.md).
ghost use Rattle.std.specs.Prelude.{◌≡◌, []};
ghost use Rattle.command_line.specs.Requests.{to_replay};
ghost use Rattle.command_line.specs.Views.{plain_replay};
ghost use Rattle.book_reader.specs.Shelves.{shelf_of};
ghost use Rattle.dk_check_run.specs.Replay.{memory_line, unread_line};
ghost use Rattle.dk_check_run.specs.Run.{Writes, sink_of};
ghost use Rattle.dk_check_run.specs.Table.{RunsCommand};

use crate::answering::put_unopened;
use command_line::ReplayRequest;
use dk_io::{Shelf, Sink};
use dk_model::Limits;
use replay_script::{Ending, put_line, replay_script};
use std::alloc::Global;
use verdict_book::{Piece, status};

// That a read failed while the line of this number was due.
fn put_unread<K: Sink>(sink: &mut K, number: u32) -> u8
    ensures { Writes (sink_of K.Sink sink.old) (sink_of K.Sink sink.new)
        (unread_line number) 3 result }
{
    let pieces = [
        Piece::Text(b"unread "),
        Piece::Number(number as u64),
        Piece::Text(b"\n"),
    ];
    match put_line(sink, &pieces) {
        Ok(()) => status::UNREAD,
        Err(_) => status::SINK_FAILED,
    }
}

// That memory ended while that line was due.
fn put_memory_at<K: Sink>(sink: &mut K, number: u32) -> u8
    ensures { Writes (sink_of K.Sink sink.old) (sink_of K.Sink sink.new)
        (memory_line number) 4 result }
{
    let pieces = [
        Piece::Text(b"memory "),
        Piece::Number(number as u64),
        Piece::Text(b" line "),
        Piece::Number(number as u64),
        Piece::Text(b"\n"),
    ];
    match put_line(sink, &pieces) {
        Ok(()) => status::MEMORY,
        Err(_) => status::SINK_FAILED,
    }
}

/// Takes the script of this name.
pub fn replay_book<H: Shelf, K: Sink>(
    alloc: Global,
    limits: Limits,
    shelf: &mut H,
    sink: &mut K,
    request: &ReplayRequest<'_>,
) -> u8
    requires shelf { H.aside shelf.old ≡ [] }
    ensures { RunsCommand limits (to_replay (plain_replay request.now))
        (shelf_of H.Shelf shelf.old) (shelf_of H.Shelf shelf.new)
        (sink_of K.Sink sink.old) (sink_of K.Sink sink.new) result }
{
    if let Err(_) = shelf.open_book(request.script) {
        return put_unopened(sink, request.script);
    }
    match replay_script(alloc, limits, request.budget, shelf, sink) {
        Ending::Whole => status::ACCEPTED,
        Ending::Unread(number) => put_unread(sink, number),
        Ending::SinkFailed => status::SINK_FAILED,
        Ending::NoMemory(number) => put_memory_at(sink, number),
    }
}
