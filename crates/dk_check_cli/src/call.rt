//! What a call of the program does, over any shelf and sink.
ghost use Rattle.std.specs.Prelude.{◌≡◌, ◌<◌, [], IfErr, IfOk, false, map};
ghost use Rattle.std.specs.String.{string_bytes};
ghost use Rattle.command_line.specs.Requests.{request_of};
ghost use Rattle.dk_model.specs.Limits.{standard};
ghost use Rattle.book_reader.specs.Shelves.{shelf_of};
ghost use Rattle.dk_check_run.specs.Run.{sink_of};
ghost use Rattle.dk_check_run.specs.Table.{Runs};
ghost use Rattle.dk_check_cli.specs.Calls.{status_without_words};

use dk_check_run::{NoGate, run, status};
use dk_io::{Shelf, Sink};
use std::alloc::Global;
use std::io::ErrorKind;
use std::sync::Wait;
use std::thread::Threads;

/// Asks `run` for these words and answers its status. The shelf has no book open and none put
/// aside. Where the words couldn't be had, the kind of the error decides, and nothing is read or
/// written.
pub fn answer_call<R: Threads + Wait + Sync, H: Shelf, K: Sink>(
    rt: &R,
    alloc: Global,
    words: &Result<Vec<String>, ErrorKind>,
    shelf: &mut H,
    sink: &mut K,
) -> u8
    requires shelf { H.aside shelf.old ≡ [] }
    requires closed { H.is_open shelf.old ≡ false }
    ensures given { IfOk words.now (λ w. Runs standard (request_of (map string_bytes w.items))
        (shelf_of H.Shelf shelf.old) (shelf_of H.Shelf shelf.new)
        (sink_of K.Sink sink.old) (sink_of K.Sink sink.new) result) }
    ensures missing { IfErr words.now (λ kind. (result ≡ status_without_words kind)
        × (shelf.new ≡ shelf.old) × (sink.new ≡ sink.old)) }
    ensures statuses { result < 7 }
{
    match words {
        Ok(words) => run(rt, alloc, words.as_slice(), shelf, sink, &NoGate),
        Err(ErrorKind::OutOfMemory) => status::MEMORY,
        Err(_) => status::USAGE,
    }
}
