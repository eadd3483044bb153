//! The call that the program makes.
ghost use Rattle.std.specs.Prelude.{◌≡◌, [], map};
ghost use Rattle.std.specs.String.{string_bytes};
ghost use Rattle.command_line.specs.Requests.{request_of};
ghost use Rattle.dk_model.specs.Limits.{standard};
ghost use Rattle.book_reader.specs.Shelves.{shelf_of};
ghost use Rattle.dk_check_run.specs.Certify.{IsClosedFor};
ghost use Rattle.dk_check_run.specs.Clauses.{Promises};
ghost use Rattle.dk_check_run.specs.Run.{sink_of};
ghost use Rattle.dk_check_run.specs.Table.{Runs};

use crate::answering::run_with;
use accepted_theory::accepted_are_read;
use board_core::Gate;
use certify_theory::laws::certified_is_rechecked;
use dk_io::{Shelf, Sink};
use dk_model::Limits;
use prune_file::{accepted_is_reported, pruned_stands_alone};
use recheck_theory::laws::rechecked_have_derivations;
use std::alloc::Global;
use std::sync::Wait;
use std::thread::Threads;

/// Checks the file that the words name, or the theory that they have made, and writes its report to
/// the sink, or what the file is pruned to, or its certificate; or rechecks a file against a
/// certificate; or takes the edits of a script, and writes the reports that it asks for. Answers
/// the status (docs/report.md).
///
/// `words[0]` is the program's name and isn't looked at. The shelf has no book put aside
/// (`dk_io::Shelf`), and none open where the words ask to certify a file, which is opened twice.
/// Where a read or an opening fails the books that are open stay on it. The clauses hold for every
/// number of workers and whatever the order of their steps; that the waits for other threads end is
/// a premise of them. How far the shelf is read behind the first command that isn't accepted
/// depends on the workers, and the report doesn't. A want of memory is answered as such wherever it
/// comes, and no clause says that it came. The gate's calls stand round each check, and no answer
/// depends on them.
pub fn run<R: Threads + Wait + Sync, H: Shelf, K: Sink, G: Gate + Sync>(
    rt: &R,
    alloc: Global,
    words: &[String],
    shelf: &mut H,
    sink: &mut K,
    gate: &G,
) -> u8
    requires shelf { H.aside shelf.old ≡ [] }
    requires closed { IsClosedFor (request_of (map string_bytes words.now)) (H.is_open shelf.old) }

    // A row of the table was due, and was written or cut.
    ensures due { Runs standard (request_of (map string_bytes words.now))
        (shelf_of H.Shelf shelf.old) (shelf_of H.Shelf shelf.new)
        (sink_of K.Sink sink.old) (sink_of K.Sink sink.new) result }

    // What follows from it, each promise by its name.
    ensures promises { Promises standard (request_of (map string_bytes words.now))
        (shelf_of H.Shelf shelf.old) (shelf_of H.Shelf shelf.new)
        (sink_of K.Sink sink.old) (sink_of K.Sink sink.new) result }
{
    pruned_stands_alone();
    accepted_is_reported();
    rechecked_have_derivations();
    accepted_are_read();
    certified_is_rechecked();
    run_with(rt, alloc, Limits::standard(), words, shelf, sink, gate)
}
