//! A script, read piece by piece.
ghost use Rattle.std.specs.Prelude.{◌≡◌, ◌<◌, ◌≤◌, [], ℕ, List, Ok, Err, OnOk, length};
ghost use Rattle.dk_io.specs.Causes.{Rose};
ghost use Rattle.dk_lexer.specs.Tokens.{input_limit};
ghost use Rattle.dk_model.specs.declared.limits.Limits.{Limits as Bounds};
ghost use Rattle.replay_script.specs.Standing.{Ends, EndsAt, IsAfter, IsWithin, output_of};

use crate::line::Stop;
use crate::piece::Replay;
use dk_io::{Failed, Shelf, Sink};
use dk_model::Limits;
use std::alloc::Global;

/// How the taking of a script ended.
#[derive(Clone, Copy, Debug, PartialEq, Eq)]
pub enum Ending {
    /// At its end, or at the byte past the limit.
    Whole,
    /// A read failed while the line of this number was due.
    Unread(u32),
    /// A write failed.
    SinkFailed,
    /// Memory ended while the line of this number was due.
    NoMemory(u32),
}

/// Takes the edits of the script that is open, and writes what each of its lines writes as soon as the line was read: the
/// report of the texts as they stand with the number of commands that were checked for it, or that the line is bad.
pub fn replay_script<H: Shelf, K: Sink>(
    alloc: Global,
    limits: Limits,
    budget: u64,
    shelf: &mut H,
    sink: &mut K,
) -> Ending
    ensures ends { Ends limits budget (H.left shelf.old) (H.left shelf.new)
        (output_of K.Sink sink.old) (output_of K.Sink sink.new) result }
    ensures faults { result ≡ Ending.Whole → H.faults shelf.new ≡ H.faults shelf.old }
    ensures missed { result ≡ Ending.Whole
        → (name : List ℕ) → H.missed shelf.new name ≡ H.missed shelf.old name }
    ensures unread { (number : ℕ) → result ≡ Ending.Unread number
        → Rose (H.faults shelf.old) (H.faults shelf.new) }
{
    let Ok(mut replay) = Replay::new(alloc, limits, budget) else {
        return Ending::NoMemory(1);
    };
    let most = limits.input_bytes.min(4_294_967_294);
    match take_script(&mut replay, shelf, sink, most) {
        Ok(()) => Ending::Whole,
        Err(Stop::Unread) => Ending::Unread(replay.number),
        Err(Stop::SinkFailed) => Ending::SinkFailed,
        Err(Stop::NoMemory) => Ending::NoMemory(replay.number),
    }
}

// Takes the script that is open, to its end or to the byte past the limit.
fn take_script<H: Shelf, K: Sink>(
    replay: &mut Replay,
    shelf: &mut H,
    sink: &mut K,
    most: u32,
) -> Result<(), Stop>
    requires within { IsWithin replay.old }
    requires most { most < 4294967295 }
    requires count { replay.old.count ≤ most }
    ensures faults { OnOk result (H.faults shelf.new ≡ H.faults shelf.old) }
    ensures missed { OnOk result
        ((name : List ℕ) → H.missed shelf.new name ≡ H.missed shelf.old name) }
    ensures unread { (limits : Bounds) (budget : ℕ) → IsAfter limits budget [] replay.old []
        → most ≡ input_limit limits → result ≡ Err Stop.Unread
        → Rose (H.faults shelf.old) (H.faults shelf.new) }
    ensures ends { (limits : Bounds) (budget : ℕ) → IsAfter limits budget [] replay.old []
        → most ≡ input_limit limits
        → EndsAt limits budget (H.left shelf.old) (H.left shelf.new) replay.new.number
        (output_of K.Sink sink.old) (output_of K.Sink sink.new) result }
{
    let mut buf = [0u8; 4096];
    loop {
        match shelf.read(&mut buf) {
            Ok(0) => return replay.take_rest(sink),
            Ok(count) => match replay.take_piece(sink, most, &buf[..count]) {
                Ok(true) => {}
                Ok(false) => return Ok(()),
                Err(stop) => return Err(stop),
            },
            Err(Failed) => return Err(Stop::Unread),
        }
    }
}
