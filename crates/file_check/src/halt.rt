//! Where a command stands, and why no other is put.
ghost use Rattle.std.specs.Prelude.{◌≡◌};
ghost use Rattle.file_report.specs.Reports.{place_of};
ghost use Rattle.file_check.specs.Halts.{end_at};

use board_core::{End, Place};
use dk_model::{Listed, Verdict};
use dk_parser::Raw;
use std::alloc::Global;

/// A command and its place.
#[derive(Drop)]
pub struct Located {
    pub raw: Raw,
    pub place: Place,
}

/// Why a command isn't put.
#[derive(Drop)]
pub enum NotPut {
    /// Some job is at fault.
    Stopped,
    /// The command has this verdict.
    Verdict(Verdict),
}

/// Why no further command is put; lines are those of the book being read.
#[derive(Drop)]
pub enum Halt {
    /// The file was read to its end, and all that it needs.
    Whole,
    /// Some job is at fault.
    Stopped,
    /// A read failed.
    Unread,
    /// The book of this module couldn't be opened.
    Unopened(Listed<u8>),
    /// The command or directive at this line has this verdict.
    Fault(u32, Verdict),
}

/// A line of the book of a module, or of the file.
pub fn place_of(alloc: Global, module: Option<Listed<u8>>, line: u32) -> Place
    ensures { result ≡ place_of (record { book = «module»; line = line }) }
{
    match module {
        Some(module) => Place { line, module },
        None => Place::in_file(alloc, line),
    }
}

/// How the board is sealed where this is the book being read. Takes no memory.
pub fn end_at(alloc: Global, module: Option<Listed<u8>>, halt: Halt) -> End
    ensures { result ≡ end_at «module» halt }
{
    match halt {
        Halt::Whole => End::Whole,
        Halt::Stopped => End::Stopped,
        Halt::Unread => End::Unread(place_of(alloc, module, 0)),
        Halt::Unopened(name) => End::Unopened(name),
        Halt::Fault(line, verdict) => End::Fault(place_of(alloc, module, line), verdict),
    }
}
