//! What happens on the board: the events of its history, and how it ends.
ghost use Rattle.std.specs.Prelude.{◌≡◌, IfOk};
ghost use Rattle.board_core.specs.Places.{in_file};

use dk_model::{Listed, NoMemory, Verdict};
use std::alloc::Global;

/// A line in the file of a module.
#[derive(Debug, Drop)]
pub struct Place {
    /// From 1, or 0 where nothing was begun.
    pub line: u32,
    /// Empty for the file that is checked.
    pub module: Listed<u8>,
}

impl Place {
    /// A line of the file that is checked. Takes no memory.
    pub fn in_file(alloc: Global, line: u32) -> Place
        ensures { result ≡ in_file line }
    {
        Place {
            line,
            module: Listed::new(alloc),
        }
    }

    /// The same place in memory of its own.
    pub fn copy(&self, alloc: Global) -> Result<Place, NoMemory>
        ensures { IfOk result (λ copy. copy ≡ self.now) }
    {
        Ok(Place {
            line: self.line,
            module: self.module.copy(alloc)?,
        })
    }
}

/// Why the reader puts no further job.
#[derive(Debug, Drop)]
pub enum End {
    /// The input was read to its end.
    Whole,
    /// The reader itself gave the command after the last job this verdict, never `Accepted`; before
    /// it that command's place.
    Fault(Place, Verdict),
    /// The input could not be read on after the last job, at that place.
    Unread(Place),
    /// The file of this module is needed after the last job, and couldn't be opened.
    Unopened(Listed<u8>),
    /// Some job was answered with a verdict other than `Accepted`.
    Stopped,
}

impl End {
    /// The same end in memory of its own.
    pub fn copy(&self, alloc: Global) -> Result<End, NoMemory>
        ensures { IfOk result (λ copy. copy ≡ self.now) }
    {
        Ok(match self {
            End::Whole => End::Whole,
            End::Fault(place, verdict) => End::Fault(place.copy(alloc)?, *verdict),
            End::Unread(place) => End::Unread(place.copy(alloc)?),
            End::Unopened(module) => End::Unopened(module.copy(alloc)?),
            End::Stopped => End::Stopped,
        })
    }
}

/// One event of a history. Jobs are numbered from 1, in the order in which they were put.
#[derive(Debug, Drop)]
pub enum Event {
    /// The job of this number was put.
    Put(u32),
    /// A worker, named by its own number, took the job of the second number.
    Claim(u32, u32),
    /// That worker gave that job this verdict.
    Answer(u32, u32, Verdict),
    /// No job comes after this.
    Seal(End),
}
