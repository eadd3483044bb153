//! How a file ends.
ghost use Rattle.std.specs.Prelude.{◌≡◌};
ghost use Rattle.verdict_book.specs.Report.{status_of, stop_status};

use crate::{ModuleRef, PlaceRef, status};
use dk_model::Verdict;

/// How a file ends: the last line of its report.
#[derive(Drop)]
pub enum Outcome<'a> {
    /// All commands were accepted, so many.
    Accepted(u32),
    /// The command of that number, counted from 1, at that place, with a verdict other than Accepted.
    Stopped(u32, PlaceRef<'a>, Verdict),
    /// A read failed while the command of that number was due, at that place.
    Unread(u32, PlaceRef<'a>),
    /// The file of that module was needed and couldn't be opened.
    Unopened(ModuleRef<'a>),
}

impl<'a> Outcome<'a> {
    /// The status that the program ends with.
    pub fn status(&self) -> u8
        ensures { result ≡ status_of self.now }
    {
        match self {
            Outcome::Accepted(_) => status::ACCEPTED,
            Outcome::Stopped(_, _, verdict) => stopped(*verdict),
            Outcome::Unread(..) | Outcome::Unopened(_) => status::UNREAD,
        }
    }
}

fn stopped(verdict: Verdict) -> u8
    ensures { result ≡ stop_status verdict }
{
    match verdict {
        Verdict::Accepted => status::ACCEPTED,
        Verdict::Refused(_) => status::REFUSED,
        Verdict::Memory => status::MEMORY,
        Verdict::Ended => status::BUDGET,
    }
}
