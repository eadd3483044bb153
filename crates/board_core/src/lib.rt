//! The board without threads: which events may happen, and the book that keeps them.
//!
//! A reader puts jobs, workers claim and answer them, and the reader seals the board. What they do is
//! a list of events. `IsLawful` of specs/Machine.antt says which lists of events may happen
//! (docs/board.md has it as a table).
//! Begin at `Book`, then specs/.
#![tactic(auto)]

mod book;
mod checkable;
mod checker;
mod event;
mod history;
mod laws;
mod past;
mod room;
mod steps;
mod task;

pub use book::Book;
pub use checkable::Checkable;
pub use checker::{Checker, Gate};
pub use event::{End, Event, Place};
pub use history::{History, Step};
pub use laws::{
    answered_by_claimer, answered_once, claimed_by_one, claimed_once, finished_when_drained,
    lawful_prefix, one_task_each, settled_unclaimed, verdict_answered, verdict_due,
    verdict_from_answer,
};
pub use past::Past;
pub use room::{Leftover, Lists, Offer, Room};
pub use task::{Claimed, PutRefused, Task};
