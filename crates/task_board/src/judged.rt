//! What stands behind the tickets: a book, whose history is legal by the verdicts that its jobs are due.
use board_core::{Book, Checkable, Event};
use std::sync::Arc;
use ticket_slot::Kept;

/// A book, and the jobs that it gave away and got back.
pub struct Judged<J: Checkable> {
    pub book: Book<J>,
    /// Answered jobs that the reader hasn't taken back yet.
    pub spent: Vec<Arc<J>>,
}

impl<J: Checkable> Kept for Judged<J> {
    ghost use Rattle.task_board.specs.Histories.{log_of, IsLegalLog};

    type Event = Event;

    type Item = (J, bool);

    ghost events = { λ b. log_of b.book.events };

    ghost items = { λ b. b.book.jobs };

    ghost lawful = { IsLegalLog J.due J.early };
}
