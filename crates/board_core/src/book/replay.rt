//! A history done again at a new book.
ghost use Rattle.std.specs.Prelude.{◌≡◌, ◌+◌, ◌≤◌, ◌++◌, ◌∷◌, [], length, IfOk, OnOk};
ghost use Rattle.std.specs.Arc.{arc_value};
ghost use Rattle.board_core.specs.declared.event.Event.{Event};
ghost use Rattle.board_core.specs.Events.{puts};
ghost use Rattle.board_core.specs.Machine.{IsLawful, marks_of};
ghost use Rattle.board_core.specs.Shown.{blanks, part_of};

use crate::book::Book;
use crate::event::Event;
use crate::task::{Claimed, PutRefused, Task};
use dk_model::NoMemory;
use std::sync::Arc;

impl<J> Book<J> {
    /// The history once more: each event of it is done again at a new book, whose jobs are all this
    /// one, since those of the old book may have been let go.
    pub fn replay<B: Drop>(&self, blank: &Arc<B>) -> Result<Book<B>, NoMemory>
        ensures jobs { IfOk result (λ b. b.jobs ≡ blanks (arc_value blank.now) self.now.jobs) }
        ensures events { IfOk result (λ b. b.events ≡ self.now.events) }
    {
        let alloc = *self.history.allocator();
        let mut book = Book::new(alloc)?;
        let history = self.history();
        for at in 0..history.len() {
            self.repeat(blank, &mut book, history.event(alloc, at)?)?;
        }
        Ok(book)
    }

    /// Does one event of this book's history at a book that has all events before it.
    fn repeat<B: Drop>(
        &self,
        blank: &Arc<B>,
        book: &mut Book<B>,
        event: Event,
    ) -> Result<(), NoMemory>
        requires lawful { IsLawful (marks_of (blanks (arc_value blank.now) self.now.jobs))
            (book.old.events ++ event ∷ []) }
        requires within { puts (book.old.events ++ event ∷ [])
            ≤ length (blanks (arc_value blank.now) self.now.jobs) }
        requires part { book.old
            ≡ part_of (blanks (arc_value blank.now) self.now.jobs) book.old.events }
        ensures { OnOk result (book.new ≡ part_of (blanks (arc_value blank.now) self.now.jobs)
            (book.old.events ++ event ∷ [])) }
    {
        match event {
            Event::Put(number) => self.repeat_put(blank, book, number),
            Event::Claim(worker, number) => {
                self.repeat_claim(blank, book, worker, number);
                Ok(())
            }
            Event::Answer(worker, number, verdict) => {
                book.answer(worker, number, verdict);
                Ok(())
            }
            Event::Seal(end) => {
                book.seal(end);
                Ok(())
            }
        }
    }

    fn repeat_put<B: Drop>(
        &self,
        blank: &Arc<B>,
        book: &mut Book<B>,
        number: u32,
    ) -> Result<(), NoMemory>
        requires lawful { IsLawful (marks_of (blanks (arc_value blank.now) self.now.jobs))
            (book.old.events ++ Event.Put number ∷ []) }
        requires within { puts (book.old.events ++ Event.Put number ∷ [])
            ≤ length (blanks (arc_value blank.now) self.now.jobs) }
        requires part { book.old
            ≡ part_of (blanks (arc_value blank.now) self.now.jobs) book.old.events }
        ensures { OnOk result (book.new ≡ part_of (blanks (arc_value blank.now) self.now.jobs)
            (book.old.events ++ Event.Put number ∷ [])) }
    {
        let place = &self.jobs[number as usize - 1];
        match book.put(blank.clone()?, place.settled) {
            Ok(_) => Ok(()),
            Err(PutRefused::NoMemory { .. }) => Err(NoMemory),
            Err(PutRefused::Stopped { .. }) => unreachable!(),
        }
    }

    fn repeat_claim<B: Drop>(&self, blank: &Arc<B>, book: &mut Book<B>, worker: u32, number: u32)
        requires lawful { IsLawful (marks_of (blanks (arc_value blank.now) self.now.jobs))
            (book.old.events ++ Event.Claim worker number ∷ []) }
        requires within { puts book.old.events
            ≤ length (blanks (arc_value blank.now) self.now.jobs) }
        requires part { book.old
            ≡ part_of (blanks (arc_value blank.now) self.now.jobs) book.old.events }
        ensures { book.new ≡ part_of (blanks (arc_value blank.now) self.now.jobs)
            (book.old.events ++ Event.Claim worker number ∷ []) }
    {
        match book.claim(worker) {
            Claimed::Task(
                Task {
                    number: _same,
                    job: _share,
                },
            ) => {}
            Claimed::Empty => unreachable!(),
            Claimed::Over => unreachable!(),
        }
    }
}
