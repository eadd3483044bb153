//! The book of a file whose commands are checked before they are put.
ghost use Rattle.std.specs.Prelude.{◌≡◌, ◌<◌, ◌+◌, IfOk, OnOk, Some, length};
ghost use Rattle.board_core.specs.Machine.{IsFinished, marks_of};
ghost use Rattle.verdict_book.specs.Stops.{EndsByItself};
ghost use Rattle.tree_program.specs.Trials.{IsOpen};

use board_core::{Book, End};
use dk_model::NoMemory;
use std::alloc::Global;
use std::sync::Arc;
use verdict_book::{Title, Titles};

/// A settled job for each accepted command, and its title.
#[derive(Drop)]
pub struct Tried {
    pub book: Book<()>,
    pub titles: Titles,
}

impl Tried {
    pub fn new(alloc: Global) -> Result<Tried, NoMemory>
        ensures { IfOk result IsOpen }
    {
        Ok(Tried {
            book: Book::new(alloc)?,
            titles: Titles::new(alloc),
        })
    }

    /// Puts the job of an accepted command.
    pub fn add(&mut self, alloc: Global, title: &Title) -> Result<(), NoMemory>
        requires is_open { IsOpen self.old }
        requires few { length self.old.titles < 4294967294 }
        ensures is_open { IsOpen self.new }
        ensures more { OnOk result (length self.new.titles ≡ length self.old.titles + 1) }
    {
        let job = Arc::new(alloc, ())?;
        self.titles.push(title)?;
        match self.book.put(job, true) {
            Ok(_) => Ok(()),
            Err(_) => {
                self.titles.pop();
                Err(NoMemory)
            }
        }
    }

    /// Seals the book.
    pub fn seal(&mut self, end: End)
        requires is_open { IsOpen self.old }
        requires ends { EndsByItself (Some end) }
        ensures finished { IsFinished (marks_of self.new.book.jobs) self.new.book.events }
        ensures titled { length self.new.titles ≡ length self.new.book.jobs }
    {
        self.book.history();
        self.book.seal(end);
    }
}
