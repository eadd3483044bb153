//! What is remembered from call to call, and what in one call.
ghost use Rattle.std.specs.Prelude.{◌≡◌, ◌⊎◌, IfSome, IfOk, IsTrue, ◌↔◌};
ghost use Rattle.shared_term.specs.Memos.{Remembers, IsBlank, Is};
ghost use Rattle.shared_term.specs.Changes.{IsLasting};
ghost use Rattle.shared_term.specs.declared.memo.Done.{Done};

use crate::TermId;
use crate::change::{Change, Goal};
use crate::memo::{Done, Memo};
use dk_model::NoMemory;
use std::alloc::Global;

const SLOTS: usize = 1024;

/// What walks have found.
#[derive(Drop)]
pub(crate) struct Memos {
    /// Results that stay right.
    pub(crate) lasting: Memo,
    /// Results that are right as long as the captures and arguments are these.
    pub(crate) passing: Memo,
}

fn is_lasting(change: Change) -> bool
    ensures { IsTrue result ↔ IsLasting change }
{
    match change {
        Change::Shift(_) => true,
        Change::Substitute(_) => true,
        Change::SubstituteAll => false,
        Change::Erase => true,
        Change::Fill => false,
        Change::Rename => false,
        Change::Raise => false,
    }
}

impl Memos {
    pub(crate) fn new(alloc: Global) -> Result<Memos, NoMemory>
        ensures { IfOk result (λ m. IsBlank m.lasting) }
    {
        let lasting = Memo::new(alloc, SLOTS)?;
        let passing = Memo::new(alloc, SLOTS)?;
        Ok(Memos { lasting, passing })
    }

    /// The result that is remembered for the goal, if one is.
    #[inline(always)]
    pub(crate) fn find(&self, goal: Goal) -> Option<TermId>
        ensures { IfSome result
            (λ r. Remembers self.now.lasting (Is goal r) ⊎ Remembers self.now.passing (Is goal r)) }
    {
        if is_lasting(goal.change) {
            self.lasting.find(goal)
        } else {
            self.passing.find(goal)
        }
    }

    /// Remembers a result.
    #[inline(always)]
    pub(crate) fn put(&mut self, done: Done)
        ensures lasting { (d : Done) → Remembers self.new.lasting d
            → ((d ≡ done) × IsLasting done.goal.change) ⊎ Remembers self.old.lasting d }
        ensures passing { (d : Done) → Remembers self.new.passing d
            → (d ≡ done) ⊎ Remembers self.old.passing d }
    {
        if is_lasting(done.goal.change) {
            self.lasting.put(done);
        } else {
            self.passing.put(done);
        }
    }
}
