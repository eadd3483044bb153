//! What was worked out lately, by what was asked for.
ghost use Rattle.std.specs.Prelude.{◌≡◌, ◌≤◌, ◌<◌, ◌⊎◌, All, IfSome, IfOk};

use crate::TermId;
use crate::change::{Change, Goal};
use dk_model::NoMemory;
use std::alloc::Global;

/// A result, and what it was asked for.
#[derive(Clone, Copy)]
pub(crate) struct Done {
    pub(crate) goal: Goal,
    pub(crate) result: TermId,
}

#[derive(Clone, Copy)]
pub(crate) struct Slot {
    pub(crate) era: u64,
    pub(crate) done: Done,
}

const UNUSED: Slot = Slot {
    era: 0,
    done: Done {
        goal: Goal {
            change: Change::Erase,
            id: TermId(0),
            depth: 0,
        },
        result: TermId(0),
    },
};

/// Results by a slot that their goal picks. A later one takes an earlier one's place, and those of
/// an earlier era
/// don't count.
#[derive(Drop)]
pub(crate) struct Memo {
    pub(crate) slots: Vec<Slot>,
    pub(crate) era: u64,
    ghost past: { All (λ s. s.era ≤ era) slots.items },
    ghost begun: { 0 < era },
}

// Two goals that pick the same slot only cost time. All slots are used where their number is a power of two.
fn slot_of(goal: Goal, count: usize) -> usize {
    let change = match goal.change {
        Change::Shift(by) => by.wrapping_mul(2),
        Change::Substitute(by) => (by.0 as u64).wrapping_mul(2).wrapping_add(1),
        Change::SubstituteAll => 0,
        Change::Erase => 0,
        Change::Fill => 0,
        Change::Rename => 0,
        Change::Raise => 0,
    };
    let key = (goal.id.0 as u64)
        .wrapping_add(change.wrapping_mul(0x9e37_79b9))
        .wrapping_add(goal.depth << 21)
        .wrapping_mul(0x9e37_79b9_7f4a_7c15);
    (key >> 32) as usize & count.wrapping_sub(1)
}

impl Memo {
    ghost use Rattle.shared_term.specs.Memos.{Remembers, IsBlank, Is};
    ghost use Rattle.shared_term.specs.declared.memo.Done.{Done};

    /// Nothing, with a number of slots.
    pub(crate) fn new(alloc: Global, count: usize) -> Result<Memo, NoMemory>
        ensures { IfOk result IsBlank }
    {
        let slots = vec![in alloc; UNUSED; count]?;
        Ok(Memo { slots, era: 1 })
    }

    /// The result that is remembered for the goal, if one is.
    #[inline(always)]
    pub(crate) fn find(&self, goal: Goal) -> Option<TermId>
        ensures { IfSome result (λ r. Remembers self.now (Is goal r)) }
    {
        let slot = slot_of(goal, self.slots.len());
        match self.slots.get(slot) {
            Some(s) => if s.era == self.era && s.done.goal == goal {
                Some(s.done.result)
            } else {
                None
            },
            None => None,
        }
    }

    /// Remembers a result.
    #[inline(always)]
    pub(crate) fn put(&mut self, done: Done)
        ensures { (d : Done) → Remembers self.new d → (d ≡ done) ⊎ Remembers self.old d }
    {
        let slot = slot_of(done.goal, self.slots.len());
        let era = self.era;
        if let Some(place) = self.slots.get_mut(slot) {
            *place = Slot { era, done };
        }
    }

    /// Forgets everything, at once.
    pub(crate) fn clear(&mut self)
        ensures { IsBlank self.new }
    {
        if self.era < u64::MAX {
            self.era += 1;
        } else {
            self.slots.fill(UNUSED);
            self.era = 1;
        }
    }
}
