//! What is left to print, the last task first.
ghost use Rattle.std.specs.Prelude.{◌≡◌, ◌++◌, ◌+◌, ◌≤◌, ℕ, List, OnOk};
ghost use Rattle.dk_model.specs.PlainTerms.{Tree};
ghost use Rattle.scope_terms.specs.Scopes.{Spelling};
ghost use Rattle.term_print.specs.Named.{Word};
ghost use Rattle.term_print.specs.Tasks.{before, bracketed_if, left_of, named_behind, named_left, weights};

use crate::place::Place;
use crate::text::Mark;
use dk_model::NoMemory;

/// A part of the term: its number, how many binders it stands under, and its place.
#[derive(Clone, Copy)]
pub struct Subterm {
    pub term: u64,
    pub depth: u64,
    pub place: Place,
}

/// What is left to print.
#[derive(Clone, Copy)]
pub enum Task {
    Term(Subterm),
    /// The name of the binder in the scope of so many others.
    Binder(u64),
    Open,
    Close,
    Mark(Mark),
}

/// Puts these on the stack, the first one on top; in brackets or not.
#[tactic(auto, using(crate::proofs::Stacking::pushed_brackets, crate::proofs::Stacking::weights_pushed, crate::proofs::Stacking::named_brackets))]
pub(crate) fn push_tasks(
    tasks: &mut Vec<Task>,
    next: &[Task],
    brackets: bool,
) -> Result<(), NoMemory>
    ensures left { OnOk result ((denotes : ℕ → Tree) (words : ℕ → Word) (used : List Spelling)
        → left_of denotes words used tasks.new.items
        ≡ bracketed_if brackets (before denotes words used next.now)
        ++ left_of denotes words used tasks.old.items) }
    ensures named { OnOk result ((denotes : ℕ → Tree) → named_left denotes tasks.new.items
        ≡ named_left denotes tasks.old.items ++ named_behind denotes next.now) }
    ensures weight { OnOk result ((denotes : ℕ → Tree) → weights denotes tasks.new.items
        ≤ weights denotes tasks.old.items + weights denotes next.now + 2) }
{
    if brackets {
        tasks.push(Task::Close)?;
        push_last_first(tasks, next)?;
        tasks.push(Task::Open)?;
        return Ok(());
    }
    push_last_first(tasks, next)
}

// One call within another for each task; there are at most five.
#[tactic(auto, using(crate::proofs::Stacking::pushed_first, crate::proofs::Stacking::weights_pushed, crate::proofs::Stacking::named_first))]
fn push_last_first(tasks: &mut Vec<Task>, next: &[Task]) -> Result<(), NoMemory>
    ensures left { OnOk result ((denotes : ℕ → Tree) (words : ℕ → Word) (used : List Spelling)
        → left_of denotes words used tasks.new.items
        ≡ before denotes words used next.now ++ left_of denotes words used tasks.old.items) }
    ensures named { OnOk result ((denotes : ℕ → Tree) → named_left denotes tasks.new.items
        ≡ named_left denotes tasks.old.items ++ named_behind denotes next.now) }
    ensures weight { OnOk result ((denotes : ℕ → Tree) → weights denotes tasks.new.items
        ≡ weights denotes tasks.old.items + weights denotes next.now) }
{
    match next.split_first() {
        None => Ok(()),
        Some((first, rest)) => {
            push_last_first(tasks, rest)?;
            tasks.push(*first)?;
            Ok(())
        }
    }
}
