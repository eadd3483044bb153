//! What every lawful history has, of any number of workers. The laws are called for their clauses;
//! the bodies do nothing.
ghost use Rattle.std.specs.Prelude.{◌≡◌, ◌⊎◌, ℕ, ◌<◌, ◌++◌, ◌≤◌, Bool, true, false, List, count_by, Contains};
ghost use Rattle.std.specs.List.{list_any};
ghost use Rattle.dk_model.specs.declared.code.Verdict.{Verdict};
ghost use Rattle.board_core.specs.declared.event.Event.{Event};
ghost use Rattle.board_core.specs.Events.{claims, claims_by, answers, answers_by, is_seal, is_settled, verdict_at};
ghost use Rattle.board_core.specs.Machine.{Holds, HoldsNone, IsClaimable, IsDueTo, IsFinished, IsLawful, IsLegal, marks_of};

use crate::checkable::Checkable;

/// Each number is claimed at most once.
pub fn claimed_once()
    ensures { (marks : List Bool) (events : List Event) → IsLawful marks events → (n : ℕ) →
        count_by (claims n) events ≤ 1 }
{}

/// Each number is answered at most once.
pub fn answered_once()
    ensures { (marks : List Bool) (events : List Event) → IsLawful marks events → (n : ℕ) →
        count_by (answers n) events ≤ 1 }
{}

/// A number is claimed by one worker.
pub fn claimed_by_one()
    ensures { (marks : List Bool) (events : List Event) → IsLawful marks events → (n u w : ℕ) →
        list_any (claims_by u n) events ≡ true → list_any (claims_by w n) events ≡ true → u ≡ w }
{}

/// Whoever answers a number has claimed it.
pub fn answered_by_claimer()
    ensures { (marks : List Bool) (events : List Event) → IsLawful marks events → (w n : ℕ) →
        list_any (answers_by w n) events ≡ true → list_any (claims_by w n) events ≡ true }
{}

/// A settled job is never claimed.
pub fn settled_unclaimed()
    ensures { (marks : List Bool) (events : List Event) → IsLawful marks events → (n : ℕ) →
        is_settled marks n ≡ true → list_any (claims n) events ≡ false }
{}

/// The verdict that stands for a number is the one that was answered for it.
pub fn verdict_answered()
    ensures { (marks : List Bool) (events : List Event) → IsLawful marks events →
        (w n : ℕ) (v : Verdict) → Contains events (Event.Answer w n v) →
        verdict_at marks events n ≡ Some v }
{}

/// And there is no other: where a verdict stands for a number that isn't settled, some worker
/// answered it.
pub fn verdict_from_answer()
    ensures { (marks : List Bool) (events : List Event) (n : ℕ) (v : Verdict) →
        is_settled marks n ≡ false → verdict_at marks events n ≡ Some v →
        (w : ℕ) × Contains events (Event.Answer w n v) }
{}

/// What came before the last events of a lawful history is a lawful history.
pub fn lawful_prefix()
    ensures { (marks : List Bool) (events more : List Event) → IsLawful marks (events ++ more) →
        IsLawful marks events }
{}

/// A sealed history is finished once no worker holds a task and nothing can be claimed.
pub fn finished_when_drained()
    ensures { (marks : List Bool) (events : List Event) → list_any is_seal events ≡ true →
        ((w : ℕ) → HoldsNone w events) →
        ((n : ℕ) → ¬ IsClaimable marks events n) →
        IsFinished marks events }
{}

/// A worker holds at most one task.
pub fn one_task_each()
    ensures { (marks : List Bool) (events : List Event) → IsLawful marks events → (w n m : ℕ) →
        Holds w n events → Holds w m events → n ≡ m }
{}

/// In a legal history the verdict that stands for a job is the one that it is due, or `Memory`.
pub fn verdict_due<J: Checkable>()
    ensures { (jobs : List (J × Bool)) (events : List Event) →
        IsLegal J.due J.early jobs events →
        (n : ℕ) (v : Verdict) → 0 < n → verdict_at (marks_of jobs) events n ≡ Some v →
        IsDueTo J.due jobs n v }
{}
