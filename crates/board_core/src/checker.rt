//! What workers do with a claimed job.
use crate::checkable::Checkable;
use dk_model::Verdict;

/// Who gives each job its verdict.
pub trait Checker {
    ghost use Rattle.std.specs.Prelude.{◌≡◌, ◌⊎◌};
    ghost use Rattle.dk_model.specs.declared.code.Verdict.TheVariants.{Memory};

    type Job: Checkable;

    /// What a worker keeps from one check to the next. No verdict depends on it.
    type Kit;

    /// What a worker begins with.
    fn kit(&self) -> Self::Kit;

    /// The verdict of the job, or `Memory` where a growth was refused.
    fn check(&self, kit: &mut Self::Kit, job: &Self::Job) -> Verdict
        ensures { (result ≡ Self.Job.due job.now) ⊎ (result ≡ Memory) };
}

/// What a worker passes before and after it checks a job, and a thread before and after it checks a part of one, so that a
/// test can hold it up there. No answer depends on it.
pub trait Gate {
    /// Called before the check of the job of this number.
    fn enter(&self, number: u32);

    /// Called after that check, before it is answered.
    fn leave(&self, number: u32);

    /// Called before the check of this argument of an application, counted from 0, in the check of the job of this number.
    fn enter_part(&self, number: u32, part: u32);

    /// Called after that check.
    fn leave_part(&self, number: u32, part: u32);
}
