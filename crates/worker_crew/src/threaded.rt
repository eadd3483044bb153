//! Who checks jobs with threads of its own.
use board_core::Checkable;
use dk_model::Verdict;
use std::sync::Wait;
use std::thread::Threads;

/// Who gives each job its verdict, and may start threads for that and wait for them.
pub trait ThreadedChecker {
    ghost use Rattle.std.specs.Prelude.{◌≡◌, ◌⊎◌};
    ghost use denote.Param.Send.{IsSync};
    ghost use Rattle.dk_model.specs.declared.code.Verdict.TheVariants.{Memory};

    type Job: Checkable;

    /// What a worker keeps from one check to the next. No verdict depends on it.
    type Kit;

    /// What a worker begins with.
    fn kit(&self) -> Self::Kit;

    /// The verdict of the job, or `Memory` where a growth was refused.
    fn check<R: Threads + Wait + Sync>(
        &self,
        rt: &R,
        kit: &mut Self::Kit,
        job: &Self::Job,
    ) -> Verdict
        requires { IsSync R.row }
        ensures { (result ≡ Self.Job.due job.now) ⊎ (result ≡ Memory) };
}
