//! What is left of a job that was given away.
ghost use Rattle.std.specs.Prelude.{◌≡◌};
ghost use Rattle.std.specs.Borrow.{ftrue};

use std::marker::{Model, PhantomData};

/// A job as contracts see it. It has no bytes and owns nothing, so the job itself may be let go, and
/// any thread may have this, whatever a job is.
pub struct Past<J> {
    marker: PhantomData<J>,
    pub ghost job: { J },
}

impl<J> Model for Past<J> {
    ghost also_owns = { λ _. ftrue };
}

// It owns nothing.
unsafe impl<J> Send for Past<J> {}

unsafe impl<J> Sync for Past<J> {}

impl<J> Past<J> {
    pub fn of(job: &J) -> Past<J>
        ensures { result.job ≡ job.now }
    {
        let _ = job;
        Past {
            marker: PhantomData,
        }
    }
}

impl<J> Drop for Past<J> {
    fn drop(self) {
        let Self { marker: _ } = self;
    }
}
