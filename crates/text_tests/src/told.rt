//! Jobs that are their own verdicts, their checker, a gate that keeps nothing, and histories that are written out.
use board_core::{Checkable, Checker, End, Event, Gate, History};
use dk_model::Verdict;
use std::alloc::Global;
use std::sync::Wait;
use std::sync::atomic::{AtomicU64, Ordering};
use std::thread;
use std::thread::Threads;
use worker_crew::ThreadedChecker;

/// How often a check that waits for another looks for it before it gives up.
const LOOKS: u32 = 10_000_000;

/// A job that is its own verdict.
#[derive(Drop)]
pub struct Own(pub Verdict);

impl Checkable for Own {
    ghost use Rattle.std.specs.Prelude.{true};

    ghost due = { λ job. job.0 };

    ghost early = { λ _. true };
}

/// A checker that tells a job's own verdict. Where jobs meet, the check of an accepted job and the
/// check of another wait for each other.
#[derive(Drop)]
pub struct Told {
    meet: bool,
    accepted: AtomicU64,
    others: AtomicU64,
    pub met: AtomicU64,
}

impl Told {
    pub fn new(meet: bool) -> Told {
        Told {
            meet,
            accepted: AtomicU64::new(0),
            others: AtomicU64::new(0),
            met: AtomicU64::new(0),
        }
    }

    /// Raises its own flag, and looks for the other one.
    fn wait_for_the_other(&self, own: &AtomicU64, other: &AtomicU64) {
        own.store(1, Ordering::SeqCst);
        for _ in 0..LOOKS {
            if other.load(Ordering::SeqCst) == 1 {
                self.met.fetch_add(1, Ordering::SeqCst);
                return;
            }
            thread::yield_now();
        }
    }
}

impl ThreadedChecker for Told {
    type Job = Own;

    type Kit = ();

    fn kit(&self) {}

    fn check<R: Threads + Wait + Sync>(&self, _: &R, kit: &mut (), job: &Own) -> Verdict {
        Checker::check(self, kit, job)
    }
}

impl Checker for Told {
    type Job = Own;

    type Kit = ();

    fn kit(&self) {}

    fn check(&self, _kit: &mut (), job: &Own) -> Verdict {
        let verdict = job.0;
        if self.meet {
            if verdict == Verdict::Accepted {
                self.wait_for_the_other(&self.accepted, &self.others);
            } else {
                self.wait_for_the_other(&self.others, &self.accepted);
            }
        }
        verdict
    }
}

/// A gate that keeps nothing.
pub struct NoGate;

impl Gate for NoGate {
    fn enter(&self, _: u32) {}

    fn leave(&self, _: u32) {}

    fn enter_part(&self, _: u32, _: u32) {}

    fn leave_part(&self, _: u32, _: u32) {}
}

/// An event by its letter (`p` put, `c` claimed, `a` answered, `s` sealed at a fault), the worker, the job and the verdict.
pub type Step = (u8, u32, u32, Option<Verdict>);

fn step_of(event: &Event) -> Step {
    match event {
        Event::Put(job) => (b'p', 0, *job, None),
        Event::Claim(worker, job) => (b'c', *worker, *job, None),
        Event::Answer(worker, job, verdict) => (b'a', *worker, *job, Some(*verdict)),
        Event::Seal(End::Stopped) => (b's', 0, 0, None),
        Event::Seal(_) => (b'?', 0, 0, None),
    }
}

/// Whether a history has these steps, and no others.
pub fn are_steps(alloc: Global, history: History<'_>, due: &[Step]) -> bool {
    for at in 0..history.len() {
        let Ok(event) = history.event(alloc, at) else {
            return false;
        };
        match due.get(at) {
            Some(step) if *step == step_of(&event) => {}
            _ => return false,
        }
    }
    history.len() == due.len()
}
