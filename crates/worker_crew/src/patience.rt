//! How long a worker that found nothing to claim leaves the board alone.
use crate::bell::Bell;
use std::sync::Wait;
use std::time::Duration;

/// The first sleep of the first worker, of the others, and of those that the machine has no processor for, and the longest
/// of all, in microseconds.
const FIRST_SLEEP: u64 = 50;

const FURTHER_SLEEP: u64 = 1000;

const CROWDED_SLEEP: u64 = 16_000;

const LONGEST_SLEEP: u64 = 64_000;

/// What a worker waits before it asks the board again. The first worker sleeps for as long as some jobs take to come. Each
/// further one is wanted only where jobs pile up, and what it costs the others to find nothing is more than what it brings
/// to find something soon; so it sleeps longer at once (docs/board-lock.md).
#[derive(Drop)]
pub struct Patience {
    // How many microseconds the next sleep takes.
    sleep: u64,
}

impl Patience {
    /// That of the worker of this number, from 1, as it comes from a task.
    pub fn of(worker: u32, bell: &Bell) -> Patience {
        let sleep = if worker <= 1 {
            FIRST_SLEEP
        } else if bell.is_one_too_many(worker) {
            CROWDED_SLEEP
        } else {
            FURTHER_SLEEP
        };
        Patience { sleep }
    }

    /// Sleeps until the bell is rung, or for its time; twice as long the next time, up to the longest sleep.
    pub fn rest<R: Wait>(&mut self, rt: &R, bell: &Bell) {
        bell.sleep(rt, Duration::from_micros(self.sleep));
        self.sleep = self.sleep.saturating_mul(2).min(LONGEST_SLEEP);
    }
}
