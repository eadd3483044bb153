//! How a thread waits: it yields a few times and then sleeps, each time for twice as long, so that waiting costs little
//! however long it takes. Nothing that is proved rests on it.
use std::time::Duration;

/// How often a thread yields before it sleeps.
const YIELDS: u32 = 16;

/// The first sleep and the longest, in microseconds.
const FIRST_SLEEP: u64 = 1000;

const LONGEST_SLEEP: u64 = 256_000;

/// What a thread that waits does next.
#[derive(Drop)]
pub struct Pause {
    // How often it still yields.
    yields: u32,
    // How many microseconds the next sleep takes at most.
    sleep: u64,
}

impl Pause {
    /// That of a thread that begins to wait.
    pub fn new() -> Pause {
        Pause {
            yields: YIELDS,
            sleep: FIRST_SLEEP,
        }
    }

    /// How long it sleeps next, or `None` where it yields.
    pub fn next(&mut self) -> Option<Duration> {
        if self.yields > 0 {
            self.yields -= 1;
            return None;
        }
        let sleep = Duration::from_micros(self.sleep);
        self.sleep = self.sleep.saturating_mul(2).min(LONGEST_SLEEP);
        Some(sleep)
    }
}
