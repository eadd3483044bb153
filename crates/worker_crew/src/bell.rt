//! What ends the sleep of a crew's workers once nothing more comes.
use std::sync::Wait;
use std::sync::atomic::{AtomicU64, Ordering};
use std::thread;
use std::thread::Threads;
use std::time::Duration;

// What the word says: not rung yet; rung.
const SILENT: u64 = 0;

const RUNG: u64 = 1;

/// The bell of a crew (docs/board-lock.md).
#[derive(Drop)]
pub struct Bell {
    // How many threads the machine can run beside each other.
    processors: u32,
    word: AtomicU64,
}

impl Bell {
    /// That of a crew on this machine.
    pub fn of_machine<R: Threads>(rt: &R) -> Bell {
        match thread::available_parallelism(rt) {
            Ok(count) => Bell::new(u32::try_from(count.get()).unwrap_or(u32::MAX)),
            Err(_) => Bell::new(1),
        }
    }

    /// That of a crew for so many processors.
    pub fn new(processors: u32) -> Bell {
        Bell {
            processors,
            word: AtomicU64::new(SILENT),
        }
    }

    /// Whether the worker of this number, from 1, is one more than the machine can run.
    pub fn is_one_too_many(&self, worker: u32) -> bool {
        worker > self.processors
    }

    /// Sleeps for so long, or until the bell is rung.
    pub fn sleep<R: Wait>(&self, rt: &R, most: Duration) {
        self.word.park_timeout(rt, SILENT as u32, most);
    }

    /// Wakes all that sleep, and lets nobody sleep from now on.
    pub fn ring(&self) {
        self.word.store(RUNG, Ordering::SeqCst);
        self.word.wake_all();
    }
}
