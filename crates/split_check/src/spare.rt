//! How many more threads may be at work. Nothing that is proved rests on it.
use std::sync::atomic::{AtomicU64, Ordering};

/// The threads that may still be started, for all checks together.
#[derive(Drop)]
pub struct Spare {
    threads: AtomicU64,
}

impl Spare {
    pub fn new(threads: u64) -> Spare {
        Spare {
            threads: AtomicU64::new(threads),
        }
    }

    /// Whether one more may be started, as it looks just now.
    pub fn has_any(&self) -> bool {
        self.threads.load(Ordering::SeqCst) > 0
    }

    /// Takes one, where there is one.
    pub fn take(&self) -> bool {
        let threads = self.threads.load(Ordering::SeqCst);
        threads > 0
            && self
                .threads
                .compare_exchange(threads, threads - 1, Ordering::SeqCst, Ordering::SeqCst)
                .is_ok()
    }

    /// Gives one back that was taken.
    pub fn give_back(&self) {
        self.threads.fetch_add(1, Ordering::SeqCst);
    }
}
