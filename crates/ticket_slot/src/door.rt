//! The door before the tickets. While one thread has the turn, others wait here and not in the queue:
//! a queue is served in its order, so in it one thread that the system doesn't let run stops all the
//! others. Nothing that is proved rests on the door.
use crate::pause::Pause;
use std::sync::Wait;
use std::sync::atomic::{AtomicU64, Ordering};
use std::thread;

// What the word says: nobody is inside; somebody is; somebody is, and others may sleep.
const FREE: u64 = 0;

const TAKEN: u64 = 1;

const AWAITED: u64 = 2;

/// The door of a slot (docs/board-lock.md).
#[derive(Drop)]
pub struct Door {
    word: AtomicU64,
}

impl Door {
    /// A door with nobody inside.
    pub fn new() -> Door {
        Door {
            word: AtomicU64::new(FREE),
        }
    }

    /// Waits until nobody is inside.
    pub fn enter<R: Wait>(&self, rt: &R) {
        let mut pause = Pause::new();
        for _ in rt.forever() {
            match pause.next() {
                None => {
                    if self.take() {
                        return;
                    }
                    thread::yield_now();
                }
                Some(sleep) => {
                    if self.word.swap(AWAITED, Ordering::SeqCst) == FREE {
                        return;
                    }
                    self.word.park_timeout(rt, AWAITED as u32, sleep);
                }
            }
        }
    }

    /// Whether nobody was inside; now somebody is.
    fn take(&self) -> bool {
        self.word
            .compare_exchange(FREE, TAKEN, Ordering::SeqCst, Ordering::SeqCst)
            .is_ok()
    }

    /// Opens the door, and wakes one of those that sleep.
    pub fn leave(&self) {
        if self.word.swap(FREE, Ordering::SeqCst) == AWAITED {
            self.word.wake_one();
        }
    }
}
