//! How far the reader gets ahead of the workers.
use std::sync::Wait;
use std::sync::atomic::AtomicU64;
use std::time::Duration;

/// So many jobs may wait before the reader rests: what the workers check while it does, and more.
const MOST_WAITING: usize = 2048;

/// One rest, in microseconds.
const REST: u64 = 500;

/// After so many rests in a row without a claim the reader goes on: no worker's thread may have been granted, or each has a job
/// that takes long.
const MOST_IN_VAIN: u32 = 512;

/// How the reader waits for workers that are behind (docs/board-lock.md).
#[derive(Drop)]
pub struct Pace {
    // How many jobs waited when it was asked last.
    waited: usize,
    // How many rests there were since a claim was seen.
    in_vain: u32,
}

impl Pace {
    /// That of a reader who has put nothing.
    pub fn new() -> Pace {
        Pace {
            waited: 0,
            in_vain: 0,
        }
    }

    /// Rests once where too many jobs wait, of which one was put since the last call: as many as then, or fewer, say that
    /// some were claimed.
    pub fn rest<R: Wait>(&mut self, rt: &R, waiting: usize) {
        if waiting <= self.waited {
            self.in_vain = 0;
        }
        self.waited = waiting;
        if waiting > MOST_WAITING && self.in_vain < MOST_IN_VAIN {
            self.in_vain += 1;
            let silent = AtomicU64::new(0);
            silent.park_timeout(rt, 0, Duration::from_micros(REST));
        }
    }
}
