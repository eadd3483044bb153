//! What the calls of a book answer.
use dk_model::Verdict;
use std::sync::Arc;

/// A claimed job with its number, from 1. It can't be let go, only taken apart, so that whoever has
/// claimed a job has to do something about it.
pub struct Task<J> {
    pub number: u32,
    pub job: Arc<J>,
}

/// What a worker that asks for a job is given.
pub enum Claimed<J> {
    Task(Task<J>),
    /// Nothing can be claimed now. The board is neither sealed nor stopped, so ask again.
    Empty,
    /// Nothing can be claimed, now or later.
    Over,
}

/// Why a job wasn't put. The job comes back.
#[derive(Drop)]
pub enum PutRefused<J> {
    /// Some job was answered with a verdict other than `Accepted`: the least number of such a job,
    /// and its verdict.
    Stopped {
        number: u32,
        verdict: Verdict,
        job: Arc<J>,
    },
    NoMemory {
        job: Arc<J>,
    },
}
