//! The workers of a board: what one does with its pass, and how several run beside the reader.
//!
//! A worker claims, checks the job while it has no turn at the board, and answers, until nothing can
//! be claimed any more (docs/board.md). Begin at `work`, then `run_crew`.
#![tactic(auto)]

mod bell;
mod crew;
mod patience;
mod room;
mod threaded;
mod worker;

pub use crew::{Reading, run_crew};
pub use room::has_room;
pub use threaded::ThreadedChecker;
pub use worker::work;
