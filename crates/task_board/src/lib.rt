//! The task board: one board that the reader and the workers share.
//!
//! It is a `Book` behind the tickets of a slot. Each thread has a pass of no bytes, which shows what
//! its holder has seen of the board's one history, which events are its own, and the jobs that it
//! knows (specs/Passes.antt). The events are those of docs/board.md. Begin at `Board::claim`.
#![tactic(auto)]

mod board;
mod judged;
mod pace;
mod passes;

pub use board::Board;
pub use judged::Judged;
pub use pace::Pace;
pub use passes::{ReaderPass, SealedPass, WorkerPass};
