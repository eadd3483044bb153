//! One value behind tickets: which thread has it, what was done to it, and who did what.
//!
//! Threads take turns at one value `V: Kept` by tickets, and a word counts the events that they add
//! to its history. Each thread has a pass of no bytes, which shows what its holder has seen of that
//! history, which events are its own, and the reader's list. `close` gives the value back, with one
//! history for all passes. The words, the slot and the steps are those of docs/board-lock.md. Begin
//! at `Slot::lock`.
#![tactic(auto)]

mod crossing;
mod door;
mod kept;
mod pause;
mod slot;
mod steps;
mod view;

pub use crossing::crosses_threads;
pub use kept::Kept;
pub use slot::{NoMemory, Pass, Slot};
pub use view::{Ended, View};
