//! Evaluation on boxed trees, by substitution: turns of the weak head form, and comparison, with
//! the steps to each answer. Begin at `Trees`, and at `Telling` for the steps.
#![tactic(auto)]

mod evaluation;
mod matrix;
mod select;
mod telling;
mod trees;

pub use telling::Telling;
pub use trees::Trees;
