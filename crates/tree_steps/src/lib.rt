//! Single steps of plain terms, and what the items of a certificate's part give by them.
//!
//! A step is named by the number of a node and, where a rule is taken, by the number of the rule. The meanings are those of
//! checked_steps (specs/Taken.antt and Checked.antt, docs/certificates.md). Begin at `take_steps`, then `ItemsLeft`.
#![tactic(auto)]

mod conditions;
mod counted;
mod counts;
mod equations;
mod items;
mod matching;
mod pairs;
mod parts;
mod places;
mod solving;
mod steps;

pub use equations::{Equation, equation_of, is_left};
pub use items::{ItemsLeft, copied};
pub use pairs::{Pair, push_copies};
pub use solving::Solved;
pub use steps::{joins, take_steps};
