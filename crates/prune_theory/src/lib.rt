//! Pruned theories: of accepted commands those on which one rests, each with the verdict and the units that it had;
//! and verdicts that can be kept, since a command has the same one wherever it rests on the same commands.
//!
//! Begin at specs/Mentions.antt, which says what a command rests on, then at `laws`.
#![tactic(auto)]

mod before;
pub mod laws;
mod left_spine;
mod resting;
mod symbols;

pub use before::mention_before;
pub use resting::rests;
pub use symbols::{heads, mentions};
