//! What an accepted file is pruned to for a name: the texts of the commands on which the one rests that declares it.
//!
//! Begin at specs/Pruned.antt (`IsPruned`), then `laws`.
#![tactic(auto)]

mod commands;
pub mod laws;
mod memory;
mod pruning;

pub use laws::{accepted_is_reported, needs_are_told, pruned_stands_alone, reported_is_accepted};
pub use pruning::{pruned_spans, write_texts};
