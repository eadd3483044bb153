//! One typing split into parts: what the parts come to together, and that this is what typing from left to right comes to.
//!
//! Begin at `combine`.
#![tactic(auto)]

pub mod laws;
mod part;

pub use part::{PartOut, PartResult, combine};
