//! The check of one command on plain trees, by substitution: what the whole program answers by definition.
//!
//! Begin at `check_plain`.
#![tactic(auto)]

mod check;
pub mod laws;

pub use check::{check_plain, infer_plain};
