//! The shapes of rules: which left sides are patterns, and the rule that a scoped rule stands for.
//!
//! A scoped rule has a left side of any form; a rule has a symbol and its patterns. Begin at
//! `shape_all`, then docs/rules.md and specs/Shapes.antt of dk_model, which says what a shape is.
#![tactic(auto)]

mod copies;
mod erase;
mod mark;
mod pattern;
mod rule;

pub use erase::erase_all;
pub use rule::{shape, shape_all};
