//! Matching trees: the rules of a symbol compiled to tests of heads, and the selection of a rule by asking for one
//! answer after another.
//!
//! The meaning is `selection_of` of dk_model (docs/evaluation.md). Begin at `Tree` and `Matcher::next`.
#![tactic(auto)]

mod branch;
mod cell;
mod group;
mod key;
mod left;
mod matcher;
mod nodes;
mod refine;
mod row;
mod side;
mod tree;
mod value;
mod walk;

pub use matcher::{Answer, Ask, Matcher};
pub use tree::{Tree, compile};
pub use walk::LeftSide;
