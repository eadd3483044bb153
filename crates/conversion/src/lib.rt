//! Evaluation over shared terms, which remembers what it found: which form a term takes by the rules of a version, and
//! whether two terms are alike by them, with the answers and the units of plain trees.
//!
//! The meaning is `whnf_of`, `comparison_of` and `normal_of` of dk_model (docs/evaluation.md). Begin at `PoolReducer`.
#![tactic(auto)]

mod brought;
mod compare;
mod evaluate;
mod known;
mod loading;
mod machine;
mod mentions;
mod normal;
mod pauses;
mod putting;
mod reducer;
mod rules;
mod selection;
mod state;
mod table;
mod trees;
mod turn;
mod walks;

pub use state::PoolReducer;
pub use walks::TreeLimits;
