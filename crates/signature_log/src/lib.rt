//! Versions of the signature: what the commands before one have declared, each version unchanged by those after it.
//!
//! Begin at `Version`; then `Reducer`, evaluation over a version whatever stands for terms.
#![tactic(auto)]

mod blocks;
mod boxing;
mod branch;
mod cells;
mod chain;
mod entries;
mod fork;
mod grow;
mod held;
mod leaf;
mod many;
mod packed;
mod place;
mod reducer;
mod rows;
mod rule_list;
mod sides;
mod slots;
mod steps;
mod storing;
mod table;
mod version;

pub use grow::Grow;
pub use reducer::Reducer;
pub use rows::{Row, Rows};
pub use steps::Steps;
pub use storing::{store_entry, store_rules, version_of};
pub use version::Version;
