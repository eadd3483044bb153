//! A part of a certificate checked against its command (docs/certificates.md): single steps and the rules of typing, no
//! strategy.
//!
//! Begin at `recheck_part`, beside specs/Parts.antt, which says what it answers.
#![tactic(auto)]

mod items;
pub mod laws;
mod part;
mod wrong;

pub use items::ByItems;
pub use part::{recheck_items, recheck_part};
pub use wrong::Wrong;
