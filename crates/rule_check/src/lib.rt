//! The types of rules: whether both sides of a rule have one type.
//!
//! The meaning is `rule_checked` of dk_model (docs/typing.md). Begin at `check_rule`.
#![tactic(auto)]

mod bindings;
mod compare;
mod equation;
mod found;
mod guards;
mod levels;
mod mentioned;
mod occurrence;
mod sides;
mod variables;
mod walk;

pub use equation::is_definable;
pub use sides::check_rule;
