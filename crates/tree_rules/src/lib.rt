//! The typing of rules over any evaluation, on plain boxed trees: the definition as code.
//!
//! The meanings are those of dk_model (specs/RuleTypingOver.antt, docs/typing.md). Begin at `rule_checked`.
#![tactic(auto)]

mod bindings;
mod found;
mod occurrence;
mod place;
mod rules;
mod sides;
mod types;
mod variables;
mod walk;

pub use found::{Found, Guard, Walked};
pub use rules::{left_walked, rule_checked, rules_typed};
