//! What is done with a term as a boxed tree: its head and arguments, its parts under captures, and the rules of its symbol.
//!
//! Begin at `rules_of`, `captured` and `filled`.
#![tactic(auto)]

mod bindings;
mod captures;
mod rules;
mod spines;

pub use bindings::{bound, under};
pub use captures::{all_put, capture_at, captured, filled, may_bind, mentions_others, renamed};
pub use rules::{SymbolRule, rule_of, rules_of};
pub use spines::{
    applied, arguments, behind, body_of, contraction, front, has_head, head_symbol, is_applied,
};
