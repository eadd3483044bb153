//! What can be said of a command before it is checked: whether its type is to be inferred, and whether it is a query that only asks.
//!
//! The meanings are `is_untyped` and `is_answered` of dk_model (docs/typing.md). Begin at `is_untyped`.
#![tactic(auto)]

mod scoped;
mod stored;

pub use scoped::{is_answered, is_untyped};
pub use stored::{is_answered_stored, is_untyped_stored};
