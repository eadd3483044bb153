//! Where the texts of a file's commands stand among its bytes (docs/pruning.md). Begin at `command_spans`.
#![tactic(auto)]

mod cutting;
mod span;

pub use cutting::command_spans;
pub use span::Span;
