//! The check of one command, once, over whatever stands for terms: its verdict, the type of a definition without one, what
//! a query finds, and the entry that an accepted command adds.
//!
//! The meanings are `verdict_of`, `inferred_type`, `found_of` and `entry_of` of dk_model (docs/typing.md). Begin at `check_command`.
#![tactic(auto)]

mod declaration;
mod entry;
mod found;
mod kept;
mod queries;
mod shapes;
mod stored_entry;
mod verdict;

pub use entry::entry_of;
pub use queries::{query, query_stored};
pub use stored_entry::entry_of_stored;
pub use verdict::{check_command, check_stored, enter_command, infer_stored, infer_type};
