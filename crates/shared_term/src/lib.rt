//! Terms as numbers of nodes that are shared: two numbers of one pool denote equal terms exactly
//! where they are equal.
//!
//! Begin at `Pool`, then specs/Pools.antt, which says what a number denotes.
#![tactic(auto)]

mod boxed;
mod boxing;
mod building;
mod change;
mod command;
mod entering;
mod found;
mod id;
mod listing;
mod loading;
mod making;
mod memo;
mod memos;
mod nodes;
mod packed;
mod pool;
mod short;
mod spelling;
mod stored;
mod storing;
mod summary;
mod unwinding;
mod walk;

pub use change::Pair;
pub use command::StoredCommand;
pub use found::Found;
pub use id::{Node, TermId};
pub use making::Making;
pub use nodes::Nodes;
pub use pool::Pool;
pub use stored::Stored;
pub use unwinding::unwind;
