//! The scoped commands of a file and of the modules that it needs, in order, read by one thread. Nothing is typed. Begin at
//! `read_theory`.
#![tactic(auto)]

pub mod laws;
mod names;
mod reader;
mod reading;
mod shapes;

pub use laws::check_ends_as_read;
pub use reading::{ReadingEnd, read_theory};
