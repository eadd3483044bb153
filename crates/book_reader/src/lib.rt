//! The commands of a file and of the modules that it needs, in the order of first need, read from the books of a shelf.
//! Reading knows no verdict, no name and no budget. Begin at `Walker::turn`.
#![tactic(auto)]

mod name;
mod opened;
mod walker;

pub use name::own_module;
pub use walker::{Root, Turn, WalkEnd, Walker};
