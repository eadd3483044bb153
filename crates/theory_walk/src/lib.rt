//! Which commands a theory of several files has, and in which order: those of a file and of the modules that it needs, in the
//! order of first need. That is told by the books alone, whatever is said of the commands. Begin at `walk_of` (specs/Walks.antt).
#![tactic(auto)]

mod needs;

pub use needs::{ModuleLimits, Standing};
