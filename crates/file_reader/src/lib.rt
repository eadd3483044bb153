//! The commands and directives of a book, read from its bytes, each when it is asked for. Reading knows no verdict and no budget. Begin at
//! `Reader::next`.
#![tactic(auto)]

mod reader;

pub use reader::{Next, ReadEnd, Reader};
