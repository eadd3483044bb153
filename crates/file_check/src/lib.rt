//! Checks a file of a shelf with all that it needs: the books are read while workers check their commands. Begin at
//! `check_books`.
//!
//! A value with many parts that isn't needed is given to `drop`: where one goes out of scope in a function, that function's
//! proof goes through all its parts.
#![tactic(auto)]

mod book_reading;
mod checker;
mod checking;
mod desk;
mod finding;
mod gate;
mod halt;
mod job;
mod lectern;
mod shown;
mod theory;

pub use checking::{Asked, CheckedBook, Unchecked, check_books};
pub use job::{Job, STACK};
