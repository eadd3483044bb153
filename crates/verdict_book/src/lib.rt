//! The report of a file, line by line (docs/report.md). Begin at `write_report`.
#![tactic(auto)]

mod book;
mod laws;
mod outcome;
mod pieces;
mod place_ref;
mod report;
mod shown;
pub mod status;
mod title;

pub use book::{first_fault, outcome_of, write_last, write_report};
pub use laws::{history_has_one_report, history_has_report};
pub use outcome::Outcome;
pub use pieces::{Piece, put_pieces};
pub use place_ref::{ModuleRef, PlaceRef};
pub use shown::Shown;
pub use title::{Title, Titles};
