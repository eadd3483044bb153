//! Terms and patterns, one terminal at a time.
//!
//! Begin at `TermSoFar` and `LeftSoFar`. Which terminals spell what is in specs/Grammar.antt (docs/grammar.md).
#![tactic(auto)]

mod frame;
mod left_so_far;
mod operation;
mod parts_so_far;
mod raw;
mod slices;
mod term_so_far;
mod terminal;

pub use left_so_far::{LeftSoFar, LeftStep};
pub use operation::{Opening, RawOperation, Span, Wrap};
pub use raw::{RawPat, RawTerm};
pub use slices::{before, behind};
pub use term_so_far::{TermSoFar, TermStep};
pub use terminal::Terminal;
