//! Sessions of edits: the texts of commands, and answers on them that are kept for as long as a command rests on the same texts.
//!
//! Begin at specs/Texts.antt and specs/Sessions.antt, which say what a text is and what a report checks again, then at `laws`
//! and `Session`.
#![tactic(auto)]

mod answering;
mod both;
mod finding;
mod fold;
mod grounds;
mod judge;
pub mod laws;
mod renumber;
mod report;
mod resting;
mod session;
mod shaping;
mod shown;
mod slot;
mod text;

pub use judge::Judge;
pub use report::ReportFault;
pub use session::{EditFault, Session};
// A crate can name what a session has in a clause only if the types of its fields are exported.
#[doc(hidden)]
pub use finding::Findings;
#[doc(hidden)]
pub use slot::{Kept, Slot};
