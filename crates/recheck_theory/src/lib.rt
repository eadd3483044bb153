//! A certificate rechecked against the commands of a theory, part by part (docs/certificates.md).
//!
//! Begin at specs/Answers.antt, which says what is answered, then at `recheck`.
#![tactic(auto)]

mod answer;
pub mod laws;
mod part;
mod theory;

pub use answer::Answer;
pub use part::with_entry;
pub use theory::recheck;
