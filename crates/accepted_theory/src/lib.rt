//! What it comes to that a theory is reported as accepted: a check's report, tied to the commands that are read again where
//! nothing is typed.
//!
//! Begin at specs/Laws.antt (`AreAllAccepted`), then `laws`.
#![tactic(auto)]

pub mod laws;

pub use laws::{accepted_are_read, reported_are_accepted};
