//! The lines of a script that edits a session (docs/sessions.md).
//!
//! Begin at specs/Scripts.antt, which says what lines a script has and what each asks, then at `read_line`.
#![tactic(auto)]

mod line;
mod number;
mod reading;

pub use line::{Edit, Line};
pub use reading::read_line;
