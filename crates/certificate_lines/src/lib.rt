//! The lines of a certificate's text (docs/certificates.md).
//!
//! Begin at specs/Texts.antt, which says what each line is spelt like, then at `read_line`.
#![tactic(auto)]

mod line;
mod reading;

pub use line::{Line, Word};
pub use reading::read_line;
