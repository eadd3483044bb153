//! The made theory: a file of any length for measurements, whose every theorem holds by computation.
//!
//! Its text is `theory_of` of specs/Theory.antt (docs/generator.md). Begin at `make`; `MadeText` has
//! the text in memory, as a book to be read.
#![tactic(auto)]

mod made_text;
mod theory;

pub use made_text::MadeText;
pub use theory::make;
