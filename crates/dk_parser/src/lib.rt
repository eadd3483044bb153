//! Commands from the tokens of a file, one token at a time.
//!
//! Begin at `Parser`. The meaning is in specs/Grammar.antt and specs/Reading.antt (docs/grammar.md).
#![tactic(auto)]

mod command_so_far;
mod declare_part;
mod directive_part;
mod laws;
mod needs;
mod parser;
mod query_part;
mod raw;
mod rule_part;
mod standing;

pub use dk_terms::{Opening, RawOperation, RawPat, RawTerm, Span, Terminal, Wrap};
pub use laws::{grammar_law, reading_law};
pub use parser::{ParseFault, Parser, Step};
pub use raw::{Raw, RawAsked, RawForm, RawNote, RawParam, RawRule};
