//! The tokens of a Dedukti file: what they are, of which bytes, and at which places. Begin at specs/Tokens.antt.
#![tactic(auto)]

mod class;
mod laws;
mod place;
mod token;
mod words;

pub use class::{Class, classify};
pub use laws::place_law;
pub use place::Place;
pub use token::{Sign, Token, TokenKind};
pub use words::{command_after, is_plain_name, is_wildcard, kind_of};
