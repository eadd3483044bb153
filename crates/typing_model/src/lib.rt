//! What it means that a term has a type, and the law that the plain check accepts nothing else.
//!
//! The definitions are in specs/: reduction in `Steps`, derivations in `Derivations` (docs/derivations.md). Begin at
//! `laws`.
#![tactic(auto)]

pub mod laws;
