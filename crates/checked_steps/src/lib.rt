//! Checked derivations: by what list of steps a command is right, for a reader that knows no strategy of evaluation.
//!
//! The definitions are in specs/: the items of a certificate in `Items`, what each gives in `Taken`, and what a checked
//! derivation is in `Checked` (docs/certificates.md). Begin at `laws`.
#![tactic(auto)]

pub mod laws;
