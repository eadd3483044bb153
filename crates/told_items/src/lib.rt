//! The items of a command's part, told by typing over an evaluation that tells its steps (docs/certificates.md).
//!
//! Begin at `certify_command`, then at `Teller`.
#![tactic(auto)]

mod answered;
mod call;
mod certified;
mod equations;
mod teller;

pub use certified::{Certified, certify_command};
