//! The certificate of the commands of a theory, written part by part (docs/certificates.md).
//!
//! Begin at specs/Ends.antt, which says how that ends, then at `certify`.
#![tactic(auto)]

mod fault;
pub mod laws;
mod part;
mod theory;

pub use fault::CertifyFault;
pub use theory::certify;
