//! The words of the command line: what do they ask of the program?
//!
//! Begin at `read_request`. The meaning is `request_of`, and where it is none the program answers
//! with `usage_text` (docs/command-line.md).
#![tactic(auto)]

mod command;
mod request;
mod usage;

pub use request::{
    CertifyRequest, CheckRequest, MakeRequest, PruneRequest, RecheckRequest, ReplayRequest,
    Request, read_request,
};
pub use usage::usage_text;
