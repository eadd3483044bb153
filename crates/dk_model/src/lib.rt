//! What every crate speaks of: terms, signatures, codes, verdicts and limits, with the definitions over them.
//!
//! Begin at `Term`, then specs/.
#![tactic(auto)]

mod carry;
mod code;
mod copies;
pub mod laws;
mod limits;
mod listed;
mod memory;
mod node;
mod scoped;
mod signature;
mod stop;
mod term;
mod unwinding;

pub use carry::{Carry, carry_entry, carry_pattern, carry_rule, carry_rules};
pub use code::{Code, Fault, Verdict};
pub use limits::Limits;
pub use listed::Listed;
pub use memory::NoMemory;
pub use node::NodeOf;
pub use scoped::{Asked, Left, Scoped, ScopedRule};
pub use signature::{Entry, Pat, Rule, Signature, SymSort};
pub use stop::{Stop, TypeFault};
pub use term::{Term, make_annotated, make_app, make_bare, make_product};
pub use unwinding::spine;
