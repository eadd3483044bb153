//! Inference and checking, once, over whatever stands for terms.
//!
//! The meanings are `inferred` and `checked` of dk_model (docs/typing.md). Begin at `infer` and `check`.
#![tactic(auto)]

mod applied;
mod checking;
mod context;
mod expect;
mod head;
mod inference;
mod product;
mod spine;
mod variables;
mod walk;

pub use checking::check;
pub use context::Context;
pub use expect::{Compared, as_convertible, as_product, into_product, not_kind};
pub use inference::{infer, sort_of};
pub use product::Product;
pub use variables::{symbol_type, variable_type};
pub use walk::Walk;
