//! Inference and checking on boxed trees, over any evaluation: the definition as code.
//!
//! The meanings are `inferred`, `checked` and `sort_of` of dk_model (docs/typing.md). Begin at `Evaluates` and `infer`.
#![tactic(auto)]

mod bindings;
mod checking;
mod context;
mod evaluates;
mod expect;
mod inference;
mod product;
mod setting;
mod variables;

pub use bindings::Bindings;
pub use checking::check;
pub use context::{Context, depth};
pub use evaluates::Evaluates;
pub use expect::{as_convertible, as_product, as_sort, as_star, not_kind};
pub use inference::{body_type, infer, sort_of};
pub use product::Product;
pub use setting::Setting;
pub use variables::{rule_variable_type, symbol_type, variable_type};
