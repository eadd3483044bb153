//! Scoping: which binder, rule variable or symbol each name of a command means.
//!
//! A written command names its variables and symbols; a scoped one numbers them. Begin at `Names`,
//! then docs/scoping.md and specs/Scopes.antt, which says what scoping is.
#![tactic(auto)]

mod binders;
mod declaration;
mod hashing;
pub mod laws;
mod left;
mod meaning;
mod modules;
mod names;
mod placed;
mod placed_command;
mod query;
mod rule;
mod spelt;
mod table;
mod term;
mod variables;

pub use modules::Entered;
// A crate can name what `Names` has in a clause only if the types of its fields are exported.
#[doc(hidden)]
pub use hashing::NameHasher;
#[doc(hidden)]
pub use modules::{Declared, Modules, Place};
pub use names::{Names, ScopeFault};
#[doc(hidden)]
pub use spelt::Symbol;
#[doc(hidden)]
pub use table::Table;
