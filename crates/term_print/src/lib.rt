//! Printing: the text of a term as it would be written, so that it can be read back.
//!
//! Begin at `print`, then docs/printing.md and specs/Printing.antt, which says what a printed term is; `laws` says that it is
//! read as the same term.
#![tactic(auto)]

mod binder;
pub mod laws;
mod page;
mod parts;
mod place;
mod printing;
mod products;
mod source;
mod spellings;
mod stored;
mod symbols;
mod task;
mod text;

pub use printing::{print, print_part};
pub use source::{Source, Words};
// A crate can name what a written term is only if the places where it stands are exported.
#[doc(hidden)]
pub use place::Place;
