//! The lines of a certificate and of its items, written through a buffer (docs/certificates.md).
//!
//! What they are spelt like: specs/Texts.antt of certificate_lines and of certificate_items. Begin at `put_items`.
#![tactic(auto)]

mod item;
mod line;

pub use item::{put_item, put_items, put_joins, put_steps};
pub use line::put_line;
