//! The items of a certificate's parts, and their reading from the bytes of one (docs/certificates.md).
//!
//! Begin at `Item`, then at specs/Texts.antt, which says what items are spelt like, and `read_items`.
#![tactic(auto)]

mod fault;
mod item;
mod reading;

pub use fault::ReadFault;
pub use item::{Item, Join, Step};
pub use reading::{read_items, take_items};
