//! Terms that evaluation reaches, each told with the single steps to it, and evaluation that tells them.
//!
//! What is told of a term is put together from what is told of its parts. Begin at specs/Told.antt, which says what
//! steps lead where, then at `Told`, `Meeting` and `fire`. `Tells` is evaluation that tells its steps.
#![tactic(auto)]

mod contraction;
mod end;
mod firing;
mod fold;
mod meeting;
mod moved;
mod parts;
mod tells;
mod told;

pub use contraction::told_contraction;
pub use end::End;
pub use firing::{TakenRule, fire};
pub use fold::{Opened, fold_value};
pub use meeting::{Meeting, met_application, met_behind, met_body, met_product, met_same};
pub use moved::node_count;
pub use parts::{told_annotated, told_application, told_body, told_product};
pub use tells::Tells;
pub use told::{Told, followed, unmoved};
