//! What rule variables are bound to while a left side is typed.
use dk_model::{Listed, Term};

/// What rule variables are bound to: a term at the place of its rule variable, where it is bound (docs/typing.md).
#[derive(Drop)]
pub struct Bindings {
    pub terms: Listed<Option<Term>>,
}
