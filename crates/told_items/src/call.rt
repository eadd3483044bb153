//! What typing has asked of an evaluation.
use dk_model::Term;
use signature_log::Version;
use std::snapshot::Snapshot;
use tree_typing::Bindings;

/// What was asked over a version, and the answer. It takes no memory but for its kind: the terms are there for contracts
/// alone.
#[derive(Drop)]
pub(crate) enum Call {
    /// A term, and a form of it.
    Reduced(Snapshot<Version>, Snapshot<Term>, Snapshot<Term>),
    /// Two terms that are convertible.
    Joined(Snapshot<Version>, Snapshot<Term>, Snapshot<Term>),
    /// Bindings, the sides of an equation, and the bindings once it is solved.
    Resolved(
        Snapshot<Version>,
        Snapshot<Bindings>,
        Snapshot<Term>,
        Snapshot<Term>,
        Snapshot<Bindings>,
    ),
}
