//! A walk that builds a term from its parts, and keeps what waits in a list, so that it doesn't nest
//! with the term.

use crate::change::Pair;

/// A term that waits for one of its parts. An `S` is a part that is to be built, and a `T` one that
/// has been.
#[derive(Drop)]
pub(crate) enum Waiting<S, T> {
    /// For the first part.
    First { pair: Pair, second: S },
    /// For the second part.
    Second { pair: Pair, first: T },
    /// For the body of an abstraction without an annotation.
    Body,
}

/// Where a walk stands: before a part, or after it.
#[derive(Drop)]
pub(crate) enum Stage<S, T> {
    Before(S),
    After(T),
}
