//! What a query finds, with its term in a list of its own.
use crate::Stored;

/// What an accepted query found.
#[derive(Drop)]
pub enum Found {
    /// The term has the type, or the terms are the same.
    Yes,
    /// They aren't.
    No,
    /// The type of the term.
    Of(Stored),
    /// The normal form of the term.
    Value(Stored),
}
