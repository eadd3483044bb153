//! What the check of a query finds.

/// What a query finds, with its term as the reducer has it.
#[derive(Drop)]
pub enum FoundOf<T> {
    /// The term has the type, or the terms are the same.
    Yes,
    /// They aren't.
    No,
    /// The type of the term.
    Of(T),
    /// The normal form of the term.
    Value(T),
}
