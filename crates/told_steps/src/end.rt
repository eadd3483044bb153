//! How a column of a selection ended.
use crate::told::Told;

/// The term that a column ended with, and the steps to it from the one that it began with.
#[derive(Drop)]
pub struct End {
    /// How many variables a pattern binds there.
    pub depth: u64,
    pub told: Told,
}
