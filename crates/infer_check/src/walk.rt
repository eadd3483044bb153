//! What a walk of typing changes.
ghost use Rattle.std.specs.Prelude.{◌≡◌, []};

use crate::Context;
use std::alloc::Global;

/// What a walk of typing changes: the variables that may stand in a term, and the units.
#[derive(Drop)]
pub struct Walk<T> {
    pub context: Context<T>,
    /// The units that may be spent.
    pub left: u64,
}

impl<T: Drop> Walk<T> {
    /// A walk of a term without variables, with so many units.
    pub fn new(alloc: Global, left: u64) -> Walk<T>
        ensures rule_vars { result.context.rule_vars ≡ [] }
        ensures bound { result.context.bound ≡ [] }
        ensures left { result.left ≡ left }
    {
        Walk {
            context: Context::new(alloc),
            left,
        }
    }
}
