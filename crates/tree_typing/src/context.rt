//! The types of the variables that are bound where a term stands.
ghost use Rattle.std.specs.Prelude.{◌≡◌, ◌+◌, IfOk, length, map, slice_get};
ghost use Rattle.std.specs.Option.{option_copied, option_map};
ghost use Rattle.dk_model.specs.Trees.{tree};
ghost use Rattle.tree_typing.specs.Contexts.{bound_types};

use dk_model::{NoMemory, Term};

/// The types of the variables that are bound where a term stands, each over the variables before it.
#[derive(Clone, Copy)]
pub enum Context<'c> {
    /// Those of a list, the innermost first.
    Outer(&'c [Term]),
    /// One more variable, the innermost: its type, and the others.
    Bound(&'c Term, &'c Context<'c>),
}

/// How many variables are bound.
pub fn depth(context: &Context) -> Result<u64, NoMemory>
    ensures { IfOk result (λ n. n ≡ length (bound_types context.now)) }
{
    match context {
        Context::Outer(types) => Ok(types.len() as u64),
        Context::Bound(_, around) => next(depth(around)?),
    }
}

/// The type of a variable, as it was when the variable was bound, if it is bound.
pub(crate) fn bound_type<'c>(context: &Context<'c>, variable: u64) -> Option<&'c Term>
    ensures { option_map tree (option_copied result) ≡ slice_get (bound_types context.now) variable }
{
    match context {
        Context::Outer(types) => types.get(variable as usize),
        Context::Bound(typ, around) => {
            if variable == 0 {
                Some(typ)
            } else {
                bound_type(around, variable - 1)
            }
        }
    }
}

/// One more.
pub(crate) fn next(k: u64) -> Result<u64, NoMemory>
    ensures { IfOk result (λ n. n ≡ k + 1) }
{
    match k.checked_add(1) {
        Some(n) => Ok(n),
        None => Err(NoMemory),
    }
}
