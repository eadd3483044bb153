//! Two terms that are compared.
ghost use Rattle.std.specs.Prelude.{◌≡◌, [], ◌∷◌, ◌++◌, OnOk, map};
ghost use Rattle.dk_model.specs.Trees.{tree};
ghost use Rattle.tree_steps.specs.Views.{pair};

use dk_model::{NoMemory, Term};
use std::alloc::Global;
use std::collections::LinkedList;

/// Two terms that must be joinable, or the two sides of an equation.
#[derive(Drop)]
pub struct Pair {
    pub first: Term,
    pub second: Term,
}

/// Puts a copy of two terms behind the pairs.
pub fn push_copies(
    alloc: Global,
    pairs: &mut LinkedList<Pair>,
    first: &Term,
    second: &Term,
) -> Result<(), NoMemory>
    ensures { OnOk result (map pair pairs.new
        ≡ map pair pairs.old ++ (tree first.now, tree second.now) ∷ []) }
{
    let first = first.copy(alloc)?;
    let second = second.copy(alloc)?;
    pairs.push_back(Pair { first, second })?;
    Ok(())
}
