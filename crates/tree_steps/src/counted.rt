//! A term with its nodes counted, so that steps are taken at its nodes.
ghost use Rattle.std.specs.Prelude.{◌≡◌, IfOk};
ghost use Rattle.dk_model.specs.Trees.{tree};
ghost use Rattle.tree_steps.specs.Counts.{IsCounted};
ghost use Rattle.tree_steps.specs.Places.{with_node};

use crate::counts::{Counts, counts_of};
use crate::places::put;
use dk_model::{NoMemory, Term};
use std::alloc::Global;

/// A term with its nodes counted.
#[derive(Drop)]
pub struct Counted {
    pub(crate) term: Term,
    pub(crate) counts: Counts,
}

impl Counted {
    pub(crate) fn new(alloc: Global, term: Term) -> Result<Counted, NoMemory>
        ensures term { IfOk result (λ counted. tree counted.term ≡ tree term) }
        ensures counted { IfOk result IsCounted }
    {
        let counts = counts_of(alloc, &term)?;
        Ok(Counted { term, counts })
    }

    /// The term with another one in the place of the node of this number.
    pub(crate) fn with_node(
        self,
        alloc: Global,
        place: u64,
        node: Term,
    ) -> Result<Counted, NoMemory>
        requires counted { IsCounted self }
        ensures placed { IfOk result (λ counted. tree counted.term
            ≡ with_node place (tree self.term) (tree node)) }
        ensures counted { IfOk result IsCounted }
    {
        let node = Counted::new(alloc, node)?;
        let Counted {
            mut term,
            mut counts,
        } = self;
        put(place, &mut term, &mut counts, node)?;
        Ok(Counted { term, counts })
    }
}
