//! An evaluation that answers by the items of a part (docs/certificates.md).
ghost use Rattle.std.specs.Prelude.{◌≡◌, ◌↔◌, [], IsTrue};
ghost use Rattle.certificate_items.specs.Views.{plain_items};

use certificate_items::Item;
use dk_model::{Listed, Stop, Term, TypeFault};
use signature_log::Version;
use std::alloc::Global;
use tree_steps::ItemsLeft;
use tree_typing::{Bindings, Evaluates};

/// An evaluation that answers by the items that are left of a part: each call takes the next one, which must do its work.
/// One that doesn't, or that is missing, is as if nothing were left to spend.
#[derive(Drop)]
pub struct ByItems<'i> {
    pub left: ItemsLeft<'i>,
}

impl<'i> ByItems<'i> {
    /// With all items of a part left.
    pub fn new(alloc: Global, items: &'i [Item]) -> ByItems<'i>
        ensures { result.left.items.now ≡ items.now }
    {
        ByItems {
            left: ItemsLeft { alloc, items },
        }
    }

    /// Whether no item is left over.
    pub fn is_over(&self) -> bool
        ensures { IsTrue result ↔ (plain_items self.now.left.items.now ≡ []) }
    {
        self.left.items.is_empty()
    }
}

impl<'i> Evaluates for ByItems<'i> {
    ghost use Rattle.std.specs.Prelude.{List};
    ghost use Rattle.checked_steps.specs.Items.{Item as PlainItem};
    ghost use Rattle.checked_steps.specs.Checked.{by_items};
    ghost use Rattle.tree_steps.specs.Items.{left_of};

    ghost Spent = { List PlainItem };

    ghost evaluator = { by_items };

    ghost left = { λ evaluation. left_of evaluation.left };

    fn alloc(&self) -> Global {
        self.left.alloc
    }

    fn whnf(&mut self, version: &Version, term: &Term) -> Result<Term, Stop> {
        match self.left.next_reduction(version, term)? {
            Some(form) => Ok(form),
            None => Err(Stop::Ended),
        }
    }

    fn same(&mut self, version: &Version, term: &Term, other: &Term) -> Result<bool, Stop> {
        if self.left.next_joining(version, term, other)? {
            Ok(true)
        } else {
            Err(Stop::Ended)
        }
    }

    fn normal(&mut self, version: &Version, term: &Term) -> Result<Term, Stop> {
        match self.left.next_reduction(version, term)? {
            Some(form) => Ok(form),
            None => Err(Stop::Ended),
        }
    }

    fn solve(
        &mut self,
        version: &Version,
        bound: &Bindings,
        term: &Term,
        other: &Term,
    ) -> Result<Bindings, TypeFault> {
        match self
            .left
            .next_solution(version, bound.terms.as_slice(), term, other)?
        {
            Some(terms) => Ok(Bindings {
                terms: Listed::from_vec(terms),
            }),
            None => Err(TypeFault::Ended),
        }
    }
}
