//! A block of blocks.
ghost use Rattle.std.specs.Prelude.{◌≡◌, [], ◌∷◌, ◌++◌, length, IfOk};

use crate::blocks::{Blocks, Share, with};
use crate::{Steps, packed};
use dk_model::NoMemory;
use std::alloc::Global;
use std::marker::Model;
use std::sync::Arc;
use std::sync::ledger::Ledger;

/// A block of blocks: all but the last are full.
#[derive(Drop)]
pub struct Branch<B> {
    blocks: Arc<Vec<B>>,
}

impl<B> Model for Branch<B> {
    ghost use Rattle.std.specs.Prelude.{List};
    ghost use Rattle.std.specs.Coded.{coded_list};
    ghost use Rattle.std.specs.Arc.{arc_value};

    ghost Value = { List B };

    ghost coded = { coded_list B.code };

    ghost view = { λ branch. (arc_value branch.blocks).items };
}

impl<B> Branch<B> {
    /// No blocks.
    pub fn empty(alloc: Global) -> Result<Branch<B>, NoMemory>
    where
        B: Drop,
        ensures { IfOk result (λ branch. branch ≡ []) }
    {
        Ok(Branch {
            blocks: Arc::new(alloc, Vec::new(alloc))?,
        })
    }
}

impl<B: Share> Share for Branch<B> {
    fn share(&self) -> Result<Branch<B>, NoMemory> {
        Ok(Branch {
            blocks: Arc::try_clone(&self.blocks)?,
        })
    }
}

impl<B: Blocks> Blocks for Branch<B> {
    ghost use Rattle.std.specs.Prelude.{◌+◌};
    ghost use Rattle.std.specs.List.{flat_map};
    ghost use Rattle.signature_log.specs.Blocks.{IsBranch, wide};

    type Place = B::Place;

    ghost places = { flat_map B.places };

    ghost sound = { IsBranch B.places B.sound B.most };

    ghost most = { wide B.most };

    ghost levels = { B.levels + 1 };

    ghost use Rattle.std.proofs.Common.{arith};

    ghost has_room = { Prim.omega (arith, B.has_room) };

    fn most() -> u64 {
        B::most().saturating_mul(32)
    }

    fn len(&self) -> u64 {
        packed::count(self.blocks.as_slice())
    }

    fn get(&self, at: u64) -> Option<&B::Place> {
        packed::get(self.blocks.as_slice(), at)
    }

    fn one<L: Ledger>(
        alloc: Global,
        place: B::Place,
        steps: &mut Steps<L>,
    ) -> Result<Branch<B>, NoMemory> {
        let block = B::one(alloc, place, steps)?;
        let blocks = with(alloc, &[], block, steps)?;
        Ok(Branch {
            blocks: Arc::new(alloc, blocks)?,
        })
    }

    fn append<L: Ledger>(
        &self,
        alloc: Global,
        place: B::Place,
        steps: &mut Steps<L>,
    ) -> Result<Branch<B>, NoMemory> {
        let blocks = packed::append(alloc, self.blocks.as_slice(), place, steps)?;
        Ok(Branch {
            blocks: Arc::new(alloc, blocks)?,
        })
    }
}
