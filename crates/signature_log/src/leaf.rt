//! A block of places, the lowest level.
ghost use Rattle.std.specs.Prelude.{◌≡◌, [], ◌∷◌, ◌++◌, length, IfOk};

use crate::Steps;
use crate::blocks::{Blocks, Share, with};
use dk_model::NoMemory;
use std::alloc::Global;
use std::marker::Model;
use std::sync::Arc;
use std::sync::ledger::Ledger;

/// A block of places.
#[derive(Drop)]
pub struct Leaf<T> {
    places: Arc<Vec<T>>,
}

impl<T> Model for Leaf<T> {
    ghost use Rattle.std.specs.Prelude.{List};
    ghost use Rattle.std.specs.Coded.{coded_list};
    ghost use Rattle.std.specs.Arc.{arc_value};

    ghost Value = { List T };

    ghost coded = { coded_list T.code };

    ghost view = { λ leaf. (arc_value leaf.places).items };
}

impl<T> Leaf<T> {
    /// A block of these places.
    pub fn new(alloc: Global, places: Vec<T>) -> Result<Leaf<T>, NoMemory>
    where
        T: Drop,
        ensures { IfOk result (λ leaf. leaf ≡ places.items) }
    {
        Ok(Leaf {
            places: Arc::new(alloc, places)?,
        })
    }

    pub fn as_slice(&self) -> &[T]
        ensures { result.now ≡ self.now }
    {
        self.places.as_slice()
    }
}

impl<T: Share> Share for Leaf<T> {
    fn share(&self) -> Result<Leaf<T>, NoMemory> {
        Ok(Leaf {
            places: Arc::try_clone(&self.places)?,
        })
    }
}

impl<T: Share> Blocks for Leaf<T> {
    ghost use Rattle.signature_log.specs.Blocks.{leaf_places, IsLeaf};

    type Place = T;

    ghost places = { leaf_places };

    ghost sound = { IsLeaf };

    ghost most = { 32 };

    ghost levels = { 1 };

    ghost use Rattle.std.proofs.Common.{arith};

    ghost has_room = { Prim.omega arith };

    fn most() -> u64 {
        32
    }

    fn len(&self) -> u64 {
        self.places.len() as u64
    }

    fn get(&self, at: u64) -> Option<&T> {
        self.places.get(at as usize)
    }

    fn one<L: Ledger>(alloc: Global, place: T, steps: &mut Steps<L>) -> Result<Leaf<T>, NoMemory> {
        let places = with(alloc, &[], place, steps)?;
        Ok(Leaf {
            places: Arc::new(alloc, places)?,
        })
    }

    fn append<L: Ledger>(
        &self,
        alloc: Global,
        place: T,
        steps: &mut Steps<L>,
    ) -> Result<Leaf<T>, NoMemory> {
        let places = with(alloc, self.places.as_slice(), place, steps)?;
        Ok(Leaf {
            places: Arc::new(alloc, places)?,
        })
    }
}
