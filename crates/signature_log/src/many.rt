//! Rules by their places, as many as there can be of a symbol.
ghost use Rattle.std.specs.Prelude.{◌≡◌, ◌^◌, ◌≤◌, [], ◌∷◌, ◌++◌, length, slice_get, IfOk};
ghost use Rattle.std.specs.Option.{option_copied};

use crate::Steps;
use crate::blocks::{Blocks, Share};
use crate::branch::Branch;
use crate::leaf::Leaf;
use crate::place::Place;
use dk_model::NoMemory;
use std::alloc::Global;
use std::marker::Model;
use std::sync::ledger::Ledger;

/// Six levels of blocks of 32.
type Levels = Branch<Branch<Branch<Branch<Branch<Leaf<Place>>>>>>;

/// Rules by their places, in six levels of blocks.
#[derive(Drop)]
pub struct Many {
    levels: Levels,
}

impl Model for Many {
    ghost use Rattle.std.specs.Prelude.{ℕ, List};
    ghost use Rattle.std.specs.Coded.{coded_list, coded×, coded_ℕ};
    ghost use Rattle.dk_model.specs.declared.signature.Entry.{Entry};
    ghost use Rattle.shared_term.specs.declared.stored.Stored.{Stored};
    ghost use Rattle.dk_model.specs.contracts.signature.Entry as entries;
    ghost use Rattle.shared_term.specs.contracts.stored.Stored as stored;

    ghost Value = { List (Entry Stored × ℕ) };

    ghost coded = { coded_list (coded× (entries.the_row stored.the_row).coded coded_ℕ) };

    ghost use Rattle.signature_log.specs.Blocks.{places_6, IsSound_6};

    ghost view = { λ many. places_6 many.levels };

    ghost invariant = { λ many. IsSound_6 many.levels };
}

impl Many {
    pub fn empty(alloc: Global) -> Result<Many, NoMemory>
        ensures { IfOk result (λ many. many ≡ []) }
    {
        Ok(Many {
            levels: Branch::empty(alloc)?,
        })
    }

    pub fn len(&self) -> u64
        ensures count { result ≡ length self.now }
        ensures within { result ≤ 2 ^ 30 }
    {
        self.levels.len()
    }

    pub fn get(&self, at: u64) -> Option<&Place>
        ensures { option_copied result ≡ slice_get self.now at }
    {
        self.levels.get(at)
    }

    /// One rule more. Past 2^30 places there is no memory for it.
    pub fn append<L: Ledger>(
        &self,
        alloc: Global,
        place: Place,
        steps: &mut Steps<L>,
    ) -> Result<Many, NoMemory>
        ensures { IfOk result (λ many. many ≡ self.now ++ place ∷ []) }
    {
        if self.levels.len() >= Levels::most() {
            return Err(NoMemory);
        }
        let levels = self.levels.append(alloc, place, steps)?;
        Ok(Many { levels })
    }
}

impl Share for Many {
    fn share(&self) -> Result<Many, NoMemory> {
        Ok(Many {
            levels: self.levels.share()?,
        })
    }
}
