//! The declared rules of a symbol, by their places.
ghost use Rattle.std.specs.Prelude.{◌≡◌, ◌^◌, ◌≤◌, [], ◌∷◌, ◌++◌, length, slice_get, IfOk};
ghost use Rattle.std.specs.Option.{option_copied};
ghost use Rattle.signature_log.specs.Blocks.{IsLeaf};
ghost use Rattle.signature_log.specs.Listings.{places_of, IsListing};

use crate::Steps;
use crate::blocks::{Blocks, Share, WIDTH};
use crate::leaf::Leaf;
use crate::many::Many;
use crate::place::Place;
use dk_model::NoMemory;
use std::alloc::Global;
use std::marker::Model;
use std::sync::ledger::Ledger;

/// Rules by their places: as many as a block has, or more in levels of blocks.
#[derive(Drop)]
pub enum Listing {
    Few(Leaf<Place>),
    Many(Many),
}

/// The declared rules of a symbol, by their places, in file order.
#[derive(Drop)]
pub struct RuleList {
    listing: Listing,
}

impl Model for RuleList {
    ghost use Rattle.std.specs.Prelude.{ℕ, List};
    ghost use Rattle.std.specs.Coded.{coded_list, coded×, coded_ℕ};
    ghost use Rattle.dk_model.specs.declared.signature.Entry.{Entry};
    ghost use Rattle.shared_term.specs.declared.stored.Stored.{Stored};
    ghost use Rattle.dk_model.specs.contracts.signature.Entry as entries;
    ghost use Rattle.shared_term.specs.contracts.stored.Stored as stored;

    ghost Value = { List (Entry Stored × ℕ) };

    ghost coded = { coded_list (coded× (entries.the_row stored.the_row).coded coded_ℕ) };

    ghost use Rattle.signature_log.specs.Listings.{places_of, IsListing};

    ghost view = { λ list. places_of list.listing };

    ghost invariant = { λ list. IsListing list.listing };
}

/// The places of a block in levels of blocks.
fn spread<L: Ledger>(alloc: Global, few: &[Place], steps: &mut Steps<L>) -> Result<Many, NoMemory>
    ensures { IfOk result (λ many. many ≡ few.now) }
{
    let mut many = Many::empty(alloc)?;
    for place in few {
        many = many.append(alloc, place.share()?, steps)?;
    }
    Ok(many)
}

/// The places of a block and one more.
fn with_place<L: Ledger>(
    alloc: Global,
    few: &Leaf<Place>,
    place: Place,
    steps: &mut Steps<L>,
) -> Result<Listing, NoMemory>
    requires { IsLeaf few.now }
    ensures places { IfOk result (λ listing. places_of listing ≡ few.now ++ place ∷ []) }
    ensures sound { IfOk result IsListing }
{
    if few.as_slice().len() < WIDTH {
        return Ok(Listing::Few(few.append(alloc, place, steps)?));
    }
    let many = spread(alloc, few.as_slice(), steps)?;
    Ok(Listing::Many(many.append(alloc, place, steps)?))
}

impl RuleList {
    pub fn one<L: Ledger>(
        alloc: Global,
        place: Place,
        steps: &mut Steps<L>,
    ) -> Result<RuleList, NoMemory>
        ensures { IfOk result (λ list. list ≡ place ∷ []) }
    {
        let few = Leaf::one(alloc, place, steps)?;
        Ok(RuleList {
            listing: Listing::Few(few),
        })
    }

    pub fn len(&self) -> u64
        ensures count { result ≡ length self.now }
        ensures within { result ≤ 2 ^ 30 }
    {
        match &self.listing {
            Listing::Few(few) => few.len(),
            Listing::Many(many) => many.len(),
        }
    }

    pub fn get(&self, at: u64) -> Option<&Place>
        ensures { option_copied result ≡ slice_get self.now at }
    {
        match &self.listing {
            Listing::Few(few) => few.get(at),
            Listing::Many(many) => many.get(at),
        }
    }

    /// The list with one rule more. Past 2^30 rules there is no memory for it.
    pub fn append<L: Ledger>(
        &self,
        alloc: Global,
        place: Place,
        steps: &mut Steps<L>,
    ) -> Result<RuleList, NoMemory>
        ensures { IfOk result (λ list. list ≡ self.now ++ place ∷ []) }
    {
        let listing = match &self.listing {
            Listing::Few(few) => with_place(alloc, few, place, steps)?,
            Listing::Many(many) => Listing::Many(many.append(alloc, place, steps)?),
        };
        Ok(RuleList { listing })
    }
}

impl Share for RuleList {
    fn share(&self) -> Result<RuleList, NoMemory> {
        let listing = match &self.listing {
            Listing::Few(few) => Listing::Few(few.share()?),
            Listing::Many(many) => Listing::Many(many.share()?),
        };
        Ok(RuleList { listing })
    }
}
