//! Lists in blocks of at most 32 places, which the lists made of them share.
ghost use Rattle.std.specs.Prelude.{◌≡◌, ℕ, ◌+◌, ◌*◌, ◌<◌, ◌≤◌, List, [], ◌∷◌, ◌++◌, length, slice_get, IfOk, OnOk};
ghost use Rattle.std.specs.Option.{option_copied};

use crate::Steps;
use dk_model::NoMemory;
use std::alloc::Global;
use std::sync::ledger::Ledger;

/// How many places a block has.
pub const WIDTH: usize = 32;

/// What can stand in two places at a time.
pub trait Share: Drop {
    /// An equal one, without a copy of what it holds.
    fn share(&self) -> Result<Self, NoMemory>
        ensures { IfOk result (λ s. s ≡ self.now) };
}

/// A list of places in blocks.
pub trait Blocks: Share {
    type Place: Share;

    // The places, in order.
    ghost places: { Self → List Self.Place };

    // Whether its blocks are filled as they are to be.
    ghost sound: { Self → Type 0 };

    // How many places there can be.
    ghost most: { ℕ };

    // How many blocks lie above each other.
    ghost levels: { ℕ };

    fn most() -> u64
        ensures is { result ≡ most }
        ensures some { 0 < most };

    fn len(&self) -> u64
        requires { sound self.now }
        ensures count { result ≡ length (places self.now) }
        ensures within { result ≤ most };

    fn get(&self, at: u64) -> Option<&Self::Place>
        requires { sound self.now }
        ensures { option_copied result ≡ slice_get (places self.now) at };

    /// One place, in blocks of its own.
    fn one<L: Ledger>(
        alloc: Global,
        place: Self::Place,
        steps: &mut Steps<L>,
    ) -> Result<Self, NoMemory>
        ensures places { IfOk result (λ b. places b ≡ place ∷ []) }
        ensures sound { IfOk result (λ b. sound b) }
        ensures cost { steps.new ≤ steps.old + levels };

    /// The list with one place more. Copies one block of each level.
    fn append<L: Ledger>(
        &self,
        alloc: Global,
        place: Self::Place,
        steps: &mut Steps<L>,
    ) -> Result<Self, NoMemory>
        requires sound { sound self.now }
        requires room { length (places self.now) < most }
        ensures places { IfOk result (λ b. places b ≡ places self.now ++ place ∷ []) }
        ensures sound { IfOk result (λ b. sound b) }
        ensures cost { steps.new ≤ steps.old + 32 * levels };

    // There is room for a place.
    ghost has_room: { 0 < most };
}

/// The places with one more.
pub fn with<T: Share, L: Ledger>(
    alloc: Global,
    places: &[T],
    last: T,
    steps: &mut Steps<L>,
) -> Result<Vec<T>, NoMemory>
    ensures places { IfOk result (λ v. v.items ≡ places.now ++ last ∷ []) }
    ensures counted { OnOk result (steps.new ≡ steps.old + (length places.now + 1)) }
    ensures cost { steps.new ≤ steps.old + (length places.now + 1) }
{
    let mut all = Vec::with_capacity(alloc, places.len().saturating_add(1))?;
    for place in places {
        steps.tick();
        all.push(place.share()?)?;
    }
    steps.tick();
    all.push(last)?;
    Ok(all)
}
