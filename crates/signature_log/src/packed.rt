//! Blocks in a row: how many places they have, the place at a number, and one place more.
ghost use Rattle.std.specs.Prelude.{◌≡◌, ◌+◌, ◌-◌, ◌*◌, ◌^◌, ◌<◌, ◌≤◌, [], ◌∷◌, ◌++◌, length, slice_get, IfOk};
ghost use Rattle.std.specs.Option.{option_copied};
ghost use Rattle.std.specs.List.{flat_map};
ghost use Rattle.signature_log.specs.Blocks.{IsBranch};

use crate::Steps;
use crate::blocks::{Blocks, with};
use dk_model::NoMemory;
use std::alloc::Global;
use std::sync::ledger::Ledger;

/// How many places they have.
pub fn count<B: Blocks>(blocks: &[B]) -> u64
    requires { IsBranch B.places B.sound B.most blocks.now }
    ensures count { result ≡ length (flat_map B.places blocks.now) }
    ensures within { result ≤ 32 * B.most }
{
    let count = blocks.len();
    if count == 0 {
        return 0;
    }
    let last = &blocks[count - 1];
    (count as u64 - 1) * B::most() + last.len()
}

/// The place at a number, from 0.
pub fn get<B: Blocks>(blocks: &[B], at: u64) -> Option<&B::Place>
    requires { IsBranch B.places B.sound B.most blocks.now }
    ensures { option_copied result ≡ slice_get (flat_map B.places blocks.now) at }
{
    let most = B::most();
    let block = (at / most) as usize;
    if block < blocks.len() {
        blocks[block].get(at % most)
    } else {
        None
    }
}

/// The blocks with one place more: in the last one, or in a further one where that is full.
pub fn append<B: Blocks, L: Ledger>(
    alloc: Global,
    blocks: &[B],
    place: B::Place,
    steps: &mut Steps<L>,
) -> Result<Vec<B>, NoMemory>
    requires sound { IsBranch B.places B.sound B.most blocks.now }
    requires room { length (flat_map B.places blocks.now) < 32 * B.most }
    requires fits { length (flat_map B.places blocks.now) < 2 ^ 64 - 1 }
    ensures places { IfOk result (λ v. flat_map B.places v.items
        ≡ flat_map B.places blocks.now ++ place ∷ []) }
    ensures sound { IfOk result (λ v. IsBranch B.places B.sound B.most v.items) }
    ensures cost { steps.new ≤ steps.old + 32 * (B.levels + 1) }
{
    let count = blocks.len();
    if count == 0 {
        let block = B::one(alloc, place, steps)?;
        return with(alloc, blocks, block, steps);
    }
    let last = &blocks[count - 1];
    if last.len() < B::most() {
        let block = last.append(alloc, place, steps)?;
        with(alloc, &blocks[..count - 1], block, steps)
    } else {
        let block = B::one(alloc, place, steps)?;
        with(alloc, blocks, block, steps)
    }
}
