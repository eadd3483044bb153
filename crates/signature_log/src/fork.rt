//! A block of blocks of cells.
ghost use Rattle.std.specs.Prelude.{◌≡◌, None, IfOk};
ghost use Rattle.signature_log.specs.Slots.{IsPut, cell_at, slot_at};

use crate::blocks::Share;
use crate::slots::{Slots, with_cell};
use dk_model::NoMemory;
use std::alloc::Global;
use std::marker::Model;
use std::sync::Arc;

/// A block of blocks, each for as many numbers, in order. Those that hold nothing may be left out.
#[derive(Drop)]
pub struct Fork<S> {
    slots: Arc<Vec<Option<S>>>,
}

impl<S> Model for Fork<S> {
    ghost use Rattle.std.specs.Prelude.{List, Option};
    ghost use Rattle.std.specs.Coded.{coded_list, coded_option};
    ghost use Rattle.std.specs.Arc.{arc_value};

    ghost Value = { List (Option S) };

    ghost coded = { coded_list (coded_option S.code) };

    ghost view = { λ fork. (arc_value fork.slots).items };
}

impl<S: Share> Share for Fork<S> {
    fn share(&self) -> Result<Fork<S>, NoMemory> {
        Ok(Fork {
            slots: Arc::try_clone(&self.slots)?,
        })
    }
}

/// The block in a cell with one value more, a new block where there is none.
fn with_value<S: Slots>(
    alloc: Global,
    slots: &[Option<S>],
    at: usize,
    number: u64,
    value: S::Value,
) -> Result<S, NoMemory>
    ensures { IfOk result (λ s. IsPut (slot_at S.at (cell_at slots.now at)) (S.at s) number value) }
{
    match slots.get(at) {
        Some(Some(slot)) => slot.put(alloc, number, value),
        _ => {
            let slot = S::empty(alloc)?;
            slot.put(alloc, number, value)
        }
    }
}

impl<S: Slots> Slots for Fork<S> {
    ghost use Rattle.signature_log.specs.Blocks.{wide};
    ghost use Rattle.signature_log.specs.Slots.{fork_at};

    type Value = S::Value;

    ghost at = { fork_at S.at S.span };

    ghost span = { wide S.span };

    fn span() -> u64 {
        S::span().saturating_mul(32)
    }

    fn empty(alloc: Global) -> Result<Fork<S>, NoMemory> {
        Ok(Fork {
            slots: Arc::new(alloc, Vec::new(alloc))?,
        })
    }

    fn find(&self, number: u64) -> Option<&S::Value> {
        let span = S::span();
        match self.slots.get((number / span) as usize) {
            Some(Some(slot)) => slot.find(number % span),
            _ => None,
        }
    }

    fn put(&self, alloc: Global, number: u64, value: S::Value) -> Result<Fork<S>, NoMemory> {
        let span = S::span();
        let at = (number / span) as usize;
        let slot = with_value(alloc, self.slots.as_slice(), at, number % span, value)?;
        let slots = with_cell(alloc, self.slots.as_slice(), at, slot)?;
        Ok(Fork {
            slots: Arc::new(alloc, slots)?,
        })
    }
}
