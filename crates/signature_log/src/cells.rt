//! A block of cells, the lowest level.
ghost use Rattle.std.specs.Prelude.{◌≡◌};

use crate::blocks::Share;
use crate::slots::{Slots, with_cell};
use dk_model::NoMemory;
use std::alloc::Global;
use std::marker::Model;
use std::sync::Arc;

/// A block of cells. Those at the end that hold nothing may be left out.
#[derive(Drop)]
pub struct Cells<T> {
    cells: Arc<Vec<Option<T>>>,
}

impl<T> Model for Cells<T> {
    ghost use Rattle.std.specs.Prelude.{List, Option};
    ghost use Rattle.std.specs.Coded.{coded_list, coded_option};
    ghost use Rattle.std.specs.Arc.{arc_value};

    ghost Value = { List (Option T) };

    ghost coded = { coded_list (coded_option T.code) };

    ghost view = { λ cells. (arc_value cells.cells).items };
}

impl<T: Share> Share for Cells<T> {
    fn share(&self) -> Result<Cells<T>, NoMemory> {
        Ok(Cells {
            cells: Arc::try_clone(&self.cells)?,
        })
    }
}

impl<T: Share> Slots for Cells<T> {
    ghost use Rattle.signature_log.specs.Slots.{cell_at};

    type Value = T;

    ghost at = { cell_at };

    ghost span = { 32 };

    fn span() -> u64 {
        32
    }

    fn empty(alloc: Global) -> Result<Cells<T>, NoMemory> {
        Ok(Cells {
            cells: Arc::new(alloc, Vec::new(alloc))?,
        })
    }

    fn find(&self, number: u64) -> Option<&T> {
        match self.cells.get(number as usize) {
            Some(Some(value)) => Some(value),
            _ => None,
        }
    }

    fn put(&self, alloc: Global, number: u64, value: T) -> Result<Cells<T>, NoMemory> {
        let cells = with_cell(alloc, self.cells.as_slice(), number as usize, value)?;
        Ok(Cells {
            cells: Arc::new(alloc, cells)?,
        })
    }
}
