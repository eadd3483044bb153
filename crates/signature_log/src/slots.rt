//! Values at numbers, in blocks that those made of them share.
ghost use Rattle.std.specs.Prelude.{◌≡◌, ◌<◌, ℕ, Option, None, get_or, IfOk};
ghost use Rattle.std.specs.Option.{option_copied};
ghost use Rattle.signature_log.specs.Slots.{IsPut, cell_at};

use crate::blocks::Share;
use dk_model::NoMemory;
use std::alloc::Global;

/// Values at numbers.
pub trait Slots: Share {
    type Value: Share;

    // The value at a number, if it has one.
    ghost at: { Self → ℕ → Option Self.Value };

    // How many numbers a block is for.
    ghost span: { ℕ };

    fn span() -> u64
        ensures is { result ≡ span }
        ensures some { 0 < span };

    fn empty(alloc: Global) -> Result<Self, NoMemory>
        ensures { IfOk result (λ s. (n : ℕ) → at s n ≡ None) };

    fn find(&self, number: u64) -> Option<&Self::Value>
        ensures { option_copied result ≡ at self.now number };

    /// The same values with this one at the number. Copies one block of each level.
    fn put(&self, alloc: Global, number: u64, value: Self::Value) -> Result<Self, NoMemory>
        ensures { IfOk result (λ s. IsPut (at self.now) (at s) number value) };
}

fn shared_cell<T: Share>(cells: &[Option<T>], at: usize) -> Result<Option<T>, NoMemory>
    ensures { IfOk result (λ c. c ≡ cell_at cells.now at) }
{
    match cells.get(at) {
        Some(Some(value)) => Ok(Some(value.share()?)),
        _ => Ok(None),
    }
}

/// The cells with this value at the number.
pub fn with_cell<T: Share>(
    alloc: Global,
    cells: &[Option<T>],
    number: usize,
    value: T,
) -> Result<Vec<Option<T>>, NoMemory>
    ensures { IfOk result (λ v. IsPut (cell_at cells.now) (cell_at v.items) number value) }
{
    let count = cells.len().max(number.saturating_add(1));
    let mut all = Vec::with_capacity(alloc, count)?;
    for at in 0..number {
        all.push(shared_cell(cells, at)?)?;
    }
    all.push(Some(value))?;
    for at in all.len()..cells.len() {
        all.push(shared_cell(cells, at)?)?;
    }
    Ok(all)
}
