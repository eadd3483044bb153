//! The rows of a node by head: for each head that they ask for the rows that are kept. The heads are halved, each half with
//! the rows that may be kept for one of its heads, until a single head is left; so not all rows are gone through for each.
ghost use Rattle.std.specs.Prelude.{◌≡◌, ℕ, true, IsTrue, IfOk, IfSome, OnOk, List, length, map};
ghost use Rattle.dk_model.specs.Signatures.{PlainRule};
ghost use Rattle.dk_model.specs.Matrix.{cell_at};
ghost use Rattle.dk_model.specs.Matrix.{Row as PlainRow};
ghost use Rattle.rule_match.specs.declared.key.Key.{Key};
ghost use Rattle.rule_match.specs.Keys.{is_kept, comes_before, rows_by};
ghost use Rattle.rule_match.specs.Rows.{plain_cell, row as row_of};
ghost use Rattle.rule_match.specs.Groups.{KeepSame, AreBeside, AreGroups};

use crate::cell::{Cell, Row};
use crate::key::{Key, is_before};
use crate::refine::{cell_of, refined_rows};
use dk_model::{NoMemory, Pat};
use std::alloc::Global;

/// The rows that are kept for a head.
#[derive(Drop)]
pub(crate) struct Group<'v> {
    pub(crate) key: Key,
    pub(crate) rows: Vec<Row<'v>>,
}

/// The head that a row asks for in a column. It is kept for no other one.
fn key_at(row: &Row, column: usize) -> Option<Key>
    ensures { IfSome result (λ asked. (key : Key)
        → is_kept key (cell_at (map plain_cell row.now.cells.items) column) ≡ true → key ≡ asked) }
{
    match cell_of(row.cells.as_slice(), column) {
        Cell::Blank => None,
        Cell::Pattern(pattern) => match pattern {
            Pat::Sym(symbol, patterns) => Some(Key::Symbol(*symbol, patterns.len())),
            Pat::Var(variable, patterns) => {
                Some(Key::Variable(u64::from(*variable), patterns.len()))
            }
            Pat::Abs(_) => Some(Key::Abstraction),
            Pat::Rvar(_, _) => None,
            Pat::Any => None,
            Pat::Guard(_) => None,
        },
    }
}

/// The heads that rows ask for in a column, each once, in their order.
fn keys_of(alloc: Global, rows: &[Row], column: usize) -> Result<Vec<Key>, NoMemory> {
    let mut keys = Vec::new(alloc);
    for row in rows {
        if let Some(key) = key_at(row, column) {
            keys.push(key)?;
        }
    }
    keys.sort_unstable();
    keys.dedup();
    Ok(keys)
}

/// Whether a row may be kept for a head on this side of the pivot.
fn may_be_kept(row: &Row, column: usize, pivot: Key, before: bool) -> bool
    ensures { (key : Key) → comes_before key pivot ≡ before
        → is_kept key (cell_at (map plain_cell row.now.cells.items) column) ≡ true → result ≡ true }
{
    match key_at(row, column) {
        Some(key) => is_before(key, pivot) == before,
        None => true,
    }
}

/// A copy of the row.
fn copied<'v>(alloc: Global, row: &Row<'v>) -> Result<Row<'v>, NoMemory>
    ensures { IfOk result (λ copy. (rules : List PlainRule) → row_of rules copy ≡ row_of rules row.now) }
{
    let cells = Vec::from_slice(alloc, row.cells.as_slice())?;
    Ok(Row { cells, at: row.at })
}

/// The rows that may be kept for a head on this side of the pivot.
fn half<'v>(
    alloc: Global,
    rows: &[Row<'v>],
    column: usize,
    pivot: Key,
    before: bool,
) -> Result<Vec<Row<'v>>, NoMemory>
    ensures { IfOk result (λ half. (rules : List PlainRule) (key : Key) → comes_before key pivot ≡ before
        → rows_by key column (map (row_of rules) half.items)
        ≡ rows_by key column (map (row_of rules) rows.now)) }
{
    let mut half = Vec::new(alloc);
    for row in rows {
        if may_be_kept(row, column, pivot, before) {
            half.push(copied(alloc, row)?)?;
        }
    }
    Ok(half)
}

/// Whether these heads all stand on this side of the pivot.
fn are_beside(keys: &[Key], pivot: Key, before: bool) -> bool
    ensures { IsTrue result → AreBeside pivot before keys.now }
{
    for key in keys {
        if is_before(*key, pivot) != before {
            return false;
        }
    }
    true
}

/// Puts in a group for each of these heads, of rows that hold all that are kept for one of them.
fn push_groups<'v>(
    alloc: Global,
    column: usize,
    keys: &[Key],
    rows: &[Row<'v>],
    groups: &mut Vec<Group<'v>>,
) -> Result<(), NoMemory>
    ensures { OnOk result ((rules : List PlainRule) (all : List PlainRow)
        → KeepSame keys.now column (map (row_of rules) rows.now) all
        → AreGroups rules column all groups.old.items → AreGroups rules column all groups.new.items) }
{
    if keys.len() < 2 {
        if let Some(key) = keys.first() {
            let kept = refined_rows(alloc, *key, column, rows)?;
            groups.push(Group {
                key: *key,
                rows: kept,
            })?;
        }
        return Ok(());
    }
    let middle = keys.len() / 2;
    let pivot = keys[middle];
    let (first, second) = keys.split_at(middle);
    // They are, since they are sorted. A head that is left out would only cost time.
    if are_beside(first, pivot, true) && are_beside(second, pivot, false) {
        let low = half(alloc, rows, column, pivot, true)?;
        push_groups(alloc, column, first, low.as_slice(), groups)?;
        let high = half(alloc, rows, column, pivot, false)?;
        push_groups(alloc, column, second, high.as_slice(), groups)?;
    }
    Ok(())
}

/// The rows that are kept for each head that rows ask for in a column.
pub(crate) fn grouped<'v>(
    alloc: Global,
    column: usize,
    rows: &[Row<'v>],
) -> Result<Vec<Group<'v>>, NoMemory>
    ensures { IfOk result (λ groups. (rules : List PlainRule)
        → AreGroups rules column (map (row_of rules) rows.now) groups.items) }
{
    let keys = keys_of(alloc, rows, column)?;
    let mut groups = Vec::new(alloc);
    push_groups(alloc, column, keys.as_slice(), rows, &mut groups)?;
    Ok(groups)
}
