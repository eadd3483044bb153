//! The rows that are kept where a column's value has a certain head, and what they ask of its parts.
ghost use Rattle.std.specs.Prelude.{◌≡◌, ◌+◌, ◌<◌, [], ◌∷◌, IfOk, IfSome, List, length, map, take, drop, replicate};
ghost use Rattle.dk_model.specs.Signatures.{PlainRule};
ghost use Rattle.dk_model.specs.Matrix.{blank, cell, is_rigid, rigid_at, cell_at};
ghost use Rattle.rule_match.specs.Keys.{is_kept, has_symbol, has_variable, has_abstraction, parts, cells_after, cells_when_kept, rows_by};
ghost use Rattle.rule_match.specs.Rows.{pattern_cell, plain_cell, row as row_of, Appends};

use crate::cell::{Cell, Row};
use crate::key::Key;
use dk_model::{NoMemory, Pat};
use shared_term::Stored;
use std::alloc::Global;

/// Whether a cell asks for the head of its column.
fn is_rigid(cell: &Cell) -> bool
    ensures { result ≡ is_rigid (plain_cell cell.now) }
{
    match cell {
        Cell::Blank => false,
        Cell::Pattern(pattern) => match pattern {
            Pat::Rvar(..) => false,
            Pat::Any => false,
            Pat::Guard(_) => false,
            Pat::Sym(..) => true,
            Pat::Var(..) => true,
            Pat::Abs(_) => true,
        },
    }
}

/// The place of the first cell that asks for the head of its column.
#[tactic(auto, using(crate::proofs::Refining::rigid_here, crate::proofs::Refining::rigid_later))]
pub(crate) fn rigid_at(cells: &[Cell]) -> Option<usize>
    ensures value { result ≡ rigid_at (map plain_cell cells.now) }
    ensures within { IfSome result (λ i. i < length cells.now) }
{
    for at in 0..cells.len() {
        if is_rigid(&cells[at]) {
            return Some(at);
        }
    }
    None
}

/// The cell at a place, or nothing.
#[tactic(auto, using(crate::proofs::Refining::cell_found))]
pub(crate) fn cell_of<'v>(cells: &[Cell<'v>], at: usize) -> Cell<'v>
    ensures { plain_cell result ≡ cell_at (map plain_cell cells.now) at }
{
    match cells.get(at) {
        Some(cell) => *cell,
        None => Cell::Blank,
    }
}

/// The cells before a place.
fn before<'c, 'v>(cells: &'c [Cell<'v>], at: usize) -> &'c [Cell<'v>]
    ensures { result.now ≡ take at cells.now }
{
    if at < cells.len() {
        &cells[..at]
    } else {
        cells
    }
}

/// The cells after a place.
fn after<'c, 'v>(cells: &'c [Cell<'v>], at: usize) -> &'c [Cell<'v>]
    ensures { result.now ≡ drop (at + 1) cells.now }
{
    if at < cells.len() {
        &cells[at + 1..]
    } else {
        &cells[cells.len()..]
    }
}

/// How many columns a value with this head opens.
pub(crate) fn parts(key: Key) -> usize
    ensures { result ≡ parts key }
{
    match key {
        Key::Symbol(_, count) => count,
        Key::Variable(_, count) => count,
        Key::Abstraction => 1,
        Key::Other(count) => count,
    }
}

/// Whether a pattern takes a value with this head, as far as the head says.
fn takes(key: Key, pattern: &Pat<Stored>) -> bool
    ensures { result ≡ is_kept key (pattern_cell pattern.now) }
{
    match pattern {
        Pat::Sym(k, patterns) => is_symbol(key, *k, patterns.len()),
        Pat::Var(k, patterns) => is_variable(key, *k, patterns.len()),
        Pat::Abs(_) => is_abstraction(key),
        Pat::Rvar(..) => true,
        Pat::Any => true,
        Pat::Guard(_) => true,
    }
}

fn is_symbol(key: Key, number: u32, count: usize) -> bool
    ensures { result ≡ has_symbol key number count }
{
    match key {
        Key::Symbol(k, n) => k == number && n == count,
        _ => false,
    }
}

fn is_variable(key: Key, number: u32, count: usize) -> bool
    ensures { result ≡ has_variable key number count }
{
    match key {
        Key::Variable(k, n) => k == u64::from(number) && n == count,
        _ => false,
    }
}

fn is_abstraction(key: Key) -> bool
    ensures { result ≡ has_abstraction key }
{
    match key {
        Key::Abstraction => true,
        _ => false,
    }
}

/// The same of a cell.
pub(crate) fn is_kept(key: Key, cell: &Cell) -> bool
    ensures { result ≡ is_kept key (plain_cell cell.now) }
{
    match cell {
        Cell::Blank => true,
        Cell::Pattern(pattern) => takes(key, pattern),
    }
}

/// Cells that ask for nothing.
pub(crate) fn push_blanks(cells: &mut Vec<Cell>, count: usize) -> Result<(), NoMemory>
    ensures { IfOk result (λ _. Appends cells.old cells.new (replicate count blank)) }
{
    for _i in 0..count {
        cells.push(Cell::Blank)?;
    }
    Ok(())
}

/// A cell for each pattern.
pub(crate) fn push_patterns<'v>(
    cells: &mut Vec<Cell<'v>>,
    patterns: &'v [Pat<Stored>],
) -> Result<(), NoMemory>
    ensures { IfOk result (λ _. Appends cells.old cells.new (map pattern_cell patterns.now)) }
{
    for pattern in patterns {
        cells.push(Cell::Pattern(pattern))?;
    }
    Ok(())
}

/// Nothing for a value, and a cell for the pattern of each of its parts.
fn push_list<'v>(cells: &mut Vec<Cell<'v>>, patterns: &'v [Pat<Stored>]) -> Result<(), NoMemory>
    ensures { IfOk result (λ _. Appends cells.old cells.new
        (blank ∷ map pattern_cell patterns.now)) }
{
    cells.push(Cell::Blank)?;
    push_patterns(cells, patterns)
}

/// The cells for a value that the pattern takes, and for its `count` parts.
fn push_parts<'v>(
    cells: &mut Vec<Cell<'v>>,
    count: usize,
    pattern: &'v Pat<Stored>,
) -> Result<(), NoMemory>
    ensures { IfOk result (λ _. Appends cells.old cells.new
        (cells_after count (pattern_cell pattern.now))) }
{
    match pattern {
        Pat::Sym(_, patterns) => {
            push_list(cells, patterns.as_slice())?;
            Ok(())
        }
        Pat::Var(_, patterns) => {
            push_list(cells, patterns.as_slice())?;
            Ok(())
        }
        Pat::Abs(body) => {
            let body: &'v Pat<Stored> = body;
            cells.push(Cell::Blank)?;
            cells.push(Cell::Pattern(body))?;
            Ok(())
        }
        Pat::Rvar(..) => push_kept(cells, count, Cell::Pattern(pattern)),
        Pat::Any => push_kept(cells, count, Cell::Pattern(pattern)),
        Pat::Guard(_) => push_kept(cells, count, Cell::Pattern(pattern)),
    }
}

/// This cell, and nothing for the `count` parts.
fn push_kept<'v>(cells: &mut Vec<Cell<'v>>, count: usize, cell: Cell<'v>) -> Result<(), NoMemory>
    ensures { IfOk result (λ _. Appends cells.old cells.new
        (plain_cell cell.entry ∷ replicate count blank)) }
{
    cells.push(cell)?;
    push_blanks(cells, count)
}

/// The cells of a kept row for the value and its `count` parts.
fn push_after<'v>(cells: &mut Vec<Cell<'v>>, count: usize, cell: Cell<'v>) -> Result<(), NoMemory>
    ensures { IfOk result (λ _. Appends cells.old cells.new
        (cells_after count (plain_cell cell.entry))) }
{
    match cell {
        Cell::Blank => push_kept(cells, count, Cell::Blank),
        Cell::Pattern(pattern) => push_parts(cells, count, pattern),
    }
}

/// A kept row with the cells for the value and its `count` parts in place of the cell at `at`.
pub(crate) fn refined_row<'v>(
    alloc: Global,
    count: usize,
    at: usize,
    row: &Row<'v>,
) -> Result<Row<'v>, NoMemory>
    ensures cells { IfOk result (λ r. map plain_cell r.cells.items
        ≡ cells_when_kept count at (map plain_cell row.now.cells.items)) }
    ensures rule { IfOk result (λ r. r.at ≡ row.now.at) }
{
    let old = row.cells.as_slice();
    let mut cells = Vec::from_slice(alloc, before(old, at))?;
    push_after(&mut cells, count, cell_of(old, at))?;
    cells.extend_from_slice(after(old, at))?;
    Ok(Row { cells, at: row.at })
}

/// The rows that are kept where the value of the column at `at` has this head, each with the cells for the value's
/// parts put in.
pub(crate) fn refined_rows<'v>(
    alloc: Global,
    key: Key,
    at: usize,
    rows: &[Row<'v>],
) -> Result<Vec<Row<'v>>, NoMemory>
    ensures { IfOk result (λ kept. (rules : List PlainRule)
        → map (row_of rules) kept.items ≡ rows_by key at (map (row_of rules) rows.now)) }
{
    let mut kept = Vec::new(alloc);
    for row in rows {
        let cell = cell_of(row.cells.as_slice(), at);
        if is_kept(key, &cell) {
            let refined = refined_row(alloc, parts(key), at, row)?;
            kept.push(refined)?;
        }
    }
    Ok(kept)
}

/// The rows behind the first `tried`.
pub(crate) fn untried<'c, 'v>(rows: &'c [Row<'v>], tried: usize) -> &'c [Row<'v>]
    ensures { result.now ≡ drop tried rows.now }
{
    if tried < rows.len() {
        &rows[tried..]
    } else {
        &rows[rows.len()..]
    }
}
