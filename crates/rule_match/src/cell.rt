//! Rows of cells: what a rule still asks of each column.
ghost use Rattle.std.specs.Prelude.{◌≡◌, IfOk, List, map};
ghost use Rattle.dk_model.specs.Signatures.{PlainRule};
ghost use Rattle.shared_term.specs.Storage.{stored_term};
ghost use Rattle.rule_match.specs.Rows.{plain_cell, pattern_cell, kept_cell as plain_kept, row as row_of, kept_row as kept_row_of};

use dk_model::{Carry, NoMemory, Pat, carry_pattern};
use shared_term::Stored;
use std::alloc::Global;

/// What a row asks of a column.
#[derive(Clone, Copy)]
pub(crate) enum Cell<'r> {
    /// Nothing.
    Blank,
    /// That the column's term matches the pattern.
    Pattern(&'r Pat<Stored>),
}

/// A rule, by its place among the symbol's, with what it still asks of each column.
#[derive(Drop)]
pub(crate) struct Row<'r> {
    pub(crate) cells: Vec<Cell<'r>>,
    pub(crate) at: usize,
}

/// A cell that has its pattern.
#[derive(Drop)]
pub(crate) enum KeptCell {
    Blank,
    Pattern(Pat<Stored>),
}

/// A row of such cells.
#[derive(Drop)]
pub(crate) struct KeptRow {
    pub(crate) cells: Vec<KeptCell>,
    pub(crate) at: usize,
}

/// Stored terms as copies of themselves.
struct Copies;

impl Carry for Copies {
    type Source = Stored;

    type Target = Stored;

    ghost read_tree = { stored_term };

    ghost made_tree = { stored_term };

    fn carry(alloc: Global, term: &Stored) -> Result<Stored, NoMemory> {
        term.copy(alloc)
    }
}

/// A cell with a copy of the pattern.
pub(crate) fn kept_pattern(alloc: Global, pattern: &Pat<Stored>) -> Result<KeptCell, NoMemory>
    ensures { IfOk result (λ kept. plain_kept kept ≡ pattern_cell pattern.now) }
{
    Ok(KeptCell::Pattern(carry_pattern::<Copies>(alloc, pattern)?))
}

/// A copy of the cell.
fn kept_cell(alloc: Global, cell: &Cell) -> Result<KeptCell, NoMemory>
    ensures { IfOk result (λ kept. plain_kept kept ≡ plain_cell cell.now) }
{
    match cell {
        Cell::Blank => Ok(KeptCell::Blank),
        Cell::Pattern(pattern) => kept_pattern(alloc, pattern),
    }
}

/// Copies of the cells.
fn kept_cells(alloc: Global, cells: &[Cell]) -> Result<Vec<KeptCell>, NoMemory>
    ensures { IfOk result (λ kept. map plain_kept kept.items ≡ map plain_cell cells.now) }
{
    let mut kept = Vec::new(alloc);
    for cell in cells {
        kept.push(kept_cell(alloc, cell)?)?;
    }
    Ok(kept)
}

/// A copy of the row.
fn kept_row(alloc: Global, row: &Row) -> Result<KeptRow, NoMemory>
    ensures { IfOk result (λ kept. (rules : List PlainRule)
        → kept_row_of rules kept ≡ row_of rules row.now) }
{
    let cells = kept_cells(alloc, row.cells.as_slice())?;
    Ok(KeptRow { cells, at: row.at })
}

/// Copies of the rows.
pub(crate) fn kept_rows(alloc: Global, rows: &[Row]) -> Result<Vec<KeptRow>, NoMemory>
    ensures { IfOk result (λ kept. (rules : List PlainRule)
        → map (kept_row_of rules) kept.items ≡ map (row_of rules) rows.now) }
{
    let mut kept = Vec::new(alloc);
    for row in rows {
        kept.push(kept_row(alloc, row)?)?;
    }
    Ok(kept)
}

/// The cell that is kept.
fn seen_cell<'t>(cell: &'t KeptCell) -> Cell<'t>
    ensures { plain_cell result ≡ plain_kept cell.now }
{
    match cell {
        KeptCell::Blank => Cell::Blank,
        KeptCell::Pattern(pattern) => Cell::Pattern(pattern),
    }
}

/// The cells that are kept.
pub(crate) fn seen_cells<'t>(
    alloc: Global,
    cells: &'t [KeptCell],
) -> Result<Vec<Cell<'t>>, NoMemory>
    ensures { IfOk result (λ seen. map plain_cell seen.items ≡ map plain_kept cells.now) }
{
    let mut seen = Vec::new(alloc);
    for cell in cells {
        seen.push(seen_cell(cell))?;
    }
    Ok(seen)
}

/// The row that is kept.
pub(crate) fn seen_row<'t>(alloc: Global, row: &'t KeptRow) -> Result<Row<'t>, NoMemory>
    ensures { IfOk result (λ seen. (rules : List PlainRule)
        → row_of rules seen ≡ kept_row_of rules row.now) }
{
    let cells = seen_cells(alloc, row.cells.as_slice())?;
    Ok(Row { cells, at: row.at })
}

/// The rows that are kept.
pub(crate) fn seen_rows<'t>(alloc: Global, rows: &'t [KeptRow]) -> Result<Vec<Row<'t>>, NoMemory>
    ensures { IfOk result (λ seen. (rules : List PlainRule)
        → map (row_of rules) seen.items ≡ map (kept_row_of rules) rows.now) }
{
    let mut seen = Vec::new(alloc);
    for row in rows {
        seen.push(seen_row(alloc, row)?)?;
    }
    Ok(seen)
}
