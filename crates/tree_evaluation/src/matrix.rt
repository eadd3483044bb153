//! The matrix of a selection: a row for each rule, a column for each part of the arguments (docs/evaluation.md).
ghost use Rattle.std.specs.Prelude.{◌≡◌, ◌+◌, ◌<◌, ◌≤◌, ◌++◌, ◌∷◌, IfOk, IfSome, None, OnOk, length, map, take, drop, replicate};
ghost use Rattle.std.specs.Option.{option_map, option_to_list};
ghost use Rattle.dk_model.specs.Matrix.{blank, is_rigid, rigid_at, cell_at, opened_columns, refined_cells, refined_rows, width, rows_for};
ghost use Rattle.tree_evaluation.specs.Views.{pattern_cell, plain_cell, plain_cells, at_depth, row as row_of, rule as rule_of, refined_row, cells_if, tree, column_of, columns_of};
ghost use Rattle.tree_evaluation.specs.Tellings.{AreFirstRows, AreRefined, AreUnmoved, IsRowOf, AlwaysLeadsTo};

use dk_model::{NoMemory, Pat, Term};
use shared_term::Stored;
use std::alloc::Global;
use std::collections::LinkedList;
use told_steps::{End, unmoved};
use tree_terms::{SymbolRule, arguments, body_of, is_applied};

/// What a row asks of a column.
#[derive(Clone, Copy)]
pub enum Cell<'v> {
    /// Nothing.
    Blank,
    /// That the column's term matches the pattern.
    Pattern(&'v Pat<Stored>),
}

/// A rule with what it still asks of each column.
#[derive(Drop)]
pub struct Row<'v> {
    pub cells: Vec<Cell<'v>>,
    pub rule: SymbolRule<'v>,
    /// Its place, from 0, among what it was made of: a first row among the rules, a refined one
    /// among the rows before it.
    pub from: usize,
}

/// How many columns the rules of at most `count` patterns need.
pub fn width(count: usize, rules: &[SymbolRule]) -> usize
    ensures { result ≡ width count (map rule_of rules.now) }
{
    let mut width = 0;
    for rule in rules {
        let patterns = rule.pattern_count();
        if patterns <= count && width < patterns {
            width = patterns;
        }
    }
    width
}

/// Puts a row behind others, where there is one.
fn push_if<'v>(rows: &mut Vec<Row<'v>>, row: Option<Row<'v>>) -> Result<(), NoMemory>
    ensures { OnOk result (rows.new.items ≡ rows.old.items ++ option_to_list row.entry) }
{
    if let Some(row) = row {
        rows.push(row)?;
    }
    Ok(())
}

/// A row for each rule of at most `count` patterns.
pub fn rows_for<'v>(
    alloc: Global,
    count: usize,
    width: usize,
    rules: &[SymbolRule<'v>],
) -> Result<Vec<Row<'v>>, NoMemory>
    ensures rows { IfOk result (λ rows. map row_of rows.items
        ≡ rows_for count width (map rule_of rules.now)) }
    ensures from { IfOk result (λ rows. AreFirstRows width count rules.now rows.items) }
{
    let mut rows = Vec::new(alloc);
    for (from, rule) in rules.iter().enumerate() {
        let row = row_for(alloc, count, width, *rule, from)?;
        push_if(&mut rows, row)?;
    }
    Ok(rows)
}

/// A rule's patterns, and nothing for the columns that are left of the `width`; no row where it has more than `count`.
fn row_for<'v>(
    alloc: Global,
    count: usize,
    width: usize,
    rule: SymbolRule<'v>,
    from: usize,
) -> Result<Option<Row<'v>>, NoMemory>
    ensures none { IfOk result (λ row. row ≡ None → count < length (rule_of rule.entry).pats) }
    ensures some { IfOk result (λ row. IfSome row (IsRowOf width count from rule.entry)) }
{
    if count < rule.pattern_count() {
        return Ok(None);
    }
    let mut cells = cells_of(alloc, rule.patterns())?;
    let mut behind = blanks(alloc, width.saturating_sub(rule.pattern_count()))?;
    cells.append(&mut behind)?;
    Ok(Some(Row { cells, rule, from }))
}

/// A cell for each pattern.
fn cells_of<'v>(alloc: Global, patterns: &'v [Pat<Stored>]) -> Result<Vec<Cell<'v>>, NoMemory>
    ensures { IfOk result (λ cells. plain_cells cells.items ≡ map pattern_cell patterns.now) }
{
    let mut cells = Vec::new(alloc);
    for pattern in patterns {
        cells.push(Cell::Pattern(pattern))?;
    }
    Ok(cells)
}

/// Cells that ask for nothing.
#[tactic(auto, using(crate::proofs::Rows::blank_cells))]
fn blanks<'v>(alloc: Global, count: usize) -> Result<Vec<Cell<'v>>, NoMemory>
    ensures { IfOk result (λ cells. plain_cells cells.items ≡ replicate count blank) }
{
    Ok(vec![in alloc; Cell::Blank; count]?)
}

/// Cells behind one.
fn behind_cell<'v>(
    alloc: Global,
    cell: Cell<'v>,
    behind: Vec<Cell<'v>>,
) -> Result<Vec<Cell<'v>>, NoMemory>
    ensures { IfOk result (λ cells. cells.items ≡ cell.entry ∷ behind.entry.items) }
{
    let mut cells = Vec::from_slice(alloc, &[cell])?;
    cells.extend_from_slice(behind.as_slice())?;
    Ok(cells)
}

pub fn is_rigid(cell: Cell) -> bool
    ensures { result ≡ is_rigid (plain_cell cell.entry) }
{
    match cell {
        Cell::Blank => false,
        Cell::Pattern(pattern) => match pattern {
            Pat::Rvar(..) | Pat::Any | Pat::Guard(_) => false,
            Pat::Sym(..) | Pat::Var(..) | Pat::Abs(_) => true,
        },
    }
}

/// The place of the first cell that asks for the head of its column.
pub fn rigid_at(cells: &[Cell]) -> Option<usize>
    ensures value { result ≡ rigid_at (plain_cells cells.now) }
    ensures within { IfSome result (λ i. i < length cells.now) }
{
    let [cell, rest @ ..] = cells else {
        return None;
    };
    if is_rigid(*cell) {
        return Some(0);
    }
    match rigid_at(rest) {
        Some(at) => Some(at + 1),
        None => None,
    }
}

/// A column that was not evaluated yet.
fn unmoved_column(alloc: Global, depth: u64, term: &Term) -> Result<End, NoMemory>
    ensures column { IfOk result (λ c. column_of c ≡ at_depth depth (tree term.now)) }
    ensures leads { IfOk result (λ c. AlwaysLeadsTo (tree c.told.form) c.told) }
{
    let told = unmoved(alloc, term.copy(alloc)?);
    Ok(End { depth, told })
}

/// A column at this depth for each term.
pub fn columns_of(alloc: Global, depth: u64, terms: &[Term]) -> Result<LinkedList<End>, NoMemory>
    ensures columns { IfOk result (λ cs. columns_of cs
        ≡ map (at_depth depth) (map tree terms.now)) }
    ensures leads { IfOk result AreUnmoved }
{
    let mut columns = LinkedList::new(alloc);
    for term in terms {
        columns.push_back(unmoved_column(alloc, depth, term)?)?;
    }
    Ok(columns)
}

/// The columns that a value opens: its body under one more variable, or its arguments.
pub fn opened_columns(alloc: Global, depth: u64, value: &Term) -> Result<LinkedList<End>, NoMemory>
    ensures columns { IfOk result (λ cs. columns_of cs ≡ opened_columns depth (tree value.now)) }
    ensures leads { IfOk result AreUnmoved }
{
    match value {
        Term::Abs(None, body) => {
            let Some(depth) = depth.checked_add(1) else {
                return Err(NoMemory);
            };
            let mut columns = LinkedList::new(alloc);
            columns.push_front(unmoved_column(alloc, depth, body)?)?;
            Ok(columns)
        }
        _ => columns_of(alloc, depth, arguments(alloc, value)?.as_slice()),
    }
}

/// Cuts the columns before a place, and gives those from there on.
pub fn cut(columns: &mut LinkedList<End>, at: usize) -> Result<LinkedList<End>, NoMemory>
    requires { at ≤ length columns.old }
    ensures before { OnOk result (columns.new ≡ take at columns.old) }
    ensures behind { IfOk result (λ behind. behind ≡ drop at columns.old) }
{
    Ok(columns.split_off(at)?)
}

/// Columns in one list: those before a value, the value, its parts and those behind it.
pub fn joined(
    before: LinkedList<End>,
    value: End,
    parts: LinkedList<End>,
    behind: LinkedList<End>,
) -> Result<LinkedList<End>, NoMemory>
    ensures { IfOk result (λ all. all ≡ before ++ value ∷ parts ++ behind) }
{
    let mut all = before;
    let mut parts = parts;
    let mut behind = behind;
    all.push_back(value)?;
    all.append(&mut parts)?;
    all.append(&mut behind)?;
    Ok(all)
}

/// The cell at a place, or nothing.
pub fn cell_at<'v>(cells: &[Cell<'v>], at: usize) -> Cell<'v>
    ensures { plain_cell result ≡ cell_at (plain_cells cells.now) at }
{
    match cells {
        [] => Cell::Blank,
        [cell, rest @ ..] => if at == 0 {
            *cell
        } else {
            cell_at(rest, at - 1)
        },
    }
}

/// Nothing for a value, and a cell for the pattern of each of its parts; or nothing at all where it isn't taken.
fn opened_if<'v>(
    alloc: Global,
    taken: bool,
    patterns: &'v [Pat<Stored>],
) -> Result<Option<Vec<Cell<'v>>>, NoMemory>
    ensures { IfOk result (λ cells. option_map (λ v. plain_cells v.items) cells
        ≡ cells_if (map pattern_cell patterns.now) taken) }
{
    if !taken {
        return Ok(None);
    }
    let parts = cells_of(alloc, patterns)?;
    Ok(Some(behind_cell(alloc, Cell::Blank, parts)?))
}

/// This cell, and nothing for each of `count` parts.
fn kept_cells<'v>(alloc: Global, cell: Cell<'v>, count: usize) -> Result<Vec<Cell<'v>>, NoMemory>
    ensures { IfOk result (λ cells. plain_cells cells.items
        ≡ plain_cell cell.entry ∷ replicate count blank) }
{
    let parts = blanks(alloc, count)?;
    let cells = behind_cell(alloc, cell, parts)?;
    Ok(cells)
}

/// The cells that a row has for a value and its `count` parts by its pattern for it, or nothing where the row is dropped.
fn pattern_refined<'v>(
    alloc: Global,
    value: &Term,
    count: usize,
    pattern: &'v Pat<Stored>,
) -> Result<Option<Vec<Cell<'v>>>, NoMemory>
    ensures { IfOk result (λ cells. option_map (λ v. plain_cells v.items) cells
        ≡ refined_cells (tree value.now) count (pattern_cell pattern.now)) }
{
    match pattern {
        Pat::Sym(k, patterns) => {
            let patterns = patterns.as_slice();
            let taken = is_applied(value, &Term::Sym(*k), patterns.len());
            Ok(opened_if(alloc, taken, patterns)?)
        }
        Pat::Var(k, patterns) => {
            let patterns = patterns.as_slice();
            let taken = is_applied(value, &Term::Var(u64::from(*k)), patterns.len());
            Ok(opened_if(alloc, taken, patterns)?)
        }
        Pat::Abs(body) => match body_of(value) {
            Some(_) => {
                let parts = Vec::from_slice(alloc, &[Cell::Pattern(body)])?;
                Ok(Some(behind_cell(alloc, Cell::Blank, parts)?))
            }
            None => Ok(None),
        },
        Pat::Rvar(..) | Pat::Any | Pat::Guard(_) => {
            Ok(Some(kept_cells(alloc, Cell::Pattern(pattern), count)?))
        }
    }
}

/// The same by its cell for the value.
fn refined_cells<'v>(
    alloc: Global,
    value: &Term,
    count: usize,
    cell: Cell<'v>,
) -> Result<Option<Vec<Cell<'v>>>, NoMemory>
    ensures { IfOk result (λ cells. option_map (λ v. plain_cells v.items) cells
        ≡ refined_cells (tree value.now) count (plain_cell cell.entry)) }
{
    match cell {
        Cell::Blank => Ok(Some(kept_cells(alloc, Cell::Blank, count)?)),
        Cell::Pattern(pattern) => pattern_refined(alloc, value, count, pattern),
    }
}

/// The cells with others in the place of the one at a place.
fn spliced<'v>(
    alloc: Global,
    cells: &[Cell<'v>],
    at: usize,
    parts: &[Cell<'v>],
) -> Result<Vec<Cell<'v>>, NoMemory>
    ensures { IfOk result (λ all. all.items
        ≡ take at cells.now ++ parts.now ++ drop (at + 1) cells.now) }
{
    if at >= cells.len() {
        let mut all = Vec::from_slice(alloc, cells)?;
        all.extend_from_slice(parts)?;
        return Ok(all);
    }
    let mut all = Vec::from_slice(alloc, &cells[..at])?;
    all.extend_from_slice(parts)?;
    all.extend_from_slice(&cells[at + 1..])?;
    Ok(all)
}

/// A row where the column at `at` has the value, of `count` parts, or nothing where the value rules the row out.
#[tactic(auto, using(crate::proofs::Lists::spliced))]
fn refined_row<'v>(
    alloc: Global,
    value: &Term,
    count: usize,
    at: usize,
    row: &Row<'v>,
    from: usize,
) -> Result<Option<Row<'v>>, NoMemory>
    ensures row { IfOk result (λ refined. option_map row_of refined
        ≡ refined_row (tree value.now) count at (row_of row.now)) }
    ensures from { IfOk result (λ refined. IfSome refined (λ r. r.from ≡ from)) }
    ensures rule { IfOk result (λ refined. IfSome refined (λ r. r.rule ≡ row.now.rule)) }
{
    let cells = row.cells.as_slice();
    let Some(parts) = refined_cells(alloc, value, count, cell_at(cells, at))? else {
        return Ok(None);
    };
    let cells = spliced(alloc, cells, at, parts.as_slice())?;
    Ok(Some(Row {
        cells,
        rule: row.rule,
        from,
    }))
}

/// The rows that are kept where the column at `at` has the value, of `count` parts.
pub fn refined_rows<'v>(
    alloc: Global,
    value: &Term,
    count: usize,
    at: usize,
    rows: &[Row<'v>],
) -> Result<Vec<Row<'v>>, NoMemory>
    ensures rows { IfOk result (λ kept. map row_of kept.items
        ≡ refined_rows (tree value.now) count at (map row_of rows.now)) }
    ensures from { IfOk result (λ kept. AreRefined (tree value.now) count at rows.now kept.items) }
{
    let mut kept = Vec::new(alloc);
    for (from, row) in rows.iter().enumerate() {
        let row = refined_row(alloc, value, count, at, row, from)?;
        push_if(&mut kept, row)?;
    }
    Ok(kept)
}
