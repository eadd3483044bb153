//! Rules without a tree: their left sides where they stand, gone through row by row.
ghost use Rattle.std.specs.Prelude.{◌≡◌, ◌≤◌, ◌-◌, ◌++◌, ℕ, IfOk, List, drop, length, map, replicate};
ghost use Rattle.dk_model.specs.Signatures.{PlainRule};
ghost use Rattle.dk_model.specs.Matrix.{blank, cell_at, width, rows_for};
ghost use Rattle.rule_match.specs.Keys.{rows_by};
ghost use Rattle.rule_match.specs.Rows.{plain_cell, pattern_cell, row as row_of};
ghost use Rattle.rule_match.specs.Sides.{AreLeftSides, widest};

use crate::cell::{Cell, Row};
use crate::key::Key;
use crate::refine::{is_kept, parts, push_blanks, push_patterns, refined_row};
use dk_model::{NoMemory, Pat};
use shared_term::Stored;
use std::alloc::Global;

/// The left side of a rule, where it stands.
#[derive(Clone, Copy)]
pub struct LeftSide<'t> {
    pub patterns: &'t [Pat<Stored>],
    /// How many variables the rule has.
    pub vars: u32,
}

/// The greatest number of patterns.
pub(crate) fn widest_side(sides: &[LeftSide]) -> usize
    ensures { (rules : List PlainRule) → AreLeftSides rules sides.now → result ≡ widest rules }
{
    let mut widest = 0;
    for side in sides {
        if widest < side.patterns.len() {
            widest = side.patterns.len();
        }
    }
    widest
}

/// How many columns the rules of at most `count` patterns need.
pub(crate) fn walked_width(count: usize, sides: &[LeftSide]) -> usize
    ensures within { result ≤ count }
    ensures width { (rules : List PlainRule) → AreLeftSides rules sides.now
        → result ≡ width count rules }
{
    let mut width = 0;
    for side in sides {
        let patterns = side.patterns.len();
        if patterns <= count && width < patterns {
            width = patterns;
        }
    }
    width
}

/// A row for the rule at this place: its patterns, and nothing for the columns that are left of the `width`.
pub(crate) fn walked_row<'t>(
    alloc: Global,
    width: usize,
    side: LeftSide<'t>,
    at: usize,
) -> Result<Row<'t>, NoMemory>
    ensures cells { IfOk result (λ r. map plain_cell r.cells.items
        ≡ map pattern_cell side.entry.patterns.now
        ++ replicate (width - length side.entry.patterns.now) blank) }
    ensures at { IfOk result (λ r. r.at ≡ at) }
{
    let mut cells = Vec::new(alloc);
    push_patterns(&mut cells, side.patterns)?;
    push_blanks(&mut cells, width.saturating_sub(side.patterns.len()))?;
    Ok(Row { cells, at })
}

/// A row of `width` cells for each rule of at most `count` patterns.
pub(crate) fn walked_rows<'t>(
    alloc: Global,
    count: usize,
    width: usize,
    sides: &[LeftSide<'t>],
) -> Result<Vec<Row<'t>>, NoMemory>
    ensures { IfOk result (λ rows. (rules : List PlainRule) → AreLeftSides rules sides.now
        → map (row_of rules) rows.items ≡ rows_for count width rules) }
{
    let mut rows = Vec::new(alloc);
    for at in 0..sides.len() {
        let side = sides[at];
        if side.patterns.len() <= count {
            let row = walked_row(alloc, width, side, at)?;
            rows.push(row)?;
        }
    }
    Ok(rows)
}

/// What the left side asks of a column.
fn side_cell<'t>(side: LeftSide<'t>, column: usize) -> Cell<'t>
    ensures { (n : ℕ) → plain_cell result
        ≡ cell_at (map pattern_cell side.entry.patterns.now ++ replicate n blank) column }
{
    match side.patterns.get(column) {
        Some(pattern) => Cell::Pattern(pattern),
        None => Cell::Blank,
    }
}

/// The rows of `width` cells behind the first `tried` that are kept where the value of this column has this head. No rule
/// has more patterns.
pub(crate) fn walked_kept<'t>(
    alloc: Global,
    sides: &[LeftSide<'t>],
    width: usize,
    tried: usize,
    key: Key,
    column: usize,
) -> Result<Vec<Row<'t>>, NoMemory>
    ensures { IfOk result (λ kept. (rules : List PlainRule) → AreLeftSides rules sides.now
        → widest rules ≤ width
        → map (row_of rules) kept.items ≡ rows_by key column (drop tried (rows_for width width rules))) }
{
    let mut kept = Vec::new(alloc);
    for at in tried..sides.len() {
        let side = sides[at];
        if is_kept(key, &side_cell(side, column)) {
            let row = walked_row(alloc, width, side, at)?;
            kept.push(refined_row(alloc, parts(key), column, &row)?)?;
        }
    }
    Ok(kept)
}
