//! The left sides of a symbol's rules, and the rows that a selection begins with.
ghost use Rattle.std.specs.Prelude.{◌≡◌, ◌-◌, ◌++◌, IfOk, List, length, map, replicate};
ghost use Rattle.dk_model.specs.Signatures.{PlainRule};
ghost use Rattle.dk_model.specs.Matrix.{blank, width, rows_for};
ghost use Rattle.rule_match.specs.Rows.{plain_cell, kept_cell as plain_kept, pattern_cell, row as row_of};
ghost use Rattle.rule_match.specs.Sides.{AreSides, AreLeftSides, IsCopy, widest};

use crate::cell::{KeptCell, Row, kept_pattern, seen_cells};
use crate::refine::push_blanks;
use crate::walk::LeftSide;
use dk_model::{NoMemory, Pat};
use shared_term::Stored;
use std::alloc::Global;

/// The left side of a rule.
#[derive(Drop)]
pub(crate) struct Side {
    pub(crate) patterns: Vec<KeptCell>,
    /// How many variables the rule has.
    pub(crate) vars: u32,
}

/// Copies of the patterns.
fn kept_patterns(alloc: Global, patterns: &[Pat<Stored>]) -> Result<Vec<KeptCell>, NoMemory>
    ensures { IfOk result (λ kept. map plain_kept kept.items ≡ map pattern_cell patterns.now) }
{
    let mut kept = Vec::new(alloc);
    for pattern in patterns {
        kept.push(kept_pattern(alloc, pattern)?)?;
    }
    Ok(kept)
}

/// A copy of a left side.
fn side_of(alloc: Global, side: &LeftSide) -> Result<Side, NoMemory>
    ensures { IfOk result (IsCopy side.now) }
{
    let patterns = kept_patterns(alloc, side.patterns)?;
    Ok(Side {
        patterns,
        vars: side.vars,
    })
}

/// Copies of left sides.
pub(crate) fn sides_of(alloc: Global, sides: &[LeftSide]) -> Result<Vec<Side>, NoMemory>
    ensures { IfOk result (λ copies. (rules : List PlainRule) → AreLeftSides rules sides.now
        → AreSides rules copies.items) }
{
    let mut copies = Vec::new(alloc);
    for side in sides {
        copies.push(side_of(alloc, side)?)?;
    }
    Ok(copies)
}

/// The greatest number of patterns.
pub(crate) fn widest(sides: &[Side]) -> usize
    ensures { (rules : List PlainRule) → AreSides rules sides.now → result ≡ widest rules }
{
    let mut widest = 0;
    for side in sides {
        if widest < side.patterns.len() {
            widest = side.patterns.len();
        }
    }
    widest
}

/// How many columns the rules of at most `count` patterns need.
pub(crate) fn width(count: usize, sides: &[Side]) -> usize
    ensures { (rules : List PlainRule) → AreSides rules sides.now → result ≡ width count rules }
{
    let mut width = 0;
    for side in sides {
        let patterns = side.patterns.len();
        if patterns <= count && width < patterns {
            width = patterns;
        }
    }
    width
}

/// A row for the rule at this place: its patterns, and nothing for the columns that are left of the `width`.
fn row_for<'t>(alloc: Global, width: usize, side: &'t Side, at: usize) -> Result<Row<'t>, NoMemory>
    ensures cells { IfOk result (λ r. map plain_cell r.cells.items
        ≡ map plain_kept side.now.patterns.items
        ++ replicate (width - length side.now.patterns.items) blank) }
    ensures at { IfOk result (λ r. r.at ≡ at) }
{
    let mut cells = seen_cells(alloc, side.patterns.as_slice())?;
    push_blanks(&mut cells, width.saturating_sub(side.patterns.len()))?;
    Ok(Row { cells, at })
}

/// A row of `width` cells for each rule of at most `count` patterns.
pub(crate) fn rows_for<'t>(
    alloc: Global,
    count: usize,
    width: usize,
    sides: &'t [Side],
) -> Result<Vec<Row<'t>>, NoMemory>
    ensures { IfOk result (λ rows. (rules : List PlainRule) → AreSides rules sides.now
        → map (row_of rules) rows.items ≡ rows_for count width rules) }
{
    let mut rows = Vec::new(alloc);
    for at in 0..sides.len() {
        let side = &sides[at];
        if side.patterns.len() <= count {
            let row = row_for(alloc, width, side, at)?;
            rows.push(row)?;
        }
    }
    Ok(rows)
}
