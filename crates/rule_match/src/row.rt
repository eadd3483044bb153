//! A row that asks for no head, tried cell by cell: what it captures, and its guards.
ghost use Rattle.std.specs.Prelude.{◌≡◌, ◌+◌, ◌<◌, ℕ, IfOk, OnOk, Bool, List, length, map};
ghost use Rattle.dk_model.specs.Trees.{Tree};
ghost use Rattle.dk_model.specs.Units.{Units};
ghost use Rattle.dk_model.specs.Captures.{mentions_others, captured};
ghost use Rattle.shared_term.specs.Pools.{term, Extends, Moves};
ghost use Rattle.shared_term.specs.Changes.{AreCaptures, captured_terms, capture_id};
ghost use Rattle.rule_match.specs.Rows.{plain_cell};
ghost use Rattle.rule_match.specs.Columns.{plain, AreColumns};
ghost use Rattle.rule_match.specs.Trying.{ActsAs, IsGuard, HasGuard, Records, CellSteps, RowPasses, GuardsPass, AreCaught, ArePassed};

use crate::cell::Cell;
use crate::value::{Column, column_of};
use dk_model::{NoMemory, Pat};
use shared_term::{Pool, Stored, TermId};
use std::alloc::Global;

/// What a row that asks for no head does at a cell.
#[derive(Clone, Copy)]
pub(crate) enum Step<'v> {
    /// Nothing.
    Passes,
    /// It captures the part for this variable, over these variables that the pattern binds.
    Captures(u32, &'v [u32]),
    /// It compares the part with this guard.
    Guards(&'v Stored),
}

/// How a cell is gone through.
#[derive(Clone, Copy)]
pub(crate) enum Caught {
    /// It captures what it has to.
    On,
    /// Its part is to be brought to its normal form.
    Escapes,
    /// What its variable captured before is to be compared with its part.
    Compares(TermId, TermId),
}

/// How the cells of a row are gone through.
#[derive(Clone, Copy)]
pub(crate) enum Passage {
    /// All of them capture.
    Through,
    /// The part of this column is to be brought to its normal form.
    Escapes(usize),
    /// These are to be compared for this column.
    Compares(usize, TermId, TermId),
}

/// A guard that is to be compared.
#[derive(Clone, Copy)]
pub(crate) struct NextGuard {
    /// Its column.
    pub(crate) at: usize,
    /// The part that stands in the column.
    pub(crate) part: TermId,
    /// The guard under the captures.
    pub(crate) guard: TermId,
}

/// What a row that asks for no head does at this cell.
fn step_of<'v>(cell: &Cell<'v>) -> Step<'v>
    ensures { ActsAs cell.now result }
{
    match cell {
        Cell::Blank => Step::Passes,
        Cell::Pattern(pattern) => match pattern {
            Pat::Rvar(variable, listed) => Step::Captures(*variable, listed.as_slice()),
            Pat::Any => Step::Passes,
            Pat::Guard(guard) => Step::Guards(guard),
            Pat::Sym(_, _) => Step::Passes,
            Pat::Var(_, _) => Step::Passes,
            Pat::Abs(_) => Step::Passes,
        },
    }
}

/// Whether a part mentions of the `depth` variables that the pattern binds one that isn't listed.
#[tactic(auto, using(crate::proofs::Winding::extends_none, crate::proofs::Capturing::none_bound))]
pub(crate) fn mentions_others(
    pool: &mut Pool,
    part: TermId,
    depth: u64,
    listed: &[u32],
) -> Result<bool, NoMemory>
    requires { part.0 < length pool.old }
    ensures mentions { IfOk result
        (λ b. b ≡ mentions_others 0 depth listed.now (term pool.old part)) }
    ensures keeps { Extends pool.old pool.new }
{
    if depth == 0 {
        return Ok(false);
    }
    pool.mentions_others(part, depth, listed)
}

/// A part at a rule variable as the variable captures it. Where the pattern binds nothing it is the part itself.
#[tactic(auto, using(crate::proofs::Winding::extends_none, crate::proofs::Capturing::captured_itself))]
fn captured(pool: &mut Pool, part: TermId, depth: u64, listed: &[u32]) -> Result<TermId, NoMemory>
    requires { part.0 < length pool.old }
    ensures captures { IfOk result
        (λ t. Moves (captured depth listed.now) pool.old pool.new part t) }
    ensures keeps { Extends pool.old pool.new }
{
    if depth == 0 && listed.is_empty() {
        return Ok(part);
    }
    pool.captured(part, depth, listed)
}

/// The capture of a rule variable.
fn capture_at(captures: &[Option<TermId>], variable: u32) -> Option<TermId>
    ensures { result ≡ capture_id captures.now variable }
{
    match captures.get(variable as usize) {
        None => None,
        Some(capture) => *capture,
    }
}

/// Records a part for a rule variable, or answers that it is to be compared with what the variable has already.
#[tactic(auto, using(crate::proofs::Growing::captures_set, crate::proofs::Growing::capture_within))]
fn put_capture(captures: &mut Vec<Option<TermId>>, variable: u32, part: TermId) -> Caught
    ensures { Records variable part captures.old.items captures.new.items result }
{
    match capture_at(captures.as_slice(), variable) {
        None => {
            if (variable as usize) < captures.len() {
                captures[variable as usize] = Some(part);
            }
            Caught::On
        }
        Some(earlier) => Caught::Compares(earlier, part),
    }
}

/// Goes through a cell, as far as it goes without an answer.
fn cell_step(
    pool: &mut Pool,
    cell: &Cell,
    column: Column,
    captures: &mut Vec<Option<TermId>>,
) -> Result<Caught, NoMemory>
    requires column { column.term.0 < length pool.old }
    requires captures { AreCaptures (length pool.old) captures.old.items }
    ensures steps { IfOk result (λ caught. CellSteps cell.now column pool.old captures.old.items
        pool.new captures.new.items caught) }
    ensures captures { OnOk result (AreCaptures (length pool.new) captures.new.items) }
    ensures caught { IfOk result (AreCaught (length pool.new)) }
    ensures keeps { Extends pool.old pool.new }
{
    match step_of(cell) {
        Step::Passes => Ok(Caught::On),
        Step::Guards(_) => Ok(Caught::On),
        Step::Captures(variable, listed) => {
            if mentions_others(pool, column.term, column.depth, listed)? {
                return Ok(Caught::Escapes);
            }
            let part = captured(pool, column.term, column.depth, listed)?;
            Ok(put_capture(captures, variable, part))
        }
    }
}

/// Goes through the cells of a row from this place on, as far as it goes without an answer.
pub(crate) fn pass(
    pool: &mut Pool,
    cells: &[Cell],
    columns: &[Column],
    captures: &mut Vec<Option<TermId>>,
    from: usize,
) -> Result<Passage, NoMemory>
    requires columns { AreColumns (length pool.old) columns.now }
    requires captures { AreCaptures (length pool.old) captures.old.items }
    ensures passes { IfOk result (λ pass. RowPasses cells.now columns.now from pool.old
        captures.old.items pool.new captures.new.items pass) }
    ensures captures { OnOk result (AreCaptures (length pool.new) captures.new.items) }
    ensures passed { IfOk result
        (ArePassed (length pool.new) (length columns.now) (length cells.now)) }
    ensures keeps { Extends pool.old pool.new }
{
    for at in from..cells.len().min(columns.len()) {
        let column = column_of(columns, at);
        match cell_step(pool, &cells[at], column, captures)? {
            Caught::On => {}
            Caught::Escapes => return Ok(Passage::Escapes(at)),
            Caught::Compares(earlier, part) => return Ok(Passage::Compares(at, earlier, part)),
        }
    }
    Ok(Passage::Through)
}

/// A guard under the captures, at the depth of its column.
#[tactic(auto, using(crate::proofs::Winding::extends_none, crate::proofs::Winding::extends_more, crate::proofs::Growing::captures_within))]
fn guard_under(
    pool: &mut Pool,
    guard: &Stored,
    captures: &[Option<TermId>],
    depth: u64,
) -> Result<TermId, NoMemory>
    requires { AreCaptures (length pool.old) captures.now }
    ensures is { IfOk result
        (IsGuard pool.new guard.now (captured_terms pool.old captures.now) depth) }
    ensures keeps { Extends pool.old pool.new }
{
    let guard = pool.load(guard)?;
    let guard = pool.filled(guard, captures)?;
    pool.shift(guard, 0, depth)
}

/// The guard of a cell under the captures, where it has one.
fn guard_of(
    pool: &mut Pool,
    cell: &Cell,
    depth: u64,
    captures: &[Option<TermId>],
) -> Result<Option<TermId>, NoMemory>
    requires { AreCaptures (length pool.old) captures.now }
    ensures guard { IfOk result
        (HasGuard cell.now depth pool.new (captured_terms pool.old captures.now)) }
    ensures keeps { Extends pool.old pool.new }
{
    match step_of(cell) {
        Step::Guards(guard) => Ok(Some(guard_under(pool, guard, captures, depth)?)),
        Step::Passes => Ok(None),
        Step::Captures(_, _) => Ok(None),
    }
}

/// The next guard from this place on.
pub(crate) fn next_guard(
    pool: &mut Pool,
    cells: &[Cell],
    columns: &[Column],
    captures: &[Option<TermId>],
    from: usize,
) -> Result<Option<NextGuard>, NoMemory>
    requires columns { AreColumns (length pool.old) columns.now }
    requires captures { AreCaptures (length pool.old) captures.now }
    ensures guards { IfOk result
        (GuardsPass cells.now columns.now from captures.now pool.old pool.new) }
    ensures keeps { Extends pool.old pool.new }
{
    for at in from..cells.len().min(columns.len()) {
        let column = column_of(columns, at);
        match guard_of(pool, &cells[at], column.depth, captures)? {
            None => {}
            Some(guard) => {
                return Ok(Some(NextGuard {
                    at,
                    part: column.term,
                    guard,
                }));
            }
        }
    }
    Ok(None)
}
