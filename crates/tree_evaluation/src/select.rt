//! Selection: which rule of a symbol takes the arguments, and with what captures (docs/evaluation.md).
ghost use Rattle.std.specs.Prelude.{◌≡◌, ◌≤◌, ◌∷◌, ◌++◌, [], IfOk, IfSome, OnOk, None, is_some, map, replicate};
ghost use Rattle.std.specs.Option.{option_map};
ghost use Rattle.signature_log.specs.Versions.{entries_of};
ghost use Rattle.dk_model.specs.Signatures.{maybe_tree};
ghost use Rattle.dk_model.specs.Evaluation.{normal_of, comparison_of};
ghost use Rattle.dk_model.specs.Equations.{selection_of};
ghost use Rattle.dk_model.specs.Selection.{row_taken, captures_of_row, cell_captures, part_at, recorded, guards_hold};
ghost use Rattle.tree_evaluation.specs.Answers.{Answers, by_value, guard_of};
ghost use Rattle.tree_evaluation.specs.Tellings.{Selects, CapturesNew, CellTold, Folded, GuardTold, GuardsTold, PartTold, RecordTold, RowTold, RowTaken, next_place};
ghost use Rattle.tree_evaluation.specs.Views.{captures_of, capturing, plain_cell, plain_cells, row as row_of, selected, part_trial, cell_trial, row_trial, tree, column_of, columns_of};

use crate::evaluation::{Evaluation, deeper};
use crate::matrix::{
    Cell, Row, cell_at, cut, is_rigid, joined, opened_columns, refined_rows, rigid_at,
};
use certificate_items::Join;
use dk_model::{Listed, NoMemory, Pat, Stop, Term};
use std::alloc::Global;
use std::collections::LinkedList;
use told_steps::{End, Opened, Told, fold_value, followed, unmoved};
use tree_terms::{SymbolRule, capture_at, captured as part_captured, filled, mentions_others};

/// A rule that is taken, with its captures.
#[derive(Drop)]
pub struct Selected<'v> {
    pub captures: Vec<Option<Term>>,
    pub rule: SymbolRule<'v>,
    /// The place of its row, from 0, among those that were selected from.
    pub place: usize,
    /// How the columns ended.
    pub ends: LinkedList<End>,
    /// What joins its conditions.
    pub joins: Listed<Join>,
}

/// A part, and whether the rule variable may capture it.
#[derive(Drop)]
pub struct PartTrial {
    pub told: Told,
    pub fits: bool,
}

/// What has been captured, and what joins the later occurrences of a variable to the first.
#[derive(Drop)]
pub struct Captured {
    pub captures: Vec<Option<Term>>,
    pub joins: Listed<Join>,
}

/// What has been captured after a cell, or nothing where its row fails, and the column as it then is.
#[derive(Drop)]
pub struct CellTrial {
    pub captured: Option<Captured>,
    pub column: End,
}

/// The same after a row, with all columns.
#[derive(Drop)]
pub struct RowTrial {
    pub captured: Option<Captured>,
    pub columns: LinkedList<End>,
}

impl<'v> Evaluation<'v> {
    /// The first row that takes the columns.
    #[cycle(evaluation)]
    #[tactic(auto, using(crate::proofs::Selecting::no_rows, crate::proofs::Selecting::loose, crate::proofs::Selecting::row_asks, crate::proofs::Selecting::fails, crate::proofs::Steps::bind_none, crate::proofs::Steps::bind_some))]
    pub fn select(
        self,
        rows: &[Row<'v>],
        columns: LinkedList<End>,
        left: &mut u64,
    ) -> Result<Option<Selected<'v>>, Stop>
        ensures gives { Answers selected
            (selection_of (entries_of self.entry.version.now) left.old (columns_of columns)
            (map row_of rows.now)) result left.new }
        ensures spent { left.new ≤ left.old }
        ensures told { IfOk result
            (Selects (entries_of self.entry.version.now) rows.now columns) }
    {
        let inner = Evaluation {
            depth: deeper(self.depth)?,
            ..self
        };
        let [row, rest @ ..] = rows else {
            return Ok(None);
        };
        match rigid_at(row.cells.as_slice()) {
            Some(at) => inner.select_by_value(at, rows, columns, left),
            None => {
                let RowTrial { captured, columns } = inner.row_taken(row, columns, left)?;
                match captured {
                    Some(captured) => Ok(Some(Selected {
                        captures: captured.captures,
                        rule: row.rule,
                        place: 0,
                        ends: columns,
                        joins: captured.joins,
                    })),
                    None => {
                        let selected = inner.select(rest, columns, left)?;
                        Ok(behind_first(selected)?)
                    }
                }
            }
        }
    }

    /// The same where the first row asks for the head of the column at `at`.
    #[cycle(evaluation)]
    #[tactic(auto, using(crate::proofs::Selecting::past_columns, crate::proofs::Selecting::no_column, crate::proofs::Selecting::value_ends))]
    fn select_by_value(
        self,
        at: usize,
        rows: &[Row<'v>],
        columns: LinkedList<End>,
        left: &mut u64,
    ) -> Result<Option<Selected<'v>>, Stop>
        ensures gives { Answers selected
            (by_value (entries_of self.entry.version.now) at (map row_of rows.now)
            (columns_of columns) left.old) result left.new }
        ensures spent { left.new ≤ left.old }
        ensures told { IfOk result
            (Selects (entries_of self.entry.version.now) rows.now columns) }
    {
        let mut columns = columns;
        if at > columns.len() {
            return Ok(None);
        }
        let mut behind = cut(&mut columns, at)?;
        let Some(column) = behind.pop_front() else {
            return Ok(None);
        };
        let End { depth, told } = column;
        let value = self.whnf(&told.form, left)?;
        let parts = opened_columns(self.alloc, depth, &value.form)?;
        let kept = refined_rows(self.alloc, &value.form, parts.len(), at, rows)?;
        let own = End {
            depth,
            told: unmoved(self.alloc, value.form.copy(self.alloc)?),
        };
        let columns = joined(columns, own, parts, behind)?;
        let kept = kept.as_slice();
        let deeper = self.select(kept, columns, left)?;
        let told = followed(told, value)?;
        Ok(folded(self.alloc, at, depth, told, rows, kept, deeper)?)
    }

    /// Whether a row that asks for no head is taken: its captures, and then its guards.
    #[cycle(evaluation)]
    #[tactic(auto, using(crate::proofs::Steps::bind_none, crate::proofs::Steps::bind_some))]
    fn row_taken(
        self,
        row: &Row,
        columns: LinkedList<End>,
        left: &mut u64,
    ) -> Result<RowTrial, Stop>
        ensures gives { Answers row_trial
            (row_taken (normal_of (entries_of self.entry.version.now))
            (comparison_of (entries_of self.entry.version.now)) (row_of row.now)
            (columns_of columns) left.old) result left.new }
        ensures spent { left.new ≤ left.old }
        ensures told { IfOk result
            (RowTaken (entries_of self.entry.version.now) (map plain_cell row.now.cells.items)
            columns) }
    {
        let cells = row.cells.as_slice();
        let captured = nothing_captured(self.alloc, row.rule.variable_count())?;
        let RowTrial { captured, columns } = self.captures_of_row(cells, columns, captured, left)?;
        let Some(captured) = captured else {
            return Ok(RowTrial {
                captured: None,
                columns,
            });
        };
        let mut columns = columns;
        let captures = captured.captures.as_slice();
        let Some(joins) = self.guards_hold(cells, &mut columns, captures, left)? else {
            return Ok(RowTrial {
                captured: None,
                columns,
            });
        };
        Ok(RowTrial {
            captured: Some(with_guards(captured, joins)?),
            columns,
        })
    }

    /// What the cells of a row capture, from left to right.
    #[cycle(evaluation)]
    #[tactic(auto, using(crate::proofs::Steps::bind_none, crate::proofs::Steps::bind_some))]
    fn captures_of_row(
        self,
        cells: &[Cell],
        columns: LinkedList<End>,
        captured: Captured,
        left: &mut u64,
    ) -> Result<RowTrial, Stop>
        ensures gives { Answers row_trial
            (captures_of_row (normal_of (entries_of self.entry.version.now))
            (comparison_of (entries_of self.entry.version.now)) (plain_cells cells.now)
            (columns_of columns) left.old (captures_of captured.captures)) result left.new }
        ensures spent { left.new ≤ left.old }
        ensures told { IfOk result
            (RowTold (entries_of self.entry.version.now) (plain_cells cells.now) columns captured) }
    {
        let inner = Evaluation {
            depth: deeper(self.depth)?,
            ..self
        };
        let mut columns = columns;
        let [cell, cells @ ..] = cells else {
            return Ok(RowTrial {
                captured: Some(captured),
                columns,
            });
        };
        let Some(column) = columns.pop_front() else {
            return Ok(RowTrial {
                captured: Some(captured),
                columns,
            });
        };
        let CellTrial { captured, column } = inner.cell_captures(*cell, column, captured, left)?;
        match captured {
            Some(captured) => {
                let rest = inner.captures_of_row(cells, columns, captured, left)?;
                Ok(behind_column(column, rest)?)
            }
            None => Ok(behind_column(
                column,
                RowTrial {
                    captured: None,
                    columns,
                },
            )?),
        }
    }

    /// What a cell captures in its column.
    #[cycle(evaluation)]
    #[tactic(auto, using(crate::proofs::Steps::bind_none, crate::proofs::Steps::bind_some))]
    fn cell_captures(
        self,
        cell: Cell,
        column: End,
        captured: Captured,
        left: &mut u64,
    ) -> Result<CellTrial, Stop>
        ensures gives { Answers cell_trial
            (cell_captures (normal_of (entries_of self.entry.version.now))
            (comparison_of (entries_of self.entry.version.now)) (plain_cell cell.entry)
            (column_of column) left.old (captures_of captured.captures)) result left.new }
        ensures spent { left.new ≤ left.old }
        ensures told { IfOk result
            (CellTold (entries_of self.entry.version.now) (plain_cell cell.entry) column captured) }
    {
        let Cell::Pattern(pattern) = cell else {
            return Ok(CellTrial {
                captured: Some(captured),
                column,
            });
        };
        let Pat::Rvar(variable, listed) = pattern else {
            return Ok(CellTrial {
                captured: Some(captured),
                column,
            });
        };
        let listed = listed.as_slice();
        let End { depth, told } = column;
        let PartTrial { told, fits } = self.part_at(depth, listed, told, left)?;
        if !fits {
            return Ok(CellTrial {
                captured: None,
                column: End { depth, told },
            });
        }
        let part = part_captured(self.alloc, depth, listed, &told.form)?;
        let captured = self.recorded(captured, *variable, part, left)?;
        Ok(CellTrial {
            captured,
            column: End { depth, told },
        })
    }

    /// The part for a rule variable applied to these, normal where it mentions another variable of the pattern.
    #[cycle(evaluation)]
    #[tactic(auto, using(crate::proofs::Steps::bind_none, crate::proofs::Steps::bind_some))]
    fn part_at(
        self,
        depth: u64,
        listed: &[u32],
        told: Told,
        left: &mut u64,
    ) -> Result<PartTrial, Stop>
        ensures gives { Answers part_trial
            (part_at (normal_of (entries_of self.entry.version.now)) left.old depth listed.now
            (tree told.form)) result left.new }
        ensures spent { left.new ≤ left.old }
        ensures told { IfOk result
            (PartTold (entries_of self.entry.version.now) depth listed.now told) }
    {
        if !mentions_others(0, depth, listed, &told.form)? {
            return Ok(PartTrial { told, fits: true });
        }
        let normal = self.normal(&told.form, left)?;
        let fits = !mentions_others(0, depth, listed, &normal.form)?;
        let told = followed(told, normal)?;
        Ok(PartTrial { told, fits })
    }

    /// The captures with a part for this variable, or nothing where it is unlike what the variable
    /// captured before. No rule of a signature has a variable that it doesn't count; of one that has,
    /// nothing is said, as of want of memory.
    #[cycle(evaluation)]
    #[tactic(auto, using(crate::proofs::Selecting::recorded_new, crate::proofs::Selecting::recorded_ends, crate::proofs::Selecting::recorded_again))]
    fn recorded(
        self,
        captured: Captured,
        variable: u32,
        part: Term,
        left: &mut u64,
    ) -> Result<Option<Captured>, Stop>
        ensures gives { Answers capturing
            (recorded (comparison_of (entries_of self.entry.version.now)) left.old
            (captures_of captured.captures) variable (tree part)) result left.new }
        ensures spent { left.new ≤ left.old }
        ensures told { IfOk result (λ it. IfSome it
            (RecordTold (entries_of self.entry.version.now) captured variable (tree part))) }
    {
        match capture_at(captured.captures.as_slice(), variable) {
            None => Ok(Some(with_capture(captured, variable, part)?)),
            Some(earlier) => match self.same(earlier, &part, left)? {
                Some(met) => Ok(Some(with_join(captured, met.into_join())?)),
                None => Ok(None),
            },
        }
    }

    /// Whether the guards of a row hold, in order: if so, what joins them.
    #[cycle(evaluation)]
    #[tactic(auto, using(crate::proofs::Selecting::guard_first, crate::proofs::Steps::bind_none, crate::proofs::Steps::bind_some))]
    fn guards_hold(
        self,
        cells: &[Cell],
        columns: &mut LinkedList<End>,
        captures: &[Option<Term>],
        left: &mut u64,
    ) -> Result<Option<Listed<Join>>, Stop>
        ensures gives { Answers is_some
            (guards_hold (comparison_of (entries_of self.entry.version.now)) (plain_cells cells.now)
            (columns_of columns.old) left.old (map maybe_tree captures.now)) result left.new }
        ensures kept { OnOk result (columns.new ≡ columns.old) }
        ensures spent { left.new ≤ left.old }
        ensures told { IfOk result (λ it. IfSome it
            (GuardsTold (entries_of self.entry.version.now) (plain_cells cells.now) columns.old
            (map maybe_tree captures.now))) }
    {
        let inner = Evaluation {
            depth: deeper(self.depth)?,
            ..self
        };
        let [cell, cells @ ..] = cells else {
            return Ok(Some(Listed::new(self.alloc)));
        };
        let Some(column) = columns.pop_front() else {
            return Ok(Some(Listed::new(self.alloc)));
        };
        let Some(here) = inner.guard_holds(*cell, &column, captures, left)? else {
            put_back(columns, column)?;
            return Ok(None);
        };
        let behind = inner.guards_hold(cells, columns, captures, left)?;
        put_back(columns, column)?;
        match behind {
            Some(behind) => Ok(Some(joins_together(here, behind)?)),
            None => Ok(None),
        }
    }

    /// Whether the guard of a cell holds, where it has one: if so, what joins it.
    #[cycle(evaluation)]
    fn guard_holds(
        self,
        cell: Cell,
        column: &End,
        captures: &[Option<Term>],
        left: &mut u64,
    ) -> Result<Option<Listed<Join>>, Stop>
        ensures gives { Answers is_some
            (guard_of (entries_of self.entry.version.now) (plain_cell cell.entry) (column_of column.now)
            left.old (map maybe_tree captures.now)) result left.new }
        ensures spent { left.new ≤ left.old }
        ensures told { IfOk result (λ it. IfSome it
            (GuardTold (entries_of self.entry.version.now) (plain_cell cell.entry) column.now
            (map maybe_tree captures.now))) }
    {
        let Cell::Pattern(pattern) = cell else {
            return Ok(Some(Listed::new(self.alloc)));
        };
        let Pat::Guard(guard) = pattern else {
            return Ok(Some(Listed::new(self.alloc)));
        };
        let guard = filled(self.alloc, captures, 0, &guard.to_term(self.alloc)?)?;
        let guard = guard.shift(self.alloc, 0, column.depth)?;
        match self.same(&column.told.form, &guard, left)? {
            Some(met) => Ok(Some(one_join(self.alloc, met.into_join())?)),
            None => Ok(None),
        }
    }
}

/// A selection behind a first row that isn't taken.
fn behind_first<'v>(selected: Option<Selected<'v>>) -> Result<Option<Selected<'v>>, NoMemory>
    ensures { IfOk result (λ it. it ≡ option_map next_place selected.entry) }
{
    let Some(selected) = selected else {
        return Ok(None);
    };
    let Some(place) = selected.place.checked_add(1) else {
        return Err(NoMemory);
    };
    Ok(Some(Selected { place, ..selected }))
}

/// A selection among the rows that are kept for a value, as one among those that these come from.
fn folded<'v>(
    alloc: Global,
    at: usize,
    depth: u64,
    told: Told,
    rows: &[Row<'v>],
    kept: &[Row<'v>],
    deeper: Option<Selected<'v>>,
) -> Result<Option<Selected<'v>>, NoMemory>
    ensures selected { IfOk result (λ it. selected it ≡ selected deeper.entry) }
    ensures told { IfOk result (Folded at depth told rows.now kept.now deeper.entry) }
{
    let Some(deeper) = deeper else {
        return Ok(None);
    };
    let Some(own) = kept.get(deeper.place) else {
        return Err(NoMemory);
    };
    let place = own.from;
    let Some(before) = rows.get(place) else {
        return Err(NoMemory);
    };
    let rigid = is_rigid(cell_at(before.cells.as_slice(), at));
    let opened = Opened {
        at,
        depth,
        told,
        rigid,
    };
    let ends = fold_value(alloc, opened, deeper.ends)?;
    Ok(Some(Selected {
        captures: deeper.captures,
        rule: deeper.rule,
        place,
        ends,
        joins: deeper.joins,
    }))
}

/// The captures with one for this variable.
fn with_capture(captured: Captured, variable: u32, part: Term) -> Result<Captured, NoMemory>
    ensures { IfOk result (CapturesNew captured variable part) }
{
    let Captured { captures, joins } = captured;
    let mut captures = captures;
    if (variable as usize) >= captures.len() {
        return Err(NoMemory);
    }
    captures[variable as usize] = Some(part);
    Ok(Captured { captures, joins })
}

/// What has been captured, with one more join.
fn with_join(captured: Captured, join: Join) -> Result<Captured, NoMemory>
    ensures captures { IfOk result (λ it. it.captures ≡ captured.captures) }
    ensures joins { IfOk result (λ it. it.joins ≡ captured.joins ++ join ∷ []) }
{
    let mut captured = captured;
    captured.joins.push(join)?;
    Ok(captured)
}

/// What has been captured, with the joins of guards behind the others.
fn with_guards(captured: Captured, guards: Listed<Join>) -> Result<Captured, NoMemory>
    ensures captures { IfOk result (λ it. it.captures ≡ captured.captures) }
    ensures joins { IfOk result (λ it. it.joins ≡ captured.joins ++ guards) }
{
    let Captured { captures, joins } = captured;
    let joins = joins_together(joins, guards)?;
    Ok(Captured { captures, joins })
}

/// Joins, and others behind them.
fn joins_together(first: Listed<Join>, behind: Listed<Join>) -> Result<Listed<Join>, NoMemory>
    ensures { IfOk result (λ joins. joins ≡ first ++ behind) }
{
    let mut joins = first.into_vec();
    let mut behind = behind.into_vec();
    joins.append(&mut behind)?;
    Ok(Listed::from_vec(joins))
}

/// One join.
fn one_join(alloc: Global, join: Join) -> Result<Listed<Join>, NoMemory>
    ensures { IfOk result (λ joins. joins ≡ join ∷ []) }
{
    let mut joins = Listed::new(alloc);
    joins.push(join)?;
    Ok(joins)
}

/// A row's trial with a column in front of the others.
fn behind_column(column: End, trial: RowTrial) -> Result<RowTrial, NoMemory>
    ensures { IfOk result (λ t. t ≡ record {
      captured = trial.captured;
      columns = column ∷ trial.columns;
    }) }
{
    let mut trial = trial;
    trial.columns.push_front(column)?;
    Ok(trial)
}

/// A column in front of others.
fn put_back(columns: &mut LinkedList<End>, column: End) -> Result<(), NoMemory>
    ensures { OnOk result (columns.new ≡ column ∷ columns.old) }
{
    columns.push_front(column)?;
    Ok(())
}

/// No capture for any of `count` variables.
fn nothing_captured(alloc: Global, count: u32) -> Result<Captured, NoMemory>
    ensures captures { IfOk result (λ c. captures_of c.captures ≡ replicate count None) }
    ensures joins { IfOk result (λ c. c.joins ≡ []) }
{
    let mut captures = Vec::new(alloc);
    for _i in 0..count {
        captures.push(None)?;
    }
    Ok(Captured {
        captures,
        joins: Listed::new(alloc),
    })
}
