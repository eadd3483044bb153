//! The selection of a rule by asking for one answer after another.
ghost use Rattle.std.specs.Prelude.{◌≡◌, ℕ, ◌<◌, [], None, Some, IfOk, OnOk, List, length, slice_get, vec_len, replicate};
ghost use Rattle.dk_model.specs.Signatures.{PlainRule};
ghost use Rattle.dk_model.specs.Matrix.{width};
ghost use Rattle.shared_term.specs.Pools.{Node, term, Extends};
ghost use Rattle.rule_match.specs.Rows.{plain_cell};
ghost use Rattle.rule_match.specs.Columns.{AreWithin};
ghost use Rattle.rule_match.specs.Sides.{AreLeftSides};
ghost use Rattle.rule_match.specs.Remaining.{rule_count};
ghost use Rattle.rule_match.specs.Standing.{others_in};
ghost use Rattle.rule_match.specs.Trees.{IsTree, IsPlaced};
ghost use Rattle.rule_match.specs.declared.matcher.Stage.TheVariants.{Begins};
ghost use Rattle.rule_match.specs.Matching.{IsMatcher, IsTried, IsAsk, Awaits, Stands, Asks, selects, captures_due, guards_due, after_value, after_normal, after_compared, after_guard, fails};
ghost use Rattle.rule_match.specs.Selecting.{Fits, AwaitsAnswer, terms_in, left_with, Comes, IsStart};

use crate::cell::{Cell, Row};
use crate::left::{
    Left, Source, kept_for, left_before, row_at, variable_count, walked_before, width_before,
};
use crate::refine::{cell_of, rigid_at};
use crate::row::{Passage, mentions_others, next_guard, pass};
use crate::tree::Tree;
use crate::value::{Column, column_of, first_columns, put_column, spliced, taken_apart};
use crate::walk::LeftSide;
use dk_model::{NoMemory, Pat};
use shared_term::{Pool, TermId};
use std::alloc::Global;
use std::mem;

/// What a matcher is told: at first nothing, then what it asked for.
#[derive(Clone, Copy)]
pub enum Answer {
    Begin,
    /// The weak head form of the column.
    Value(TermId),
    /// Both are alike.
    Yes,
    /// They aren't.
    No,
    /// The normal form of the part.
    Normal(TermId),
}

/// What a matcher asks for, or what it comes to.
#[derive(Drop)]
pub enum Ask {
    /// The weak head form of the term in this column, counted from 0.
    Evaluate(usize),
    /// The normal form of this part.
    Escape(TermId),
    /// Whether both are alike.
    Same(TermId, TermId),
    /// This rule is taken, with its captures.
    Take(usize, Vec<Option<TermId>>),
    /// No rule is taken.
    Nothing,
}

/// What was asked for last.
#[derive(Clone, Copy)]
pub(crate) enum Stage {
    Begins,
    /// The value of this column.
    Evaluates(usize),
    /// The normal form of this column's part.
    Escapes(usize),
    /// Whether this column's part is as what its variable captured before.
    Compares(usize),
    /// Whether this column's part is as the guard.
    Guards(usize),
    Ends,
}

/// A selection that is under way.
#[derive(Drop)]
pub struct Matcher<'t> {
    pub(crate) alloc: Global,
    pub(crate) source: Source<'t>,
    pub(crate) columns: Vec<Column>,
    pub(crate) left: Left<'t>,
    /// How many of the rows were tried since the last value.
    pub(crate) tried: usize,
    /// The row that is tried.
    pub(crate) row: Row<'t>,
    pub(crate) captures: Vec<Option<TermId>>,
    pub(crate) stage: Stage,
}

/// No capture for any of so many variables.
fn no_captures(alloc: Global, count: u32) -> Result<Vec<Option<TermId>>, NoMemory>
    ensures { IfOk result (λ cs. cs.items ≡ replicate count None) }
{
    let mut captures = Vec::new(alloc);
    for _i in 0..count {
        captures.push(None)?;
    }
    Ok(captures)
}

/// Whether a part that was brought to its normal form still mentions a variable that the cell may not capture.
fn mentions_still(pool: &mut Pool, cell: Cell, depth: u64, part: TermId) -> Result<bool, NoMemory>
    requires { part.0 < length pool.old }
    ensures mentions { IfOk result
        (λ b. b ≡ others_in (plain_cell cell.entry) depth (term pool.old part)) }
    ensures keeps { Extends pool.old pool.new }
{
    match cell {
        Cell::Blank => Ok(false),
        Cell::Pattern(pattern) => match pattern {
            Pat::Rvar(_, listed) => mentions_others(pool, part, depth, listed.as_slice()),
            Pat::Any => Ok(false),
            Pat::Guard(_) => Ok(false),
            Pat::Sym(_, _) => Ok(false),
            Pat::Var(_, _) => Ok(false),
            Pat::Abs(_) => Ok(false),
        },
    }
}

/// A matcher of these columns and rows at its start.
fn begun<'t>(alloc: Global, source: Source<'t>, columns: Vec<Column>, left: Left<'t>) -> Matcher<'t>
    ensures source { result.source ≡ source.entry }
    ensures columns { result.columns ≡ columns }
    ensures left { result.left ≡ left.entry }
    ensures tried { result.tried ≡ 0 }
    ensures captures { result.captures.items ≡ [] }
    ensures begins { result.stage ≡ Begins }
{
    Matcher {
        alloc,
        source,
        columns,
        left,
        tried: 0,
        row: Row {
            cells: Vec::new(alloc),
            at: 0,
        },
        captures: Vec::new(alloc),
        stage: Stage::Begins,
    }
}

impl<'t> Matcher<'t> {
    /// The selection of a rule of the tree for these arguments, at its start. The arguments lie on a stack, the first one
    /// on top.
    pub fn start(
        alloc: Global,
        tree: &'t Tree,
        arguments: &[TermId],
    ) -> Result<Matcher<'t>, NoMemory>
        requires { IsPlaced tree.now }
        ensures starts { IfOk result (λ m. (rules : List PlainRule) → IsTree rules tree.now
            → IsStart rules arguments.now m) }
        ensures within { IfOk result (λ m. (n : ℕ) → AreWithin n arguments.now → IsMatcher n m) }
    {
        let width = width_before(tree, arguments.len());
        let left = left_before(alloc, tree, arguments.len(), width)?;
        let columns = first_columns(alloc, width, arguments)?;
        Ok(begun(alloc, Source::Tree(tree), columns, left))
    }

    /// The same of rules that have no tree, by their left sides.
    pub fn walk(
        alloc: Global,
        sides: Vec<LeftSide<'t>>,
        arguments: &[TermId],
    ) -> Result<Matcher<'t>, NoMemory>
        ensures starts { IfOk result (λ m. (rules : List PlainRule) → AreLeftSides rules sides.entry.items
            → IsStart rules arguments.now m) }
        ensures within { IfOk result (λ m. (n : ℕ) → AreWithin n arguments.now → IsMatcher n m) }
    {
        let (width, left) = walked_before(alloc, sides.as_slice(), arguments.len())?;
        let columns = first_columns(alloc, width, arguments)?;
        Ok(begun(alloc, Source::Sides(sides), columns, left))
    }

    /// The term that stands in this column.
    pub fn at(&self, column: usize) -> TermId
        requires { column < length (terms_in self.now) }
        ensures is { slice_get (terms_in self.now) column ≡ Some result }
        ensures within { (n : ℕ) → IsMatcher n self.now → result.0 < n }
    {
        column_of(self.columns.as_slice(), column).term
    }

    /// What the selection asks for next, where this is the answer to what it asked for last. The asks come one at a
    /// time, in the order of selection.
    #[tactic(auto, using(crate::proofs::Seeing::each_fits))]
    pub fn next(&mut self, pool: &mut Pool, answer: Answer) -> Result<Ask, NoMemory>
        requires within { IsMatcher (length pool.old) self.old }
        requires answer { Fits (length pool.old) self.old answer }
        ensures asks { IfOk result (λ ask. (rules : List PlainRule) → Stands rules self.old
            → Comes rules pool.new self.new ask (λ S. left_with S rules pool.old self.old answer)) }
        ensures awaits { IfOk result (AwaitsAnswer self.new) }
        ensures asked { IfOk result (IsAsk (length pool.new)) }
        ensures within { OnOk result (IsMatcher (length pool.new) self.new) }
        ensures keeps { Extends pool.old pool.new }
    {
        match self.stage {
            Stage::Begins => match answer {
                Answer::Begin => self.try_row(pool),
                _ => unreachable!(),
            },
            Stage::Evaluates(at) => match answer {
                Answer::Value(value) => self.put_value(pool, at, value),
                _ => unreachable!(),
            },
            Stage::Escapes(at) => match answer {
                Answer::Normal(part) => self.put_normal(pool, at, part),
                _ => unreachable!(),
            },
            Stage::Compares(at) => match answer {
                Answer::Yes => self.captured(pool, at, true),
                Answer::No => self.captured(pool, at, false),
                _ => unreachable!(),
            },
            Stage::Guards(at) => match answer {
                Answer::Yes => self.guarded(pool, at, true),
                Answer::No => self.guarded(pool, at, false),
                _ => unreachable!(),
            },
            Stage::Ends => unreachable!(),
        }
    }

    /// The first of the rows that were not tried.
    fn try_row(&mut self, pool: &mut Pool) -> Result<Ask, NoMemory>
        requires { IsMatcher (length pool.old) self.old }
        ensures asks { IfOk result (λ ask. (rules : List PlainRule) → Stands rules self.old
            → Asks rules pool.new self.new ask (λ S. selects S rules pool.old self.old)) }
        ensures awaits { IfOk result (Awaits self.new.stage) }
        ensures asked { IfOk result (IsAsk (length pool.new)) }
        ensures within { OnOk result (IsMatcher (length pool.new) self.new) }
        ensures keeps { Extends pool.old pool.new }
    {
        match row_at(self.alloc, &self.source, &self.left, self.tried)? {
            None => {
                self.stage = Stage::Ends;
                Ok(Ask::Nothing)
            }
            Some(row) => match rigid_at(row.cells.as_slice()) {
                Some(at) => {
                    if at >= self.columns.len() {
                        self.stage = Stage::Ends;
                        return Ok(Ask::Nothing);
                    }
                    self.stage = Stage::Evaluates(at);
                    Ok(Ask::Evaluate(at))
                }
                None => {
                    let count = variable_count(&self.source, row.at);
                    self.captures = no_captures(self.alloc, count)?;
                    self.row = row;
                    self.stage = Stage::Begins;
                    self.go_through(pool, 0)
                }
            },
        }
    }

    /// The row after the one that failed.
    fn next_row(&mut self, pool: &mut Pool) -> Result<Ask, NoMemory>
        requires within { IsMatcher (length pool.old) self.old }
        requires tried { IsTried (rule_count self.old.source) self.old.row.at self.old.tried }
        ensures asks { IfOk result (λ ask. (rules : List PlainRule) → Stands rules self.old
            → Asks rules pool.new self.new ask (λ S. fails S rules pool.old self.old)) }
        ensures awaits { IfOk result (Awaits self.new.stage) }
        ensures asked { IfOk result (IsAsk (length pool.new)) }
        ensures within { OnOk result (IsMatcher (length pool.new) self.new) }
        ensures keeps { Extends pool.old pool.new }
    {
        self.tried += 1;
        self.stage = Stage::Begins;
        self.try_row(pool)
    }

    /// The cells of the row that is tried, from this place on.
    fn go_through(&mut self, pool: &mut Pool, from: usize) -> Result<Ask, NoMemory>
        requires within { IsMatcher (length pool.old) self.old }
        requires tried { IsTried (rule_count self.old.source) self.old.row.at self.old.tried }
        ensures asks { IfOk result (λ ask. (rules : List PlainRule) → Stands rules self.old
            → Asks rules pool.new self.new ask (λ S. captures_due S rules pool.old self.old from)) }
        ensures awaits { IfOk result (Awaits self.new.stage) }
        ensures asked { IfOk result (IsAsk (length pool.new)) }
        ensures within { OnOk result (IsMatcher (length pool.new) self.new) }
        ensures keeps { Extends pool.old pool.new }
    {
        match pass(
            pool,
            self.row.cells.as_slice(),
            self.columns.as_slice(),
            &mut self.captures,
            from,
        )? {
            Passage::Through => self.go_guarding(pool, 0),
            Passage::Escapes(at) => {
                self.stage = Stage::Escapes(at);
                Ok(Ask::Escape(column_of(self.columns.as_slice(), at).term))
            }
            Passage::Compares(at, earlier, part) => {
                self.stage = Stage::Compares(at);
                Ok(Ask::Same(earlier, part))
            }
        }
    }

    /// The guards of the row that is tried, from this place on.
    fn go_guarding(&mut self, pool: &mut Pool, from: usize) -> Result<Ask, NoMemory>
        requires within { IsMatcher (length pool.old) self.old }
        requires tried { IsTried (rule_count self.old.source) self.old.row.at self.old.tried }
        ensures asks { IfOk result (λ ask. (rules : List PlainRule) → Stands rules self.old
            → Asks rules pool.new self.new ask (λ S. guards_due S rules pool.old self.old from)) }
        ensures awaits { IfOk result (Awaits self.new.stage) }
        ensures asked { IfOk result (IsAsk (length pool.new)) }
        ensures within { OnOk result (IsMatcher (length pool.new) self.new) }
        ensures keeps { Extends pool.old pool.new }
    {
        match next_guard(
            pool,
            self.row.cells.as_slice(),
            self.columns.as_slice(),
            self.captures.as_slice(),
            from,
        )? {
            None => {
                self.stage = Stage::Ends;
                let captures = mem::replace(&mut self.captures, Vec::new(self.alloc));
                Ok(Ask::Take(self.row.at, captures))
            }
            Some(next) => {
                self.stage = Stage::Guards(next.at);
                Ok(Ask::Same(next.part, next.guard))
            }
        }
    }

    /// Goes on with the value of this column.
    fn put_value(&mut self, pool: &mut Pool, at: usize, value: TermId) -> Result<Ask, NoMemory>
        requires within { IsMatcher (length pool.old) self.old }
        requires at { at < vec_len self.old.columns }
        requires value { value.0 < length pool.old }
        ensures asks { IfOk result (λ ask. (rules : List PlainRule) → Stands rules self.old
            → Asks rules pool.new self.new ask
            (λ S. after_value S rules pool.old self.old at (term pool.old value))) }
        ensures awaits { IfOk result (Awaits self.new.stage) }
        ensures asked { IfOk result (IsAsk (length pool.new)) }
        ensures within { OnOk result (IsMatcher (length pool.new) self.new) }
        ensures keeps { Extends pool.old pool.new }
    {
        let depth = column_of(self.columns.as_slice(), at).depth;
        let (key, parts) = taken_apart(self.alloc, pool, depth, value)?;
        self.left = kept_for(self.alloc, &self.source, &self.left, self.tried, key, at)?;
        self.tried = 0;
        let columns = mem::replace(&mut self.columns, Vec::new(self.alloc));
        self.columns = spliced(columns, at, value, parts)?;
        self.stage = Stage::Begins;
        self.try_row(pool)
    }

    /// Goes on with the normal form of this column's part.
    fn put_normal(&mut self, pool: &mut Pool, at: usize, part: TermId) -> Result<Ask, NoMemory>
        requires within { IsMatcher (length pool.old) self.old }
        requires tried { IsTried (rule_count self.old.source) self.old.row.at self.old.tried }
        requires at { at < vec_len self.old.columns }
        requires cell { at < vec_len self.old.row.cells }
        requires part { part.0 < length pool.old }
        ensures asks { IfOk result (λ ask. (rules : List PlainRule) → Stands rules self.old
            → Asks rules pool.new self.new ask
            (λ S. after_normal S rules pool.old self.old at (term pool.old part))) }
        ensures awaits { IfOk result (Awaits self.new.stage) }
        ensures asked { IfOk result (IsAsk (length pool.new)) }
        ensures within { OnOk result (IsMatcher (length pool.new) self.new) }
        ensures keeps { Extends pool.old pool.new }
    {
        let cell = cell_of(self.row.cells.as_slice(), at);
        let depth = column_of(self.columns.as_slice(), at).depth;
        let mentions = mentions_still(pool, cell, depth, part)?;
        put_column(&mut self.columns, at, Column { depth, term: part });
        self.stage = Stage::Begins;
        if mentions {
            return self.next_row(pool);
        }
        self.go_through(pool, at)
    }

    /// Goes on once this column's part was compared with what its variable captured before.
    fn captured(&mut self, pool: &mut Pool, at: usize, alike: bool) -> Result<Ask, NoMemory>
        requires within { IsMatcher (length pool.old) self.old }
        requires tried { IsTried (rule_count self.old.source) self.old.row.at self.old.tried }
        requires at { at < vec_len self.old.columns }
        ensures asks { IfOk result (λ ask. (rules : List PlainRule) → Stands rules self.old
            → Asks rules pool.new self.new ask
            (λ S. after_compared S rules pool.old self.old at alike)) }
        ensures awaits { IfOk result (Awaits self.new.stage) }
        ensures asked { IfOk result (IsAsk (length pool.new)) }
        ensures within { OnOk result (IsMatcher (length pool.new) self.new) }
        ensures keeps { Extends pool.old pool.new }
    {
        if !alike {
            return self.next_row(pool);
        }
        self.go_through(pool, at + 1)
    }

    /// Goes on once this column's part was compared with the guard.
    fn guarded(&mut self, pool: &mut Pool, at: usize, alike: bool) -> Result<Ask, NoMemory>
        requires within { IsMatcher (length pool.old) self.old }
        requires tried { IsTried (rule_count self.old.source) self.old.row.at self.old.tried }
        requires at { at < vec_len self.old.columns }
        ensures asks { IfOk result (λ ask. (rules : List PlainRule) → Stands rules self.old
            → Asks rules pool.new self.new ask
            (λ S. after_guard S rules pool.old self.old at alike)) }
        ensures awaits { IfOk result (Awaits self.new.stage) }
        ensures asked { IfOk result (IsAsk (length pool.new)) }
        ensures within { OnOk result (IsMatcher (length pool.new) self.new) }
        ensures keeps { Extends pool.old pool.new }
    {
        if !alike {
            return self.next_row(pool);
        }
        self.go_guarding(pool, at + 1)
    }
}
