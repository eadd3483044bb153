//! The ends of a level of a selection, by those of the next level, where a value and its parts stand in the place of a column.
ghost use Rattle.std.specs.Prelude.{◌≡◌, ◌+◌, ◌≤◌, ◌++◌, ◌∷◌, [], IfOk, IfSome, None, length};
ghost use Rattle.dk_model.specs.Trees.{tree};
ghost use Rattle.dk_model.specs.Spines.{arguments};
ghost use Rattle.dk_model.specs.Matrix.{opened_columns};
ghost use Rattle.told_steps.specs.Ends.{FoldsBack};
ghost use Rattle.told_steps.specs.Folding.{FoldsColumn, IsCut, PartsLead, SpineLeads};

use crate::end::End;
use crate::parts::{told_application, told_body};
use crate::told::{Told, followed, unmoved};
use dk_model::{NoMemory, Term};
use std::alloc::Global;
use std::collections::LinkedList;
use tree_terms::body_of;

/// A column that was evaluated.
#[derive(Drop)]
pub struct Opened {
    /// Its place, from 0.
    pub at: usize,
    /// How many variables a pattern binds there.
    pub depth: u64,
    /// The value that stands in its place in the next level, with the steps to it from what the column began with.
    pub told: Told,
    /// Whether the row that is taken asked for the head of the value.
    pub rigid: bool,
}

/// The number of arguments. It wants memory where they can't be counted.
pub(crate) fn argument_count(term: &Term) -> Result<usize, NoMemory>
    ensures { IfOk result (λ n. n ≡ length (arguments (tree term.now))) }
{
    let Term::App(f, _) = term else {
        return Ok(0);
    };
    match argument_count(f)?.checked_add(1) {
        Some(count) => Ok(count),
        None => Err(NoMemory),
    }
}

/// How many columns the value opens.
fn opened_count(depth: u64, value: &Term) -> Result<usize, NoMemory>
    ensures { IfOk result (λ n. n ≡ length (opened_columns depth (tree value.now))) }
{
    match body_of(value) {
        Some(_) => Ok(1),
        None => argument_count(value),
    }
}

/// The head of a value applied to the ends of its arguments.
pub(crate) fn told_spine(
    alloc: Global,
    value: &Term,
    ends: LinkedList<End>,
) -> Result<Told, NoMemory>
    ensures { IfOk result (λ told. SpineLeads (tree value.now) ends told) }
{
    let mut ends = ends;
    let Term::App(f, _) = value else {
        return Ok(unmoved(alloc, value.copy(alloc)?));
    };
    match ends.pop_back() {
        Some(argument) => {
            let function = told_spine(alloc, f, ends)?;
            let told = told_application(alloc, function, argument.told)?;
            Ok(told)
        }
        None => Ok(unmoved(alloc, value.copy(alloc)?)),
    }
}

/// A value with the ends of the parts that it opened.
fn told_parts(alloc: Global, value: &Term, ends: LinkedList<End>) -> Result<Told, NoMemory>
    ensures { IfOk result (λ told. PartsLead (tree value.now) ends told) }
{
    let Some(_) = body_of(value) else {
        let told = told_spine(alloc, value, ends)?;
        return Ok(told);
    };
    let mut ends = ends;
    match ends.pop_back() {
        Some(body) => {
            let told = told_body(alloc, body.told)?;
            Ok(told)
        }
        None => Ok(unmoved(alloc, value.copy(alloc)?)),
    }
}

/// The end of the column, by the ends of its value and of the value's parts.
fn folded_column(
    alloc: Global,
    opened: Opened,
    own: End,
    parts: LinkedList<End>,
) -> Result<End, NoMemory>
    ensures { IfOk result (λ end. FoldsColumn opened own parts end) }
{
    let Opened {
        depth,
        told,
        rigid,
        ..
    } = opened;
    if rigid {
        let value = told_parts(alloc, &told.form, parts)?;
        let told = followed(told, value)?;
        Ok(End { depth, told })
    } else {
        let told = followed(told, own.told)?;
        Ok(End { depth, told })
    }
}

/// Ends in one list.
fn joined(
    front: LinkedList<End>,
    end: End,
    behind: LinkedList<End>,
) -> Result<LinkedList<End>, NoMemory>
    ensures { IfOk result (λ ends. ends ≡ (front ++ end ∷ []) ++ behind) }
{
    let mut ends = front;
    let mut behind = behind;
    ends.push_back(end)?;
    ends.append(&mut behind)?;
    Ok(ends)
}

/// The ends of a level, cut at a column with a value.
#[derive(Drop)]
pub(crate) struct Cut {
    pub(crate) front: LinkedList<End>,
    pub(crate) own: End,
    pub(crate) parts: LinkedList<End>,
    pub(crate) behind: LinkedList<End>,
}

/// The ends cut at this place, with so many of the value's parts; nothing where they are too few.
fn cut_at(ends: LinkedList<End>, at: usize, count: usize) -> Result<Option<Cut>, NoMemory>
    ensures some { IfOk result (λ cut. IfSome cut (λ it. IsCut ends at count it)) }
    ensures none { IfOk result (λ cut. cut ≡ None → length ends ≤ at + count) }
{
    let mut front = ends;
    if front.len() <= at {
        return Ok(None);
    }
    let mut parts = front.split_off(at)?;
    let Some(own) = parts.pop_front() else {
        return Ok(None);
    };
    if parts.len() < count {
        return Ok(None);
    }
    let behind = parts.split_off(count)?;
    Ok(Some(Cut {
        front,
        own,
        parts,
        behind,
    }))
}

/// The ends of a level by those of the next one: in front of the column and behind its parts as they are. Where the row that
/// is taken asked for the head of the value, the column ends with the value over the ends of its parts, and else with the
/// end of the value. The ends of a next level are as many as its columns: where they are fewer, the answer has none.
pub fn fold_value(
    alloc: Global,
    opened: Opened,
    deeper: LinkedList<End>,
) -> Result<LinkedList<End>, NoMemory>
    ensures folds { IfOk result (λ ends. FoldsBack opened deeper ends) }
{
    let count = opened_count(opened.depth, &opened.told.form)?;
    let found = cut_at(deeper, opened.at, count)?;
    let Some(cut) = found else {
        return Ok(LinkedList::new(alloc));
    };
    let end = folded_column(alloc, opened, cut.own, cut.parts)?;
    let ends = joined(cut.front, end, cut.behind)?;
    Ok(ends)
}
