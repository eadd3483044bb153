//! A rule that is taken, as a step.
ghost use Rattle.std.specs.Prelude.{◌≡◌, IfOk, take};
ghost use Rattle.dk_model.specs.Trees.{tree};
ghost use Rattle.told_steps.specs.Ends.{Fires};
ghost use Rattle.told_steps.specs.Firing.{FiresBehind, IsRuleStep};

use crate::end::End;
use crate::fold::{argument_count, told_spine};
use crate::parts::told_application;
use crate::told::{Told, followed, unmoved};
use certificate_items::{Join, Step};
use dk_model::{Listed, NoMemory, Term};
use std::alloc::Global;
use std::collections::LinkedList;

/// A rule that takes the first arguments of a term.
#[derive(Drop)]
pub struct TakenRule {
    /// Its number among the rules of the symbol at the head, from 0.
    pub number: u64,
    /// How many patterns it has.
    pub patterns: usize,
    /// What joins its conditions.
    pub joins: Listed<Join>,
    /// Its right side under the captures.
    pub right: Term,
}

/// The step of the rule at the root.
fn fired(alloc: Global, taken: TakenRule) -> Result<Told, NoMemory>
    ensures { IfOk result (λ told. IsRuleStep taken told) }
{
    let mut steps = Listed::new(alloc);
    steps.push(Step::Rule {
        place: 0,
        number: taken.number,
        joins: taken.joins,
    })?;
    Ok(Told {
        form: taken.right,
        steps,
    })
}

/// The ends of the first arguments in place, then the step of the rule, where so many arguments stand behind them.
fn fired_behind(
    alloc: Global,
    term: &Term,
    behind: usize,
    taken: TakenRule,
    ends: LinkedList<End>,
) -> Result<Told, NoMemory>
    ensures { IfOk result (λ told. FiresBehind (tree term.now) behind taken ends told) }
{
    if behind == 0 {
        let placed = told_spine(alloc, term, ends)?;
        let step = fired(alloc, taken)?;
        let told = followed(placed, step)?;
        return Ok(told);
    }
    let Term::App(f, a) = term else {
        return Ok(unmoved(alloc, term.copy(alloc)?));
    };
    let function = fired_behind(alloc, f, behind - 1, taken, ends)?;
    let argument = unmoved(alloc, a.copy(alloc)?);
    let told = told_application(alloc, function, argument)?;
    Ok(told)
}

/// The first ends.
fn front(ends: LinkedList<End>, count: usize) -> Result<LinkedList<End>, NoMemory>
    ensures { IfOk result (λ first. first ≡ take count ends) }
{
    let mut first = ends;
    if first.len() <= count {
        return Ok(first);
    }
    let _behind = first.split_off(count)?;
    Ok(first)
}

/// A term after the rule that is taken, whose patterns its first arguments match as these columns of it ended: the ends of
/// these arguments in place, then the rule's step. The form is the right side applied to the arguments that are left.
pub fn fire(
    alloc: Global,
    term: &Term,
    taken: TakenRule,
    ends: LinkedList<End>,
) -> Result<Told, NoMemory>
    ensures fires { IfOk result (λ told. Fires (tree term.now) taken ends told) }
{
    let count = argument_count(term)?;
    let behind = count.saturating_sub(taken.patterns);
    let first = front(ends, taken.patterns)?;
    let told = fired_behind(alloc, term, behind, taken, first)?;
    Ok(told)
}
