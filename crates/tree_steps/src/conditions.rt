//! The conditions that the parts of an instance leave, in the order in which a certificate joins them.
ghost use Rattle.std.specs.Prelude.{◌≡◌, [], ◌++◌, IfOk, OnOk, map};
ghost use Rattle.typing_model.specs.Steps.{capture};
ghost use Rattle.checked_steps.specs.Matching.{laters, guards, to_join};
ghost use Rattle.tree_steps.specs.Conditions.{later, guard};
ghost use Rattle.tree_steps.specs.Views.{part as view, pair};

use crate::pairs::{Pair, push_copies};
use crate::parts::{Part, capture, instantiated};
use dk_model::NoMemory;
use std::alloc::Global;
use std::collections::LinkedList;

/// Of a later occurrence of a rule variable its capture and the part there, behind these pairs.
fn push_later(
    alloc: Global,
    pairs: &mut LinkedList<Pair>,
    before: &[Part],
    part: &Part,
) -> Result<(), NoMemory>
    ensures { OnOk result (map pair pairs.new
        ≡ map pair pairs.old ++ later (map view before.now) (view part.now)) }
{
    if let Part::Variable(number, term) = part {
        if let Some(first) = capture(before, *number) {
            push_copies(alloc, pairs, first, term)?;
        }
    }
    Ok(())
}

/// Of a guard the part there and its term under the captures, behind these pairs.
fn push_guard(
    alloc: Global,
    pairs: &mut LinkedList<Pair>,
    parts: &[Part],
    part: &Part,
) -> Result<(), NoMemory>
    ensures { OnOk result (map pair pairs.new
        ≡ map pair pairs.old ++ guard (capture (map view parts.now)) (view part.now)) }
{
    if let Part::Guard { depth, guard, term } = part {
        let guard = instantiated(alloc, parts, 0, guard)?;
        let guard = guard.shift(alloc, 0, *depth)?;
        push_copies(alloc, pairs, term, &guard)?;
    }
    Ok(())
}

/// Those of later occurrences of rule variables, from left to right.
fn laters(alloc: Global, parts: &[Part]) -> Result<LinkedList<Pair>, NoMemory>
    ensures { IfOk result (λ pairs. map pair pairs ≡ laters [] (map view parts.now)) }
{
    let mut pairs = LinkedList::new(alloc);
    for at in 0..parts.len() {
        push_later(alloc, &mut pairs, &parts[..at], &parts[at])?;
    }
    Ok(pairs)
}

/// Those of guards, from left to right.
fn guards(alloc: Global, parts: &[Part]) -> Result<LinkedList<Pair>, NoMemory>
    ensures { IfOk result (λ pairs. map pair pairs
        ≡ guards (capture (map view parts.now)) (map view parts.now)) }
{
    let mut pairs = LinkedList::new(alloc);
    for part in parts {
        push_guard(alloc, &mut pairs, parts, part)?;
    }
    Ok(pairs)
}

/// The pairs that must be joined for a rule with these parts to fire.
pub(crate) fn to_join(alloc: Global, parts: &[Part]) -> Result<LinkedList<Pair>, NoMemory>
    ensures { IfOk result (λ pairs. map pair pairs ≡ to_join (map view parts.now)) }
{
    let mut pairs = laters(alloc, parts)?;
    let mut behind = guards(alloc, parts)?;
    pairs.append(&mut behind)?;
    Ok(pairs)
}
