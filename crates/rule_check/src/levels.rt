//! The levels of bindings: which rule variables were bound when.
ghost use Rattle.std.specs.Prelude.{IfSome, OnOk, ◌≡◌};
ghost use Rattle.rule_check.specs.Levels.{numbers_of, IsPlaced, IsJoined, IsBeforeLast};

use dk_model::NoMemory;
use std::alloc::Global;

/// The level before the last, where it isn't twice as large.
pub(crate) fn small_level(levels: &[Vec<u32>]) -> Option<&[u32]>
    ensures { IfSome result (λ level. IsBeforeLast levels.now level.now) }
{
    match levels.split_last() {
        Some((last, front)) => match front.split_last() {
            Some((level, _)) => if level.len() / 2 < last.len() {
                Some(level.as_slice())
            } else {
                None
            },
            None => None,
        },
        None => None,
    }
}

/// The numbers of a level, if there is one.
fn numbers(alloc: Global, level: Option<Vec<u32>>) -> Vec<u32>
    ensures { result.items ≡ numbers_of level }
{
    match level {
        Some(level) => level,
        None => Vec::new(alloc),
    }
}

/// Joins the last two levels.
pub(crate) fn join(alloc: Global, levels: &mut Vec<Vec<u32>>) -> Result<(), NoMemory>
    ensures { OnOk result (IsJoined levels.old.items levels.new.items) }
{
    if let Some(last) = levels.pop() {
        let mut last = last;
        let mut level = numbers(alloc, levels.pop());
        level.append(&mut last)?;
        levels.push(level)?;
    }
    Ok(())
}

/// Puts a number into the last level, or into the first one.
pub(crate) fn place(alloc: Global, levels: &mut Vec<Vec<u32>>, number: u32) -> Result<(), NoMemory>
    ensures { OnOk result (IsPlaced levels.old.items number levels.new.items) }
{
    let mut level = numbers(alloc, levels.pop());
    level.push(number)?;
    levels.push(level)?;
    Ok(())
}
