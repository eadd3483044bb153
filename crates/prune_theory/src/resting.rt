//! What a command rests on.
ghost use Rattle.std.specs.Prelude.{◌≡◌, ◌<◌, ℕ, length, map, replicate, slice_set, false, true, [], ◌∷◌, Contains, IfOk, OnOk};
ghost use Rattle.dk_model.specs.Scoping.{plain_command};
ghost use Rattle.prune_theory.specs.Mentions.{IsAscending, MentionBefore, Rests};
ghost use Rattle.prune_theory.specs.Reaching.{places_from, with_commands, with_edge, with_edges, AllBelow, Reaches};

use crate::symbols::{heads, mentions};
use dk_model::{Listed, NoMemory, Scoped};
use std::alloc::Global;

/// Adds a place to the list of a symbol, if there is one.
#[tactic(auto, using(crate::proofs::Edges::edge_is, crate::proofs::Edges::edge_past))]
fn add_edge(index: &mut Vec<Listed<u32>>, head: u32, place: u32) -> Result<(), NoMemory>
    ensures { OnOk result (index.new.items ≡ with_edge index.old.items head place) }
{
    let head = head as usize;
    if head < index.len() {
        index[head].push(place)?;
    }
    Ok(())
}

/// Adds a place to the lists of these symbols.
fn add_edges(index: &mut Vec<Listed<u32>>, heads: &[u32], place: u32) -> Result<(), NoMemory>
    ensures { OnOk result (index.new.items ≡ with_edges index.old.items heads.now place) }
{
    let mut rest = heads;
    while let Some((head, others)) = rest.split_first() {
        add_edge(index, *head, place)?;
        rest = others;
    }
    Ok(())
}

/// So many empty lists.
#[tactic(auto, using(crate::proofs::Reached::one_list_more))]
fn empty_lists(alloc: Global, count: usize) -> Result<Vec<Listed<u32>>, NoMemory>
    ensures { IfOk result (λ index. index.items ≡ replicate count []) }
{
    let mut index = Vec::with_capacity(alloc, count)?;
    while index.len() < count {
        index.push(Listed::new(alloc))?;
    }
    Ok(index)
}

/// The places of these commands by the symbols that head their rules, for so many symbols.
fn rules_by_head(
    alloc: Global,
    commands: &[Scoped],
    count: usize,
) -> Result<Vec<Listed<u32>>, NoMemory>
    requires { length commands.now < 4294967296 }
    ensures { IfOk result (λ index. index.items
        ≡ with_commands 0 (map plain_command commands.now) (replicate count [])) }
{
    let mut index = empty_lists(alloc, count)?;
    let mut place = 0u32;
    let mut rest = commands;
    while let Some((command, others)) = rest.split_first() {
        let heads = heads(alloc, command)?;
        add_edges(&mut index, heads.as_slice(), place)?;
        place += 1;
        rest = others;
    }
    Ok(index)
}

/// So many places, none of them marked.
#[tactic(auto, using(crate::proofs::Reached::one_mark_more))]
fn no_marks(alloc: Global, count: usize) -> Result<Vec<bool>, NoMemory>
    ensures { IfOk result (λ marks. marks.items ≡ replicate count false) }
{
    let mut marks = Vec::with_capacity(alloc, count)?;
    while marks.len() < count {
        marks.push(false)?;
    }
    Ok(marks)
}

/// Marks a place.
fn mark(marks: &mut Vec<bool>, place: u32)
    requires { place < length marks.old.items }
    ensures { marks.new.items ≡ slice_set marks.old.items place true }
{
    marks[place as usize] = true;
}

/// Marks a place, and has it wait where it wasn't marked.
#[tactic(auto, using(crate::proofs::Reached::reaches_seen, crate::proofs::Reached::reaches_new))]
fn reach(marks: &mut Vec<bool>, waiting: &mut Vec<u32>, place: u32) -> Result<(), NoMemory>
    requires { place < length marks.old.items }
    ensures { OnOk result (Reaches marks.old.items waiting.old.items
        marks.new.items waiting.new.items
        (place ∷ [])) }
{
    if !marks[place as usize] {
        waiting.push(place)?;
        mark(marks, place);
    }
    Ok(())
}

/// The same of several places.
#[tactic(auto, using(crate::proofs::Reached::below_first, crate::proofs::Reached::below_rest, crate::proofs::Reached::leads_all, crate::proofs::Reached::leads_more, crate::proofs::Reached::leads_end, crate::proofs::Reached::same_count))]
fn reach_all(marks: &mut Vec<bool>, waiting: &mut Vec<u32>, places: &[u32]) -> Result<(), NoMemory>
    requires { AllBelow (length marks.old.items) places.now }
    ensures { OnOk result (Reaches marks.old.items waiting.old.items
        marks.new.items waiting.new.items
        places.now) }
{
    let mut rest = places;
    while let Some((place, others)) = rest.split_first() {
        reach(marks, waiting, *place)?;
        rest = others;
    }
    Ok(())
}

/// The marked places, ascending.
fn places(alloc: Global, marks: &[bool]) -> Result<Listed<u32>, NoMemory>
    requires { length marks.now < 4294967297 }
    ensures { IfOk result (λ places. places ≡ places_from 0 marks.now) }
{
    let mut places = Listed::new(alloc);
    let mut place = 0u64;
    let mut rest = marks;
    while let Some((marked, others)) = rest.split_first() {
        if *marked {
            places.push(place as u32)?;
        }
        place += 1;
        rest = others;
    }
    Ok(places)
}

/// The places of the commands on which command `k` rests, its own among them, ascending (docs/pruning.md).
pub fn rests(alloc: Global, commands: &[Scoped], k: u32) -> Result<Listed<u32>, NoMemory>
    requires within { k < length commands.now }
    requires before { MentionBefore (map plain_command commands.now) }
    ensures all { IfOk result (λ places. (i : ℕ)
        → Rests (map plain_command commands.now) k i → Contains places i) }
    ensures only { IfOk result (λ places. (i : ℕ)
        → Contains places i → Rests (map plain_command commands.now) k i) }
    ensures ascending { IfOk result (λ places. IsAscending places) }
{
    let count = k as usize + 1;
    let index = rules_by_head(alloc, &commands[..k as usize], count)?;
    let mut marks = no_marks(alloc, count)?;
    let mut waiting = Vec::new(alloc);
    reach(&mut marks, &mut waiting, k)?;
    while let Some(place) = waiting.pop() {
        let mentioned = mentions(alloc, &commands[place as usize])?;
        reach_all(&mut marks, &mut waiting, mentioned.as_slice())?;
        reach_all(&mut marks, &mut waiting, index[place as usize].as_slice())?;
    }
    Ok(places(alloc, marks.as_slice())?)
}
