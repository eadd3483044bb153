//! Storing a term of a pool in a list of its own: one pass down marks what belongs to it, one pass
//! up copies that.
ghost use Rattle.std.specs.Prelude.{◌≡◌, ◌+◌, ◌<◌, ◌≤◌, ℕ, true, length, slice_get, Some, IfOk, OnOk};
ghost use Rattle.shared_term.specs.Pools.{term, IsWithin};
ghost use Rattle.shared_term.specs.Storage.{stored_term, IsSpelt, IsNeeded, PartsNeeded, AreMarked, ArePlaced};

use crate::listing::pushed;
use crate::loading::renamed;
use crate::{Node, Pool, Stored, TermId};
use dk_model::{NoMemory, NodeOf};

// Marks one place.
fn mark(marks: &mut Vec<bool>, id: TermId)
    requires { id.0 < length marks.old.items }
    ensures count { length marks.new.items ≡ length marks.old.items }
    ensures marked { IsNeeded marks.new.items id.0 }
    ensures kept { (i : ℕ) → IsNeeded marks.old.items i → IsNeeded marks.new.items i }
    ensures only { (i : ℕ) → id.0 < i → IsNeeded marks.new.items i → IsNeeded marks.old.items i }
{
    marks[id.0 as usize] = true;
}

// Marks the parts of a node that stands at place `at`.
fn mark_parts(marks: &mut Vec<bool>, at: usize, node: Node)
    requires within { IsWithin at node }
    requires at { at < length marks.old.items }
    ensures count { length marks.new.items ≡ length marks.old.items }
    ensures marked { PartsNeeded marks.new.items node }
    ensures kept { (i : ℕ) → IsNeeded marks.old.items i → IsNeeded marks.new.items i }
    ensures only { (i : ℕ) → at ≤ i → IsNeeded marks.new.items i → IsNeeded marks.old.items i }
{
    match node {
        NodeOf::Star => {}
        NodeOf::Kind => {}
        NodeOf::Sym(_) => {}
        NodeOf::Var(_) => {}
        NodeOf::Rvar(_) => {}
        NodeOf::App(f, a) => {
            mark(marks, f);
            mark(marks, a);
        }
        NodeOf::Abs(None, b) => mark(marks, b),
        NodeOf::Abs(Some(n), b) => {
            mark(marks, n);
            mark(marks, b);
        }
        NodeOf::Prod(a, b) => {
            mark(marks, a);
            mark(marks, b);
        }
    }
}

// The places up to `id` that belong to its term.
fn needed(pool: &Pool, id: TermId) -> Result<Vec<bool>, NoMemory>
    requires { id.0 < length pool.now }
    ensures count { IfOk result (λ marks. length marks.items ≡ id.0 + 1) }
    ensures root { IfOk result (λ marks. IsNeeded marks.items id.0) }
    ensures closed { IfOk result (λ marks. AreMarked pool.now marks.items 0) }
{
    let alloc = pool.alloc();
    let count = id.0 as usize + 1;
    let mut marks = vec![in alloc; false; count]?;
    mark(&mut marks, id);
    let mut at = count;
    while at > 0 {
        at -= 1;
        if marks[at] {
            mark_parts(&mut marks, at, pool.get(TermId(at as u32)));
        }
    }
    Ok(marks)
}

// How many places are marked.
fn marked(marks: &[bool]) -> usize {
    marks.iter().filter(|mark| **mark).count()
}

// Copies the node at place `at`, whose parts have been.
fn copied(
    pool: &Pool,
    marks: &[bool],
    nodes: &mut Vec<Node>,
    places: &mut Vec<TermId>,
    at: TermId,
) -> Result<(), NoMemory>
    requires at { at.0 < length pool.now }
    requires marked { IsNeeded marks.now at.0 }
    requires closed { AreMarked pool.now marks.now 0 }
    requires count { length places.old.items ≡ at.0 }
    requires spelt { IsSpelt nodes.old.items }
    requires placed { ArePlaced pool.now nodes.old.items marks.now places.old.items }
    ensures count { OnOk result (length places.new.items ≡ at.0 + 1) }
    ensures spelt { OnOk result (IsSpelt nodes.new.items) }
    ensures placed { OnOk result (ArePlaced pool.now nodes.new.items marks.now places.new.items) }
{
    let node = pool.get(at);
    let place = pushed(nodes, renamed(places.as_slice(), node))?;
    places.push(place)?;
    Ok(())
}

/// A term of a pool in a list of its own, which has each node once.
pub(crate) fn stored(pool: &Pool, id: TermId) -> Result<Stored, NoMemory>
    requires { id.0 < length pool.now }
    ensures { IfOk result (λ s. stored_term s ≡ term pool.now id) }
{
    let alloc = pool.alloc();
    let marks = needed(pool, id)?;
    let mut nodes = Vec::with_capacity(alloc, marked(marks.as_slice()))?;
    let mut places = Vec::with_capacity(alloc, marks.len())?;
    for at in 0..marks.len() {
        if marks[at] {
            copied(
                pool,
                marks.as_slice(),
                &mut nodes,
                &mut places,
                TermId(at as u32),
            )?;
        } else {
            places.push(TermId(0))?;
        }
    }
    Stored::new(alloc, nodes, places[id.0 as usize])
}
