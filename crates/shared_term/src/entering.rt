//! What a walk does when it comes to a term.
ghost use Rattle.std.specs.Prelude.{◌≡◌, ◌+◌, ◌<◌, ◌≤◌, length, IsTrue, ◌↔◌, IfOk};
ghost use Rattle.dk_model.specs.Trees.{variable, rule_variable};
ghost use Rattle.dk_model.specs.Captures.{is_in, index_of};
ghost use Rattle.shared_term.specs.Pools.{term, terms, denoted, Extends, IsWithin};
ghost use Rattle.shared_term.specs.Changes.{IsAsked, IsErase, capture_id, from_last, is_other, wanted};
ghost use Rattle.shared_term.specs.Memos.{AreDone, AreLasting};
ghost use Rattle.shared_term.specs.Walks.{IsStep, IsPlaced};

use crate::change::{Change, Given, Goal, Pair};
use crate::memos::Memos;
use crate::{Nodes, TermId};
use dk_model::{NoMemory, NodeOf};

/// What a walk does at a goal.
#[derive(Clone, Copy)]
pub(crate) enum Step {
    /// That is the answer.
    Answer(TermId),
    /// Another goal has the same answer.
    Instead(Goal),
    /// The body goes first, and the answer is an abstraction of what it becomes.
    Inside(TermId),
    /// The two parts go first.
    Parts(Pair, TermId, TermId),
}

/// A sum of numbers of variables.
pub(crate) fn sum(a: u64, b: u64) -> Result<u64, NoMemory>
    ensures { IfOk result (λ n. n ≡ a + b) }
{
    match a.checked_add(b) {
        Some(n) => Ok(n),
        None => Err(NoMemory),
    }
}

// The number of an argument's variable under the binders of the capture.
fn index_of(variable: u64, arguments: &[u32]) -> u64
    ensures { result ≡ index_of variable arguments.now }
{
    match arguments {
        [] => 0,
        [first, rest @ ..] => if variable == u64::from(*first) {
            rest.len() as u64
        } else {
            index_of(variable, rest)
        },
    }
}

fn is_in(variable: u64, arguments: &[u32]) -> bool
    ensures { result ≡ is_in variable arguments.now }
{
    match arguments {
        [] => false,
        [first, rest @ ..] => variable == u64::from(*first) || is_in(variable, rest),
    }
}

// Whether the variable is one of those that the pattern binds, and no argument.
fn is_other(given: &Given<'_>, depth: u64, k: u64) -> bool
    ensures { result ≡ is_other depth given.now.bound given.now.arguments.now k }
{
    k >= depth && k - depth < given.bound && !is_in(k - depth, given.arguments)
}

/// Whether the change leaves the term as it is, as its summary shows.
pub(crate) fn stays(nodes: &Nodes, given: &Given<'_>, goal: Goal) -> bool
    requires { goal.id.0 < length nodes.now }
    ensures { IsTrue result → wanted nodes.now given.now goal ≡ term nodes.now goal.id }
{
    let summary = nodes.summary(goal.id);
    match goal.change {
        Change::Shift(0) => true,
        Change::Shift(_) => u64::from(summary.bound) <= goal.depth,
        Change::Substitute(_) => u64::from(summary.bound) <= goal.depth,
        Change::SubstituteAll => u64::from(summary.bound) <= goal.depth,
        Change::Erase => !summary.annotations,
        Change::Fill => !summary.rule_variables,
        Change::Rename => u64::from(summary.bound) <= goal.depth,
        Change::Raise => u64::from(summary.bound) <= goal.depth,
    }
}

// The term that stands so many before the last one.
#[tactic(auto, using(crate::proofs::Together::from_last_found, crate::proofs::Together::from_last_missing))]
fn from_last(terms: &[TermId], back: u64) -> Option<TermId>
    ensures { result ≡ from_last terms.now back }
{
    let count = terms.len() as u64;
    if back < count {
        Some(terms[(count - 1 - back) as usize])
    } else {
        None
    }
}

// A variable of its own.
fn placed(nodes: &mut Nodes, k: u64) -> Result<Step, NoMemory>
    ensures answer { IfOk result (λ e. IsPlaced nodes.new k e) }
    ensures keeps { Extends nodes.old nodes.new }
{
    Ok(Step::Answer(nodes.intern(NodeOf::Var(k))?))
}

// At a variable.
fn variable(nodes: &mut Nodes, given: &Given<'_>, goal: Goal, k: u64) -> Result<Step, NoMemory>
    requires asked { IsAsked (length nodes.old) given.now goal }
    requires is { term nodes.old goal.id ≡ variable k }
    ensures enters { IfOk result (λ e. IsStep nodes.new given.now goal e) }
    ensures keeps { Extends nodes.old nodes.new }
{
    match goal.change {
        Change::Shift(by) => if k < goal.depth {
            Ok(Step::Answer(goal.id))
        } else {
            placed(nodes, sum(k, by)?)
        },
        Change::Substitute(by) => if k < goal.depth {
            Ok(Step::Answer(goal.id))
        } else if k == goal.depth {
            Ok(Step::Instead(Goal {
                change: Change::Shift(k),
                id: by,
                depth: 0,
            }))
        } else {
            placed(nodes, k - 1)
        },
        Change::SubstituteAll => if k < goal.depth {
            Ok(Step::Answer(goal.id))
        } else {
            match from_last(given.terms, k - goal.depth) {
                Some(by) => Ok(Step::Instead(Goal {
                    change: Change::Shift(goal.depth),
                    id: by,
                    depth: 0,
                })),
                None => placed(nodes, k - given.terms.len() as u64),
            }
        },
        Change::Erase => Ok(Step::Answer(goal.id)),
        Change::Fill => Ok(Step::Answer(goal.id)),
        Change::Rename => if k < goal.depth {
            Ok(Step::Answer(goal.id))
        } else if k - goal.depth < given.bound {
            let index = index_of(k - goal.depth, given.arguments);
            placed(nodes, sum(index, goal.depth)?)
        } else {
            placed(nodes, sum(k - given.bound, given.arguments.len() as u64)?)
        },
        Change::Raise => if is_other(given, goal.depth, k) {
            placed(nodes, sum(k, 1)?)
        } else {
            Ok(Step::Answer(goal.id))
        },
    }
}

// The capture of a rule variable.
fn capture_at(captures: &[Option<TermId>], k: u32) -> Option<TermId>
    ensures { result ≡ capture_id captures.now k }
{
    match captures.get(k as usize) {
        Some(capture) => *capture,
        None => None,
    }
}

// At a rule variable.
fn rule_variable(nodes: &Nodes, given: &Given<'_>, goal: Goal, k: u32) -> Step
    requires asked { IsAsked (length nodes.now) given.now goal }
    requires is { term nodes.now goal.id ≡ rule_variable k }
    ensures { IsStep nodes.now given.now goal result }
{
    let same = Step::Answer(goal.id);
    match goal.change {
        Change::Shift(_) => same,
        Change::Substitute(_) => same,
        Change::SubstituteAll => same,
        Change::Erase => same,
        Change::Fill => match capture_at(given.captures, k) {
            None => same,
            Some(capture) => Step::Instead(Goal {
                change: Change::Shift(goal.depth),
                id: capture,
                depth: 0,
            }),
        },
        Change::Rename => same,
        Change::Raise => same,
    }
}

// Whether annotations go.
fn is_erase(change: Change) -> bool
    ensures { IsTrue result ↔ IsErase change }
{
    match change {
        Change::Shift(_) => false,
        Change::Substitute(_) => false,
        Change::SubstituteAll => false,
        Change::Erase => true,
        Change::Fill => false,
        Change::Rename => false,
        Change::Raise => false,
    }
}

/// What a walk does at a goal.
pub(crate) fn entered(
    nodes: &mut Nodes,
    memos: &Memos,
    given: &Given<'_>,
    goal: Goal,
) -> Result<Step, NoMemory>
    requires asked { IsAsked (length nodes.old) given.now goal }
    requires lasting { AreLasting nodes.old memos.now.lasting }
    requires passing { AreDone nodes.old given.now memos.now.passing }
    ensures enters { IfOk result (λ e. IsStep nodes.new given.now goal e) }
    ensures keeps { Extends nodes.old nodes.new }
{
    if stays(nodes, given, goal) {
        return Ok(Step::Answer(goal.id));
    }
    if let Some(found) = memos.find(goal) {
        return Ok(Step::Answer(found));
    }
    match nodes.get(goal.id) {
        NodeOf::Star => Ok(Step::Answer(goal.id)),
        NodeOf::Kind => Ok(Step::Answer(goal.id)),
        NodeOf::Sym(_) => Ok(Step::Answer(goal.id)),
        NodeOf::Var(k) => variable(nodes, given, goal, k),
        NodeOf::Rvar(k) => Ok(rule_variable(nodes, given, goal, k)),
        NodeOf::App(f, a) => Ok(Step::Parts(Pair::Application, f, a)),
        NodeOf::Abs(None, b) => Ok(Step::Inside(b)),
        NodeOf::Abs(Some(n), b) => if is_erase(goal.change) {
            Ok(Step::Inside(b))
        } else {
            Ok(Step::Parts(Pair::Abstraction, n, b))
        },
        NodeOf::Prod(a, b) => Ok(Step::Parts(Pair::Product, a, b)),
    }
}
