//! A walk over a term, which keeps what waits in a list and so doesn't nest with the term.
ghost use Rattle.std.specs.Prelude.{◌≡◌, ◌+◌, ◌<◌, ◌++◌, ◌∷◌, [], length, IfOk};
ghost use Rattle.dk_model.specs.Trees.{Tree};
ghost use Rattle.shared_term.specs.declared.change.State.TheVariants.{Down, Up};
ghost use Rattle.shared_term.specs.Pools.{term, terms, denoted, Extends, IsWithin};
ghost use Rattle.shared_term.specs.Changes.{IsAsked, wanted, joined_node, under};
ghost use Rattle.shared_term.specs.Memos.{AreDone, AreLasting};
ghost use Rattle.shared_term.specs.Walks.{Waits, Stands, Turns};

use crate::change::{Frame, Given, Goal, Pair, State};
use crate::entering::{Step, entered, sum};
use crate::memo::Done;
use crate::memos::Memos;
use crate::{Node, Nodes, TermId};
use dk_model::{NoMemory, NodeOf};

// How many binders the second part stands under.
fn under(pair: Pair, depth: u64) -> Result<u64, NoMemory>
    ensures { IfOk result (λ n. n ≡ under pair depth) }
{
    match pair {
        Pair::Application => Ok(depth),
        Pair::Abstraction => sum(depth, 1),
        Pair::Product => sum(depth, 1),
    }
}

/// The node of two parts.
pub(crate) fn joined(pair: Pair, first: TermId, second: TermId) -> Node
    ensures { result ≡ joined_node pair first second }
{
    match pair {
        Pair::Application => NodeOf::App(first, second),
        Pair::Abstraction => NodeOf::Abs(Some(first), second),
        Pair::Product => NodeOf::Prod(first, second),
    }
}

// The node is what the goal asked for. It is interned, and remembered.
fn made(
    nodes: &mut Nodes,
    memos: &mut Memos,
    given: &Given<'_>,
    goal: Goal,
    node: Node,
) -> Result<TermId, NoMemory>
    requires asked { IsAsked (length nodes.old) given.now goal }
    requires within { IsWithin (length nodes.old) node }
    requires makes { denoted (terms nodes.old) node ≡ wanted nodes.old given.now goal }
    requires lasting { AreLasting nodes.old memos.old.lasting }
    requires passing { AreDone nodes.old given.now memos.old.passing }
    ensures there { IfOk result (λ r. r.0 < length nodes.new) }
    ensures is { IfOk result (λ r. term nodes.new r ≡ wanted nodes.old given.now goal) }
    ensures keeps { Extends nodes.old nodes.new }
    ensures lasting { AreLasting nodes.new memos.new.lasting }
    ensures passing { AreDone nodes.new given.now memos.new.passing }
{
    let result = nodes.intern(node)?;
    memos.put(Done { goal, result });
    Ok(result)
}

// A turn before a term.
fn down(
    nodes: &mut Nodes,
    memos: &Memos,
    frames: &mut Vec<Frame>,
    given: &Given<'_>,
    goal: Goal,
) -> Result<State, NoMemory>
    requires asked { IsAsked (length nodes.old) given.now goal }
    requires lasting { AreLasting nodes.old memos.now.lasting }
    requires passing { AreDone nodes.old given.now memos.now.passing }
    ensures turns { (root : Tree) → Stands nodes.old given.now root frames.old.items (Down goal)
        → IfOk result (λ s. Turns nodes.old nodes.new given.now root
        frames.old.items (Down goal) frames.new.items s) }
    ensures keeps { Extends nodes.old nodes.new }
{
    match entered(nodes, memos, given, goal)? {
        Step::Answer(id) => Ok(State::Up(id)),
        Step::Instead(other) => Ok(State::Down(other)),
        Step::Inside(body) => {
            let depth = sum(goal.depth, 1)?;
            frames.push(Frame::Body { goal })?;
            Ok(State::Down(Goal {
                change: goal.change,
                id: body,
                depth,
            }))
        }
        Step::Parts(pair, first, second) => {
            frames.push(Frame::First { goal, pair, second })?;
            Ok(State::Down(Goal {
                change: goal.change,
                id: first,
                depth: goal.depth,
            }))
        }
    }
}

// A turn after a term, which has become `id`, at the topmost frame.
fn up(
    nodes: &mut Nodes,
    memos: &mut Memos,
    frames: &mut Vec<Frame>,
    given: &Given<'_>,
    frame: Frame,
    id: TermId,
) -> Result<State, NoMemory>
    requires id { id.0 < length nodes.old }
    requires waits { Waits nodes.old given.now frame (term nodes.old id) }
    requires lasting { AreLasting nodes.old memos.old.lasting }
    requires passing { AreDone nodes.old given.now memos.old.passing }
    ensures turns { (root : Tree) → let before = frames.old.items ++ frame ∷ [] in
        Stands nodes.old given.now root before (Up id)
        → IfOk result (λ s. Turns nodes.old nodes.new given.now root
        before (Up id) frames.new.items s) }
    ensures keeps { Extends nodes.old nodes.new }
    ensures lasting { AreLasting nodes.new memos.new.lasting }
    ensures passing { AreDone nodes.new given.now memos.new.passing }
{
    match frame {
        Frame::First { goal, pair, second } => {
            let depth = under(pair, goal.depth)?;
            frames.push(Frame::Second {
                goal,
                pair,
                first: id,
            })?;
            Ok(State::Down(Goal {
                change: goal.change,
                id: second,
                depth,
            }))
        }
        Frame::Second { goal, pair, first } => {
            let made = made(nodes, memos, given, goal, joined(pair, first, id))?;
            Ok(State::Up(made))
        }
        Frame::Body { goal } => {
            let made = made(nodes, memos, given, goal, NodeOf::Abs(None, id))?;
            Ok(State::Up(made))
        }
    }
}

/// What the goal asks for.
pub(crate) fn walked(
    nodes: &mut Nodes,
    memos: &mut Memos,
    frames: &mut Vec<Frame>,
    given: &Given<'_>,
    start: Goal,
) -> Result<TermId, NoMemory>
    requires asked { IsAsked (length nodes.old) given.now start }
    requires lasting { AreLasting nodes.old memos.old.lasting }
    ensures there { IfOk result (λ r. r.0 < length nodes.new) }
    ensures is { IfOk result (λ r. term nodes.new r ≡ wanted nodes.old given.now start) }
    ensures keeps { Extends nodes.old nodes.new }
    ensures lasting { AreLasting nodes.new memos.new.lasting }
{
    memos.passing.clear();
    frames.clear();
    let mut state = State::Down(start);
    loop {
        state = match state {
            State::Down(goal) => down(nodes, memos, frames, given, goal)?,
            State::Up(id) => match frames.pop() {
                None => return Ok(id),
                Some(frame) => up(nodes, memos, frames, given, frame, id)?,
            },
        };
    }
}
