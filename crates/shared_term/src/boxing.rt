//! The term of boxes that a list of nodes spells.
ghost use Rattle.std.specs.Prelude.{◌≡◌, ◌<◌, List, ◌++◌, ◌∷◌, [], length, IfOk};
ghost use Rattle.dk_model.specs.Trees.{tree};
ghost use Rattle.dk_model.specs.declared.NodeOf.{NodeOf};
ghost use Rattle.shared_term.specs.declared.id.TermId.{TermId};
ghost use Rattle.shared_term.specs.declared.building.Stage.TheVariants.{Before, After};
ghost use Rattle.shared_term.specs.Pools.{term, terms, denoted, IsWithin};
ghost use Rattle.shared_term.specs.Changes.{joined};
ghost use Rattle.shared_term.specs.Storage.{IsSpelt};
ghost use Rattle.shared_term.specs.Boxing.{AreThere, Turns};

use crate::building::{Stage, Waiting};
use crate::change::Pair;
use crate::{Node, TermId};
use dk_model::{NoMemory, NodeOf, Term, make_annotated, make_app, make_bare, make_product};
use std::alloc::Global;

// The node at a place.
fn node_at(nodes: &[Node], id: TermId) -> Node
    requires spelt { IsSpelt nodes.now }
    requires id { id.0 < length nodes.now }
    ensures denotes { term nodes.now id ≡ denoted (terms nodes.now) result }
    ensures within { IsWithin id.0 result }
{
    nodes[id.0 as usize]
}

// A term of two parts.
fn made(alloc: Global, pair: Pair, first: Term, second: Term) -> Result<Term, NoMemory>
    ensures { IfOk result (λ t. tree t ≡ joined pair (tree first) (tree second)) }
{
    match pair {
        Pair::Application => make_app(alloc, first, second),
        Pair::Abstraction => make_annotated(alloc, first, second),
        Pair::Product => make_product(alloc, first, second),
    }
}

// A turn before a term, of which the first part comes next.
fn before(
    nodes: &[Node],
    waiting: &mut Vec<Waiting<TermId, Term>>,
    id: TermId,
) -> Result<Stage<TermId, Term>, NoMemory>
    requires spelt { IsSpelt nodes.now }
    requires id { id.0 < length nodes.now }
    requires there { AreThere (length nodes.now) waiting.old.items }
    ensures turns { IfOk result
        (λ s. Turns nodes.now waiting.old.items (Before id) waiting.new.items s) }
{
    match node_at(nodes, id) {
        NodeOf::Star => Ok(Stage::After(Term::Star)),
        NodeOf::Kind => Ok(Stage::After(Term::Kind)),
        NodeOf::Sym(k) => Ok(Stage::After(Term::Sym(k))),
        NodeOf::Var(k) => Ok(Stage::After(Term::Var(k))),
        NodeOf::Rvar(k) => Ok(Stage::After(Term::Rvar(k))),
        NodeOf::App(f, a) => {
            waiting.push(Waiting::First {
                pair: Pair::Application,
                second: a,
            })?;
            Ok(Stage::Before(f))
        }
        NodeOf::Abs(None, b) => {
            waiting.push(Waiting::Body)?;
            Ok(Stage::Before(b))
        }
        NodeOf::Abs(Some(n), b) => {
            waiting.push(Waiting::First {
                pair: Pair::Abstraction,
                second: b,
            })?;
            Ok(Stage::Before(n))
        }
        NodeOf::Prod(a, b) => {
            waiting.push(Waiting::First {
                pair: Pair::Product,
                second: b,
            })?;
            Ok(Stage::Before(a))
        }
    }
}

// A turn after a term, at what waits for it.
fn after(
    alloc: Global,
    waiting: &mut Vec<Waiting<TermId, Term>>,
    last: Waiting<TermId, Term>,
    part: Term,
) -> Result<Stage<TermId, Term>, NoMemory>
    ensures turns { (nodes : List (NodeOf TermId)) → let before = waiting.old.items ++ last ∷ [] in
        AreThere (length nodes) before
        → IfOk result (λ s. Turns nodes before (After part) waiting.new.items s) }
{
    match last {
        Waiting::First { pair, second } => {
            waiting.push(Waiting::Second { pair, first: part })?;
            Ok(Stage::Before(second))
        }
        Waiting::Second { pair, first } => Ok(Stage::After(made(alloc, pair, first, part)?)),
        Waiting::Body => Ok(Stage::After(make_bare(alloc, part)?)),
    }
}

/// The term at a place, each part in memory of its own.
pub(crate) fn boxed(alloc: Global, nodes: &[Node], id: TermId) -> Result<Term, NoMemory>
    requires spelt { IsSpelt nodes.now }
    requires id { id.0 < length nodes.now }
    ensures { IfOk result (λ t. tree t ≡ term nodes.now id) }
{
    let mut waiting = Vec::new(alloc);
    let mut stage = Stage::Before(id);
    loop {
        stage = match stage {
            Stage::Before(part) => before(nodes, &mut waiting, part)?,
            Stage::After(term) => match waiting.pop() {
                None => return Ok(term),
                Some(last) => after(alloc, &mut waiting, last, term)?,
            },
        };
    }
}
