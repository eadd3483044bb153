//! A term of boxes spelt in a list of nodes.
ghost use Rattle.std.specs.Prelude.{◌≡◌, ◌<◌, ◌++◌, ◌∷◌, [], Bool, length, IfOk, OnOk};
ghost use Rattle.dk_model.specs.Trees.{tree};
ghost use Rattle.shared_term.specs.declared.building.Stage.TheVariants.{Before, After};
ghost use Rattle.shared_term.specs.Pools.{term, terms, denoted, IsWithin};
ghost use Rattle.shared_term.specs.Storage.{IsSpelt};
ghost use Rattle.shared_term.specs.Spelling.{AreThere, Turns, spelt_tree};

use crate::building::{Stage, Waiting};
use crate::change::Pair;
use crate::listing::{Lately, shared};
use crate::walk::joined;
use crate::{Node, TermId};
use dk_model::{NoMemory, NodeOf, Term};
use std::alloc::Global;

// What waits has places for so many at once, as few terms nest deeper.
const FEW: usize = 16;

// A turn before a term, of which the first part comes next.
fn before<'a>(
    nodes: &mut Vec<Node>,
    lately: &mut Lately,
    waiting: &mut Vec<Waiting<&'a Term, TermId>>,
    it: &'a Term,
    erases: bool,
) -> Result<Stage<&'a Term, TermId>, NoMemory>
    requires spelt { IsSpelt nodes.old.items }
    requires there { AreThere (length nodes.old.items) waiting.old.items }
    ensures turns { IfOk result (λ s. Turns erases nodes.old.items nodes.new.items
        waiting.old.items (Before it.entry) waiting.new.items s) }
{
    match it {
        Term::Star => Ok(Stage::After(shared(nodes, lately, NodeOf::Star)?)),
        Term::Kind => Ok(Stage::After(shared(nodes, lately, NodeOf::Kind)?)),
        Term::Sym(k) => Ok(Stage::After(shared(nodes, lately, NodeOf::Sym(*k))?)),
        Term::Var(k) => Ok(Stage::After(shared(nodes, lately, NodeOf::Var(*k))?)),
        Term::Rvar(k) => Ok(Stage::After(shared(nodes, lately, NodeOf::Rvar(*k))?)),
        Term::App(f, a) => {
            let second: &'a Term = a;
            waiting.push(Waiting::First {
                pair: Pair::Application,
                second,
            })?;
            Ok(Stage::Before(f))
        }
        Term::Abs(note, b) => match note {
            None => {
                waiting.push(Waiting::Body)?;
                Ok(Stage::Before(b))
            }
            Some(n) => {
                if erases {
                    waiting.push(Waiting::Body)?;
                    return Ok(Stage::Before(b));
                }
                let second: &'a Term = b;
                waiting.push(Waiting::First {
                    pair: Pair::Abstraction,
                    second,
                })?;
                Ok(Stage::Before(n))
            }
        },
        Term::Prod(a, b) => {
            let second: &'a Term = b;
            waiting.push(Waiting::First {
                pair: Pair::Product,
                second,
            })?;
            Ok(Stage::Before(a))
        }
    }
}

// A turn after a term, which stands at `id`, at what waits for it.
fn after<'a>(
    nodes: &mut Vec<Node>,
    lately: &mut Lately,
    waiting: &mut Vec<Waiting<&'a Term, TermId>>,
    last: Waiting<&'a Term, TermId>,
    id: TermId,
) -> Result<Stage<&'a Term, TermId>, NoMemory>
    requires spelt { IsSpelt nodes.old.items }
    requires there { AreThere (length nodes.old.items) (waiting.old.items ++ last ∷ []) }
    requires id { id.0 < length nodes.old.items }
    ensures turns { (erases : Bool) → let before = waiting.old.items ++ last.entry ∷ [] in IfOk result
        (λ s. Turns erases nodes.old.items nodes.new.items before (After id) waiting.new.items s) }
{
    match last {
        Waiting::First { pair, second } => {
            waiting.push(Waiting::Second { pair, first: id })?;
            Ok(Stage::Before(second))
        }
        Waiting::Second { pair, first } => {
            Ok(Stage::After(shared(nodes, lately, joined(pair, first, id))?))
        }
        Waiting::Body => Ok(Stage::After(shared(nodes, lately, NodeOf::Abs(None, id))?)),
    }
}

/// The place of the term, or of the same without its annotations, once each node of it is in the list.
pub(crate) fn spelt(
    alloc: Global,
    nodes: &mut Vec<Node>,
    it: &Term,
    erases: bool,
) -> Result<TermId, NoMemory>
    requires { IsSpelt nodes.old.items }
    ensures there { IfOk result (λ r. r.0 < length nodes.new.items) }
    ensures is { IfOk result (λ r. term nodes.new.items r ≡ spelt_tree erases (tree it.now)) }
    ensures spelt { OnOk result (IsSpelt nodes.new.items) }
{
    let mut lately = Lately::new();
    let mut waiting = Vec::with_capacity(alloc, FEW)?;
    let mut stage = Stage::Before(it);
    loop {
        stage = match stage {
            Stage::Before(part) => before(nodes, &mut lately, &mut waiting, part, erases)?,
            Stage::After(id) => match waiting.pop() {
                None => return Ok(id),
                Some(last) => after(nodes, &mut lately, &mut waiting, last, id)?,
            },
        };
    }
}
