//! Terms that are made node by node, each after its parts, with no boxes.
ghost use Rattle.std.specs.Prelude.{◌≡◌, ◌<◌, ◌≤◌, ◌∷◌, [], List, length, IfOk, OnOk};
ghost use Rattle.dk_model.specs.Trees.{Tree, bare, rule_variable, star, symbol, tree, variable};
ghost use Rattle.shared_term.specs.Changes.{joined};
ghost use Rattle.shared_term.specs.Made.{AreMade, made, stack};
ghost use Rattle.shared_term.specs.Pools.{IsWithin, denoted, terms};
ghost use Rattle.shared_term.specs.Storage.{stored_term};

use crate::boxing::boxed;
use crate::change::Pair;
use crate::listing::{Lately, shared};
use crate::walk::joined;
use crate::{Node, Stored, TermId};
use dk_model::{NoMemory, NodeOf, Term};
use std::alloc::Global;
use std::marker::Model;

/// A stack of terms that are being made, in memory that is used again for the next ones. A contract sees by `stack` the
/// terms, the one that was made last first. After want of memory nothing is said of them: it is to be cleared.
#[derive(Drop)]
pub struct Making {
    alloc: Global,
    nodes: Vec<Node>,
    // Where nodes went lately, in lists that were cleared too.
    lately: Lately,
    // The places of the terms, the last one made last.
    places: Vec<TermId>,
}

impl Model for Making {
    ghost use Rattle.std.specs.Prelude.{List};
    ghost use Rattle.dk_model.specs.declared.NodeOf.{NodeOf};
    ghost use Rattle.shared_term.specs.declared.id.TermId.{TermId};
    ghost use Rattle.shared_term.specs.Made.{AreMade};

    ghost Value = { List (NodeOf TermId) × List TermId };

    ghost view = { λ m. (m.nodes.items, m.places.items) };

    ghost invariant = { λ m. AreMade m.nodes.items m.places.items };
}

// A term of this node is made.
#[tactic(auto, using(crate::proofs::Made::pushed_top, crate::proofs::Made::pushed_made))]
fn put(
    nodes: &mut Vec<Node>,
    lately: &mut Lately,
    places: &mut Vec<TermId>,
    node: Node,
) -> Result<(), NoMemory>
    requires node { IsWithin (length nodes.old.items) node }
    requires made { AreMade nodes.old.items places.old.items }
    ensures top { OnOk result (made nodes.new.items places.new.items
        ≡ denoted (terms nodes.old.items) node ∷ made nodes.old.items places.old.items) }
    ensures made { AreMade nodes.new.items places.new.items }
{
    places.reserve(1)?;
    let id = shared(nodes, lately, node)?;
    places.push_reserved(id);
    Ok(())
}

impl Making {
    /// No terms. Takes no memory.
    pub fn new(alloc: Global) -> Making
        ensures { stack result ≡ [] }
    {
        Making {
            alloc,
            nodes: Vec::new(alloc),
            lately: Lately::new(),
            places: Vec::new(alloc),
        }
    }

    /// The allocator that its lists and the terms that are taken out are made with.
    pub fn alloc(&self) -> Global {
        self.alloc
    }

    /// Lets all terms go, and keeps the memory.
    pub fn clear(&mut self)
        ensures { stack self.new ≡ [] }
    {
        self.places.clear();
        self.nodes.clear();
    }

    /// `Type`.
    pub fn star(&mut self) -> Result<(), NoMemory>
        ensures { OnOk result (stack self.new ≡ star ∷ stack self.old) }
    {
        put(
            &mut self.nodes,
            &mut self.lately,
            &mut self.places,
            NodeOf::Star,
        )
    }

    /// The symbol of this number.
    pub fn symbol(&mut self, number: u32) -> Result<(), NoMemory>
        ensures { OnOk result (stack self.new ≡ symbol number ∷ stack self.old) }
    {
        let node = NodeOf::Sym(number);
        put(&mut self.nodes, &mut self.lately, &mut self.places, node)
    }

    /// The variable of this number.
    pub fn variable(&mut self, number: u64) -> Result<(), NoMemory>
        ensures { OnOk result (stack self.new ≡ variable number ∷ stack self.old) }
    {
        let node = NodeOf::Var(number);
        put(&mut self.nodes, &mut self.lately, &mut self.places, node)
    }

    /// The rule variable of this number.
    pub fn rule_variable(&mut self, number: u32) -> Result<(), NoMemory>
        ensures { OnOk result (stack self.new ≡ rule_variable number ∷ stack self.old) }
    {
        let node = NodeOf::Rvar(number);
        put(&mut self.nodes, &mut self.lately, &mut self.places, node)
    }

    /// The last two terms become the parts of one, the last one its second part.
    #[tactic(auto, using(crate::proofs::Made::popped_made, crate::proofs::Made::one_alone, crate::proofs::Made::joined_top))]
    pub fn join(&mut self, pair: Pair) -> Result<(), NoMemory>
        requires { 2 ≤ length (stack self.old) }
        ensures { (x y : Tree) (rest : List Tree) → stack self.old ≡ y ∷ x ∷ rest →
            OnOk result (stack self.new ≡ joined pair x y ∷ rest) }
    {
        let Some(second) = self.places.pop() else {
            unreachable!()
        };
        let Some(first) = self.places.pop() else {
            unreachable!()
        };
        let node = joined(pair, first, second);
        put(&mut self.nodes, &mut self.lately, &mut self.places, node)
    }

    /// The last term becomes the body of an abstraction without an annotation.
    #[tactic(auto, using(crate::proofs::Made::popped_made, crate::proofs::Made::popped_there))]
    pub fn bare(&mut self) -> Result<(), NoMemory>
        requires { 0 < length (stack self.old) }
        ensures { (x : Tree) (rest : List Tree) → stack self.old ≡ x ∷ rest →
            OnOk result (stack self.new ≡ bare x ∷ rest) }
    {
        let Some(body) = self.places.pop() else {
            unreachable!()
        };
        let node = NodeOf::Abs(None, body);
        put(&mut self.nodes, &mut self.lately, &mut self.places, node)
    }

    /// Takes the last term out, into a list of its own.
    #[tactic(auto, using(crate::proofs::Made::popped_made, crate::proofs::Made::popped_there, crate::proofs::Made::taken_term, crate::proofs::Made::taken_rest))]
    pub fn take(&mut self) -> Result<Stored, NoMemory>
        requires { 0 < length (stack self.old) }
        ensures term { (x : Tree) (rest : List Tree) → stack self.old ≡ x ∷ rest →
            IfOk result (λ s. stored_term s ≡ x) }
        ensures rest { (x : Tree) (rest : List Tree) → stack self.old ≡ x ∷ rest → stack self.new ≡ rest }
    {
        let Some(root) = self.places.pop() else {
            unreachable!()
        };
        Stored::of(self.alloc, self.nodes.as_slice(), root)
    }

    /// Takes the last term out, each part in memory of its own.
    #[tactic(auto, using(crate::proofs::Made::popped_made, crate::proofs::Made::popped_there, crate::proofs::Made::taken_term, crate::proofs::Made::taken_rest))]
    pub fn take_boxed(&mut self) -> Result<Term, NoMemory>
        requires { 0 < length (stack self.old) }
        ensures term { (x : Tree) (rest : List Tree) → stack self.old ≡ x ∷ rest →
            IfOk result (λ t. tree t ≡ x) }
        ensures rest { (x : Tree) (rest : List Tree) → stack self.old ≡ x ∷ rest → stack self.new ≡ rest }
    {
        let Some(root) = self.places.pop() else {
            unreachable!()
        };
        boxed(self.alloc, self.nodes.as_slice(), root)
    }
}
