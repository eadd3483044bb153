//! Between stored terms and terms of boxes.
ghost use Rattle.std.specs.Prelude.{◌≡◌, [], IfOk, IfSome, IsTrue};
ghost use Rattle.dk_model.specs.Trees.{tree};
ghost use Rattle.dk_model.specs.Erasure.{erased};
ghost use Rattle.shared_term.specs.Pools.{denoted, IsWithin};
ghost use Rattle.shared_term.specs.Storage.{is_annotated, stored_term};

use crate::boxing::boxed;
use crate::spelling::spelt;
use crate::{Node, Stored};
use dk_model::{NoMemory, NodeOf, Term};
use std::alloc::Global;

// A list that is to be packed has places for so many nodes at once, as most terms need no more.
const FEW: usize = 64;

// The node of a term without parts.
fn single(it: &Term) -> Option<Node>
    ensures within { IfSome result (λ n. IsWithin 0 n) }
    ensures is { IfSome result (λ n. denoted [] n ≡ tree it.now) }
    ensures erased { IfSome result (λ n. denoted [] n ≡ erased (tree it.now)) }
{
    match it {
        Term::Star => Some(NodeOf::Star),
        Term::Kind => Some(NodeOf::Kind),
        Term::Sym(k) => Some(NodeOf::Sym(*k)),
        Term::Var(k) => Some(NodeOf::Var(*k)),
        Term::Rvar(k) => Some(NodeOf::Rvar(*k)),
        Term::App(_, _) => None,
        Term::Abs(_, _) => None,
        Term::Prod(_, _) => None,
    }
}

impl Stored {
    /// A term's nodes. An equal part is found again where its node's slot still has it (docs/DECISIONS.md).
    pub fn from_term(alloc: Global, it: &Term) -> Result<Stored, NoMemory>
        ensures { IfOk result (λ s. stored_term s ≡ tree it.now) }
    {
        if let Some(node) = single(it) {
            return Ok(Stored::one(node));
        }
        let mut nodes = Vec::with_capacity(alloc, FEW)?;
        let root = spelt(alloc, &mut nodes, it, false)?;
        Stored::new(alloc, nodes, root)
    }

    /// The same of the term without its annotations.
    pub fn from_erased(alloc: Global, it: &Term) -> Result<Stored, NoMemory>
        ensures { IfOk result (λ s. stored_term s ≡ erased (tree it.now)) }
    {
        if let Some(node) = single(it) {
            return Ok(Stored::one(node));
        }
        let mut nodes = Vec::with_capacity(alloc, FEW)?;
        let root = spelt(alloc, &mut nodes, it, true)?;
        Stored::new(alloc, nodes, root)
    }

    /// The term, each part in memory of its own.
    pub fn to_term(&self, alloc: Global) -> Result<Term, NoMemory>
        ensures { IfOk result (λ t. tree t ≡ stored_term self.now) }
    {
        let nodes = self.unpacked(alloc)?;
        boxed(alloc, nodes.as_slice(), self.root())
    }

    /// The same without its annotations.
    pub fn without_annotations(&self, alloc: Global) -> Result<Stored, NoMemory>
        ensures { IfOk result (λ s. stored_term s ≡ erased (stored_term self.now)) }
    {
        if self.is_erased() {
            return self.copy(alloc);
        }
        let term = self.to_term(alloc)?;
        Stored::from_erased(alloc, &term)
    }

    // Whether no node is an abstraction with an annotation.
    #[tactic(auto, using(crate::proofs::Erasing::erased_more))]
    fn is_erased(&self) -> bool
        ensures { IsTrue result → erased (stored_term self.now) ≡ stored_term self.now }
    {
        let _root = self.root();
        for at in 0..self.len() {
            if is_annotated(self.get(at)) {
                return false;
            }
        }
        true
    }
}

fn is_annotated(node: Node) -> bool
    ensures { result ≡ is_annotated node }
{
    matches!(node, NodeOf::Abs(Some(_), _))
}
