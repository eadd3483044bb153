//! A list of nodes, each once, and for each a summary of its term.
ghost use Rattle.std.specs.Prelude.{◌≡◌, ◌<◌, [], ◌∷◌, ◌++◌, length, slice_get, Some, IfOk, OnErr, IsTrue, ◌↔◌};
ghost use Rattle.shared_term.specs.Pools.{term, terms, denoted, Extends, IsWithin, HasNext};
ghost use Rattle.shared_term.specs.Summaries.{IsSummary};

use crate::id::exact;
use crate::summary::{Summary, summary_of};
use crate::{Node, TermId};
use dk_model::{NoMemory, NodeOf};
use indexmap::IndexSet;
use std::alloc::Global;
use std::marker::Model;

const LAST: usize = 0xFFFF_FFFF;

// Whether a summary has room for one more than the variable, where the node is a variable.
fn has_next(node: Node) -> bool
    ensures { IsTrue result ↔ HasNext node }
{
    match node {
        NodeOf::Var(k) => k < u64::from(u32::MAX),
        _ => true,
    }
}

/// Nodes in the order in which they were first interned. The parts of a node stand before it.
#[derive(Drop)]
pub struct Nodes {
    nodes: IndexSet<Node>,
    summaries: Vec<Summary>,
}

impl Model for Nodes {
    ghost use Rattle.std.specs.Prelude.{List};
    ghost use Rattle.dk_model.specs.declared.NodeOf.{NodeOf};
    ghost use Rattle.shared_term.specs.declared.id.TermId.{TermId};
    ghost use Rattle.shared_term.specs.Pools.{IsPool};
    ghost use Rattle.shared_term.specs.Summaries.{AreSummaries};

    ghost Value = { List (NodeOf TermId) };

    ghost view = { λ p. p.nodes.keys };

    ghost invariant = { λ p. IsPool p.nodes.keys × AreSummaries p.nodes.keys p.summaries.items };
}

impl Nodes {
    /// No nodes.
    pub fn new(alloc: Global) -> Nodes
        ensures { result ≡ [] }
    {
        Nodes {
            nodes: IndexSet::new(alloc),
            summaries: Vec::new(alloc),
        }
    }

    /// How many there are.
    pub fn len(&self) -> usize
        ensures { result ≡ length self.now }
    {
        self.nodes.len()
    }

    /// The outermost node of a term.
    pub fn get(&self, id: TermId) -> Node
        requires { id.0 < length self.now }
        ensures node { slice_get self.now id.0 ≡ Some result }
        ensures denoted { term self.now id ≡ denoted (terms self.now) result }
        ensures within { IsWithin id.0 result }
    {
        self.nodes[id.0 as usize]
    }

    /// What is known of a term.
    pub(crate) fn summary(&self, id: TermId) -> Summary
        requires { id.0 < length self.now }
        ensures { IsSummary result (term self.now id) }
    {
        self.summaries[id.0 as usize]
    }

    /// The place of a node, which goes last where it isn't there.
    pub fn intern(&mut self, node: Node) -> Result<TermId, NoMemory>
        requires { IsWithin (length self.old) node }
        ensures within { IfOk result (λ id. id.0 < length self.new) }
        ensures denotes { IfOk result (λ id. term self.new id ≡ denoted (terms self.old) node) }
        ensures keeps { Extends self.old self.new }
    {
        if self.nodes.len() >= LAST || !has_next(node) {
            return Err(NoMemory);
        }
        exact();
        self.summaries.reserve(1)?;
        let (place, new) = self.nodes.insert_full(node)?;
        if new {
            let summary = summary_of(self.summaries.as_slice(), node);
            self.summaries.push_reserved(summary);
        }
        Ok(TermId(place as u32))
    }

    /// Whether two places are one, as they are exactly where their terms are.
    pub fn same(&self, a: TermId, b: TermId) -> bool
        requires a { a.0 < length self.now }
        requires b { b.0 < length self.now }
        ensures ids { IsTrue result ↔ (a ≡ b) }
        ensures terms { IsTrue result ↔ (term self.now a ≡ term self.now b) }
    {
        let _nodes = &self.nodes;
        a.0 == b.0
    }

    /// Takes all nodes out, and keeps the memory. It takes time in proportion to their number.
    pub fn clear(&mut self)
        ensures { self.new ≡ [] }
    {
        self.nodes.truncate(0);
        self.summaries.clear();
    }
}
