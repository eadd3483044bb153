//! A term in a compact list of its own, outside any pool.
ghost use Rattle.std.specs.Prelude.{◌≡◌, ◌<◌, [], length, get_or, slice_get, Some, IfOk};
ghost use Rattle.dk_model.specs.Trees.{star};
ghost use Rattle.shared_term.specs.Pools.{IsWithin, denoted, terms};
ghost use Rattle.shared_term.specs.Storage.{IsSpelt, IsStored, stored_term};

use crate::packed::Packed;
use crate::{Node, TermId};
use dk_model::{NoMemory, NodeOf};
use std::alloc::Global;
use std::marker::Model;

/// A term's nodes, each after its parts, and the place of the outermost one. Its drop doesn't nest
/// with the term.
#[derive(Drop)]
pub struct Stored {
    packed: Packed,
}

impl Model for Stored {
    ghost use Rattle.std.specs.Prelude.{List};
    ghost use Rattle.dk_model.specs.declared.NodeOf.{NodeOf};
    ghost use Rattle.shared_term.specs.declared.id.TermId.{TermId};
    ghost use Rattle.shared_term.specs.Storage.{IsStored};

    ghost Value = { List (NodeOf TermId) × TermId };

    ghost use Rattle.shared_term.specs.Packing.{unpacked};

    ghost view = { λ s. unpacked s.packed };

    ghost invariant = { λ s. IsStored (unpacked s.packed).0 (unpacked s.packed).1 };
}

impl Stored {
    /// The term of a node without parts.
    pub(crate) fn one(node: Node) -> Stored
        requires { IsWithin 0 node }
        ensures { stored_term result ≡ denoted [] node }
    {
        Stored {
            packed: Packed::One(node),
        }
    }

    /// The nodes of the list, with the place of the outermost one.
    pub(crate) fn new(alloc: Global, nodes: Vec<Node>, root: TermId) -> Result<Stored, NoMemory>
        requires { IsStored nodes.items root }
        ensures { IfOk result (λ s. s ≡ (nodes.items, root)) }
    {
        Ok(Stored {
            packed: Packed::new(alloc, nodes, root)?,
        })
    }

    /// The nodes of a list that stays as it is, with the place of the outermost one.
    pub(crate) fn of(alloc: Global, nodes: &[Node], root: TermId) -> Result<Stored, NoMemory>
        requires { IsStored nodes.now root }
        ensures { IfOk result (λ s. s ≡ (nodes.now, root)) }
    {
        Ok(Stored {
            packed: Packed::of(alloc, nodes, root)?,
        })
    }

    /// The same nodes in memory of their own.
    pub fn copy(&self, alloc: Global) -> Result<Stored, NoMemory>
        ensures { IfOk result (λ s. s ≡ self.now) }
    {
        Ok(Stored {
            packed: self.packed.copy(alloc)?,
        })
    }

    /// How many nodes it has. One alone takes no block; of several each takes 4 bytes where all their numbers are small,
    /// else 16.
    pub fn len(&self) -> usize
        ensures { result ≡ length self.now.0 }
    {
        self.packed.len()
    }

    /// The place of the outermost node.
    pub fn root(&self) -> TermId
        ensures value { result ≡ self.now.1 }
        ensures within { result.0 < length self.now.0 }
    {
        self.packed.root()
    }

    /// The node at a place.
    pub fn get(&self, at: usize) -> Node
        requires { at < length self.now.0 }
        ensures node { slice_get self.now.0 at ≡ Some result }
        ensures within { IsWithin at result }
        ensures built { get_or (terms self.now.0) at star ≡ denoted (terms self.now.0) result }
    {
        self.packed.get(at)
    }

    /// The nodes in a list.
    pub(crate) fn unpacked(&self, alloc: Global) -> Result<Vec<Node>, NoMemory>
        ensures nodes { IfOk result (λ v. v.items ≡ self.now.0) }
        ensures spelt { IfOk result (λ v. IsSpelt v.items) }
    {
        let _opened = &self.packed;
        let mut nodes = Vec::with_capacity(alloc, self.len())?;
        for at in 0..self.len() {
            nodes.push(self.get(at))?;
        }
        Ok(nodes)
    }
}
