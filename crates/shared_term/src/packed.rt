//! The nodes of a stored term, in as little memory as serves.
ghost use Rattle.std.specs.Prelude.{◌≡◌, ◌<◌, length, map, slice_get, Some, IfOk, IfSome};
ghost use Rattle.shared_term.specs.Packing.{full_node, unpacked};

use crate::short::{ShortNode, full_node, short_node};
use crate::{Node, TermId};
use dk_model::NoMemory;
use std::alloc::Global;

/// Nodes, and the place of the outermost one.
#[derive(Drop)]
pub(crate) enum Packed {
    /// A node without parts, which takes no block.
    One(Node),
    /// Each in four bytes.
    Short { root: TermId, nodes: Vec<ShortNode> },
    Full { root: TermId, nodes: Vec<Node> },
}

// The nodes in four bytes each, if the numbers of all are small.
fn short_nodes(alloc: Global, nodes: &[Node]) -> Result<Option<Vec<ShortNode>>, NoMemory>
    ensures { IfOk result (λ all. IfSome all (λ v. map full_node v.items ≡ nodes.now)) }
{
    let mut all = Vec::with_capacity(alloc, nodes.len())?;
    for node in nodes {
        match short_node(*node) {
            Some(short) => all.push(short)?,
            None => return Ok(None),
        }
    }
    Ok(Some(all))
}

impl Packed {
    /// The nodes of the list.
    pub(crate) fn new(alloc: Global, mut nodes: Vec<Node>, root: TermId) -> Result<Packed, NoMemory>
        ensures { IfOk result (λ p. unpacked p ≡ (nodes.items, root)) }
    {
        match short_nodes(alloc, nodes.as_slice())? {
            Some(short) => Ok(Packed::Short { root, nodes: short }),
            None => {
                nodes.shrink_to_fit();
                Ok(Packed::Full { root, nodes })
            }
        }
    }

    /// The nodes of a list that stays as it is.
    pub(crate) fn of(alloc: Global, nodes: &[Node], root: TermId) -> Result<Packed, NoMemory>
        requires { root.0 < length nodes.now }
        ensures { IfOk result (λ p. unpacked p ≡ (nodes.now, root)) }
    {
        match nodes {
            [node] => Ok(Packed::One(*node)),
            _ => match short_nodes(alloc, nodes)? {
                Some(short) => Ok(Packed::Short { root, nodes: short }),
                None => Ok(Packed::Full {
                    root,
                    nodes: nodes.to_vec(alloc)?,
                }),
            },
        }
    }

    pub(crate) fn copy(&self, alloc: Global) -> Result<Packed, NoMemory>
        ensures { IfOk result (λ p. unpacked p ≡ unpacked self.now) }
    {
        match self {
            Packed::One(node) => Ok(Packed::One(*node)),
            Packed::Short { root, nodes } => Ok(Packed::Short {
                root: *root,
                nodes: nodes.as_slice().to_vec(alloc)?,
            }),
            Packed::Full { root, nodes } => Ok(Packed::Full {
                root: *root,
                nodes: nodes.as_slice().to_vec(alloc)?,
            }),
        }
    }

    pub(crate) fn root(&self) -> TermId
        ensures { result ≡ (unpacked self.now).1 }
    {
        match self {
            Packed::One(_) => TermId(0),
            Packed::Short { root, .. } => *root,
            Packed::Full { root, .. } => *root,
        }
    }

    pub(crate) fn len(&self) -> usize
        ensures { result ≡ length (unpacked self.now).0 }
    {
        match self {
            Packed::One(_) => 1,
            Packed::Short { nodes, .. } => nodes.len(),
            Packed::Full { nodes, .. } => nodes.len(),
        }
    }

    /// The node at a place.
    pub(crate) fn get(&self, at: usize) -> Node
        requires { at < length (unpacked self.now).0 }
        ensures { slice_get (unpacked self.now).0 at ≡ Some result }
    {
        match self {
            Packed::One(node) => *node,
            Packed::Short { nodes, .. } => full_node(nodes[at]),
            Packed::Full { nodes, .. } => nodes[at],
        }
    }
}
