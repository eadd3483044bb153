//! A list of nodes to which nodes are added, each after its parts.
ghost use Rattle.std.specs.Prelude.{◌≡◌, ◌<◌, length, IfOk, IfSome, OnErr, OnOk};
ghost use Rattle.shared_term.specs.Pools.{term, terms, denoted, Extends, IsWithin};
ghost use Rattle.shared_term.specs.Storage.{IsSpelt};

use crate::id::exact;
use crate::{Node, TermId};
use dk_model::{NoMemory, NodeOf};

const LAST: usize = 0xFFFF_FFFF;

/// Of how many nodes it is remembered where they stand, while a list is made.
const SLOTS: usize = 64;

/// Where nodes went, by a slot that each node picks. A later one takes an earlier one's place, and what stands at a place is
/// looked at before it counts.
#[derive(Drop)]
pub(crate) struct Lately {
    places: [u32; SLOTS],
}

impl Lately {
    pub(crate) fn new() -> Lately {
        Lately { places: [0; SLOTS] }
    }

    fn place(&self, slot: usize) -> usize {
        if slot < SLOTS {
            self.places[slot] as usize
        } else {
            0
        }
    }

    fn put(&mut self, slot: usize, id: TermId) {
        if slot < SLOTS {
            self.places[slot] = id.0;
        }
    }
}

// Two nodes that pick the same slot only cost time or a node more.
fn slot_of(node: Node) -> usize {
    let (kind, first, second) = match node {
        NodeOf::Star => (0, 0, 0),
        NodeOf::Kind => (1, 0, 0),
        NodeOf::Sym(k) => (2, u64::from(k), 0),
        NodeOf::Var(k) => (3, k, 0),
        NodeOf::Rvar(k) => (4, u64::from(k), 0),
        NodeOf::App(f, a) => (5, u64::from(f.0), u64::from(a.0)),
        NodeOf::Abs(None, b) => (6, u64::from(b.0), 0),
        NodeOf::Abs(Some(n), b) => (7, u64::from(n.0), u64::from(b.0)),
        NodeOf::Prod(a, b) => (8, u64::from(a.0), u64::from(b.0)),
    };
    let key = (first << 4)
        .wrapping_add(second << 32)
        .wrapping_add(kind)
        .wrapping_mul(0x9e37_79b9_7f4a_7c15);
    (key >> 58) as usize
}

/// A node goes last.
pub(crate) fn pushed(nodes: &mut Vec<Node>, node: Node) -> Result<TermId, NoMemory>
    requires within { IsWithin (length nodes.old.items) node }
    requires spelt { IsSpelt nodes.old.items }
    ensures there { IfOk result (λ r. r.0 < length nodes.new.items) }
    ensures is { IfOk result (λ r. term nodes.new.items r ≡ denoted (terms nodes.old.items) node) }
    ensures keeps { OnOk result (Extends nodes.old.items nodes.new.items) }
    ensures spelt { OnOk result (IsSpelt nodes.new.items) }
    ensures err { OnErr result (nodes.new.items ≡ nodes.old.items) }
{
    let place = nodes.len();
    if place >= LAST {
        return Err(NoMemory);
    }
    nodes.push(node)?;
    Ok(TermId(place as u32))
}

// The place, where an equal node stands there.
fn found_at(nodes: &[Node], place: usize, node: Node) -> Option<TermId>
    requires { IsSpelt nodes.now }
    ensures there { IfSome result (λ r. r.0 < length nodes.now) }
    ensures is { IfSome result (λ r. term nodes.now r ≡ denoted (terms nodes.now) node) }
{
    exact();
    let Ok(at) = u32::try_from(place) else {
        return None;
    };
    match nodes.get(place) {
        Some(found) if *found == node => Some(TermId(at)),
        _ => None,
    }
}

/// A node that is found where such a node went last, or else goes last itself. So the parts of a numeral are shared.
pub(crate) fn shared(
    nodes: &mut Vec<Node>,
    lately: &mut Lately,
    node: Node,
) -> Result<TermId, NoMemory>
    requires within { IsWithin (length nodes.old.items) node }
    requires spelt { IsSpelt nodes.old.items }
    ensures there { IfOk result (λ r. r.0 < length nodes.new.items) }
    ensures is { IfOk result (λ r. term nodes.new.items r ≡ denoted (terms nodes.old.items) node) }
    ensures keeps { OnOk result (Extends nodes.old.items nodes.new.items) }
    ensures spelt { OnOk result (IsSpelt nodes.new.items) }
    ensures err { OnErr result (nodes.new.items ≡ nodes.old.items) }
{
    let slot = slot_of(node);
    match found_at(nodes.as_slice(), lately.place(slot), node) {
        Some(id) => Ok(id),
        None => {
            let id = pushed(nodes, node)?;
            lately.put(slot, id);
            Ok(id)
        }
    }
}
