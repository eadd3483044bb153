//! Nodes in four bytes, where their numbers are small.
ghost use Rattle.std.specs.Prelude.{◌≡◌, IfSome};
ghost use Rattle.shared_term.specs.Packing.{full_node};

use crate::{Node, TermId};
use dk_model::NodeOf;
use std::mem::size_of;

/// A node in four bytes: its parts stand below place 256, and any other number lies below 65,536.
#[derive(Clone, Copy)]
pub(crate) enum ShortNode {
    Star,
    Kind,
    Sym(u16),
    Var(u16),
    Rvar(u16),
    App(u8, u8),
    /// An abstraction without an annotation.
    Bare(u8),
    Annotated(u8, u8),
    Prod(u8, u8),
}

const _: () = prove!(size_of::<ShortNode>() == 4);

// The place in one byte.
fn short_place(id: TermId) -> Option<u8>
    ensures { IfSome result (λ k. k ≡ id.0) }
{
    match u8::try_from(id.0) {
        Ok(place) => Some(place),
        Err(_) => None,
    }
}

// The number of a symbol or of a rule variable in two bytes.
fn short_number(number: u32) -> Option<u16>
    ensures { IfSome result (λ k. k ≡ number) }
{
    match u16::try_from(number) {
        Ok(number) => Some(number),
        Err(_) => None,
    }
}

// The number of a variable in two bytes.
fn short_variable(number: u64) -> Option<u16>
    ensures { IfSome result (λ k. k ≡ number) }
{
    match u16::try_from(number) {
        Ok(number) => Some(number),
        Err(_) => None,
    }
}

/// The node in four bytes, if its numbers are small.
pub(crate) fn short_node(node: Node) -> Option<ShortNode>
    ensures { IfSome result (λ s. full_node s ≡ node) }
{
    match node {
        NodeOf::Star => Some(ShortNode::Star),
        NodeOf::Kind => Some(ShortNode::Kind),
        NodeOf::Sym(k) => Some(ShortNode::Sym(short_number(k)?)),
        NodeOf::Var(k) => Some(ShortNode::Var(short_variable(k)?)),
        NodeOf::Rvar(k) => Some(ShortNode::Rvar(short_number(k)?)),
        NodeOf::App(f, a) => Some(ShortNode::App(short_place(f)?, short_place(a)?)),
        NodeOf::Abs(None, b) => Some(ShortNode::Bare(short_place(b)?)),
        NodeOf::Abs(Some(n), b) => Some(ShortNode::Annotated(short_place(n)?, short_place(b)?)),
        NodeOf::Prod(a, b) => Some(ShortNode::Prod(short_place(a)?, short_place(b)?)),
    }
}

/// The node that a short one stands for.
pub(crate) fn full_node(short: ShortNode) -> Node
    ensures { result ≡ full_node short }
{
    match short {
        ShortNode::Star => NodeOf::Star,
        ShortNode::Kind => NodeOf::Kind,
        ShortNode::Sym(k) => NodeOf::Sym(u32::from(k)),
        ShortNode::Var(k) => NodeOf::Var(u64::from(k)),
        ShortNode::Rvar(k) => NodeOf::Rvar(u32::from(k)),
        ShortNode::App(f, a) => NodeOf::App(TermId(u32::from(f)), TermId(u32::from(a))),
        ShortNode::Bare(b) => NodeOf::Abs(None, TermId(u32::from(b))),
        ShortNode::Annotated(n, b) => {
            NodeOf::Abs(Some(TermId(u32::from(n))), TermId(u32::from(b)))
        }
        ShortNode::Prod(a, b) => NodeOf::Prod(TermId(u32::from(a)), TermId(u32::from(b))),
    }
}
