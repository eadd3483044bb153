//! A term by its place in a pool.
ghost use Rattle.std.specs.Prelude.{◌≡◌, true};
ghost use Rattle.dk_model.specs.declared.NodeOf.{NodeOf};
ghost use Rattle.shared_term.specs.declared.id.TermId.{TermId};

use dk_model::NodeOf;

/// A node's place in its pool's list.
#[derive(Clone, Copy, PartialEq, Eq, Hash)]
pub struct TermId(pub(crate) u32);

impl TermId {
    /// The place of a pool's first node.
    pub fn first() -> TermId
        ensures { result.0 ≡ 0 }
    {
        TermId(0)
    }

    /// The place as a number, from 0.
    pub fn number(self) -> u32
        ensures { result ≡ self.0 }
    {
        self.0
    }
}

/// A node whose parts are terms of a pool.
pub type Node = NodeOf<TermId>;

/// Nodes that compare equal are one.
pub(crate) fn exact()
    ensures alike { (n : NodeOf TermId) → ⟦<Node as PartialEq>⟧.eq n n ≡ true }
    ensures exact { (m n : NodeOf TermId) → ⟦<Node as PartialEq>⟧.eq m n ≡ true → m ≡ n }
{}
