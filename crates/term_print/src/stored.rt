//! Stored terms are printed by their nodes, each of which is found by its place.
ghost use Rattle.std.specs.Prelude.{◌≡◌, ◌<◌, List, get_or, length};
ghost use Rattle.dk_model.specs.PlainTerms.{Tree, star};
ghost use Rattle.shared_term.specs.Pools.{denoted, terms};
ghost use Rattle.term_print.specs.Nodes.{node_tree};

use crate::source::Source;
use dk_model::NodeOf;
use shared_term::{Node, Stored, TermId};

fn place(id: TermId) -> u64
    ensures { result ≡ id.0 }
{
    id.number() as u64
}

// The node with the places of its parts as numbers.
fn by_places(node: Node) -> NodeOf<u64>
    ensures { (ts : List Tree) → node_tree (λ k. get_or ts k star) result ≡ denoted ts node }
{
    match node {
        NodeOf::Star => NodeOf::Star,
        NodeOf::Kind => NodeOf::Kind,
        NodeOf::Sym(k) => NodeOf::Sym(k),
        NodeOf::Var(k) => NodeOf::Var(k),
        NodeOf::Rvar(k) => NodeOf::Rvar(k),
        NodeOf::App(f, a) => NodeOf::App(place(f), place(a)),
        NodeOf::Abs(annotation, b) => match annotation {
            None => NodeOf::Abs(None, place(b)),
            Some(d) => NodeOf::Abs(Some(place(d)), place(b)),
        },
        NodeOf::Prod(a, b) => NodeOf::Prod(place(a), place(b)),
    }
}

impl Source for Stored {
    ghost denotes = { λ s k. get_or (terms s.0) k star };

    /// Past the last node it is `Type`.
    #[tactic(auto, using(crate::proofs::Places::past_the_last))]
    fn node(&self, term: u64) -> NodeOf<u64> {
        if term < self.len() as u64 {
            by_places(self.get(term as usize))
        } else {
            NodeOf::Star
        }
    }
}
