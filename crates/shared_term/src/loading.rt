//! Bringing a stored term into a pool.
ghost use Rattle.std.specs.Prelude.{◌≡◌, ◌<◌, length, IfOk};
ghost use Rattle.shared_term.specs.Pools.{term, Extends, IsWithin};
ghost use Rattle.shared_term.specs.Storage.{renamed, stored_term};

use crate::{Node, Pool, Stored, TermId};
use dk_model::{NoMemory, NodeOf};

// The node with its parts at their places in the pool.
pub(crate) fn renamed(places: &[TermId], node: Node) -> Node
    requires { IsWithin (length places.now) node }
    ensures { result ≡ renamed places.now node }
{
    match node {
        NodeOf::Star => NodeOf::Star,
        NodeOf::Kind => NodeOf::Kind,
        NodeOf::Sym(k) => NodeOf::Sym(k),
        NodeOf::Var(k) => NodeOf::Var(k),
        NodeOf::Rvar(k) => NodeOf::Rvar(k),
        NodeOf::App(f, a) => NodeOf::App(places[f.0 as usize], places[a.0 as usize]),
        NodeOf::Abs(None, b) => NodeOf::Abs(None, places[b.0 as usize]),
        NodeOf::Abs(Some(n), b) => NodeOf::Abs(Some(places[n.0 as usize]), places[b.0 as usize]),
        NodeOf::Prod(a, b) => NodeOf::Prod(places[a.0 as usize], places[b.0 as usize]),
    }
}

/// Brings a stored term into a pool.
pub(crate) fn loaded(pool: &mut Pool, stored: &Stored) -> Result<TermId, NoMemory>
    ensures within { IfOk result (λ id. id.0 < length pool.new) }
    ensures denotes { IfOk result (λ id. term pool.new id ≡ stored_term stored.now) }
    ensures keeps { Extends pool.old pool.new }
{
    let mut places = Vec::with_capacity(pool.alloc(), stored.len())?;
    for at in 0..stored.len() {
        let node = stored.get(at);
        let id = pool.intern(renamed(places.as_slice(), node))?;
        places.push(id)?;
    }
    Ok(places[stored.root().0 as usize])
}
