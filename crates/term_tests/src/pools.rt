//! Nodes and stored terms: each node once, and no walk that nests with the term.
ghost use Rattle.std.specs.Prelude.{◌<◌, length, IfOk};
ghost use Rattle.shared_term.specs.Pools.{Extends};

use dk_model::{NoMemory, NodeOf, Term, make_annotated, make_app};
use shared_term::{Pool, Stored, TermId};
use std::alloc::Global;

/// A node that comes again has its place, and one that is made of it another. The last variable has no place.
fn equal_nodes_are_one(pool: &mut Pool) -> Result<bool, NoMemory> {
    let first = pool.intern(NodeOf::Sym(0))?;
    let again = pool.intern(NodeOf::Sym(0))?;
    let applied = pool.intern(NodeOf::App(first, again))?;
    let one = pool.same(first, again) && !pool.same(applied, first) && pool.len() == 2;
    pool.clear();
    Ok(one && pool.len() == 0 && pool.intern(NodeOf::Var(u64::MAX)).is_err())
}

/// `y : f f => f f` where `f` is a symbol, and `f f`.
fn annotated(alloc: Global) -> Result<Term, NoMemory> {
    let note = make_app(alloc, Term::Sym(0), Term::Sym(0))?;
    let body = make_app(alloc, Term::Sym(0), Term::Sym(0))?;
    make_annotated(alloc, note, body)
}

/// Whether a term of three nodes is stored with each once, and without its annotation as another one.
fn terms_are_stored(alloc: Global, pool: &mut Pool, other: &mut Pool) -> Result<bool, NoMemory> {
    let term = annotated(alloc)?;
    let id = pool.load(&Stored::from_term(alloc, &term)?)?;
    let erased = pool.load(&Stored::from_erased(alloc, &term)?)?;
    let stored = pool.store(id)?.copy(alloc)?;
    let there = other.load(&stored)?;
    let back = pool.load(&other.store(there)?)?;
    let kept = pool.same(back, id) && stored.len() == 3;
    Ok(kept && !pool.same(erased, id) && pool.is_erased(erased) && !pool.is_erased(id))
}

/// A chain of applications, open at its end.
fn chain(pool: &mut Pool, count: u32) -> Result<TermId, NoMemory>
    ensures within { IfOk result (λ id. id.0 < length pool.new) }
    ensures keeps { Extends pool.old pool.new }
{
    let mut id = pool.intern(NodeOf::Var(0))?;
    for _step in 0..count {
        let symbol = pool.intern(NodeOf::Sym(0))?;
        id = pool.intern(NodeOf::App(symbol, id))?;
    }
    Ok(id)
}

/// Whether a chain comes back from a shift and a substitution, and from a list of its own, and has so many nodes there.
fn returns(pool: &mut Pool, count: u32, nodes: usize) -> Result<bool, NoMemory> {
    let id = chain(pool, count)?;
    let raised = pool.shift(id, 0, 1)?;
    let lowered = pool.substitute(raised, 0, id)?;
    let stored = pool.store(id)?;
    let back = pool.load(&stored)?;
    Ok(pool.same(lowered, id) && pool.same(back, id) && stored.len() == nodes)
}

fn is_kept(alloc: Global, pool: &mut Pool) -> Result<bool, NoMemory> {
    let mut other = Pool::new(alloc)?;
    terms_are_stored(alloc, pool, &mut other)
}

fn all_hold(alloc: Global) -> Result<bool, NoMemory> {
    let mut pool = Pool::new(alloc)?;
    let holds = equal_nodes_are_one(&mut pool) == Ok(true)
        && is_kept(alloc, &mut pool) == Ok(true)
        && returns(&mut pool, 70_000, 70_002) == Ok(true);
    Ok(holds)
}

#[test]
fn each_node_of_a_pool_is_there_once(rt: HostRuntime) {
    assert_eq!(rt;
        all_hold(rt.alloc()),
        Ok(true),
        "of nodes, stored terms and a chain"
    );
}
