//! Bringing a boxed term into a pool.
ghost use Rattle.std.specs.Prelude.{◌≡◌, ◌<◌, length, IfOk};
ghost use Rattle.dk_model.specs.Trees.{tree};
ghost use Rattle.shared_term.specs.Pools.{term, Extends};

use dk_model::{NoMemory, NodeOf, Term, spine};
use shared_term::{Pool, TermId};
use std::alloc::Global;

/// Brings a boxed term into a pool. It nests with the levels of the term, and not with the length
/// of a long application.
#[tactic(auto, using(crate::proofs::Winding::extends_none, crate::proofs::Winding::extends_more, dk_model::proofs::Winding::references_pushed, dk_model::proofs::Winding::references_total))]
pub(crate) fn loaded(alloc: Global, pool: &mut Pool, it: &Term) -> Result<TermId, NoMemory>
    ensures there { IfOk result (λ t. t.0 < length pool.new) }
    ensures is { IfOk result (λ t. term pool.new t ≡ tree it.now) }
    ensures keeps { Extends pool.old pool.new }
{
    match it {
        Term::Star => pool.intern(NodeOf::Star),
        Term::Kind => pool.intern(NodeOf::Kind),
        Term::Sym(k) => pool.intern(NodeOf::Sym(*k)),
        Term::Var(k) => pool.intern(NodeOf::Var(*k)),
        Term::Rvar(k) => pool.intern(NodeOf::Rvar(*k)),
        Term::App(f, a) => {
            if !is_long(f) {
                let function = loaded(alloc, pool, f)?;
                let argument = loaded(alloc, pool, a)?;
                return pool.intern(NodeOf::App(function, argument));
            }
            let (head, arguments) = spine(alloc, f, a)?;
            let mut arguments = arguments;
            let mut whole = loaded(alloc, pool, head)?;
            while let Some(argument) = arguments.pop() {
                let argument = loaded(alloc, pool, argument)?;
                whole = pool.intern(NodeOf::App(whole, argument))?;
            }
            Ok(whole)
        }
        Term::Abs(None, b) => {
            let body = loaded(alloc, pool, b)?;
            pool.intern(NodeOf::Abs(None, body))
        }
        Term::Abs(Some(n), b) => {
            let annotation = loaded(alloc, pool, n)?;
            let body = loaded(alloc, pool, b)?;
            pool.intern(NodeOf::Abs(Some(annotation), body))
        }
        Term::Prod(a, b) => {
            let domain = loaded(alloc, pool, a)?;
            let codomain = loaded(alloc, pool, b)?;
            pool.intern(NodeOf::Prod(domain, codomain))
        }
    }
}

/// Whether it is an application to three arguments or more. A function that isn't is loaded without a list of arguments, and
/// nests by them.
fn is_long(it: &Term) -> bool {
    match it {
        Term::App(f, _) => is_applied_twice(f),
        _ => false,
    }
}

fn is_applied_twice(it: &Term) -> bool {
    match it {
        Term::App(f, _) => is_application(f),
        _ => false,
    }
}

fn is_application(it: &Term) -> bool {
    match it {
        Term::App(..) => true,
        _ => false,
    }
}
