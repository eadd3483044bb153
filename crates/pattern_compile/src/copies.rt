//! Copies of terms, with and without annotations. They nest with brackets and binders, and not with the arguments of an
//! application.
ghost use Rattle.std.specs.Prelude.{◌≡◌, IfOk};
ghost use Rattle.dk_model.specs.Trees.{tree};
ghost use Rattle.dk_model.specs.Erasure.{erased};

use dk_model::{NoMemory, Term, make_annotated, make_app, make_bare, make_product, spine};
use std::alloc::Global;

/// The same term in memory of its own.
#[tactic(auto, using(dk_model::proofs::Winding::references_pushed, dk_model::proofs::Winding::references_total))]
pub(crate) fn copied(alloc: Global, term: &Term) -> Result<Term, NoMemory>
    ensures { IfOk result (λ t. tree t ≡ tree term.now) }
{
    match term {
        Term::Star => Ok(Term::Star),
        Term::Kind => Ok(Term::Kind),
        Term::Sym(k) => Ok(Term::Sym(*k)),
        Term::Var(k) => Ok(Term::Var(*k)),
        Term::Rvar(k) => Ok(Term::Rvar(*k)),
        Term::App(f, a) => {
            let (head, arguments) = spine(alloc, f, a)?;
            let mut arguments = arguments;
            let mut whole = copied(alloc, head)?;
            while let Some(argument) = arguments.pop() {
                let argument = copied(alloc, argument)?;
                whole = make_app(alloc, whole, argument)?;
            }
            Ok(whole)
        }
        Term::Abs(None, b) => make_bare(alloc, copied(alloc, b)?),
        Term::Abs(Some(n), b) => make_annotated(alloc, copied(alloc, n)?, copied(alloc, b)?),
        Term::Prod(a, b) => make_product(alloc, copied(alloc, a)?, copied(alloc, b)?),
    }
}

/// The term with every annotation of an abstraction removed.
#[tactic(auto, using(crate::proofs::Spines::erased_applied, crate::proofs::Spines::erased_pushed, dk_model::proofs::Winding::references_total))]
pub(crate) fn erased(alloc: Global, term: &Term) -> Result<Term, NoMemory>
    ensures { IfOk result (λ t. tree t ≡ erased (tree term.now)) }
{
    match term {
        Term::Star => Ok(Term::Star),
        Term::Kind => Ok(Term::Kind),
        Term::Sym(k) => Ok(Term::Sym(*k)),
        Term::Var(k) => Ok(Term::Var(*k)),
        Term::Rvar(k) => Ok(Term::Rvar(*k)),
        Term::App(f, a) => {
            let (head, arguments) = spine(alloc, f, a)?;
            let mut arguments = arguments;
            let mut whole = erased(alloc, head)?;
            while let Some(argument) = arguments.pop() {
                let argument = erased(alloc, argument)?;
                whole = make_app(alloc, whole, argument)?;
            }
            Ok(whole)
        }
        Term::Abs(_, b) => make_bare(alloc, erased(alloc, b)?),
        Term::Prod(a, b) => make_product(alloc, erased(alloc, a)?, erased(alloc, b)?),
    }
}
