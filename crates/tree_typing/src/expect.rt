//! What typing asks of a type: that its weak head form is a product or a sort, or that it is convertible with another.
ghost use Rattle.dk_model.specs.Trees.{tree};
ghost use Rattle.dk_model.specs.TypingOver.{as_product, as_sort, as_star, as_convertible, not_kind};
ghost use Rattle.signature_log.specs.Versions.{entries_of};
ghost use Rattle.tree_typing.specs.Given.{Judges, parts};

use crate::{Evaluates, Product};
use dk_model::{Code, Term, TypeFault};
use signature_log::Version;

/// The parts of a type that must be a product; else this code.
pub fn as_product<E: Evaluates>(
    evaluation: &mut E,
    version: &Version,
    code: Code,
    typ: &Term,
) -> Result<Product, TypeFault>
    ensures gives { Judges parts (as_product (E.evaluator (entries_of version.now)) code
        (tree typ.now) (E.left evaluation.old)) result (E.left evaluation.new) }
{
    match evaluation.whnf(version, typ)? {
        Term::Prod(domain, codomain) => Ok(Product {
            domain: Box::into_inner(domain),
            codomain: Box::into_inner(codomain),
        }),
        _ => Err(TypeFault::Refused(code)),
    }
}

/// The type of a type, which must be a sort.
pub fn as_sort<E: Evaluates>(
    evaluation: &mut E,
    version: &Version,
    typ: &Term,
) -> Result<Term, TypeFault>
    ensures gives { Judges tree (as_sort (E.evaluator (entries_of version.now))
        (tree typ.now) (E.left evaluation.old)) result (E.left evaluation.new) }
{
    match evaluation.whnf(version, typ)? {
        Term::Star => Ok(Term::Star),
        Term::Kind => Ok(Term::Kind),
        _ => Err(TypeFault::Refused(Code::E22)),
    }
}

/// The type of a domain, which must be `Type`.
pub fn as_star<E: Evaluates>(
    evaluation: &mut E,
    version: &Version,
    typ: &Term,
) -> Result<(), TypeFault>
    ensures gives { Judges (λ u. u) (as_star (E.evaluator (entries_of version.now))
        (tree typ.now) (E.left evaluation.old)) result (E.left evaluation.new) }
{
    match evaluation.whnf(version, typ)? {
        Term::Star => Ok(()),
        _ => Err(TypeFault::Refused(Code::E22)),
    }
}

/// That two terms are convertible; else this code.
pub fn as_convertible<E: Evaluates>(
    evaluation: &mut E,
    version: &Version,
    code: Code,
    found: &Term,
    expected: &Term,
) -> Result<(), TypeFault>
    ensures gives { Judges (λ u. u) (as_convertible (E.evaluator (entries_of version.now)) code
        (tree found.now) (tree expected.now) (E.left evaluation.old))
        result (E.left evaluation.new) }
{
    if evaluation.same(version, found, expected)? {
        Ok(())
    } else {
        Err(TypeFault::Refused(code))
    }
}

/// The type of a body, which must not be `Kind` (E25). Spends nothing.
pub fn not_kind<E: Evaluates>(typ: Term) -> Result<Term, TypeFault>
    ensures gives { (left : E.Spent) → Judges tree (not_kind (tree typ) left) result left }
{
    match typ {
        Term::Kind => Err(TypeFault::Refused(Code::E25)),
        typ => Ok(typ),
    }
}
