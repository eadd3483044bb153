//! What typing asks of a type: that its weak head form is a product or a sort, or that it is convertible with another.
ghost use Rattle.std.specs.Prelude.{◌≤◌, ℕ};
ghost use Rattle.dk_model.specs.Signatures.{PlainSignature};
ghost use Rattle.dk_model.specs.Typing.{as_product, as_sort, as_star, as_convertible, not_kind};
ghost use Rattle.signature_log.specs.Versions.{entries_of};
ghost use Rattle.signature_log.specs.Reducers.{Keeps};
ghost use Rattle.infer_check.specs.Given.{GivesProduct, GivesType, GivesFit};
ghost use Rattle.infer_check.specs.Walks.{Follows};

use crate::head::head_form;
use crate::product::Product;
use dk_model::{Code, NodeOf, TypeFault};
use signature_log::{Reducer, Version};

/// The parts of a type that must be a product; else this code.
#[tactic(auto, using(signature_log::proofs::Keeping::keeps_further, crate::proofs::Walks::follows))]
pub fn as_product<R: Reducer>(
    r: &mut R,
    version: &Version,
    code: Code,
    typ: &R::T,
    left: &mut u64,
) -> Result<Product<R::T>, TypeFault>
    requires own { R.owns r.old typ.now }
    requires serves { R.serves (entries_of version.now) r.old }
    ensures gives { GivesProduct R.owns R.denotes
        (as_product (entries_of version.now) code (R.denotes r.old typ.now) left.old)
        r.new result left.new }
    ensures follows { Follows R.owns R.denotes R.serves (entries_of version.now) r.old r.new }
    ensures spent { left.new ≤ left.old }
{
    let typ = r.copy(typ)?;
    into_product(r, version, code, typ, left)
}

/// The same of a type that isn't needed any more.
pub fn into_product<R: Reducer>(
    r: &mut R,
    version: &Version,
    code: Code,
    typ: R::T,
    left: &mut u64,
) -> Result<Product<R::T>, TypeFault>
    requires own { R.owns r.old typ }
    requires serves { R.serves (entries_of version.now) r.old }
    ensures gives { GivesProduct R.owns R.denotes
        (as_product (entries_of version.now) code (R.denotes r.old typ) left.old)
        r.new result left.new }
    ensures follows { Follows R.owns R.denotes R.serves (entries_of version.now) r.old r.new }
    ensures spent { left.new ≤ left.old }
{
    match head_form(r, version, typ, left)? {
        NodeOf::Prod(domain, codomain) => Ok(Product { domain, codomain }),
        _ => Err(TypeFault::Refused(code)),
    }
}

/// The type of a type, which must be a sort.
pub fn as_sort<R: Reducer>(
    r: &mut R,
    version: &Version,
    typ: R::T,
    left: &mut u64,
) -> Result<R::T, TypeFault>
    requires own { R.owns r.old typ }
    requires serves { R.serves (entries_of version.now) r.old }
    ensures gives { GivesType R.owns R.denotes
        (as_sort (entries_of version.now) (R.denotes r.old typ) left.old) r.new result left.new }
    ensures follows { Follows R.owns R.denotes R.serves (entries_of version.now) r.old r.new }
    ensures spent { left.new ≤ left.old }
{
    match head_form(r, version, typ, left)? {
        NodeOf::Star => Ok(r.build(NodeOf::Star)?),
        NodeOf::Kind => Ok(r.build(NodeOf::Kind)?),
        _ => Err(TypeFault::Refused(Code::E22)),
    }
}

/// The type of a domain, which must be `Type`.
pub fn as_star<R: Reducer>(
    r: &mut R,
    version: &Version,
    typ: R::T,
    left: &mut u64,
) -> Result<(), TypeFault>
    requires own { R.owns r.old typ }
    requires serves { R.serves (entries_of version.now) r.old }
    ensures gives { GivesFit
        (as_star (entries_of version.now) (R.denotes r.old typ) left.old) result left.new }
    ensures follows { Follows R.owns R.denotes R.serves (entries_of version.now) r.old r.new }
    ensures spent { left.new ≤ left.old }
{
    match head_form(r, version, typ, left)? {
        NodeOf::Star => Ok(()),
        _ => Err(TypeFault::Refused(Code::E22)),
    }
}

/// Two terms that must be convertible, and the code where they aren't.
#[derive(Drop)]
pub struct Compared<'a, T> {
    pub code: Code,
    pub found: &'a T,
    pub expected: &'a T,
}

/// That two terms are convertible.
#[tactic(auto, using(crate::proofs::Walks::follows))]
pub fn as_convertible<R: Reducer>(
    r: &mut R,
    version: &Version,
    compared: Compared<R::T>,
    left: &mut u64,
) -> Result<(), TypeFault>
    requires own { R.owns r.old compared.found.now }
    requires other { R.owns r.old compared.expected.now }
    requires serves { R.serves (entries_of version.now) r.old }
    ensures gives { GivesFit (as_convertible (entries_of version.now) compared.entry.code
        (R.denotes r.old compared.entry.found.now) (R.denotes r.old compared.entry.expected.now)
        left.old) result left.new }
    ensures follows { Follows R.owns R.denotes R.serves (entries_of version.now) r.old r.new }
    ensures spent { left.new ≤ left.old }
{
    if r.same(version, compared.found, compared.expected, left)? {
        Ok(())
    } else {
        Err(TypeFault::Refused(compared.code))
    }
}

/// The type of a body, which must not be `Kind`. Takes no unit.
pub fn not_kind<R: Reducer>(r: &mut R, typ: R::T) -> Result<R::T, TypeFault>
    requires { R.owns r.old typ }
    ensures gives { (left : ℕ) → GivesType R.owns R.denotes
        (not_kind (R.denotes r.old typ) left) r.new result left }
    ensures keeps { Keeps R.owns R.denotes r.old r.new }
    ensures serves { (S : PlainSignature) → R.serves S r.old → R.serves S r.new }
{
    match r.open(typ)? {
        NodeOf::Kind => Err(TypeFault::Refused(Code::E25)),
        other => Ok(r.build(other)?),
    }
}
