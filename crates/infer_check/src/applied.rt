//! The type of an application while it is walked. An argument isn't put into the codomain of its function at once, but into
//! each domain as it is asked for and into the type of the whole: a type of many arguments is gone through once.
ghost use Rattle.std.specs.Prelude.{◌≡◌, ◌≤◌, map, IfOk};
ghost use Rattle.dk_model.specs.Signatures.{PlainSignature};
ghost use Rattle.dk_model.specs.Substitution.{substitute};
ghost use Rattle.dk_model.specs.Erasure.{erased};
ghost use Rattle.dk_model.specs.Typing.{as_product};
ghost use Rattle.dk_model.specs.declared.code.Code.TheVariants.{E20};
ghost use Rattle.signature_log.specs.Versions.{entries_of};
ghost use Rattle.shared_term.specs.Changes.{substitute_all};
ghost use Rattle.signature_log.specs.Reducers.{Keeps, Makes, AreOwned};
ghost use Rattle.infer_check.specs.Applied.{put_together, OwnsApplied, GivesFunction};
ghost use Rattle.infer_check.specs.Walks.{Follows};

use crate::expect::into_product;
use dk_model::{Code, NoMemory, NodeOf, TypeFault};
use signature_log::{Reducer, Version};

/// A type, and the arguments that take the place of its innermost variables.
#[derive(Drop)]
pub(crate) struct Applied<T> {
    pub(crate) typ: T,
    /// The last one takes the place of the innermost variable.
    pub(crate) arguments: Vec<T>,
}

/// The type of a function: its domain, and its codomain over the variable that it binds.
#[derive(Drop)]
pub(crate) struct Function<T> {
    pub(crate) domain: T,
    pub(crate) codomain: Applied<T>,
}

/// A type that no argument is to be put into.
#[tactic(auto, using(crate::proofs::Putting::none_put, crate::proofs::Putting::none_owned))]
pub(crate) fn unapplied<R: Reducer>(r: &R, typ: R::T) -> Applied<R::T>
    requires { R.owns r.now typ }
    ensures is { put_together R.owns R.denotes r.now 0 result ≡ R.denotes r.now typ }
    ensures own { OwnsApplied R.owns R.denotes r.now result }
{
    Applied {
        typ,
        arguments: Vec::new(r.alloc()),
    }
}

/// The type with its arguments put in.
pub(crate) fn put_together<R: Reducer>(r: &mut R, applied: Applied<R::T>) -> Result<R::T, NoMemory>
    requires { OwnsApplied R.owns R.denotes r.old applied }
    ensures makes { IfOk result (Makes R.owns R.denotes r.new
        (put_together R.owns R.denotes r.old 0 applied)) }
    ensures keeps { Keeps R.owns R.denotes r.old r.new }
    ensures serves { (S : PlainSignature) → R.serves S r.old → R.serves S r.new }
{
    put_into(r, applied.typ, applied.arguments.as_slice())
}

/// The parts of the type of a function, which must have a product as its weak head form (E20). Only the domain is made.
#[tactic(auto, using(signature_log::proofs::Keeping::keeps_further, crate::proofs::Walks::follows))]
pub(crate) fn function_of<R: Reducer>(
    r: &mut R,
    version: &Version,
    applied: Applied<R::T>,
    left: &mut u64,
) -> Result<Function<R::T>, TypeFault>
    requires own { OwnsApplied R.owns R.denotes r.old applied }
    requires serves { R.serves (entries_of version.now) r.old }
    ensures gives { GivesFunction R.owns R.denotes
        (as_product (entries_of version.now) E20
        (put_together R.owns R.denotes r.old 0 applied) left.old) r.new result left.new }
    ensures follows { Follows R.owns R.denotes R.serves (entries_of version.now) r.old r.new }
    ensures spent { left.new ≤ left.old }
{
    match r.open(applied.typ)? {
        NodeOf::Prod(domain, codomain) => {
            if *left == 0 {
                return Err(TypeFault::Ended);
            }
            let domain = put_into(r, domain, applied.arguments.as_slice())?;
            *left -= 1;
            Ok(Function {
                domain,
                codomain: Applied {
                    typ: codomain,
                    arguments: applied.arguments,
                },
            })
        }
        other => {
            let typ = r.build(other)?;
            let whole = put_into(r, typ, applied.arguments.as_slice())?;
            let product = into_product(r, version, Code::E20, whole, left)?;
            Ok(Function {
                domain: product.domain,
                codomain: Applied {
                    typ: product.codomain,
                    arguments: Vec::new(r.alloc()),
                },
            })
        }
    }
}

/// The type of an application, from the codomain of its function. A codomain that mentions no variable is all of it.
pub(crate) fn applied_to<R: Reducer>(
    r: &mut R,
    codomain: Applied<R::T>,
    argument: &R::T,
) -> Result<Applied<R::T>, NoMemory>
    requires own { OwnsApplied R.owns R.denotes r.old codomain }
    requires argument { R.owns r.old argument.now }
    ensures own { IfOk result (OwnsApplied R.owns R.denotes r.new) }
    ensures is { IfOk result (λ a. put_together R.owns R.denotes r.new 0 a ≡ substitute 0
        (erased (R.denotes r.old argument.now)) (put_together R.owns R.denotes r.old 1 codomain)) }
    ensures keeps { Keeps R.owns R.denotes r.old r.new }
    ensures serves { (S : PlainSignature) → R.serves S r.old → R.serves S r.new }
{
    let mut arguments = codomain.arguments;
    let typ = codomain.typ;
    if r.is_closed(&typ) {
        arguments.clear();
        return Ok(Applied { typ, arguments });
    }
    let argument = r.as_argument(argument, &typ)?;
    arguments.push(argument)?;
    Ok(Applied { typ, arguments })
}

/// A type with these in the place of its innermost variables.
#[tactic(auto, using(crate::proofs::Putting::empty_put, signature_log::proofs::Keeping::keeps_none))]
fn put_into<R: Reducer>(r: &mut R, typ: R::T, arguments: &[R::T]) -> Result<R::T, NoMemory>
    requires typ { R.owns r.old typ }
    requires arguments { AreOwned R.owns r.old arguments.now }
    ensures makes { IfOk result (Makes R.owns R.denotes r.new
        (substitute_all 0 (map (R.denotes r.old) arguments.now) (R.denotes r.old typ))) }
    ensures keeps { Keeps R.owns R.denotes r.old r.new }
    ensures serves { (S : PlainSignature) → R.serves S r.old → R.serves S r.new }
{
    if arguments.is_empty() {
        return Ok(typ);
    }
    r.put_all_in(&typ, arguments)
}
