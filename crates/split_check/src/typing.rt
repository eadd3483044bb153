//! How the typing of a body is laid out: where two arguments of an application are large, what they come to is left to other
//! threads, or to their own arguments.
ghost use Rattle.std.specs.Prelude.{◌∷◌, IfOk};
ghost use Rattle.dk_model.specs.Typing.{checked, inferred};
ghost use Rattle.signature_log.specs.Versions.{entries_of};
ghost use Rattle.signature_log.specs.Reducers.{OwnsParts, built};
ghost use Rattle.infer_check.specs.Contexts.{rule_types, bound_types};
ghost use Rattle.infer_check.specs.Walks.{Follows, IsReady};
ghost use Rattle.split_check.specs.Laying.{LaysFit, LaysType, Stays, domain_agrees};

use crate::laying::{Laying, lay_fit, lay_part, lay_product, lay_same, lay_star, lay_type};
use crate::sizes::{large, sizes};
use crate::spine::{Spine, put_argument, unwind};
use core::mem::replace;
use dk_model::{Code, NoMemory, NodeOf};
use infer_check::Product;
use signature_log::{Reducer, Version};

/// A term with the number of its nodes, about.
#[derive(Drop)]
pub(crate) struct Sized<T> {
    pub(crate) term: T,
    pub(crate) nodes: u64,
}

/// That a term fits a type.
#[cycle(laying)]
#[tactic(auto, using(infer_check::proofs::Contexts::context_kept, infer_check::proofs::Contexts::rule_types_kept, infer_check::proofs::Contexts::bound_types_kept, infer_check::proofs::Contexts::owned_front, infer_check::proofs::Contexts::owned_last, infer_check::proofs::Contexts::owned_kept, infer_check::proofs::Contexts::types_kept, signature_log::proofs::Keeping::keeps_further, infer_check::proofs::Walks::follows, infer_check::proofs::Walks::ready))]
pub(crate) fn lay_check<R: Reducer>(
    r: &mut R,
    version: &Version,
    laying: &mut Laying<R::T>,
    sized: Sized<R::T>,
    expected: R::T,
) -> Result<bool, NoMemory>
    requires term { R.owns r.old sized.term }
    requires expected { R.owns r.old expected }
    requires ready { IsReady R.owns R.serves (entries_of version.now) r.old laying.old.walk }
    ensures lays { IfOk result (LaysFit (entries_of version.now)
        (checked (entries_of version.now) (rule_types R.denotes r.old laying.old.walk.context)
        (bound_types R.denotes r.old laying.old.walk.context) (R.denotes r.old sized.term)
        (R.denotes r.old expected)) laying.old laying.new) }
    ensures stays { Stays laying.old laying.new }
    ensures follows { Follows R.owns R.denotes R.serves (entries_of version.now) r.old r.new }
{
    let Sized { term, nodes } = sized;
    match r.open(term)? {
        NodeOf::Abs(annotation, body) => {
            let Some(function) = lay_product(r, version, laying, Code::E24, expected)? else {
                return Ok(false);
            };
            let body = Sized { term: body, nodes };
            match annotation {
                None => lay_body(r, version, laying, body, function),
                Some(domain) => {
                    if lay_domain(r, version, laying, domain, &function.domain)? {
                        lay_body(r, version, laying, body, function)
                    } else {
                        Ok(false)
                    }
                }
            }
        }
        other => {
            let Some(found) = lay_infer(r, version, laying, other, nodes)? else {
                return Ok(false);
            };
            lay_same(r, version, laying, &found, &expected)
        }
    }
}

/// That the body of an abstraction fits the codomain, under the domain.
#[cycle(laying)]
#[tactic(auto, using(infer_check::proofs::Contexts::context_kept, infer_check::proofs::Contexts::rule_types_kept, infer_check::proofs::Contexts::bound_types_kept, infer_check::proofs::Contexts::owned_front, infer_check::proofs::Contexts::owned_last, infer_check::proofs::Contexts::owned_kept, infer_check::proofs::Contexts::types_kept, signature_log::proofs::Keeping::keeps_further, infer_check::proofs::Walks::follows, infer_check::proofs::Walks::ready))]
fn lay_body<R: Reducer>(
    r: &mut R,
    version: &Version,
    laying: &mut Laying<R::T>,
    body: Sized<R::T>,
    function: Product<R::T>,
) -> Result<bool, NoMemory>
    requires body { R.owns r.old body.term }
    requires domain { R.owns r.old function.domain }
    requires codomain { R.owns r.old function.codomain }
    requires ready { IsReady R.owns R.serves (entries_of version.now) r.old laying.old.walk }
    ensures lays { IfOk result (LaysFit (entries_of version.now)
        (checked (entries_of version.now) (rule_types R.denotes r.old laying.old.walk.context)
        (R.denotes r.old function.domain ∷ bound_types R.denotes r.old laying.old.walk.context)
        (R.denotes r.old body.term) (R.denotes r.old function.codomain)) laying.old laying.new) }
    ensures stays { Stays laying.old laying.new }
    ensures follows { Follows R.owns R.denotes R.serves (entries_of version.now) r.old r.new }
{
    laying.walk.context.bind(function.domain)?;
    let goes = lay_check(r, version, laying, body, function.codomain);
    let _domain = laying.walk.context.leave();
    goes
}

/// That the domain of an abstraction has the type `Type` and is convertible with the expected one.
fn lay_domain<R: Reducer>(
    r: &mut R,
    version: &Version,
    laying: &mut Laying<R::T>,
    domain: R::T,
    expected: &R::T,
) -> Result<bool, NoMemory>
    requires domain { R.owns r.old domain }
    requires expected { R.owns r.old expected.now }
    requires ready { IsReady R.owns R.serves (entries_of version.now) r.old laying.old.walk }
    ensures lays { IfOk result (LaysFit (entries_of version.now)
        (domain_agrees (entries_of version.now) (rule_types R.denotes r.old laying.old.walk.context)
        (bound_types R.denotes r.old laying.old.walk.context) (R.denotes r.old domain)
        (R.denotes r.old expected.now)) laying.old laying.new) }
    ensures stays { Stays laying.old laying.new }
    ensures follows { Follows R.owns R.denotes R.serves (entries_of version.now) r.old r.new }
{
    let Some(sort) = lay_type(r, version, laying, &domain)? else {
        return Ok(false);
    };
    if !lay_star(r, version, laying, &sort)? {
        return Ok(false);
    }
    let erased = r.erase(&domain)?;
    lay_same(r, version, laying, &erased, expected)
}

/// The type of a term by its outermost node: that of its head, then by each argument.
#[cycle(laying)]
#[tactic(auto, using(infer_check::proofs::Contexts::context_kept, infer_check::proofs::Contexts::rule_types_kept, infer_check::proofs::Contexts::bound_types_kept, infer_check::proofs::Contexts::owned_front, infer_check::proofs::Contexts::owned_last, infer_check::proofs::Contexts::owned_kept, infer_check::proofs::Contexts::types_kept, signature_log::proofs::Keeping::keeps_further, infer_check::proofs::Walks::follows, infer_check::proofs::Walks::ready))]
fn lay_infer<R: Reducer>(
    r: &mut R,
    version: &Version,
    laying: &mut Laying<R::T>,
    node: NodeOf<R::T>,
    nodes: u64,
) -> Result<Option<R::T>, NoMemory>
    requires node { OwnsParts R.owns r.old node }
    requires ready { IsReady R.owns R.serves (entries_of version.now) r.old laying.old.walk }
    ensures lays { IfOk result (LaysType R.owns R.denotes (entries_of version.now)
        (inferred (entries_of version.now) (rule_types R.denotes r.old laying.old.walk.context)
        (bound_types R.denotes r.old laying.old.walk.context) (built R.denotes r.old node))
        laying.old laying.new r.new) }
    ensures stays { Stays laying.old laying.new }
    ensures follows { Follows R.owns R.denotes R.serves (entries_of version.now) r.old r.new }
{
    let Spine { head, arguments } = unwind(r, node)?;
    let mut sizes = sizes(r, arguments.as_slice(), nodes)?;
    let heavy = laying.heavy();
    let apart = laying.apart || large(sizes.as_slice(), heavy) > 1;
    let Some(typ) = lay_type(r, version, laying, &head)? else {
        return Ok(None);
    };
    let mut arguments = arguments;
    let mut typ = typ;
    let mut place: u32 = 0;
    while let Some(argument) = arguments.pop() {
        let Some(function) = lay_product(r, version, laying, Code::E20, typ)? else {
            return Ok(None);
        };
        typ = put_argument(r, function.codomain, &argument)?;
        let argument = Argument {
            term: argument,
            nodes: sizes.pop().unwrap_or(0),
            place,
            apart,
        };
        if !lay_argument(r, version, laying, argument, function.domain)? {
            return Ok(None);
        }
        place = place.saturating_add(1);
    }
    Ok(Some(typ))
}

/// An argument of an application.
#[derive(Drop)]
struct Argument<T> {
    term: T,
    /// The number of its nodes, about.
    nodes: u64,
    /// Among the arguments, from 0.
    place: u32,
    /// Whether another one is worth a thread.
    apart: bool,
}

/// That an argument fits the domain of its function.
///
/// One of more than twice as many nodes as are worth a thread is laid out itself. Another one of so many is left to another
/// thread, where it isn't the only one.
#[cycle(laying)]
#[tactic(auto, using(infer_check::proofs::Contexts::context_kept, infer_check::proofs::Contexts::rule_types_kept, infer_check::proofs::Contexts::bound_types_kept, infer_check::proofs::Contexts::owned_front, infer_check::proofs::Contexts::owned_last, infer_check::proofs::Contexts::owned_kept, infer_check::proofs::Contexts::types_kept, signature_log::proofs::Keeping::keeps_further, infer_check::proofs::Walks::follows, infer_check::proofs::Walks::ready))]
fn lay_argument<R: Reducer>(
    r: &mut R,
    version: &Version,
    laying: &mut Laying<R::T>,
    argument: Argument<R::T>,
    domain: R::T,
) -> Result<bool, NoMemory>
    requires argument { R.owns r.old argument.term }
    requires domain { R.owns r.old domain }
    requires ready { IsReady R.owns R.serves (entries_of version.now) r.old laying.old.walk }
    ensures lays { IfOk result (LaysFit (entries_of version.now)
        (checked (entries_of version.now) (rule_types R.denotes r.old laying.old.walk.context)
        (bound_types R.denotes r.old laying.old.walk.context) (R.denotes r.old argument.term)
        (R.denotes r.old domain)) laying.old laying.new) }
    ensures stays { Stays laying.old laying.new }
    ensures follows { Follows R.owns R.denotes R.serves (entries_of version.now) r.old r.new }
{
    let Argument {
        term,
        nodes,
        place,
        apart,
    } = argument;
    let heavy = laying.heavy();
    if nodes / 2 > heavy {
        let outside = replace(&mut laying.apart, apart);
        let fits = lay_check(r, version, laying, Sized { term, nodes }, domain);
        laying.apart = outside;
        return fits;
    }
    if apart && nodes >= heavy {
        lay_part(r, laying, place, &term, &domain)?;
        return Ok(true);
    }
    lay_fit(r, version, laying, &term, &domain)
}
