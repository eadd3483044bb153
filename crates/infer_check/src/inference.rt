//! Inference (docs/typing.md).
//!
//! Applications are walked by a loop, so these functions nest as deep as brackets and binders do. A term is given away
//! where it is taken apart, so that no part of it is copied.
ghost use Rattle.std.specs.Prelude.{◌≡◌, false};
ghost use Rattle.dk_model.specs.Trees.{annotated, product};
ghost use Rattle.signature_log.specs.Versions.{entries_of};
ghost use Rattle.signature_log.specs.Reducers.{OwnsParts, built};
ghost use Rattle.infer_check.specs.Spine.{is_application};
ghost use Rattle.infer_check.specs.Applied.{put_together, OwnsApplied};
ghost use Rattle.infer_check.specs.Clauses.{Infers, GivesSort, FitsDomain, Applies};
ghost use Rattle.infer_check.specs.Walks.{IsReady, Continues};

use crate::Walk;
use crate::applied::{Applied, applied_to, function_of, put_together, unapplied};
use crate::checking::check_taken;
use crate::expect::{as_sort, as_star, not_kind};
use crate::spine::unwind;
use crate::variables::{rule_variable_type, symbol_type, variable_type};
use dk_model::{Code, NodeOf, TypeFault};
use signature_log::{Reducer, Version};

/// The type of a term.
///
/// The walk has the units that may be spent, and then those that are left. Its context is at exit as at entry.
#[tactic(auto, using(crate::proofs::Contexts::context_kept, crate::proofs::Contexts::rule_types_kept, crate::proofs::Contexts::bound_types_kept, signature_log::proofs::Keeping::keeps_further, crate::proofs::Walks::continues, crate::proofs::Walks::ready))]
pub fn infer<R: Reducer>(
    r: &mut R,
    version: &Version,
    walk: &mut Walk<R::T>,
    t: &R::T,
) -> Result<R::T, TypeFault>
    requires term { R.owns r.old t.now }
    requires ready { IsReady R.owns R.serves (entries_of version.now) r.old walk.old }
    ensures gives { Infers R.owns R.denotes (entries_of version.now) r.old walk.old
        (R.denotes r.old t.now) r.new result walk.new.left }
    ensures continues { Continues R.owns R.denotes R.serves (entries_of version.now)
        r.old walk.old r.new walk.new }
{
    let term = r.copy(t)?;
    infer_taken(r, version, walk, term)
}

/// The sort of a type: the weak head form of its type, which must be `Type` or `Kind` (E22).
#[tactic(auto, using(crate::proofs::Judging::sort_fails, crate::proofs::Judging::sort_given, signature_log::proofs::Keeping::keeps_further, crate::proofs::Walks::continues, crate::proofs::Walks::ready))]
pub fn sort_of<R: Reducer>(
    r: &mut R,
    version: &Version,
    walk: &mut Walk<R::T>,
    t: &R::T,
) -> Result<R::T, TypeFault>
    requires term { R.owns r.old t.now }
    requires ready { IsReady R.owns R.serves (entries_of version.now) r.old walk.old }
    ensures gives { GivesSort R.owns R.denotes (entries_of version.now) r.old walk.old
        (R.denotes r.old t.now) r.new result walk.new.left }
    ensures continues { Continues R.owns R.denotes R.serves (entries_of version.now)
        r.old walk.old r.new walk.new }
{
    let found = infer(r, version, walk, t)?;
    as_sort(r, version, found, &mut walk.left)
}

/// The type of a term.
#[cycle(typing)]
#[tactic(auto, using(crate::proofs::Contexts::context_kept, crate::proofs::Contexts::rule_types_kept, crate::proofs::Contexts::bound_types_kept, signature_log::proofs::Keeping::keeps_further, crate::proofs::Walks::continues, crate::proofs::Walks::ready))]
pub(crate) fn infer_taken<R: Reducer>(
    r: &mut R,
    version: &Version,
    walk: &mut Walk<R::T>,
    term: R::T,
) -> Result<R::T, TypeFault>
    requires term { R.owns r.old term }
    requires ready { IsReady R.owns R.serves (entries_of version.now) r.old walk.old }
    ensures gives { Infers R.owns R.denotes (entries_of version.now) r.old walk.old
        (R.denotes r.old term) r.new result walk.new.left }
    ensures continues { Continues R.owns R.denotes R.serves (entries_of version.now)
        r.old walk.old r.new walk.new }
{
    let node = r.open(term)?;
    infer_node(r, version, walk, node)
}

/// The type of a term by its outermost node: that of its head, then by each argument.
#[cycle(typing)]
#[tactic(auto, using(crate::proofs::Spines::head_fails, crate::proofs::Spines::head_given, crate::proofs::Spines::argument_fails, crate::proofs::Spines::argument_given, dk_model::proofs::Winding::total_pushed, crate::proofs::Spines::map_pushed, crate::proofs::Contexts::owned_front, crate::proofs::Contexts::owned_last, crate::proofs::Contexts::owned_kept, crate::proofs::Contexts::types_kept, crate::proofs::Contexts::context_kept, crate::proofs::Contexts::rule_types_kept, crate::proofs::Contexts::bound_types_kept, signature_log::proofs::Keeping::keeps_further, crate::proofs::Walks::continues, crate::proofs::Walks::ready))]
pub(crate) fn infer_node<R: Reducer>(
    r: &mut R,
    version: &Version,
    walk: &mut Walk<R::T>,
    node: NodeOf<R::T>,
) -> Result<R::T, TypeFault>
    requires node { OwnsParts R.owns r.old node }
    requires ready { IsReady R.owns R.serves (entries_of version.now) r.old walk.old }
    ensures gives { Infers R.owns R.denotes (entries_of version.now) r.old walk.old
        (built R.denotes r.old node) r.new result walk.new.left }
    ensures continues { Continues R.owns R.denotes R.serves (entries_of version.now)
        r.old walk.old r.new walk.new }
{
    let spine = unwind(r, node)?;
    let mut arguments = spine.arguments;
    let head = infer_head(r, version, walk, spine.head)?;
    let mut typ = unapplied(r, head);
    while let Some(argument) = arguments.pop() {
        typ = apply(r, version, walk, typ, argument)?;
    }
    Ok(put_together(r, typ)?)
}

/// The type of a term that is no application.
#[cycle(typing)]
#[tactic(auto, using(crate::proofs::Contexts::length_bound_types, signature_log::proofs::Keeping::keeps_none, signature_log::proofs::Keeping::keeps_further, crate::proofs::Walks::continues, crate::proofs::Walks::ready))]
fn infer_head<R: Reducer>(
    r: &mut R,
    version: &Version,
    walk: &mut Walk<R::T>,
    head: NodeOf<R::T>,
) -> Result<R::T, TypeFault>
    requires head { is_application (built R.denotes r.old head) ≡ false }
    requires parts { OwnsParts R.owns r.old head }
    requires ready { IsReady R.owns R.serves (entries_of version.now) r.old walk.old }
    ensures gives { Infers R.owns R.denotes (entries_of version.now) r.old walk.old
        (built R.denotes r.old head) r.new result walk.new.left }
    ensures continues { Continues R.owns R.denotes R.serves (entries_of version.now)
        r.old walk.old r.new walk.new }
{
    match head {
        NodeOf::Star => Ok(r.build(NodeOf::Kind)?),
        NodeOf::Kind => Err(TypeFault::Refused(Code::E22)),
        NodeOf::Sym(k) => Ok(symbol_type(r, version, k)?),
        NodeOf::Var(k) => Ok(variable_type(r, &walk.context, k)?),
        NodeOf::Rvar(k) => Ok(rule_variable_type(r, &walk.context, k)?),
        NodeOf::Abs(annotation, b) => match annotation {
            None => Err(TypeFault::Refused(Code::E23)),
            Some(d) => infer_abstraction(r, version, walk, d, b),
        },
        NodeOf::Prod(d, b) => infer_product(r, version, walk, d, b),
        NodeOf::App(..) => unreachable!(),
    }
}

/// The type of an annotated abstraction.
///
/// ```text
/// G |- d : Type    G, x : |d| |- b : B    B isn't Kind
/// ----------------------------------------------------
/// G |- (x : d => b) : x : |d| -> B
/// ```
#[cycle(typing)]
#[tactic(auto, using(crate::proofs::Judging::abstraction_domain_fails, crate::proofs::Judging::abstraction_body_fails, crate::proofs::Judging::abstraction_kind_fails, crate::proofs::Judging::abstraction_given, crate::proofs::Contexts::context_kept, crate::proofs::Contexts::context_bound, crate::proofs::Contexts::rule_types_kept, crate::proofs::Contexts::bound_types_kept, crate::proofs::Contexts::bound_types_pushed, signature_log::proofs::Keeping::keeps_further, crate::proofs::Walks::continues, crate::proofs::Walks::ready))]
fn infer_abstraction<R: Reducer>(
    r: &mut R,
    version: &Version,
    walk: &mut Walk<R::T>,
    domain: R::T,
    body: R::T,
) -> Result<R::T, TypeFault>
    requires domain { R.owns r.old domain }
    requires body { R.owns r.old body }
    requires ready { IsReady R.owns R.serves (entries_of version.now) r.old walk.old }
    ensures gives { Infers R.owns R.denotes (entries_of version.now) r.old walk.old
        (annotated (R.denotes r.old domain) (R.denotes r.old body)) r.new result walk.new.left }
    ensures continues { Continues R.owns R.denotes R.serves (entries_of version.now)
        r.old walk.old r.new walk.new }
{
    let erased = r.erase(&domain)?;
    infer_domain(r, version, walk, domain)?;
    walk.context.bind(erased)?;
    let found = infer_taken(r, version, walk, body);
    let domain = walk.context.leave();
    let codomain = not_kind(r, found?)?;
    Ok(r.build(NodeOf::Prod(domain, codomain))?)
}

/// The sort of a product.
///
/// ```text
/// G |- d : Type    G, x : |d| |- b : s    s is Type or Kind
/// ---------------------------------------------------------
/// G |- (x : d -> b) : s
/// ```
#[cycle(typing)]
#[tactic(auto, using(crate::proofs::Judging::product_domain_fails, crate::proofs::Judging::product_codomain_fails, crate::proofs::Judging::product_sort, crate::proofs::Contexts::context_kept, crate::proofs::Contexts::context_bound, crate::proofs::Contexts::rule_types_kept, crate::proofs::Contexts::bound_types_kept, crate::proofs::Contexts::bound_types_pushed, signature_log::proofs::Keeping::keeps_further, crate::proofs::Walks::continues, crate::proofs::Walks::ready))]
fn infer_product<R: Reducer>(
    r: &mut R,
    version: &Version,
    walk: &mut Walk<R::T>,
    domain: R::T,
    codomain: R::T,
) -> Result<R::T, TypeFault>
    requires domain { R.owns r.old domain }
    requires codomain { R.owns r.old codomain }
    requires ready { IsReady R.owns R.serves (entries_of version.now) r.old walk.old }
    ensures gives { Infers R.owns R.denotes (entries_of version.now) r.old walk.old
        (product (R.denotes r.old domain) (R.denotes r.old codomain)) r.new result walk.new.left }
    ensures continues { Continues R.owns R.denotes R.serves (entries_of version.now)
        r.old walk.old r.new walk.new }
{
    let erased = r.erase(&domain)?;
    infer_domain(r, version, walk, domain)?;
    walk.context.bind(erased)?;
    let found = infer_taken(r, version, walk, codomain);
    let _domain = walk.context.leave();
    as_sort(r, version, found?, &mut walk.left)
}

/// That a domain has the type `Type`.
///
/// ```text
/// G |- d : T    T has the weak head form Type
/// -------------------------------------------
/// G |- d is a domain
/// ```
#[cycle(typing)]
#[tactic(auto, using(crate::proofs::Judging::domain_infer_fails, crate::proofs::Judging::domain_star, signature_log::proofs::Keeping::keeps_further, crate::proofs::Walks::continues, crate::proofs::Walks::ready))]
pub(crate) fn infer_domain<R: Reducer>(
    r: &mut R,
    version: &Version,
    walk: &mut Walk<R::T>,
    domain: R::T,
) -> Result<(), TypeFault>
    requires domain { R.owns r.old domain }
    requires ready { IsReady R.owns R.serves (entries_of version.now) r.old walk.old }
    ensures gives { FitsDomain R.owns R.denotes (entries_of version.now) r.old walk.old
        (R.denotes r.old domain) result walk.new.left }
    ensures continues { Continues R.owns R.denotes R.serves (entries_of version.now)
        r.old walk.old r.new walk.new }
{
    let found = infer_taken(r, version, walk, domain)?;
    as_star(r, version, found, &mut walk.left)
}

/// The type of a function's application.
///
/// ```text
/// F has the weak head form x : A -> B    G |- a fits A
/// ----------------------------------------------------
/// G |- f a : B with |a| in the place of x, where f : F
/// ```
#[cycle(typing)]
#[tactic(auto, using(crate::proofs::Judging::argument_product_fails, crate::proofs::Judging::argument_check_fails, crate::proofs::Judging::argument_given_type, crate::proofs::Contexts::context_kept, crate::proofs::Contexts::rule_types_kept, crate::proofs::Contexts::bound_types_kept, signature_log::proofs::Keeping::keeps_further, crate::proofs::Walks::continues, crate::proofs::Walks::ready))]
fn apply<R: Reducer>(
    r: &mut R,
    version: &Version,
    walk: &mut Walk<R::T>,
    typ: Applied<R::T>,
    argument: R::T,
) -> Result<Applied<R::T>, TypeFault>
    requires typ { OwnsApplied R.owns R.denotes r.old typ }
    requires argument { R.owns r.old argument }
    requires ready { IsReady R.owns R.serves (entries_of version.now) r.old walk.old }
    ensures gives { Applies R.owns R.denotes (entries_of version.now) r.old walk.old
        (R.denotes r.old argument) (put_together R.owns R.denotes r.old 0 typ)
        r.new result walk.new.left }
    ensures continues { Continues R.owns R.denotes R.serves (entries_of version.now)
        r.old walk.old r.new walk.new }
{
    let function = function_of(r, version, typ, &mut walk.left)?;
    let found = applied_to(r, function.codomain, &argument)?;
    check_taken(r, version, walk, argument, function.domain)?;
    Ok(found)
}
