//! Inference (docs/typing.md).
//!
//! Applications are walked by a loop, so these functions nest as deep as brackets and binders do.
ghost use Rattle.dk_model.specs.Trees.{tree, annotated, apply};
ghost use Rattle.tree_typing.specs.Clauses.{Infers, GivesSort, GivesBodyType};
ghost use Rattle.tree_typing.specs.Steps.{GivesDomain, Applies};

use crate::checking::check;
use crate::context::depth;
use crate::expect::{as_product, as_sort, as_star, not_kind};
use crate::variables::{rule_variable_type, symbol_type, variable_type};
use crate::{Context, Evaluates, Setting};
use dk_model::{Code, Term, TypeFault, make_product, spine};

/// The type of a term.
#[cycle(typing)]
#[tactic(auto, using(crate::proofs::Steps::product_by_domain))]
pub fn infer<E: Evaluates>(
    evaluation: &mut E,
    setting: &Setting,
    context: &Context,
    term: &Term,
) -> Result<Term, TypeFault>
    ensures gives { Infers E.evaluator setting.now context.now (tree term.now)
        (E.left evaluation.old) result (E.left evaluation.new) }
{
    match term {
        Term::Star => Ok(Term::Kind),
        Term::Kind => Err(TypeFault::Refused(Code::E22)),
        Term::Sym(k) => Ok(symbol_type(evaluation.alloc(), setting.version, *k)?),
        Term::Var(k) => Ok(variable_type(evaluation.alloc(), context, *k)?),
        Term::Rvar(k) => {
            let depth = depth(context)?;
            Ok(rule_variable_type(evaluation.alloc(), setting.rule_types, depth, *k)?)
        }
        Term::App(f, a) => infer_application(evaluation, setting, context, f, a),
        Term::Abs(None, _) => Err(TypeFault::Refused(Code::E23)),
        Term::Abs(Some(d), b) => infer_abstraction(evaluation, setting, context, d, b),
        Term::Prod(d, b) => {
            let domain = infer_domain(evaluation, setting, context, d)?;
            sort_of(evaluation, setting, &Context::Bound(&domain, &*context), b)
        }
    }
}

/// The type of `f a`: that of its head, then by each argument.
#[cycle(typing)]
#[tactic(auto, using(crate::proofs::Spines::head_fails, crate::proofs::Spines::head_given, crate::proofs::Spines::argument_fails))]
fn infer_application<E: Evaluates>(
    evaluation: &mut E,
    setting: &Setting,
    context: &Context,
    f: &Term,
    a: &Term,
) -> Result<Term, TypeFault>
    ensures gives { Infers E.evaluator setting.now context.now (apply (tree f.now) (tree a.now))
        (E.left evaluation.old) result (E.left evaluation.new) }
{
    let (head, mut arguments) = spine(evaluation.alloc(), f, a)?;
    let head_type = infer(evaluation, setting, context, head)?;
    let mut typ = head_type;
    while let Some(argument) = arguments.pop() {
        typ = application_type(evaluation, setting, context, argument, &typ)?;
    }
    Ok(typ)
}

/// The type of an application, from the type of its function.
///
/// ```text
/// f : F    F has the weak head form x : A -> B    G |- a fits A
/// -------------------------------------------------------------
/// G |- f a : B with |a| in the place of x
/// ```
#[cycle(typing)]
fn application_type<E: Evaluates>(
    evaluation: &mut E,
    setting: &Setting,
    context: &Context,
    argument: &Term,
    function: &Term,
) -> Result<Term, TypeFault>
    ensures gives { Applies E.evaluator setting.now context.now
        (tree argument.now) (tree function.now)
        (E.left evaluation.old) result (E.left evaluation.new) }
{
    let product = as_product(evaluation, setting.version, Code::E20, function)?;
    check(evaluation, setting, context, argument, &product.domain)?;
    let alloc = evaluation.alloc();
    let argument = argument.erased(alloc)?;
    Ok(product.codomain.substitute(alloc, 0, &argument)?)
}

/// The type of an annotated abstraction.
///
/// ```text
/// G |- the domain |d|    G, x : |d| |- b : B    B isn't Kind
/// ----------------------------------------------------------
/// G |- (x : d => b) : x : |d| -> B
/// ```
#[cycle(typing)]
#[tactic(auto, using(crate::proofs::Steps::abstraction_by_domain, crate::proofs::Steps::abstraction_given, crate::proofs::Steps::abstraction_refused, crate::proofs::Steps::abstraction_ended))]
fn infer_abstraction<E: Evaluates>(
    evaluation: &mut E,
    setting: &Setting,
    context: &Context,
    domain: &Term,
    body: &Term,
) -> Result<Term, TypeFault>
    ensures gives { Infers E.evaluator setting.now context.now
        (annotated (tree domain.now) (tree body.now))
        (E.left evaluation.old) result (E.left evaluation.new) }
{
    let domain = infer_domain(evaluation, setting, context, domain)?;
    let codomain = body_type(
        evaluation,
        setting,
        &Context::Bound(&domain, &*context),
        body,
    )?;
    Ok(make_product(evaluation.alloc(), domain, codomain)?)
}

/// The type of the body of an abstraction or a definition, which must not be `Kind`.
#[cycle(typing)]
pub fn body_type<E: Evaluates>(
    evaluation: &mut E,
    setting: &Setting,
    context: &Context,
    body: &Term,
) -> Result<Term, TypeFault>
    ensures gives { GivesBodyType E.evaluator setting.now context.now (tree body.now)
        (E.left evaluation.old) result (E.left evaluation.new) }
{
    let found = infer(evaluation, setting, context, body)?;
    not_kind::<E>(found)
}

/// A domain without annotations, which must have the type `Type`.
///
/// ```text
/// G |- d : T    T has the weak head form Type
/// -------------------------------------------
/// G |- the domain |d|
/// ```
#[cycle(typing)]
pub(crate) fn infer_domain<E: Evaluates>(
    evaluation: &mut E,
    setting: &Setting,
    context: &Context,
    domain: &Term,
) -> Result<Term, TypeFault>
    ensures gives { GivesDomain E.evaluator setting.now context.now (tree domain.now)
        (E.left evaluation.old) result (E.left evaluation.new) }
{
    let found = infer(evaluation, setting, context, domain)?;
    as_star(evaluation, setting.version, &found)?;
    Ok(domain.erased(evaluation.alloc())?)
}

/// The sort of a type.
///
/// ```text
/// G |- t : T    T has the weak head form s, which is Type or Kind
/// ---------------------------------------------------------------
/// G |- t has the sort s
/// ```
#[cycle(typing)]
pub fn sort_of<E: Evaluates>(
    evaluation: &mut E,
    setting: &Setting,
    context: &Context,
    term: &Term,
) -> Result<Term, TypeFault>
    ensures gives { GivesSort E.evaluator setting.now context.now (tree term.now)
        (E.left evaluation.old) result (E.left evaluation.new) }
{
    let found = infer(evaluation, setting, context, term)?;
    as_sort(evaluation, setting.version, &found)
}
