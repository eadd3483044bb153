//! Checking (docs/typing.md).
ghost use Rattle.dk_model.specs.Trees.{tree};
ghost use Rattle.tree_typing.specs.Clauses.{Checks};
ghost use Rattle.tree_typing.specs.Steps.{FitsAnnotation};

use crate::expect::{as_convertible, as_product};
use crate::inference::{infer, infer_domain};
use crate::{Context, Evaluates, Setting};
use dk_model::{Code, Term, TypeFault};

/// That a term fits a type: that it is an abstraction that does, or that its type is convertible with this one.
///
/// ```text
/// G |- t : U    U is convertible with T
/// -------------------------------------
/// G |- t fits T, where t is no abstraction
///
/// T has the weak head form x : A -> B    G, x : A |- b fits B
/// -----------------------------------------------------------
/// G |- (x => b) fits T
///
/// T has the weak head form x : A -> B    G |- d is the domain A    G, x : A |- b fits B
/// -------------------------------------------------------------------------------------
/// G |- (x : d => b) fits T
/// ```
#[cycle(typing)]
#[tactic(auto, using(crate::proofs::Steps::annotated_by_annotation, dk_model::proofs::Inference::checked_by_inference))]
pub fn check<E: Evaluates>(
    evaluation: &mut E,
    setting: &Setting,
    context: &Context,
    term: &Term,
    expected: &Term,
) -> Result<(), TypeFault>
    ensures gives { Checks E.evaluator setting.now context.now (tree term.now) (tree expected.now)
        (E.left evaluation.old) result (E.left evaluation.new) }
{
    match term {
        Term::Abs(None, body) => {
            let product = as_product(evaluation, setting.version, Code::E24, expected)?;
            let inner = Context::Bound(&product.domain, &*context);
            check(evaluation, setting, &inner, body, &product.codomain)
        }
        Term::Abs(Some(annotation), body) => {
            let product = as_product(evaluation, setting.version, Code::E24, expected)?;
            check_annotation(evaluation, setting, context, annotation, &product.domain)?;
            let inner = Context::Bound(&product.domain, &*context);
            check(evaluation, setting, &inner, body, &product.codomain)
        }
        _ => {
            let found = infer(evaluation, setting, context, term)?;
            as_convertible(evaluation, setting.version, Code::E21, &found, expected)
        }
    }
}

/// That an annotation is the domain that its abstraction must have.
///
/// ```text
/// G |- d : Type    |d| is convertible with A
/// ------------------------------------------
/// G |- d is the domain A
/// ```
#[cycle(typing)]
fn check_annotation<E: Evaluates>(
    evaluation: &mut E,
    setting: &Setting,
    context: &Context,
    annotation: &Term,
    domain: &Term,
) -> Result<(), TypeFault>
    ensures gives { FitsAnnotation E.evaluator setting.now context.now
        (tree annotation.now) (tree domain.now)
        (E.left evaluation.old) result (E.left evaluation.new) }
{
    let annotation = infer_domain(evaluation, setting, context, annotation)?;
    as_convertible(evaluation, setting.version, Code::E21, &annotation, domain)
}
