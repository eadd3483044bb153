//! The type of a rule variable by its first occurrence, and the type of a later one.
ghost use Rattle.dk_model.specs.Trees.{tree};
ghost use Rattle.dk_model.specs.Bindings.{under};
ghost use Rattle.dk_model.specs.TypingOver.{as_product};
ghost use Rattle.dk_model.specs.RuleTypingOver.{confined, bound_type, first_type, first_typed, later_type};
ghost use Rattle.dk_model.specs.declared.code.Code.TheVariants.{E34};
ghost use Rattle.signature_log.specs.Versions.{entries_of};
ghost use Rattle.tree_typing.specs.Contexts.{bound_types};
ghost use Rattle.tree_typing.specs.Given.{Judges, parts, bindings as bindings_of};
ghost use Rattle.tree_rules.specs.Founds.{posed_of};

use crate::found::Posed;
use crate::place::{Place, context_under};
use dk_model::{Code, Listed, Term, TypeFault, make_product};
use signature_log::Version;
use tree_terms::{mentions_others, renamed, under};
use tree_typing::{Bindings, Context, Evaluates, Product, as_product, depth, variable_type};

/// A type that of the `depth` variables of the pattern may mention only these: its normal form where it mentions
/// another, which mustn't (E35).
pub(crate) fn confined<E: Evaluates>(
    evaluation: &mut E,
    version: &Version,
    depth: u64,
    variables: &[u32],
    typ: Term,
) -> Result<Term, TypeFault>
    ensures gives { Judges tree (confined (E.evaluator (entries_of version.now)) depth
        variables.now (tree typ) (E.left evaluation.old)) result (E.left evaluation.new) }
{
    if !mentions_others(0, depth, variables, &typ)? {
        return Ok(typ);
    }
    let typ = evaluation.normal(version, &typ)?;
    if mentions_others(0, depth, variables, &typ)? {
        return Err(TypeFault::Refused(Code::E35));
    }
    Ok(typ)
}

/// A confined type, as it stands behind the binders of these variables.
pub(crate) fn bound_type<E: Evaluates>(
    evaluation: &mut E,
    place: Place,
    variables: &[u32],
    typ: Term,
) -> Result<Term, TypeFault>
    ensures gives { Judges tree (bound_type (E.evaluator (entries_of place.entry.version.now))
        (bound_types place.entry.context.now) variables.now (tree typ) (E.left evaluation.old))
        result (E.left evaluation.new) }
{
    let depth = depth(place.context)?;
    let typ = confined(evaluation, place.version, depth, variables, typ)?;
    Ok(renamed(evaluation.alloc(), 0, depth, variables, &typ)?)
}

/// The type of a rule variable that stands first with these arguments, where a type is expected: the product of the
/// types of the variables, each over those before it, ending in the expected type.
///
/// ```text
/// Ai mentions, of the variables of the pattern, no other than x1 .. x(i-1), A none but x1 .. xn
/// ---------------------------------------------------------------------------------------------
/// k x1 .. xn stands first against A: k : (x1 : A1) -> .. -> (xn : An) -> A
/// ```
pub(crate) fn first_type<E: Evaluates>(
    evaluation: &mut E,
    place: Place,
    before: Listed<u32>,
    variables: &[u32],
    expected: Term,
) -> Result<Term, TypeFault>
    ensures gives { Judges tree (first_type (E.evaluator (entries_of place.entry.version.now))
        (bound_types place.entry.context.now) before variables.now (tree expected)
        (E.left evaluation.old)) result (E.left evaluation.new) }
{
    match variables {
        [] => bound_type(evaluation, place, before.as_slice(), expected),
        [first, rest @ ..] => {
            let typ = variable_type(evaluation.alloc(), place.context, u64::from(*first))?;
            let domain = bound_type(evaluation, place, before.as_slice(), typ)?;
            let mut before = before;
            before.push(*first)?;
            let codomain = first_type(evaluation, place, before, rest, expected)?;
            Ok(make_product(evaluation.alloc(), domain, codomain)?)
        }
    }
}

/// The same where all types are taken under the bindings.
pub(crate) fn first_typed<E: Evaluates>(
    evaluation: &mut E,
    place: Place,
    bindings: &Bindings,
    variables: &[u32],
    expected: &Term,
) -> Result<Term, TypeFault>
    ensures gives { Judges tree (first_typed (E.evaluator (entries_of place.entry.version.now))
        (bindings_of bindings.now) (bound_types place.entry.context.now) variables.now
        (tree expected.now) (E.left evaluation.old)) result (E.left evaluation.new) }
{
    let alloc = evaluation.alloc();
    let types = context_under(alloc, bindings, place.context)?;
    let expected = under(alloc, bindings.terms.as_slice(), expected)?;
    let context = Context::Outer(types.as_slice());
    let place = Place {
        version: place.version,
        context: &context,
    };
    first_type(evaluation, place, Listed::new(alloc), variables, expected)
}

/// The parts of a type under the bindings, which must be a product (E34).
pub(crate) fn as_product_under<E: Evaluates>(
    evaluation: &mut E,
    version: &Version,
    bindings: &Bindings,
    typ: &Term,
) -> Result<Product, TypeFault>
    ensures gives { Judges parts (as_product (E.evaluator (entries_of version.now)) E34
        (under (bindings_of bindings.now) (tree typ.now)) (E.left evaluation.old))
        result (E.left evaluation.new) }
{
    let typ = under(evaluation.alloc(), bindings.terms.as_slice(), typ)?;
    as_product(evaluation, version, Code::E34, &typ)
}

/// The type of a term of this type applied to these variables.
///
/// ```text
/// F has the weak head form (x : A) -> B    the equation of the type of y and A is solved
/// --------------------------------------------------------------------------------------
/// t y : B with y in the place of x, where t : F
/// ```
pub(crate) fn later_type<E: Evaluates>(
    evaluation: &mut E,
    place: Place,
    variables: &[u32],
    posed: Posed,
) -> Result<Posed, TypeFault>
    ensures gives { Judges posed_of (later_type (E.evaluator (entries_of place.entry.version.now))
        (bound_types place.entry.context.now) variables.now (tree posed.typ)
        (bindings_of posed.bindings) (E.left evaluation.old)) result (E.left evaluation.new) }
{
    match variables {
        [] => Ok(posed),
        [first, rest @ ..] => {
            let Posed { typ, bindings } = posed;
            let function = as_product_under(evaluation, place.version, &bindings, &typ)?;
            let alloc = evaluation.alloc();
            let argument = variable_type(alloc, place.context, u64::from(*first))?;
            let bindings = evaluation.solve(place.version, &bindings, &argument, &function.domain)?;
            let variable = Term::Var(u64::from(*first));
            let typ = function.codomain.substitute(alloc, 0, &variable)?;
            later_type(evaluation, place, rest, Posed { typ, bindings })
        }
    }
}
