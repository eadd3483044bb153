//! The walk of a left side: its patterns as terms, against the types that are expected of them.
ghost use Rattle.std.specs.Prelude.{◌≡◌, IfOk, map};
ghost use Rattle.dk_model.specs.Trees.{tree};
ghost use Rattle.dk_model.specs.Signatures.{pattern as plain, abstraction_pattern};
ghost use Rattle.dk_model.specs.RuleTypingOver.{as_expected, walked, spine_walked, patterns_of, guard_walked};
ghost use Rattle.signature_log.specs.Versions.{entries_of};
ghost use Rattle.tree_typing.specs.Contexts.{bound_types};
ghost use Rattle.tree_typing.specs.Given.{Judges};
ghost use Rattle.tree_rules.specs.Founds.{found_of, walked_of};
ghost use Rattle.tree_rules.specs.Walks.{Walks, WalksHeaded, WalksSpine, WalksArgument};

use crate::found::{Found, Guard, Walked};
use crate::occurrence::{rule_variable_walked, wildcard_walked};
use crate::place::{Place, copied_context};
use crate::types::as_product_under;
use crate::variables::RuleVariable;
use dk_model::{NoMemory, Pat, Term, TypeFault, make_app, make_bare};
use signature_log::Version;
use std::alloc::Global;
use tree_typing::{Context, Evaluates, Product, depth, symbol_type, variable_type};

/// A pattern against a type, as a term.
#[cycle(walking)]
pub(crate) fn walked<E: Evaluates>(
    evaluation: &mut E,
    place: Place,
    pattern: &Pat,
    expected: Term,
    found: Found,
) -> Result<Walked, TypeFault>
    ensures gives { Walks E.evaluator place.entry (plain pattern.now) (tree expected)
        (found_of found) (E.left evaluation.old) result (E.left evaluation.new) }
{
    match pattern {
        Pat::Rvar(number, arguments) => {
            let variable = RuleVariable {
                number: *number,
                arguments: arguments.as_slice(),
            };
            rule_variable_walked(evaluation, place, variable, expected, found)
        }
        Pat::Any => wildcard_walked(evaluation, place, expected, found),
        Pat::Guard(term) => {
            Ok(guard_walked(evaluation.alloc(), place.context, term, expected, found)?)
        }
        Pat::Sym(number, arguments) => {
            let typ = symbol_type(evaluation.alloc(), place.version, *number)?;
            let term = Term::Sym(*number);
            let head = Walked { term, typ, found };
            headed_walked(evaluation, place, head, arguments.as_slice(), expected)
        }
        Pat::Var(number, arguments) => {
            let typ = variable_type(evaluation.alloc(), place.context, u64::from(*number))?;
            let term = Term::Var(u64::from(*number));
            let head = Walked { term, typ, found };
            headed_walked(evaluation, place, head, arguments.as_slice(), expected)
        }
        Pat::Abs(body) => abstraction_walked(evaluation, place, body, expected, found),
    }
}

/// A head applied to patterns, against a type.
///
/// ```text
/// h p1 .. pn : B    the equation of B and A is solved
/// ---------------------------------------------------
/// h p1 .. pn against A
/// ```
#[cycle(walking)]
fn headed_walked<E: Evaluates>(
    evaluation: &mut E,
    place: Place,
    head: Walked,
    patterns: &[Pat],
    expected: Term,
) -> Result<Walked, TypeFault>
    ensures gives { WalksHeaded E.evaluator place.entry (walked_of head)
        (patterns_of (map plain patterns.now)) (tree expected)
        (E.left evaluation.old) result (E.left evaluation.new) }
{
    let headed = spine_walked(evaluation, place, head, patterns)?;
    as_expected(evaluation, place.version, expected, headed)
}

/// An abstraction against a type, which must be a product.
///
/// ```text
/// A has the weak head form (x : D) -> B    x : D |- p against B
/// -------------------------------------------------------------
/// (x => p) against A
/// ```
#[cycle(walking)]
fn abstraction_walked<E: Evaluates>(
    evaluation: &mut E,
    place: Place,
    body: &Pat,
    expected: Term,
    found: Found,
) -> Result<Walked, TypeFault>
    ensures gives { Walks E.evaluator place.entry (abstraction_pattern (plain body.now))
        (tree expected) (found_of found) (E.left evaluation.old) result (E.left evaluation.new) }
{
    let Product { domain, codomain } = as_product_under(
        evaluation,
        place.version,
        &found.bindings,
        &expected,
    )?;
    let context = Context::Bound(&domain, place.context);
    let inner = Place {
        version: place.version,
        context: &context,
    };
    let body = walked(evaluation, inner, body, codomain, found)?;
    Ok(Walked {
        term: make_bare(evaluation.alloc(), body.term)?,
        typ: expected,
        found: body.found,
    })
}

/// A head applied to patterns, from left to right.
#[cycle(walking)]
#[tactic(auto, using(crate::proofs::Looping::pattern_fails, crate::proofs::Looping::pattern_given, crate::proofs::Looping::pattern_within, crate::proofs::Looping::behind_within))]
pub(crate) fn spine_walked<E: Evaluates>(
    evaluation: &mut E,
    place: Place,
    head: Walked,
    patterns: &[Pat],
) -> Result<Walked, TypeFault>
    ensures gives { WalksSpine E.evaluator place.entry (walked_of head)
        (patterns_of (map plain patterns.now))
        (E.left evaluation.old) result (E.left evaluation.new) }
{
    let mut head = head;
    let mut rest = patterns;
    while let [pattern, behind @ ..] = rest {
        head = argument_walked(evaluation, place, head, pattern)?;
        rest = behind;
    }
    Ok(head)
}

/// A head applied to one pattern.
///
/// ```text
/// F has the weak head form (x : A) -> B    p against A, as the term t
/// -------------------------------------------------------------------
/// h p : B with t in the place of x, where h : F
/// ```
#[cycle(walking)]
fn argument_walked<E: Evaluates>(
    evaluation: &mut E,
    place: Place,
    head: Walked,
    pattern: &Pat,
) -> Result<Walked, TypeFault>
    ensures gives { WalksArgument E.evaluator place.entry (walked_of head) (plain pattern.now)
        (E.left evaluation.old) result (E.left evaluation.new) }
{
    let Walked { term, typ, found } = head;
    let Product { domain, codomain } = as_product_under(
        evaluation,
        place.version,
        &found.bindings,
        &typ,
    )?;
    let argument = walked(evaluation, place, pattern, domain, found)?;
    let alloc = evaluation.alloc();
    let typ = codomain.substitute(alloc, 0, &argument.term)?;
    Ok(Walked {
        term: make_app(alloc, term, argument.term)?,
        typ,
        found: argument.found,
    })
}

/// A head with its patterns, where the equation of its type and the expected one is solved.
fn as_expected<E: Evaluates>(
    evaluation: &mut E,
    version: &Version,
    expected: Term,
    walked: Walked,
) -> Result<Walked, TypeFault>
    ensures gives { Judges walked_of (as_expected (E.evaluator (entries_of version.now))
        (tree expected) (walked_of walked) (E.left evaluation.old)) result (E.left evaluation.new) }
{
    let Walked { term, typ, found } = walked;
    let bindings = evaluation.solve(version, &found.bindings, &typ, &expected)?;
    Ok(Walked {
        term,
        typ: expected,
        found: found.with_bindings(bindings),
    })
}

/// A guard, which is checked once the left side is walked: its term without annotations, below the variables bound at
/// its place.
fn guard_walked(
    alloc: Global,
    context: &Context,
    term: &Term,
    expected: Term,
    found: Found,
) -> Result<Walked, NoMemory>
    ensures { IfOk result (λ w. walked_of w ≡ guard_walked (bound_types context.now)
        (tree term.now) (tree expected) (found_of found)) }
{
    let term = term.erased(alloc)?.shift(alloc, 0, depth(context)?)?;
    let guard = Guard {
        context: copied_context(alloc, context)?,
        term: term.copy(alloc)?,
        typ: expected.copy(alloc)?,
    };
    Ok(Walked {
        term,
        typ: expected,
        found: found.with_guard(guard)?,
    })
}
