//! Rule variables and wildcards of a left side.
ghost use Rattle.dk_model.specs.Trees.{tree};
ghost use Rattle.dk_model.specs.RuleTypingOver.{found_type, first_occurrence, later_occurrence, rule_variable_walked, wildcard_walked};
ghost use Rattle.signature_log.specs.Versions.{entries_of};
ghost use Rattle.tree_typing.specs.Contexts.{bound_types};
ghost use Rattle.tree_typing.specs.Given.{Judges};
ghost use Rattle.tree_rules.specs.Founds.{found_of, types_of, walked_of};

use crate::found::{Found, Posed, Walked};
use crate::place::Place;
use crate::types::{first_typed, later_type};
use crate::variables::{RuleVariable, occurrence, outermost_first};
use dk_model::{Term, TypeFault};
use tree_typing::{Evaluates, depth};

/// A rule variable that was met before, with its type, which stands outside of all binders.
#[derive(Drop)]
struct Met<'m> {
    variable: RuleVariable<'m>,
    typ: Term,
}

/// A rule variable applied to variables, against a type.
pub(crate) fn rule_variable_walked<E: Evaluates>(
    evaluation: &mut E,
    place: Place,
    variable: RuleVariable,
    expected: Term,
    found: Found,
) -> Result<Walked, TypeFault>
    ensures gives { Judges walked_of (rule_variable_walked
        (E.evaluator (entries_of place.entry.version.now)) (bound_types place.entry.context.now)
        variable.entry.number variable.entry.arguments.now
        (found_type (types_of found) variable.entry.number) (tree expected) (found_of found)
        (E.left evaluation.old)) result (E.left evaluation.new) }
{
    match found.typ(evaluation.alloc(), variable.number)? {
        None => first_occurrence(evaluation, place, variable, expected, found),
        Some(typ) => later_occurrence(evaluation, place, Met { variable, typ }, expected, found),
    }
}

/// A first occurrence, which gives the rule variable its type.
fn first_occurrence<E: Evaluates>(
    evaluation: &mut E,
    place: Place,
    variable: RuleVariable,
    expected: Term,
    found: Found,
) -> Result<Walked, TypeFault>
    ensures gives { Judges walked_of (first_occurrence
        (E.evaluator (entries_of place.entry.version.now)) (bound_types place.entry.context.now)
        variable.entry.number variable.entry.arguments.now (tree expected) (found_of found)
        (E.left evaluation.old)) result (E.left evaluation.new) }
{
    let typ = first_typed(
        evaluation,
        place,
        &found.bindings,
        variable.arguments,
        &expected,
    )?;
    let term = occurrence(evaluation.alloc(), variable)?;
    Ok(Walked {
        term,
        typ: expected,
        found: found.with_type(variable.number, typ),
    })
}

/// A later occurrence: the equation of its type and the expected one is solved.
fn later_occurrence<E: Evaluates>(
    evaluation: &mut E,
    place: Place,
    met: Met,
    expected: Term,
    found: Found,
) -> Result<Walked, TypeFault>
    ensures gives { Judges walked_of (later_occurrence
        (E.evaluator (entries_of place.entry.version.now)) (bound_types place.entry.context.now)
        met.entry.variable.number met.entry.variable.arguments.now (tree met.entry.typ)
        (tree expected) (found_of found) (E.left evaluation.old)) result (E.left evaluation.new) }
{
    let Met { variable, typ } = met;
    let alloc = evaluation.alloc();
    let typ = typ.shift(alloc, 0, depth(place.context)?)?;
    let Found {
        types,
        guards,
        bindings,
    } = found;
    let posed = later_type(
        evaluation,
        place,
        variable.arguments,
        Posed { typ, bindings },
    )?;
    let bindings = evaluation.solve(place.version, &posed.bindings, &posed.typ, &expected)?;
    Ok(Walked {
        term: occurrence(alloc, variable)?,
        typ: expected,
        found: Found {
            types,
            guards,
            bindings,
        },
    })
}

/// A wildcard: a rule variable of its own, applied to all variables that are bound there.
pub(crate) fn wildcard_walked<E: Evaluates>(
    evaluation: &mut E,
    place: Place,
    expected: Term,
    found: Found,
) -> Result<Walked, TypeFault>
    ensures gives { Judges walked_of (wildcard_walked
        (E.evaluator (entries_of place.entry.version.now)) (bound_types place.entry.context.now)
        (tree expected) (found_of found) (E.left evaluation.old)) result (E.left evaluation.new) }
{
    let alloc = evaluation.alloc();
    let variables = outermost_first(alloc, depth(place.context)?)?;
    let arguments = variables.as_slice();
    let typ = first_typed(evaluation, place, &found.bindings, arguments, &expected)?;
    let number = found.next_number()?;
    let term = occurrence(alloc, RuleVariable { number, arguments })?;
    Ok(Walked {
        term,
        typ: expected,
        found: found.with_wildcard(typ)?,
    })
}
