//! Rule variables and wildcards of a left side.
ghost use Rattle.std.specs.Prelude.{◌≡◌, IfOk, length};
ghost use Rattle.dk_model.specs.Signatures.{PlainSignature};
ghost use Rattle.signature_log.specs.Versions.{entries_of};
ghost use Rattle.signature_log.specs.Reducers.{Keeps};
ghost use Rattle.infer_check.specs.Walks.{IsReady, Continues};
ghost use Rattle.rule_check.specs.Founds.{OwnsBindings, OwnsFound, IsRebound};
ghost use Rattle.rule_check.specs.Given.{IsKnown, GivesBindings};
ghost use Rattle.rule_check.specs.Clauses.{later_due, Meets, MeetsFirst, WalksVariable, WalksWildcard};

use crate::equation::expect;
use crate::found::LeftWalk;
use crate::occurrence::{First, first_type, later_type, occurrence, outermost_first};
use dk_model::{NoMemory, TypeFault};
use signature_log::{Reducer, Version};

/// A rule variable applied to variables.
#[derive(Clone, Copy)]
pub(crate) struct RuleVariable<'a> {
    pub(crate) number: u32,
    pub(crate) arguments: &'a [u32],
}

/// A rule variable that was met before: its type, as it stands at this place, and its arguments.
#[derive(Drop)]
struct Met<'a, T> {
    typ: T,
    arguments: &'a [u32],
}

/// A rule variable applied to variables, against a type.
#[tactic(auto, using(infer_check::proofs::Contexts::context_kept, signature_log::proofs::Keeping::keeps_further, infer_check::proofs::Walks::continues, infer_check::proofs::Walks::ready))]
pub(crate) fn walk_variable<R: Reducer>(
    r: &mut R,
    version: &Version,
    side: &mut LeftWalk<R::T>,
    variable: &RuleVariable,
    expected: &R::T,
) -> Result<R::T, TypeFault>
    requires expected { R.owns r.old expected.now }
    requires found { OwnsFound R.owns R.denotes r.old side.old.found }
    requires ready { IsReady R.owns R.serves (entries_of version.now) r.old side.old.walk }
    ensures gives { WalksVariable R.owns R.denotes (entries_of version.now) r.old
        side.old.walk.context
        side.old.found variable.now.number variable.now.arguments.now (R.denotes r.old expected.now)
        side.old.walk.left r.new side.new.found result side.new.walk.left }
    ensures continues { Continues R.owns R.denotes R.serves (entries_of version.now)
        r.old side.old.walk r.new side.new.walk }
{
    meet_variable(r, version, side, variable, expected)?;
    Ok(occurrence(r, variable.number, variable.arguments)?)
}

/// The type of a rule variable by its first occurrence; that the type of a later one is convertible with the expected.
#[tactic(auto, using(infer_check::proofs::Contexts::context_kept, signature_log::proofs::Keeping::keeps_further, infer_check::proofs::Walks::continues, infer_check::proofs::Walks::ready))]
fn meet_variable<R: Reducer>(
    r: &mut R,
    version: &Version,
    side: &mut LeftWalk<R::T>,
    variable: &RuleVariable,
    expected: &R::T,
) -> Result<(), TypeFault>
    requires expected { R.owns r.old expected.now }
    requires found { OwnsFound R.owns R.denotes r.old side.old.found }
    requires ready { IsReady R.owns R.serves (entries_of version.now) r.old side.old.walk }
    ensures gives { Meets R.owns R.denotes (entries_of version.now) r.old side.old.walk.context
        side.old.found variable.now.number variable.now.arguments.now (R.denotes r.old expected.now)
        side.old.walk.left r.new side.new.found result side.new.walk.left }
    ensures continues { Continues R.owns R.denotes R.serves (entries_of version.now)
        r.old side.old.walk r.new side.new.walk }
{
    match known_type(r, side, variable.number)? {
        None => meet_first(r, version, side, variable, expected),
        Some(typ) => {
            let met = Met {
                typ,
                arguments: variable.arguments,
            };
            fit_later(r, version, side, met, expected)
        }
    }
}

/// The type that a rule variable has already, as it stands at this place.
fn known_type<R: Reducer>(
    r: &mut R,
    side: &LeftWalk<R::T>,
    number: u32,
) -> Result<Option<R::T>, NoMemory>
    requires { OwnsFound R.owns R.denotes r.old side.now.found }
    ensures known { IfOk result
        (IsKnown R.owns R.denotes r.old side.now.found number
        (length side.now.walk.context.bound) r.new) }
    ensures keeps { Keeps R.owns R.denotes r.old r.new }
    ensures serves { (S : PlainSignature) → R.serves S r.old → R.serves S r.new }
{
    match side.found.typ(number) {
        Some(typ) => Ok(Some(r.shift(typ, side.walk.context.bound.len() as u64)?)),
        None => Ok(None),
    }
}

/// A first occurrence.
#[tactic(auto, using(infer_check::proofs::Contexts::context_kept, signature_log::proofs::Keeping::keeps_further, infer_check::proofs::Walks::continues, infer_check::proofs::Walks::ready))]
fn meet_first<R: Reducer>(
    r: &mut R,
    version: &Version,
    side: &mut LeftWalk<R::T>,
    variable: &RuleVariable,
    expected: &R::T,
) -> Result<(), TypeFault>
    requires expected { R.owns r.old expected.now }
    requires found { OwnsFound R.owns R.denotes r.old side.old.found }
    requires ready { IsReady R.owns R.serves (entries_of version.now) r.old side.old.walk }
    ensures gives { MeetsFirst R.owns R.denotes (entries_of version.now) r.old side.old.walk.context
        side.old.found variable.now.number variable.now.arguments.now (R.denotes r.old expected.now)
        side.old.walk.left r.new side.new.found result side.new.walk.left }
    ensures continues { Continues R.owns R.denotes R.serves (entries_of version.now)
        r.old side.old.walk r.new side.new.walk }
{
    let first = First {
        arguments: variable.arguments,
        bindings: &side.found.bindings,
    };
    let typ = first_type(r, version, &mut side.walk, first, expected)?;
    side.found.set(variable.number, typ);
    Ok(())
}

/// Solves the equation of the type of a later occurrence of a rule variable, whose type stands as at this place, and the
/// expected type.
#[tactic(auto, using(infer_check::proofs::Contexts::context_kept, signature_log::proofs::Keeping::keeps_further, infer_check::proofs::Walks::continues, infer_check::proofs::Walks::ready))]
fn fit_later<R: Reducer>(
    r: &mut R,
    version: &Version,
    side: &mut LeftWalk<R::T>,
    met: Met<R::T>,
    expected: &R::T,
) -> Result<(), TypeFault>
    requires typ { R.owns r.old met.typ }
    requires expected { R.owns r.old expected.now }
    requires bindings { OwnsBindings R.owns R.denotes r.old side.old.found.bindings }
    requires ready { IsReady R.owns R.serves (entries_of version.now) r.old side.old.walk }
    ensures gives { GivesBindings R.owns R.denotes (later_due R.denotes (entries_of version.now)
        r.old side.old.walk.context side.old.found.bindings met.entry.arguments.now
        (R.denotes r.old met.entry.typ)
        (R.denotes r.old expected.now) side.old.walk.left) r.new side.new.found.bindings
        result side.new.walk.left }
    ensures rebound { IsRebound side.old.found side.new.found }
    ensures continues { Continues R.owns R.denotes R.serves (entries_of version.now)
        r.old side.old.walk r.new side.new.walk }
{
    let Met { typ, arguments } = met;
    let typ = later_type(r, version, side, arguments, typ)?;
    expect(r, version, side, typ, expected)
}

/// A wildcard against a type: a rule variable of its own, applied to all variables that are bound there. Takes no unit.
#[tactic(auto, using(infer_check::proofs::Contexts::context_kept, signature_log::proofs::Keeping::keeps_further, infer_check::proofs::Walks::continues, infer_check::proofs::Walks::ready))]
pub(crate) fn walk_wildcard<R: Reducer>(
    r: &mut R,
    version: &Version,
    side: &mut LeftWalk<R::T>,
    expected: &R::T,
) -> Result<R::T, TypeFault>
    requires expected { R.owns r.old expected.now }
    requires found { OwnsFound R.owns R.denotes r.old side.old.found }
    requires ready { IsReady R.owns R.serves (entries_of version.now) r.old side.old.walk }
    ensures gives { WalksWildcard R.owns R.denotes (entries_of version.now) r.old
        side.old.walk.context side.old.found
        (R.denotes r.old expected.now) side.old.walk.left r.new side.new.found result
        side.new.walk.left }
    ensures continues { Continues R.owns R.denotes R.serves (entries_of version.now)
        r.old side.old.walk r.new side.new.walk }
{
    let variables = outermost_first(r.alloc(), side.walk.context.bound.len())?;
    let first = First {
        arguments: variables.as_slice(),
        bindings: &side.found.bindings,
    };
    let typ = first_type(r, version, &mut side.walk, first, expected)?;
    let number = side.found.push_type(typ)?;
    Ok(occurrence(r, number, variables.as_slice())?)
}
