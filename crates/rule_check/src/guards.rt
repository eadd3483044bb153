//! Guards: as terms below the variables bound at their place, kept until the left side is walked, and checked then.
ghost use Rattle.std.specs.Prelude.{◌≤◌, IfOk};
ghost use Rattle.dk_model.specs.Trees.{tree};
ghost use Rattle.dk_model.specs.Erasure.{erased};
ghost use Rattle.dk_model.specs.Substitution.{shift};
ghost use Rattle.dk_model.specs.Signatures.{PlainSignature};
ghost use Rattle.signature_log.specs.Versions.{entries_of};
ghost use Rattle.signature_log.specs.Reducers.{Keeps, Makes, AreOwned};
ghost use Rattle.infer_check.specs.Contexts.{OwnsContext};
ghost use Rattle.infer_check.specs.Walks.{Follows};
ghost use Rattle.rule_check.specs.Founds.{OwnsBindings, OwnsGuard, OwnsFound, AreTypesUnder, IsGuardUnder};
ghost use Rattle.rule_check.specs.Given.{IsCopied, IsGuardAt, GivesTypes};
ghost use Rattle.rule_check.specs.Clauses.{guard_due, guards_due};

use crate::bindings::copy_under;
use crate::found::{Bindings, Found, Guard};
use dk_model::{Listed, NoMemory, Term, TypeFault};
use infer_check::{Context, Walk, check};
use signature_log::{Reducer, Version};

/// The term of a guard without annotations, below this many bound variables.
#[tactic(auto, using(signature_log::proofs::Keeping::keeps_further))]
pub(crate) fn guard_term<R: Reducer>(r: &mut R, depth: u64, term: &Term) -> Result<R::T, NoMemory>
    ensures makes { IfOk result
        (Makes R.owns R.denotes r.new (shift 0 depth (erased (tree term.now)))) }
    ensures keeps { Keeps R.owns R.denotes r.old r.new }
    ensures serves { (S : PlainSignature) → R.serves S r.old → R.serves S r.new }
{
    let loaded = r.load(term)?;
    let erased = r.erase(&loaded)?;
    r.shift(&erased, depth)
}

/// Second values for these types.
#[tactic(auto, using(signature_log::proofs::Keeping::keeps_none))]
fn copies<R: Reducer>(r: &mut R, types: &[R::T]) -> Result<Listed<R::T>, NoMemory>
    requires { AreOwned R.owns r.old types.now }
    ensures copies { IfOk result (IsCopied R.owns R.denotes r.old types.now r.new) }
    ensures keeps { Keeps R.owns R.denotes r.old r.new }
    ensures serves { (S : PlainSignature) → R.serves S r.old → R.serves S r.new }
{
    let mut copies = Listed::new(r.alloc());
    let mut rest = types;
    while let Some((first, others)) = rest.split_first() {
        let copy = r.copy(first)?;
        copies.push(copy)?;
        rest = others;
    }
    Ok(copies)
}

/// These types under the bindings.
#[tactic(auto, using(signature_log::proofs::Keeping::keeps_none))]
fn types_under<R: Reducer>(
    r: &mut R,
    bindings: &Bindings<R::T>,
    types: &[R::T],
) -> Result<Listed<R::T>, NoMemory>
    requires types { AreOwned R.owns r.old types.now }
    requires bindings { OwnsBindings R.owns R.denotes r.old bindings.now }
    ensures under { IfOk result
        (AreTypesUnder R.owns R.denotes r.old bindings.now types.now r.new) }
    ensures keeps { Keeps R.owns R.denotes r.old r.new }
    ensures serves { (S : PlainSignature) → R.serves S r.old → R.serves S r.new }
{
    let mut all = Listed::new(r.alloc());
    let mut rest = types;
    while let Some((first, others)) = rest.split_first() {
        let typ = copy_under(r, bindings, first)?;
        all.push(typ)?;
        rest = others;
    }
    Ok(all)
}

/// A guard under the bindings.
fn guard_under<R: Reducer>(
    r: &mut R,
    bindings: &Bindings<R::T>,
    guard: &Guard<R::T>,
) -> Result<Guard<R::T>, NoMemory>
    requires guard { OwnsGuard R.owns r.old guard.now }
    requires bindings { OwnsBindings R.owns R.denotes r.old bindings.now }
    ensures under { IfOk result
        (IsGuardUnder R.owns R.denotes r.old bindings.now guard.now r.new) }
    ensures keeps { Keeps R.owns R.denotes r.old r.new }
    ensures serves { (S : PlainSignature) → R.serves S r.old → R.serves S r.new }
{
    let bound = types_under(r, bindings, guard.bound.as_slice())?;
    let term = copy_under(r, bindings, &guard.term)?;
    let typ = copy_under(r, bindings, &guard.typ)?;
    Ok(Guard { bound, term, typ })
}

/// The guard of this term at a place.
pub(crate) fn guard_at<R: Reducer>(
    r: &mut R,
    context: &Context<R::T>,
    term: &R::T,
    typ: &R::T,
) -> Result<Guard<R::T>, NoMemory>
    requires context { OwnsContext R.owns r.old context.now }
    requires term { R.owns r.old term.now }
    requires typ { R.owns r.old typ.now }
    ensures guard { IfOk result
        (IsGuardAt R.owns R.denotes r.old context.now term.now typ.now r.new) }
    ensures keeps { Keeps R.owns R.denotes r.old r.new }
    ensures serves { (S : PlainSignature) → R.serves S r.old → R.serves S r.new }
{
    let bound = copies(r, context.bound.as_slice())?;
    let term = r.copy(term)?;
    let typ = r.copy(typ)?;
    Ok(Guard { bound, term, typ })
}

/// That a guard fits the type at its place, where the rule variables have these types. Gives them back.
#[tactic(auto, using(signature_log::proofs::Keeping::keeps_none, signature_log::proofs::Keeping::keeps_further, infer_check::proofs::Walks::follows))]
fn check_guard<R: Reducer>(
    r: &mut R,
    version: &Version,
    types: Listed<R::T>,
    guard: Guard<R::T>,
    left: &mut u64,
) -> Result<Listed<R::T>, TypeFault>
    requires types { AreOwned R.owns r.old types }
    requires guard { OwnsGuard R.owns r.old guard }
    requires serves { R.serves (entries_of version.now) r.old }
    ensures gives { GivesTypes types
        (guard_due R.denotes (entries_of version.now) r.old types guard left.old)
        result left.new }
    ensures follows { Follows R.owns R.denotes R.serves (entries_of version.now) r.old r.new }
    ensures spent { left.new ≤ left.old }
{
    let Guard { bound, term, typ } = guard;
    let context = Context {
        rule_vars: types,
        bound,
    };
    let mut walk = Walk {
        context,
        left: *left,
    };
    let fits = check(r, version, &mut walk, &term, &typ);
    *left = walk.left;
    fits?;
    Ok(walk.context.rule_vars)
}

/// The same for each guard under the bindings, from left to right, where the rule variables have these types.
#[tactic(auto, using(signature_log::proofs::Keeping::keeps_none, signature_log::proofs::Keeping::keeps_further, infer_check::proofs::Walks::follows))]
pub(crate) fn check_guards<R: Reducer>(
    r: &mut R,
    version: &Version,
    types: Listed<R::T>,
    found: &Found<R::T>,
    left: &mut u64,
) -> Result<Listed<R::T>, TypeFault>
    requires types { AreOwned R.owns r.old types }
    requires found { OwnsFound R.owns R.denotes r.old found.now }
    requires serves { R.serves (entries_of version.now) r.old }
    ensures gives { GivesTypes types
        (guards_due R.denotes (entries_of version.now) r.old types found.now left.old)
        result left.new }
    ensures follows { Follows R.owns R.denotes R.serves (entries_of version.now) r.old r.new }
    ensures spent { left.new ≤ left.old }
{
    let mut types = types;
    let mut rest = found.guards.as_slice();
    while let Some((guard, others)) = rest.split_first() {
        let guard = guard_under(r, &found.bindings, guard)?;
        types = check_guard(r, version, types, guard, left)?;
        rest = others;
    }
    Ok(types)
}
