//! A rule variable applied to variables: its type by its first occurrence, and the type of a later one.
ghost use Rattle.std.specs.Prelude.{◌≡◌, IfOk, map};
ghost use Rattle.dk_model.specs.Trees.{variable};
ghost use Rattle.dk_model.specs.Substitution.{substitute};
ghost use Rattle.dk_model.specs.Spines.{applied};
ghost use Rattle.dk_model.specs.Signatures.{PlainSignature};
ghost use Rattle.dk_model.specs.RuleTyping.{occurrence, outermost_first};
ghost use Rattle.signature_log.specs.Versions.{entries_of};
ghost use Rattle.signature_log.specs.Reducers.{Keeps, Makes};
ghost use Rattle.infer_check.specs.Walks.{IsReady, Continues};
ghost use Rattle.rule_check.specs.Founds.{OwnsBindings, IsRebound};
ghost use Rattle.rule_check.specs.Clauses.{BindsArgument, GivesProductOf, GivesFirst, FitsVariable, GivesStep, GivesLater};

use crate::bindings::{copy_under, into_product_under, under};
use crate::compare::bound_type;
use crate::equation::expect;
use crate::found::{Bindings, LeftWalk};
use dk_model::{Listed, NoMemory, NodeOf, TypeFault};
use infer_check::{Walk, variable_type};
use signature_log::{Reducer, Version};
use std::alloc::Global;

/// The arguments of a rule variable that stands first, and the bindings under which all types are taken.
#[derive(Drop)]
pub(crate) struct First<'a, T> {
    pub(crate) arguments: &'a [u32],
    pub(crate) bindings: &'a Bindings<T>,
}

/// The same: the arguments whose types stand in front already, and the others.
#[derive(Drop)]
struct Arguments<'a, T> {
    before: Listed<u32>,
    rest: &'a [u32],
    bindings: &'a Bindings<T>,
}

/// The type of a rule variable that stands first with these arguments, where a type is expected.
///
/// ```text
/// G |- x1 : A1    ..    G |- xn : An    Ai mentions no other variable than x1 .. x(i-1), A none than x1 .. xn
/// ----------------------------------------------------------------------------------------------------------
/// k x1 .. xn stands first against A: k : x1 : A1 -> .. -> xn : An -> A
/// ```
#[tactic(auto, using(infer_check::proofs::Contexts::context_kept, signature_log::proofs::Keeping::keeps_further, infer_check::proofs::Walks::continues, infer_check::proofs::Walks::ready))]
pub(crate) fn first_type<R: Reducer>(
    r: &mut R,
    version: &Version,
    walk: &mut Walk<R::T>,
    first: First<R::T>,
    expected: &R::T,
) -> Result<R::T, TypeFault>
    requires expected { R.owns r.old expected.now }
    requires bindings { OwnsBindings R.owns R.denotes r.old first.bindings.now }
    requires ready { IsReady R.owns R.serves (entries_of version.now) r.old walk.old }
    ensures gives { GivesFirst R.owns R.denotes (entries_of version.now) r.old walk.old.context
        first.entry.bindings.now first.entry.arguments.now
        (R.denotes r.old expected.now) walk.old.left r.new result walk.new.left }
    ensures continues { Continues R.owns R.denotes R.serves (entries_of version.now)
        r.old walk.old r.new walk.new }
{
    let First {
        arguments,
        bindings,
    } = first;
    let expected = copy_under(r, bindings, expected)?;
    let arguments = Arguments {
        before: Listed::new(r.alloc()),
        rest: arguments,
        bindings,
    };
    product_of(r, version, walk, arguments, expected)
}

/// The product of the types of the other arguments, each over the arguments before it, ending in the expected type.
#[tactic(auto, using(infer_check::proofs::Contexts::context_kept, signature_log::proofs::Keeping::keeps_further, infer_check::proofs::Walks::continues, infer_check::proofs::Walks::ready))]
fn product_of<R: Reducer>(
    r: &mut R,
    version: &Version,
    walk: &mut Walk<R::T>,
    arguments: Arguments<R::T>,
    expected: R::T,
) -> Result<R::T, TypeFault>
    requires expected { R.owns r.old expected }
    requires bindings { OwnsBindings R.owns R.denotes r.old arguments.bindings.now }
    requires ready { IsReady R.owns R.serves (entries_of version.now) r.old walk.old }
    ensures gives { GivesProductOf R.owns R.denotes (entries_of version.now) r.old walk.old.context
        arguments.entry.bindings.now arguments.entry.before arguments.entry.rest.now
        (R.denotes r.old expected) walk.old.left r.new result walk.new.left }
    ensures continues { Continues R.owns R.denotes R.serves (entries_of version.now)
        r.old walk.old r.new walk.new }
{
    let Arguments {
        before,
        rest,
        bindings,
    } = arguments;
    match rest.split_first() {
        None => bound_type(r, version, walk, before.as_slice(), expected),
        Some((first, others)) => {
            let argument = Argument {
                before: before.as_slice(),
                number: *first,
                bindings,
            };
            let domain = argument_type(r, version, walk, argument)?;
            let mut before = before;
            before.push(*first)?;
            let arguments = Arguments {
                before,
                rest: others,
                bindings,
            };
            let codomain = product_of(r, version, walk, arguments, expected)?;
            Ok(r.build(NodeOf::Prod(domain, codomain))?)
        }
    }
}

/// An argument behind those before it, and the bindings.
#[derive(Drop)]
struct Argument<'a, T> {
    before: &'a [u32],
    number: u32,
    bindings: &'a Bindings<T>,
}

/// The type of an argument over the arguments before it.
#[tactic(auto, using(infer_check::proofs::Contexts::context_kept, infer_check::proofs::Contexts::bound_types_kept, signature_log::proofs::Keeping::keeps_further, infer_check::proofs::Walks::continues, infer_check::proofs::Walks::ready))]
fn argument_type<R: Reducer>(
    r: &mut R,
    version: &Version,
    walk: &mut Walk<R::T>,
    argument: Argument<R::T>,
) -> Result<R::T, TypeFault>
    requires bindings { OwnsBindings R.owns R.denotes r.old argument.bindings.now }
    requires ready { IsReady R.owns R.serves (entries_of version.now) r.old walk.old }
    ensures gives { BindsArgument R.owns R.denotes (entries_of version.now) r.old walk.old.context
        argument.entry.bindings.now argument.entry.before.now argument.entry.number
        walk.old.left r.new result walk.new.left }
    ensures continues { Continues R.owns R.denotes R.serves (entries_of version.now)
        r.old walk.old r.new walk.new }
{
    let typ = variable_type(r, &walk.context, u64::from(argument.number))?;
    let typ = under(r, argument.bindings, typ)?;
    bound_type(r, version, walk, argument.before, typ)
}

/// The type of a term of this type applied to these variables.
#[tactic(auto, using(infer_check::proofs::Contexts::context_kept, signature_log::proofs::Keeping::keeps_further, infer_check::proofs::Walks::continues, infer_check::proofs::Walks::ready))]
pub(crate) fn later_type<R: Reducer>(
    r: &mut R,
    version: &Version,
    side: &mut LeftWalk<R::T>,
    arguments: &[u32],
    typ: R::T,
) -> Result<R::T, TypeFault>
    requires typ { R.owns r.old typ }
    requires bindings { OwnsBindings R.owns R.denotes r.old side.old.found.bindings }
    requires ready { IsReady R.owns R.serves (entries_of version.now) r.old side.old.walk }
    ensures gives { GivesLater R.owns R.denotes (entries_of version.now) r.old
        side.old.walk.context side.old.found.bindings arguments.now
        (R.denotes r.old typ) side.old.walk.left r.new side.new.found.bindings result
        side.new.walk.left }
    ensures rebound { IsRebound side.old.found side.new.found }
    ensures continues { Continues R.owns R.denotes R.serves (entries_of version.now)
        r.old side.old.walk r.new side.new.walk }
{
    let mut typ = typ;
    let mut rest = arguments;
    while let Some((first, others)) = rest.split_first() {
        typ = applied_type(r, version, side, *first, typ)?;
        rest = others;
    }
    Ok(typ)
}

/// The type of a term of this type applied to a variable.
///
/// ```text
/// F has the weak head form x : A -> B    the equation of the type of y and A is solved
/// ------------------------------------------------------------------------------------
/// t y : B with y in the place of x, where t : F
/// ```
#[tactic(auto, using(infer_check::proofs::Contexts::context_kept, signature_log::proofs::Keeping::keeps_further, infer_check::proofs::Walks::continues, infer_check::proofs::Walks::ready))]
fn applied_type<R: Reducer>(
    r: &mut R,
    version: &Version,
    side: &mut LeftWalk<R::T>,
    variable: u32,
    typ: R::T,
) -> Result<R::T, TypeFault>
    requires typ { R.owns r.old typ }
    requires bindings { OwnsBindings R.owns R.denotes r.old side.old.found.bindings }
    requires ready { IsReady R.owns R.serves (entries_of version.now) r.old side.old.walk }
    ensures gives { GivesStep R.owns R.denotes (entries_of version.now) r.old
        side.old.walk.context side.old.found.bindings variable
        (R.denotes r.old typ) side.old.walk.left r.new side.new.found.bindings result
        side.new.walk.left }
    ensures rebound { IsRebound side.old.found side.new.found }
    ensures continues { Continues R.owns R.denotes R.serves (entries_of version.now)
        r.old side.old.walk r.new side.new.walk }
{
    let function = into_product_under(r, version, &side.found.bindings, typ, &mut side.walk.left)?;
    fit_variable(r, version, side, variable, &function.domain)?;
    Ok(put_variable(r, &function.codomain, variable)?)
}

/// Solves the equation of the type of a variable and a domain.
#[tactic(auto, using(infer_check::proofs::Contexts::bound_types_kept, signature_log::proofs::Keeping::keeps_further, infer_check::proofs::Walks::continues, infer_check::proofs::Walks::ready))]
fn fit_variable<R: Reducer>(
    r: &mut R,
    version: &Version,
    side: &mut LeftWalk<R::T>,
    variable: u32,
    domain: &R::T,
) -> Result<(), TypeFault>
    requires domain { R.owns r.old domain.now }
    requires bindings { OwnsBindings R.owns R.denotes r.old side.old.found.bindings }
    requires ready { IsReady R.owns R.serves (entries_of version.now) r.old side.old.walk }
    ensures gives { FitsVariable R.owns R.denotes (entries_of version.now) r.old
        side.old.walk.context side.old.found.bindings variable
        (R.denotes r.old domain.now) side.old.walk.left r.new side.new.found.bindings result
        side.new.walk.left }
    ensures rebound { IsRebound side.old.found side.new.found }
    ensures continues { Continues R.owns R.denotes R.serves (entries_of version.now)
        r.old side.old.walk r.new side.new.walk }
{
    let typ = variable_type(r, &side.walk.context, u64::from(variable))?;
    expect(r, version, side, typ, domain)
}

/// Puts a variable in the place of variable 0.
#[tactic(auto, using(signature_log::proofs::Keeping::keeps_further))]
fn put_variable<R: Reducer>(r: &mut R, body: &R::T, number: u32) -> Result<R::T, NoMemory>
    requires { R.owns r.old body.now }
    ensures makes { IfOk result (Makes R.owns R.denotes r.new
        (substitute 0 (variable number) (R.denotes r.old body.now))) }
    ensures keeps { Keeps R.owns R.denotes r.old r.new }
    ensures serves { (S : PlainSignature) → R.serves S r.old → R.serves S r.new }
{
    let by = r.build(NodeOf::Var(u64::from(number)))?;
    r.put_in(body, &by)
}

/// A rule variable applied to these variables.
#[tactic(auto, using(signature_log::proofs::Keeping::keeps_further))]
pub(crate) fn occurrence<R: Reducer>(
    r: &mut R,
    number: u32,
    arguments: &[u32],
) -> Result<R::T, NoMemory>
    ensures makes { IfOk result (Makes R.owns R.denotes r.new (occurrence number arguments.now)) }
    ensures keeps { Keeps R.owns R.denotes r.old r.new }
    ensures serves { (S : PlainSignature) → R.serves S r.old → R.serves S r.new }
{
    let head = r.build(NodeOf::Rvar(number))?;
    applied(r, head, arguments)
}

/// A term applied to these variables.
#[tactic(auto, using(signature_log::proofs::Keeping::keeps_further))]
fn applied<R: Reducer>(r: &mut R, term: R::T, rest: &[u32]) -> Result<R::T, NoMemory>
    requires { R.owns r.old term }
    ensures makes { IfOk result (Makes R.owns R.denotes r.new
        (applied (R.denotes r.old term) (map variable rest.now))) }
    ensures keeps { Keeps R.owns R.denotes r.old r.new }
    ensures serves { (S : PlainSignature) → R.serves S r.old → R.serves S r.new }
{
    match rest {
        [] => Ok(term),
        [first, others @ ..] => {
            let argument = r.build(NodeOf::Var(u64::from(*first)))?;
            let term = r.build(NodeOf::App(term, argument))?;
            applied(r, term, others)
        }
    }
}

/// The variables bound by the pattern at a place of this depth, outermost first.
pub(crate) fn outermost_first(alloc: Global, depth: usize) -> Result<Listed<u32>, NoMemory>
    ensures { IfOk result (λ xs. xs ≡ outermost_first depth) }
{
    let mut variables = Listed::new(alloc);
    let mut left = depth;
    while left > 0 {
        left -= 1;
        match u32::try_from(left) {
            Ok(variable) => variables.push(variable)?,
            Err(_) => return Err(NoMemory),
        }
    }
    Ok(variables)
}
