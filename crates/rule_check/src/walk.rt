//! The walk of a left side: its patterns as terms, against the types that are expected of them.
ghost use Rattle.std.specs.Prelude.{◌≡◌, IfOk, map};
ghost use Rattle.dk_model.specs.Trees.{symbol, variable, tree};
ghost use Rattle.dk_model.specs.Substitution.{substitute};
ghost use Rattle.dk_model.specs.Signatures.{pattern as plain, PlainSignature, abstraction_pattern, guard_pattern};
ghost use Rattle.dk_model.specs.Typing.{symbol_type, variable_type};
ghost use Rattle.dk_model.specs.RuleTyping.{patterns_of};
ghost use Rattle.signature_log.specs.Versions.{entries_of};
ghost use Rattle.signature_log.specs.Reducers.{Keeps};
ghost use Rattle.infer_check.specs.Contexts.{bound_types, OwnsContext};
ghost use Rattle.infer_check.specs.Walks.{IsReady, Continues};
ghost use Rattle.rule_check.specs.Founds.{OwnsFound};
ghost use Rattle.rule_check.specs.Given.{IsHeaded, IsApplied, OwnsHeaded};
ghost use Rattle.rule_check.specs.Clauses.{Walks, WalksHeaded, WalksArgument, WalksSpine};

use crate::bindings::{as_product_under, into_product_under};
use crate::equation::expect;
use crate::found::{Headed, LeftWalk};
use crate::guards::{guard_at, guard_term};
use crate::variables::{RuleVariable, walk_variable, walk_wildcard};
use dk_model::{NoMemory, NodeOf, Pat, Term, TypeFault};
use infer_check::{Context, symbol_type, variable_type};
use signature_log::{Reducer, Version};

/// A head and the patterns that it is applied to.
#[derive(Drop)]
pub(crate) struct Application<'a, T> {
    pub(crate) head: Headed<T>,
    pub(crate) arguments: &'a [Pat],
}

/// A symbol as a head.
#[tactic(auto, using(signature_log::proofs::Keeping::keeps_further))]
pub(crate) fn symbol_head<R: Reducer>(
    r: &mut R,
    version: &Version,
    number: u32,
) -> Result<Headed<R::T>, NoMemory>
    ensures head { IfOk result (IsHeaded R.owns R.denotes (symbol number)
        (symbol_type (entries_of version.now) number) r.new) }
    ensures keeps { Keeps R.owns R.denotes r.old r.new }
    ensures serves { (S : PlainSignature) → R.serves S r.old → R.serves S r.new }
{
    let term = r.build(NodeOf::Sym(number))?;
    let typ = symbol_type(r, version, number)?;
    Ok(Headed { term, typ })
}

/// A variable that the pattern binds as a head.
fn variable_head<R: Reducer>(
    r: &mut R,
    context: &Context<R::T>,
    number: u32,
) -> Result<Headed<R::T>, NoMemory>
    requires { OwnsContext R.owns r.old context.now }
    ensures head { IfOk result (IsHeaded R.owns R.denotes (variable number)
        (variable_type (bound_types R.denotes r.old context.now) number) r.new) }
    ensures keeps { Keeps R.owns R.denotes r.old r.new }
    ensures serves { (S : PlainSignature) → R.serves S r.old → R.serves S r.new }
{
    let typ = variable_type(r, context, u64::from(number))?;
    let term = r.build(NodeOf::Var(u64::from(number)))?;
    Ok(Headed { term, typ })
}

/// A pattern against a type, as a term.
///
/// The context of the walk has the types of the variables that are bound there, and is at exit as at entry.
#[cycle(walking)]
#[tactic(auto, using(signature_log::proofs::Keeping::keeps_none, signature_log::proofs::Keeping::keeps_further, infer_check::proofs::Walks::continues, infer_check::proofs::Walks::ready))]
fn walk<R: Reducer>(
    r: &mut R,
    version: &Version,
    side: &mut LeftWalk<R::T>,
    pattern: &Pat,
    expected: &R::T,
) -> Result<R::T, TypeFault>
    requires expected { R.owns r.old expected.now }
    requires found { OwnsFound R.owns R.denotes r.old side.old.found }
    requires ready { IsReady R.owns R.serves (entries_of version.now) r.old side.old.walk }
    ensures gives { Walks R.owns R.denotes (entries_of version.now) r.old side.old.walk.context
        side.old.found
        (plain pattern.now) (R.denotes r.old expected.now)
        side.old.walk.left r.new side.new.found result side.new.walk.left }
    ensures continues { Continues R.owns R.denotes R.serves (entries_of version.now)
        r.old side.old.walk r.new side.new.walk }
{
    match pattern {
        Pat::Rvar(number, arguments) => {
            let variable = RuleVariable {
                number: *number,
                arguments: arguments.as_slice(),
            };
            walk_variable(r, version, side, &variable, expected)
        }
        Pat::Any => walk_wildcard(r, version, side, expected),
        Pat::Guard(term) => walk_guard(r, version, side, term, expected),
        Pat::Sym(number, arguments) => {
            let head = symbol_head(r, version, *number)?;
            let arguments = arguments.as_slice();
            walk_headed(r, version, side, Application { head, arguments }, expected)
        }
        Pat::Var(number, arguments) => {
            let head = variable_head(r, &side.walk.context, *number)?;
            let arguments = arguments.as_slice();
            walk_headed(r, version, side, Application { head, arguments }, expected)
        }
        Pat::Abs(body) => walk_abstraction(r, version, side, body, expected),
    }
}

/// A guard, which is checked once the left side is walked. Takes no unit.
#[tactic(auto, using(signature_log::proofs::Keeping::keeps_none, signature_log::proofs::Keeping::keeps_further, infer_check::proofs::Walks::continues, infer_check::proofs::Walks::ready))]
fn walk_guard<R: Reducer>(
    r: &mut R,
    version: &Version,
    side: &mut LeftWalk<R::T>,
    term: &Term,
    expected: &R::T,
) -> Result<R::T, TypeFault>
    requires expected { R.owns r.old expected.now }
    requires found { OwnsFound R.owns R.denotes r.old side.old.found }
    requires ready { IsReady R.owns R.serves (entries_of version.now) r.old side.old.walk }
    ensures gives { Walks R.owns R.denotes (entries_of version.now) r.old side.old.walk.context
        side.old.found
        (guard_pattern (tree term.now)) (R.denotes r.old expected.now)
        side.old.walk.left r.new side.new.found result side.new.walk.left }
    ensures continues { Continues R.owns R.denotes R.serves (entries_of version.now)
        r.old side.old.walk r.new side.new.walk }
{
    let _ = version;
    let term = guard_term(r, side.walk.context.bound.len() as u64, term)?;
    let guard = guard_at(r, &side.walk.context, &term, expected)?;
    side.found.push_guard(guard)?;
    Ok(term)
}

/// A head applied to patterns, where the equation of its type and the expected one is solved.
///
/// ```text
/// G |- h p1 .. pn : B    the equation of B and A is solved
/// --------------------------------------------------------
/// G |- h p1 .. pn against A
/// ```
#[cycle(walking)]
#[tactic(auto, using(signature_log::proofs::Keeping::keeps_none, signature_log::proofs::Keeping::keeps_further, infer_check::proofs::Walks::continues, infer_check::proofs::Walks::ready))]
fn walk_headed<R: Reducer>(
    r: &mut R,
    version: &Version,
    side: &mut LeftWalk<R::T>,
    application: Application<R::T>,
    expected: &R::T,
) -> Result<R::T, TypeFault>
    requires head { OwnsHeaded R.owns r.old application.head }
    requires expected { R.owns r.old expected.now }
    requires found { OwnsFound R.owns R.denotes r.old side.old.found }
    requires ready { IsReady R.owns R.serves (entries_of version.now) r.old side.old.walk }
    ensures gives { WalksHeaded R.owns R.denotes (entries_of version.now) r.old
        side.old.walk.context side.old.found
        application.entry.head (patterns_of (map plain application.entry.arguments.now))
        (R.denotes r.old expected.now)
        side.old.walk.left r.new side.new.found result side.new.walk.left }
    ensures continues { Continues R.owns R.denotes R.serves (entries_of version.now)
        r.old side.old.walk r.new side.new.walk }
{
    let Headed { term, typ } = walk_spine(r, version, side, application)?;
    expect(r, version, side, typ, expected)?;
    Ok(term)
}

/// An abstraction against a type, which must be a product.
///
/// ```text
/// A has the weak head form x : D -> B    G, x : D |- p against B
/// --------------------------------------------------------------
/// G |- (x => p) against A
/// ```
#[cycle(walking)]
#[tactic(auto, using(signature_log::proofs::Keeping::keeps_none, signature_log::proofs::Keeping::keeps_further, infer_check::proofs::Walks::continues, infer_check::proofs::Walks::ready))]
fn walk_abstraction<R: Reducer>(
    r: &mut R,
    version: &Version,
    side: &mut LeftWalk<R::T>,
    body: &Pat,
    expected: &R::T,
) -> Result<R::T, TypeFault>
    requires expected { R.owns r.old expected.now }
    requires found { OwnsFound R.owns R.denotes r.old side.old.found }
    requires ready { IsReady R.owns R.serves (entries_of version.now) r.old side.old.walk }
    ensures gives { Walks R.owns R.denotes (entries_of version.now) r.old side.old.walk.context
        side.old.found
        (abstraction_pattern (plain body.now)) (R.denotes r.old expected.now)
        side.old.walk.left r.new side.new.found result side.new.walk.left }
    ensures continues { Continues R.owns R.denotes R.serves (entries_of version.now)
        r.old side.old.walk r.new side.new.walk }
{
    let function = as_product_under(
        r,
        version,
        &side.found.bindings,
        expected,
        &mut side.walk.left,
    )?;
    side.walk.context.bind(function.domain)?;
    let body = walk(r, version, side, body, &function.codomain);
    let _domain = side.walk.context.leave();
    Ok(r.build(NodeOf::Abs(None, body?))?)
}

/// A head applied to patterns, from left to right.
#[cycle(walking)]
#[tactic(auto, using(signature_log::proofs::Keeping::keeps_none, signature_log::proofs::Keeping::keeps_further, infer_check::proofs::Walks::continues, infer_check::proofs::Walks::ready))]
pub(crate) fn walk_spine<R: Reducer>(
    r: &mut R,
    version: &Version,
    side: &mut LeftWalk<R::T>,
    application: Application<R::T>,
) -> Result<Headed<R::T>, TypeFault>
    requires head { OwnsHeaded R.owns r.old application.head }
    requires found { OwnsFound R.owns R.denotes r.old side.old.found }
    requires ready { IsReady R.owns R.serves (entries_of version.now) r.old side.old.walk }
    ensures gives { WalksSpine R.owns R.denotes (entries_of version.now) r.old
        side.old.walk.context side.old.found
        (R.denotes r.old application.entry.head.term) (R.denotes r.old application.entry.head.typ)
        (patterns_of (map plain application.entry.arguments.now))
        side.old.walk.left r.new side.new.found result side.new.walk.left }
    ensures continues { Continues R.owns R.denotes R.serves (entries_of version.now)
        r.old side.old.walk r.new side.new.walk }
{
    let Application { head, arguments } = application;
    let mut walked = head;
    let mut rest = arguments;
    while let Some((argument, others)) = rest.split_first() {
        walked = walk_argument(r, version, side, walked, argument)?;
        rest = others;
    }
    Ok(walked)
}

/// A head applied to one pattern.
///
/// ```text
/// F has the weak head form x : A -> B    G |- p against A
/// -------------------------------------------------------
/// G |- h p : B with p in the place of x, where h : F
/// ```
#[cycle(walking)]
#[tactic(auto, using(signature_log::proofs::Keeping::keeps_none, signature_log::proofs::Keeping::keeps_further, infer_check::proofs::Walks::continues, infer_check::proofs::Walks::ready))]
fn walk_argument<R: Reducer>(
    r: &mut R,
    version: &Version,
    side: &mut LeftWalk<R::T>,
    head: Headed<R::T>,
    argument: &Pat,
) -> Result<Headed<R::T>, TypeFault>
    requires head { OwnsHeaded R.owns r.old head }
    requires found { OwnsFound R.owns R.denotes r.old side.old.found }
    requires ready { IsReady R.owns R.serves (entries_of version.now) r.old side.old.walk }
    ensures gives { WalksArgument R.owns R.denotes (entries_of version.now) r.old
        side.old.walk.context side.old.found
        (R.denotes r.old head.term) (R.denotes r.old head.typ) (plain argument.now)
        side.old.walk.left r.new side.new.found result side.new.walk.left }
    ensures continues { Continues R.owns R.denotes R.serves (entries_of version.now)
        r.old side.old.walk r.new side.new.walk }
{
    let Headed { term, typ } = head;
    let function = into_product_under(r, version, &side.found.bindings, typ, &mut side.walk.left)?;
    let argument = walk(r, version, side, argument, &function.domain)?;
    Ok(apply(r, term, argument, &function.codomain)?)
}

/// A term applied to an argument, with the codomain of its type.
#[tactic(auto, using(signature_log::proofs::Keeping::keeps_further))]
fn apply<R: Reducer>(
    r: &mut R,
    term: R::T,
    argument: R::T,
    codomain: &R::T,
) -> Result<Headed<R::T>, NoMemory>
    requires term { R.owns r.old term }
    requires argument { R.owns r.old argument }
    requires codomain { R.owns r.old codomain.now }
    ensures head { IfOk result (IsApplied R.owns R.denotes r.old term argument codomain.now r.new) }
    ensures keeps { Keeps R.owns R.denotes r.old r.new }
    ensures serves { (S : PlainSignature) → R.serves S r.old → R.serves S r.new }
{
    let typ = r.put_in(codomain, &argument)?;
    let term = r.build(NodeOf::App(term, argument))?;
    Ok(Headed { term, typ })
}
