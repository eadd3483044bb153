//! The term that a written term stands for at a place of a command, made node by node as the
//! operations of its list go.
ghost use Rattle.std.specs.Prelude.{◌≡◌, ◌≤◌, List, length, slice_get, IfErr, IfOk, OnOk};
ghost use Rattle.std.specs.Option.{option_map};
ghost use Rattle.dk_model.specs.Trees.{Tree, apply};
ghost use Rattle.dk_parser.specs.RawViews.{written};
ghost use Rattle.dk_terms.specs.Postfix.{begun_at, begun_binder};
ghost use Rattle.shared_term.specs.Made.{stack};
ghost use Rattle.scope_terms.specs.Answers.{IsFaultOf};
ghost use Rattle.scope_terms.specs.Binding.{IsTold};
ghost use Rattle.scope_terms.specs.Meanings.{named_term, qualified_term, term_sense};
ghost use Rattle.scope_terms.specs.Placing.{Pushes};
ghost use Rattle.scope_terms.specs.Scopes.{Binder};
ghost use Rattle.scope_terms.specs.Standing.{IsAtEnd, IsReady, Stands, two_on_top, under_binders, wrap_made, wrap_of, wrap_parts};

use crate::binders::{Binders, under};
use crate::meaning::{Named, Scope, look_up, qualified};
use dk_model::{Code, Fault, NoMemory};
use dk_parser::{Opening, RawOperation, RawTerm, Wrap};
use shared_term::{Making, Pair};

fn name_placed<'a>(
    making: &mut Making,
    scope: &Scope,
    name: &[u8],
    bound: &'a Binders<'a>,
) -> Result<(), Fault>
    requires told { IsTold bound.now }
    ensures ok { OnOk result
        (Pushes (named_term scope.now bound.now name.now) (stack making.old) (stack making.new)) }
    ensures refused { IfErr result (IsFaultOf (named_term scope.now bound.now name.now)) }
{
    match look_up(scope, bound, name)? {
        Named::Variable(number) => Ok(making.variable(number)?),
        Named::RuleVariable(number) => Ok(making.rule_variable(number)?),
        Named::Symbol(number) => Ok(making.symbol(number)?),
        Named::Unknown => Err(Fault::Refused(Code::E10)),
    }
}

fn qualified_placed(
    making: &mut Making,
    scope: &Scope,
    module_name: &[u8],
    name: &[u8],
) -> Result<(), Fault>
    ensures ok { OnOk result (Pushes
        (qualified_term scope.now module_name.now name.now) (stack making.old) (stack making.new)) }
    ensures refused { IfErr result
        (IsFaultOf (qualified_term scope.now module_name.now name.now)) }
{
    match qualified(scope, module_name, name) {
        Some(number) => Ok(making.symbol(number)?),
        None => Err(Fault::Refused(Code::E10)),
    }
}

// The letters of the binder that begins a scope.
fn binder_of(term: &RawTerm, opening: Opening) -> Option<&[u8]>
    ensures { option_map (λ y. y.now) result ≡ begun_binder (begun_at term.now.letters opening) }
{
    match opening {
        Opening::Binder(Some(span)) => Some(term.spelling(span)),
        Opening::Binder(None) => None,
        Opening::Arrow => None,
    }
}

// How the scope that ends at a place of the list does.
fn wrap_at(term: &RawTerm, at: usize) -> Option<Wrap>
    ensures { result ≡ wrap_of (slice_get term.now.operations at) }
{
    match term.operations.get(at) {
        Some(RawOperation::Wrap(wrap)) => Some(*wrap),
        _ => None,
    }
}

// An application of the last two terms.
#[tactic(auto, using(crate::proofs::Standing::two_joined))]
fn applied(making: &mut Making) -> Result<(), NoMemory>
    requires { 2 ≤ length (stack making.old) }
    ensures { OnOk result (stack making.new ≡ two_on_top apply (stack making.old)) }
{
    making.join(Pair::Application)
}

// The term that the end of a scope makes of the last ones.
#[tactic(auto, using(crate::proofs::Standing::two_joined, crate::proofs::Standing::one_joined))]
fn wrapped(making: &mut Making, wrap: Wrap) -> Result<(), NoMemory>
    requires { wrap_parts wrap ≤ length (stack making.old) }
    ensures { OnOk result (stack making.new ≡ wrap_made wrap (stack making.old)) }
{
    match wrap {
        Wrap::Product => making.join(Pair::Product),
        Wrap::Bare => making.bare(),
        Wrap::Annotated => making.join(Pair::Abstraction),
    }
}

// Makes the terms of the operations from here on, up to the end of the scope of these binders, or
// of the list: its place. It nests with binders.
fn placed_from<'a>(
    making: &mut Making,
    scope: &Scope,
    term: &'a RawTerm,
    at: usize,
    bound: &'a Binders<'a>,
) -> Result<usize, Fault>
    requires told { IsTold bound.now }
    requires ready { IsReady scope.now term.now at bound.now (stack making.old) }
    ensures further { IfOk result (λ end. at ≤ end) }
    ensures at_end { IfOk result (λ end. IsAtEnd (slice_get term.now.operations end)) }
    ensures ok { IfOk result (λ end. (outside : List Binder) (below : List Tree) →
        Stands scope.now term.now outside below at bound.now (stack making.old) →
        Stands scope.now term.now outside below end bound.now (stack making.new)) }
    ensures refused { IfErr result (λ fault. (outside : List Binder) (below : List Tree) →
        Stands scope.now term.now outside below at bound.now (stack making.old) →
        IsFaultOf (under_binders scope.now outside (written term.now)) fault) }
{
    let operations = term.operations.as_slice();
    let mut at = at;
    while let Some(operation) = operations.get(at) {
        match operation {
            RawOperation::Name(span) => {
                name_placed(making, scope, term.spelling(*span), bound)?;
                at += 1;
            }
            RawOperation::Qualified(span, count) => {
                let (module_name, name) = term.qualified(*span, *count);
                qualified_placed(making, scope, module_name, name)?;
                at += 1;
            }
            RawOperation::Star => {
                making.star()?;
                at += 1;
            }
            RawOperation::Wild => return Err(Fault::Refused(Code::E12)),
            RawOperation::Apply => {
                applied(making)?;
                at += 1;
            }
            RawOperation::Begin(opening) => {
                let under = under(binder_of(term, *opening), bound)?;
                at = placed_from(making, scope, term, at + 1, &under)?;
                let Some(wrap) = wrap_at(term, at) else {
                    unreachable!()
                };
                wrapped(making, wrap)?;
                at += 1;
            }
            RawOperation::Wrap(_) => return Ok(at),
        }
    }
    Ok(at)
}

/// Makes the term under these binders, or answers its first code.
pub(crate) fn placed_at<'a>(
    making: &mut Making,
    scope: &Scope,
    raw: &'a RawTerm,
    bound: &'a Binders<'a>,
) -> Result<(), Fault>
    requires told { IsTold bound.now }
    ensures ok { OnOk result
        (Pushes (term_sense scope.now bound.now raw.now) (stack making.old) (stack making.new)) }
    ensures refused { IfErr result (IsFaultOf (term_sense scope.now bound.now raw.now)) }
{
    placed_from(making, scope, raw, 0, bound)?;
    Ok(())
}
