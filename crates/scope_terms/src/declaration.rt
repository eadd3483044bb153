//! The type and the body of a declaration under its parameters, each made node by node.
//!
//! They are taken out as lists of their own or as boxes.
ghost use Rattle.std.specs.Prelude.{◌≡◌, ◌<◌, ◌∷◌, IfErr, IfOk, List, None, OnOk, length};
ghost use Rattle.dk_model.specs.Trees.{Tree, tree};
ghost use Rattle.shared_term.specs.Storage.{stored_term};
ghost use Rattle.shared_term.specs.Made.{stack};
ghost use Rattle.scope_terms.specs.Answers.{IsFaultOf};
ghost use Rattle.scope_terms.specs.Binding.{IsTold};
ghost use Rattle.scope_terms.specs.declared.binders.Binders.{Outermost};
ghost use Rattle.scope_terms.specs.Meanings.{declaration, declaring, rule_variables};
ghost use Rattle.scope_terms.specs.Placing.{Pushes, no_parts, under_sense};
ghost use Rattle.scope_terms.specs.Scopes.{no_names, scoped};

use crate::binders::{Binders, under_listed};
use crate::meaning::Scope;
use crate::placed::placed_at;
use dk_model::{Fault, NoMemory, Term};
use dk_parser::{RawParam, RawTerm};
use shared_term::{Making, Pair, Stored};

/// A term as it is taken out.
pub(crate) trait Taken: Sized + Drop {
    ghost term: { Self → Tree };

    /// Takes the last term out.
    fn taken(making: &mut Making) -> Result<Self, NoMemory>
        requires { 0 < length (stack making.old) }
        ensures { (x : Tree) (rest : List Tree) → stack making.old ≡ x ∷ rest →
            IfOk result (λ t. term t ≡ x) };
}

impl Taken for Stored {
    ghost term = { stored_term };

    fn taken(making: &mut Making) -> Result<Stored, NoMemory> {
        making.take()
    }
}

impl Taken for Term {
    ghost term = { tree };

    fn taken(making: &mut Making) -> Result<Term, NoMemory> {
        making.take_boxed()
    }
}

/// The type and the body of a declaration, where it has them.
#[derive(Drop)]
pub(crate) struct TypeAndBody<T> {
    pub typ: Option<T>,
    pub body: Option<T>,
}

/// Makes the term under these parameters, or answers its first code. There are no rule variables.
#[tactic(auto, using(crate::proofs::Placing::two_pushed, crate::proofs::Placing::second_fault, crate::proofs::Stages::both_first))]
fn under_params<'a>(
    making: &mut Making,
    scope: &Scope,
    pair: Pair,
    params: &'a [RawParam],
    raw: &'a RawTerm,
    bound: &'a Binders<'a>,
) -> Result<(), Fault>
    requires told { IsTold bound.now }
    requires none { rule_variables scope.now ≡ no_names }
    ensures ok { OnOk result
        (Pushes (under_sense scope.now bound.now pair params.now raw.now) (stack making.old) (stack making.new)) }
    ensures refused { IfErr result
        (IsFaultOf (under_sense scope.now bound.now pair params.now raw.now)) }
{
    match params {
        [] => placed_at(making, scope, raw, bound),
        [param, rest @ ..] => {
            placed_at(making, scope, &param.typ, bound)?;
            let under = under_listed(&param.binder, bound)?;
            under_params(making, scope, pair, rest, raw, &under)?;
            Ok(making.join(pair)?)
        }
    }
}

/// Parameters with nothing under them, or their first code. There are no rule variables.
#[tactic(auto, using(crate::proofs::Placing::params_placed, crate::proofs::Placing::params_second_fault, crate::proofs::Stages::both_first))]
fn params_at<'a>(
    making: &mut Making,
    scope: &Scope,
    params: &'a [RawParam],
    bound: &'a Binders<'a>,
) -> Result<(), Fault>
    requires told { IsTold bound.now }
    requires none { rule_variables scope.now ≡ no_names }
    ensures ok { OnOk result
        (declaring scope.now bound.now params.now None None ≡ scoped no_parts) }
    ensures refused { IfErr result
        (IsFaultOf (declaring scope.now bound.now params.now None None)) }
{
    match params {
        [] => Ok(()),
        [first, rest @ ..] => {
            placed_at(making, scope, &first.typ, bound)?;
            let under = under_listed(&first.binder, bound)?;
            params_at(making, scope, rest, &under)
        }
    }
}

/// The term under these parameters, or its first code.
#[tactic(auto, using(crate::proofs::Placing::one_pushed, crate::proofs::Placing::taken_scoped))]
fn taken_under<'a, T: Taken>(
    making: &mut Making,
    scope: &Scope,
    pair: Pair,
    params: &'a [RawParam],
    raw: &'a RawTerm,
) -> Result<T, Fault>
    requires none { rule_variables scope.now ≡ no_names }
    ensures ok { IfOk result (λ t.
        under_sense scope.now Outermost pair params.now raw.now ≡ scoped (T.term t)) }
    ensures refused { IfErr result
        (IsFaultOf (under_sense scope.now Outermost pair params.now raw.now)) }
{
    let outermost = Binders::Outermost;
    making.clear();
    under_params(making, scope, pair, params, raw, &outermost)?;
    Ok(T::taken(making)?)
}

/// The type and the body under these parameters, or the first code. There are no rule variables.
#[tactic(auto, using(crate::proofs::PlacedDeclarations::whole_placed, crate::proofs::PlacedDeclarations::whole_first_fault, crate::proofs::PlacedDeclarations::whole_second_fault, crate::proofs::PlacedDeclarations::typed_placed, crate::proofs::PlacedDeclarations::typed_fault, crate::proofs::PlacedDeclarations::bodied_placed, crate::proofs::PlacedDeclarations::bodied_fault))]
pub(crate) fn declaration_at<'a, T: Taken>(
    making: &mut Making,
    scope: &Scope,
    params: &'a [RawParam],
    typ: &'a Option<RawTerm>,
    body: &'a Option<RawTerm>,
) -> Result<TypeAndBody<T>, Fault>
    requires none { rule_variables scope.now ≡ no_names }
    ensures ok { IfOk result (λ d.
        declaring scope.now Outermost params.now typ.now body.now ≡ scoped (declaration T.term d)) }
    ensures refused { IfErr result
        (IsFaultOf (declaring scope.now Outermost params.now typ.now body.now)) }
{
    match (typ, body) {
        (Some(typ), Some(body)) => {
            let typ = taken_under(making, scope, Pair::Product, params, typ)?;
            let body = taken_under(making, scope, Pair::Abstraction, params, body)?;
            Ok(TypeAndBody {
                typ: Some(typ),
                body: Some(body),
            })
        }
        (Some(typ), None) => {
            let typ = taken_under(making, scope, Pair::Product, params, typ)?;
            Ok(TypeAndBody {
                typ: Some(typ),
                body: None,
            })
        }
        (None, Some(body)) => {
            let body = taken_under(making, scope, Pair::Abstraction, params, body)?;
            Ok(TypeAndBody {
                typ: None,
                body: Some(body),
            })
        }
        (None, None) => {
            // The parameters may be at fault.
            let outermost = Binders::Outermost;
            params_at(making, scope, params, &outermost)?;
            Ok(TypeAndBody {
                typ: None,
                body: None,
            })
        }
    }
}
