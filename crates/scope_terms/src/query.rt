//! What a query asks.
ghost use Rattle.std.specs.Prelude.{◌≡◌, IfOk, IfErr};
ghost use Rattle.dk_model.specs.Scoping.{plain_asked};
ghost use Rattle.scope_terms.specs.Scopes.{scoped};
ghost use Rattle.scope_terms.specs.Answers.{IsFaultOf};
ghost use Rattle.scope_terms.specs.Names.{reading};
ghost use Rattle.scope_terms.specs.Meanings.{asked_sense};

use crate::Names;
use crate::binders::Binders;
use crate::meaning::Scope;
use crate::term::term_at;
use dk_model::{Asked, Fault};
use dk_parser::RawAsked;
use shared_term::Making;

/// What is asked, or its first code: its terms are scoped as a body without parameters.
#[tactic(auto, using(crate::proofs::Stages::both_scoped, crate::proofs::Stages::both_first, crate::proofs::Stages::both_second, crate::proofs::Stages::one_scoped, crate::proofs::Stages::one_fault))]
pub(crate) fn asked_at(making: &mut Making, asked: &RawAsked, names: &Names) -> Result<Asked, Fault>
    ensures ok { IfOk result (λ a. asked_sense (reading names.now) asked.now ≡ scoped (plain_asked a)) }
    ensures refused { IfErr result (IsFaultOf (asked_sense (reading names.now) asked.now)) }
{
    let scope = Scope::Command(names);
    let outermost = Binders::Outermost;
    match asked {
        RawAsked::Typed(term, typ) => {
            let term = term_at(making, &scope, term, &outermost)?;
            let typ = term_at(making, &scope, typ, &outermost)?;
            Ok(Asked::Typed(term, typ))
        }
        RawAsked::Equal(first, second) => {
            let first = term_at(making, &scope, first, &outermost)?;
            let second = term_at(making, &scope, second, &outermost)?;
            Ok(Asked::Equal(first, second))
        }
        RawAsked::Infer(term) => Ok(Asked::Infer(term_at(making, &scope, term, &outermost)?)),
        RawAsked::Eval(term) => Ok(Asked::Eval(term_at(making, &scope, term, &outermost)?)),
    }
}
