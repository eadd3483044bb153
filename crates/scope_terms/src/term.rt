//! The term of boxes that a written term stands for at a place of a command.
ghost use Rattle.std.specs.Prelude.{◌≡◌, IfOk, IfErr};
ghost use Rattle.dk_model.specs.Trees.{tree};
ghost use Rattle.dk_model.specs.Signatures.{maybe_tree};
ghost use Rattle.scope_terms.specs.Answers.{IsFaultOf};
ghost use Rattle.scope_terms.specs.Binding.{IsTold};
ghost use Rattle.scope_terms.specs.Meanings.{maybe_sense, term_sense};
ghost use Rattle.scope_terms.specs.Scopes.{scoped};

use crate::binders::Binders;
use crate::meaning::Scope;
use crate::placed::placed_at;
use dk_model::{Fault, Term};
use dk_parser::RawTerm;
use shared_term::Making;

/// The term under these binders, or its first code. It is made in this memory.
#[tactic(auto, using(crate::proofs::Placing::one_pushed, crate::proofs::Placing::taken_scoped))]
pub(crate) fn term_at<'a>(
    making: &mut Making,
    scope: &Scope,
    raw: &'a RawTerm,
    bound: &'a Binders<'a>,
) -> Result<Term, Fault>
    requires told { IsTold bound.now }
    ensures ok { IfOk result (λ t. term_sense scope.now bound.now raw.now ≡ scoped (tree t)) }
    ensures refused { IfErr result (IsFaultOf (term_sense scope.now bound.now raw.now)) }
{
    making.clear();
    placed_at(making, scope, raw, bound)?;
    Ok(making.take_boxed()?)
}

/// The term where there is one.
pub(crate) fn maybe_term_at<'a>(
    making: &mut Making,
    scope: &Scope,
    raw: &'a Option<RawTerm>,
    bound: &'a Binders<'a>,
) -> Result<Option<Term>, Fault>
    requires told { IsTold bound.now }
    ensures ok { IfOk result
        (λ t. maybe_sense scope.now bound.now raw.now ≡ scoped (maybe_tree t)) }
    ensures refused { IfErr result (IsFaultOf (maybe_sense scope.now bound.now raw.now)) }
{
    match raw {
        None => Ok(None),
        Some(raw) => {
            let term = term_at(making, scope, raw, bound)?;
            Ok(Some(term))
        }
    }
}
