//! One contraction at the head of a term.
ghost use Rattle.std.specs.Prelude.{◌≡◌, IfOk, IfSome};
ghost use Rattle.std.specs.Option.{option_map};
ghost use Rattle.dk_model.specs.Trees.{tree, apply, bare};
ghost use Rattle.dk_model.specs.Substitution.{substitute};
ghost use Rattle.dk_model.specs.Spines.{contraction};
ghost use Rattle.told_steps.specs.Parts.{AlwaysLeadsTo};

use crate::parts::told_application;
use crate::told::{Told, unmoved};
use certificate_items::Step;
use dk_model::{Listed, NoMemory, Term};
use std::alloc::Global;
use tree_terms::body_of;

/// A bare abstraction that is applied, after one step.
fn contracted(alloc: Global, body: &Term, argument: &Term) -> Result<Told, NoMemory>
    ensures form { IfOk result (λ told. tree told.form
        ≡ substitute 0 (tree argument.now) (tree body.now)) }
    ensures leads { IfOk result (λ told.
        AlwaysLeadsTo (apply (bare (tree body.now)) (tree argument.now)) told) }
{
    let form = body.substitute(alloc, 0, argument)?;
    let mut steps = Listed::new(alloc);
    steps.push(Step::Beta(0))?;
    Ok(Told { form, steps })
}

/// The term after one contraction at its head: an abstraction with its first argument.
pub fn told_contraction(alloc: Global, term: &Term) -> Result<Option<Told>, NoMemory>
    ensures form { IfOk result (λ told. option_map (λ it. tree it.form) told
        ≡ contraction (tree term.now)) }
    ensures leads { IfOk result (λ told. IfSome told (AlwaysLeadsTo (tree term.now))) }
{
    let Term::App(f, a) = term else {
        return Ok(None);
    };
    if let Some(body) = body_of(f) {
        return Ok(Some(contracted(alloc, body, a)?));
    }
    match told_contraction(alloc, f)? {
        Some(function) => {
            let argument = unmoved(alloc, a.copy(alloc)?);
            Ok(Some(told_application(alloc, function, argument)?))
        }
        None => Ok(None),
    }
}
