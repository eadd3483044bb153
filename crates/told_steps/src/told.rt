//! A term with the steps to it.
ghost use Rattle.std.specs.Prelude.{◌≡◌, IfOk};
ghost use Rattle.dk_model.specs.Trees.{tree};
ghost use Rattle.certificate_items.specs.Views.{plain_steps};
ghost use Rattle.told_steps.specs.Parts.{AlwaysLeadsTo, LeadsOn};

use crate::moved::joined_steps;
use certificate_items::Step;
use dk_model::{Listed, NoMemory, Term};
use std::alloc::Global;

/// A term with the steps that lead to it from another one.
#[derive(Drop)]
pub struct Told {
    pub form: Term,
    pub steps: Listed<Step>,
}

/// A term that takes no step.
pub fn unmoved(alloc: Global, form: Term) -> Told
    ensures form { tree result.form ≡ tree form }
    ensures leads { AlwaysLeadsTo (tree form) result }
{
    Told {
        form,
        steps: Listed::new(alloc),
    }
}

/// The form of the second, with its steps behind those of the first. They begin where the first one's end.
pub fn followed(first: Told, second: Told) -> Result<Told, NoMemory>
    ensures form { IfOk result (λ told. tree told.form ≡ tree second.form) }
    ensures leads { IfOk result (λ told. LeadsOn first second told) }
{
    let steps = joined_steps(first.steps, second.steps)?;
    Ok(Told {
        form: second.form,
        steps,
    })
}
