//! What is told of a term, by what is told of its parts.
ghost use Rattle.std.specs.Prelude.{◌≡◌, IfOk};
ghost use Rattle.dk_model.specs.Trees.{tree, apply, bare, annotated, product};
ghost use Rattle.told_steps.specs.Parts.{LeadsAround, LeadsTogether};

use crate::moved::{moved, steps_together};
use crate::told::Told;
use dk_model::{NoMemory, make_annotated, make_app, make_bare, make_product};
use std::alloc::Global;

/// Of a function and its argument.
pub fn told_application(alloc: Global, function: Told, argument: Told) -> Result<Told, NoMemory>
    ensures form { IfOk result (λ told. tree told.form
        ≡ apply (tree function.form) (tree argument.form)) }
    ensures leads { IfOk result (λ told. LeadsTogether apply function argument told) }
{
    let steps = steps_together(alloc, function.steps, &function.form, argument.steps)?;
    let form = make_app(alloc, function.form, argument.form)?;
    Ok(Told { form, steps })
}

/// Of the body of an abstraction without annotation.
pub fn told_body(alloc: Global, body: Told) -> Result<Told, NoMemory>
    ensures form { IfOk result (λ told. tree told.form ≡ bare (tree body.form)) }
    ensures leads { IfOk result (λ told. LeadsAround bare body told) }
{
    let steps = moved(alloc, body.steps, 1)?;
    let form = make_bare(alloc, body.form)?;
    Ok(Told { form, steps })
}

/// Of the annotation and the body of an abstraction.
pub fn told_annotated(alloc: Global, annotation: Told, body: Told) -> Result<Told, NoMemory>
    ensures form { IfOk result (λ told. tree told.form
        ≡ annotated (tree annotation.form) (tree body.form)) }
    ensures leads { IfOk result (λ told. LeadsTogether annotated annotation body told) }
{
    let steps = steps_together(alloc, annotation.steps, &annotation.form, body.steps)?;
    let form = make_annotated(alloc, annotation.form, body.form)?;
    Ok(Told { form, steps })
}

/// Of the domain and the codomain of a product.
pub fn told_product(alloc: Global, domain: Told, codomain: Told) -> Result<Told, NoMemory>
    ensures form { IfOk result (λ told. tree told.form
        ≡ product (tree domain.form) (tree codomain.form)) }
    ensures leads { IfOk result (λ told. LeadsTogether product domain codomain told) }
{
    let steps = steps_together(alloc, domain.steps, &domain.form, codomain.steps)?;
    let form = make_product(alloc, domain.form, codomain.form)?;
    Ok(Told { form, steps })
}
