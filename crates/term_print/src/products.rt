//! Which products are written with a name: those whose codomain mentions their variable.
ghost use Rattle.std.specs.Prelude.{◌≡◌, ◌+◌, ◌<◌, ◌-◌, ℕ, IfOk, OnOk};
ghost use Rattle.dk_model.specs.PlainTerms.{variable};
ghost use Rattle.term_print.specs.Products.{after, after_all, found, last_one, mentioned, named_last, front, step_weight, step_weights};

use crate::source::Source;
use dk_model::{NoMemory, NodeOf};
use std::alloc::Global;

/// What is left to go through.
#[derive(Clone, Copy)]
pub(crate) enum Step {
    /// A term.
    Term(u64),
    /// The body of an abstraction is done.
    Leave,
    /// The codomain of a product is done, and its domain is this.
    Domain(u64),
    /// Domain and codomain are done, and the codomain mentions the variable or not.
    Product(bool),
}

/// The steps that are left, the last one next; for each binder around, whether it was mentioned; and the products so far.
#[derive(Drop)]
pub(crate) struct Survey {
    steps: Vec<Step>,
    around: Vec<bool>,
    named: Vec<bool>,
}

/// For each product of a term, the last one printed first, whether it is written with a name.
#[tactic(auto, using(crate::proofs::Surveyed::survey_begins, crate::proofs::Surveyed::step_popped, crate::proofs::Surveyed::survey_ends, crate::proofs::Surveyed::steps_pushed))]
pub(crate) fn named_products<S: Source>(
    alloc: Global,
    source: &S,
    whole: u64,
) -> Result<Vec<bool>, NoMemory>
    ensures { IfOk result (λ v. v.items ≡ named_last (S.denotes source.now whole)) }
{
    let mut survey = Survey {
        steps: Vec::new(alloc),
        around: Vec::new(alloc),
        named: Vec::new(alloc),
    };
    survey.steps.push(Step::Term(whole))?;
    'steps: while let Some(step) = survey.steps.pop() {
        take_step(source, step, &mut survey)?;
    }
    Ok(survey.named)
}

#[tactic(auto, using(crate::proofs::Surveyed::leave_step, crate::proofs::Surveyed::domain_step, crate::proofs::Surveyed::product_step, crate::proofs::Surveyed::domain_less))]
fn take_step<S: Source>(source: &S, step: Step, survey: &mut Survey) -> Result<(), NoMemory>
    ensures finds { OnOk result (after_all (S.denotes source.now) survey.old.steps.items
        (after (S.denotes source.now) step (found survey.old))
        ≡ after_all (S.denotes source.now) survey.new.steps.items (found survey.new)) }
    ensures less { OnOk result (step_weights (S.denotes source.now) survey.new.steps.items
        < step_weights (S.denotes source.now) survey.old.steps.items
        + step_weight (S.denotes source.now) step) }
{
    match step {
        Step::Term(term) => term_step(source, term, survey),
        Step::Leave => {
            take_last(&mut survey.around);
            Ok(())
        }
        Step::Domain(domain) => {
            let mentioned = take_last(&mut survey.around);
            survey.steps.push(Step::Product(mentioned))?;
            survey.steps.push(Step::Term(domain))?;
            Ok(())
        }
        Step::Product(mentioned) => {
            survey.named.push(mentioned)?;
            Ok(())
        }
    }
}

/// Takes the last one off; there is one wherever this is called.
#[tactic(auto, using(crate::proofs::Surveyed::last_pushed, crate::proofs::Surveyed::front_pushed))]
pub(crate) fn take_last(flags: &mut Vec<bool>) -> bool
    ensures last { result ≡ last_one flags.old.items }
    ensures front { flags.new.items ≡ front flags.old.items }
{
    match flags.pop() {
        Some(last) => last,
        None => false,
    }
}

// The parts of a term as steps.
#[tactic(auto, using(crate::proofs::Surveyed::apply_step, crate::proofs::Surveyed::product_begins, crate::proofs::Surveyed::annotated_step, crate::proofs::Surveyed::bare_step, crate::proofs::Surveyed::variable_step, crate::proofs::Surveyed::leaf_step, crate::proofs::Surveyed::apply_less, crate::proofs::Surveyed::product_less, crate::proofs::Surveyed::annotated_less, crate::proofs::Surveyed::bare_less, crate::proofs::Surveyed::leaf_less))]
fn term_step<S: Source>(source: &S, term: u64, survey: &mut Survey) -> Result<(), NoMemory>
    ensures finds { OnOk result (after_all (S.denotes source.now) survey.old.steps.items
        (after (S.denotes source.now) (Step.Term term) (found survey.old))
        ≡ after_all (S.denotes source.now) survey.new.steps.items (found survey.new)) }
    ensures less { OnOk result (step_weights (S.denotes source.now) survey.new.steps.items
        < step_weights (S.denotes source.now) survey.old.steps.items
        + step_weight (S.denotes source.now) (Step.Term term)) }
{
    match source.node(term) {
        NodeOf::Var(k) => {
            mention(&mut survey.around, k);
            Ok(())
        }
        NodeOf::App(f, a) => {
            survey.steps.push(Step::Term(f))?;
            survey.steps.push(Step::Term(a))?;
            Ok(())
        }
        NodeOf::Prod(a, b) => {
            survey.around.push(false)?;
            survey.steps.push(Step::Domain(a))?;
            survey.steps.push(Step::Term(b))?;
            Ok(())
        }
        NodeOf::Abs(annotation, b) => match annotation {
            Some(d) => {
                survey.around.push(false)?;
                survey.steps.push(Step::Term(d))?;
                survey.steps.push(Step::Leave)?;
                survey.steps.push(Step::Term(b))?;
                Ok(())
            }
            None => {
                survey.around.push(false)?;
                survey.steps.push(Step::Leave)?;
                survey.steps.push(Step::Term(b))?;
                Ok(())
            }
        },
        NodeOf::Star => Ok(()),
        NodeOf::Kind => Ok(()),
        NodeOf::Sym(_) => Ok(()),
        NodeOf::Rvar(_) => Ok(()),
    }
}

// A variable is mentioned; one that no binder around binds changes nothing.
#[tactic(auto, using(crate::proofs::Surveyed::variable_mentioned, crate::proofs::Surveyed::variable_free))]
fn mention(around: &mut Vec<bool>, index: u64)
    ensures { around.new.items ≡ mentioned (variable index) around.old.items }
{
    let depth = around.len() as u64;
    if index < depth {
        around[(depth - index - 1) as usize] = true;
    }
}
