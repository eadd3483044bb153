//! Steps of a part as steps of the whole. A part's nodes stand behind the node itself, and behind those of the part before it.
ghost use Rattle.std.specs.Prelude.{◌≡◌, ◌+◌, IfOk};
ghost use Rattle.dk_model.specs.Trees.{tree};
ghost use Rattle.checked_steps.specs.Matching.{nodes};
ghost use Rattle.certificate_items.specs.Views.{plain_step, plain_steps};
ghost use Rattle.told_steps.specs.Moved.{moved_step, moved, followed_by};

use certificate_items::Step;
use dk_model::{Listed, NoMemory, Term};
use std::alloc::Global;

fn sum(first: u64, second: u64) -> Result<u64, NoMemory>
    ensures { IfOk result (λ n. n ≡ first + second) }
{
    match first.checked_add(second) {
        Some(n) => Ok(n),
        None => Err(NoMemory),
    }
}

/// The number of a term's nodes.
pub fn node_count(term: &Term) -> Result<u64, NoMemory>
    ensures value { IfOk result (λ n. n ≡ nodes (tree term.now)) }
{
    match term {
        Term::Star | Term::Kind | Term::Sym(_) | Term::Var(_) | Term::Rvar(_) => Ok(1),
        Term::Abs(None, b) => sum(1, node_count(b)?),
        Term::App(a, b) | Term::Abs(Some(a), b) | Term::Prod(a, b) => {
            sum(sum(1, node_count(a)?)?, node_count(b)?)
        }
    }
}

/// A step so many nodes further on.
#[tactic(auto, using(crate::proofs::Steps::rule_moved))]
fn moved_step(step: Step, nodes: u64) -> Result<Step, NoMemory>
    ensures { IfOk result (λ x. plain_step x ≡ moved_step nodes (plain_step step)) }
{
    match step {
        Step::Beta(place) => Ok(Step::Beta(sum(place, nodes)?)),
        Step::Rule {
            place,
            number,
            joins,
        } => Ok(Step::Rule {
            place: sum(place, nodes)?,
            number,
            joins,
        }),
    }
}

/// Steps so many nodes further on.
#[tactic(auto, using(crate::proofs::Steps::steps_pushed, crate::proofs::Steps::moved_pushed))]
pub(crate) fn moved(
    alloc: Global,
    steps: Listed<Step>,
    nodes: u64,
) -> Result<Listed<Step>, NoMemory>
    ensures { IfOk result (λ xs. plain_steps xs ≡ moved nodes (plain_steps steps)) }
{
    let mut moved = Listed::from_vec(Vec::with_capacity(alloc, steps.len())?);
    for step in steps.into_vec() {
        moved.push(moved_step(step, nodes)?)?;
    }
    Ok(moved)
}

/// Steps of the second part of a node, behind the first part.
pub(crate) fn moved_behind(
    alloc: Global,
    first: &Term,
    steps: Listed<Step>,
) -> Result<Listed<Step>, NoMemory>
    ensures { IfOk result (λ xs. plain_steps xs
        ≡ moved (1 + nodes (tree first.now)) (plain_steps steps)) }
{
    if steps.is_empty() {
        return Ok(steps);
    }
    moved(alloc, steps, sum(1, node_count(first)?)?)
}

/// Steps, and others behind them.
#[tactic(auto, using(crate::proofs::Steps::steps_append))]
pub(crate) fn joined_steps(
    first: Listed<Step>,
    second: Listed<Step>,
) -> Result<Listed<Step>, NoMemory>
    ensures { IfOk result (λ xs. plain_steps xs
        ≡ followed_by (plain_steps first) (plain_steps second)) }
{
    let mut steps = first.into_vec();
    let mut behind = second.into_vec();
    steps.append(&mut behind)?;
    Ok(Listed::from_vec(steps))
}

/// Steps of the first part of a node, and behind them those of the second part, where the first part is this form then.
pub(crate) fn steps_together(
    alloc: Global,
    first: Listed<Step>,
    form: &Term,
    second: Listed<Step>,
) -> Result<Listed<Step>, NoMemory>
    ensures { IfOk result (λ xs. plain_steps xs ≡ followed_by (moved 1 (plain_steps first))
        (moved (1 + nodes (tree form.now)) (plain_steps second))) }
{
    let first = moved(alloc, first, 1)?;
    let second = moved_behind(alloc, form, second)?;
    joined_steps(first, second)
}
