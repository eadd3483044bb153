//! A left side as a head and the arguments that it takes.
ghost use Rattle.std.specs.Prelude.{◌≡◌, ◌+◌, ◌≤◌, IfOk};
ghost use Rattle.dk_model.specs.PlainCommands.{left_apply};
ghost use Rattle.dk_model.specs.Scoping.{plain_left};
ghost use Rattle.prune_theory.specs.Stacks.{left_size, left_total, left_wound, lefts_behind};

use dk_model::{Left, NoMemory};
use std::alloc::Global;

/// The head of `f a`, which is no application, and its arguments on a stack, the first one on top.
#[tactic(auto, using(crate::proofs::Stacks::left_pushed, crate::proofs::Stacks::left_total_pushed))]
pub(crate) fn left_spine<'a>(
    alloc: Global,
    f: &'a Left,
    a: &'a Left,
) -> Result<(&'a Left, Vec<&'a Left>), NoMemory>
    ensures whole { IfOk result (λ s. left_wound (plain_left s.0.now) (lefts_behind s.1.items)
        ≡ left_apply (plain_left f.now) (plain_left a.now)) }
    ensures smaller { IfOk result (λ s.
        left_size (plain_left s.0.now) + left_total (lefts_behind s.1.items)
        ≤ left_size (plain_left f.now) + left_size (plain_left a.now)) }
{
    let mut arguments = Vec::new(alloc);
    arguments.push(a)?;
    let mut head = f;
    loop {
        match head {
            Left::App(g, b) => {
                let b: &'a Left = b;
                arguments.push(b)?;
                head = g;
            }
            other => return Ok((other, arguments)),
        }
    }
}
