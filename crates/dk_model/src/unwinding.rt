//! An application taken apart, without a call for each argument.
ghost use Rattle.std.specs.Prelude.{◌≡◌, ◌+◌, ◌≤◌, IfOk, false};
ghost use Rattle.dk_model.specs.Trees.{tree, apply};
ghost use Rattle.dk_model.specs.Winding.{wound, is_application, behind_references, size, total_size};

use crate::{NoMemory, Term};
use std::alloc::Global;

/// The head of `f a`, which is no application, and its arguments on a stack, the first one on top.
#[tactic(auto, using(crate::proofs::Winding::references_pushed, crate::proofs::Winding::references_total))]
pub fn spine<'a>(
    alloc: Global,
    f: &'a Term,
    a: &'a Term,
) -> Result<(&'a Term, Vec<&'a Term>), NoMemory>
    ensures whole { IfOk result (λ s. wound (tree s.0.now) (behind_references s.1.items)
        ≡ apply (tree f.now) (tree a.now)) }
    ensures head { IfOk result (λ s. is_application (tree s.0.now) ≡ false) }
    ensures smaller { IfOk result (λ s. size (tree s.0.now) + total_size (behind_references s.1.items)
        ≤ size (tree f.now) + size (tree a.now)) }
{
    let mut arguments = Vec::new(alloc);
    arguments.push(a)?;
    let mut head = f;
    loop {
        match head {
            Term::App(g, b) => {
                let b: &'a Term = b;
                arguments.push(b)?;
                head = g;
            }
            other => return Ok((other, arguments)),
        }
    }
}
