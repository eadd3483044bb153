//! A term of a pool taken apart: its head, and its arguments on a stack.
ghost use Rattle.std.specs.Prelude.{◌≡◌, ◌<◌, IfOk, OnOk, false, length};
ghost use Rattle.shared_term.specs.Pools.{term};
ghost use Rattle.shared_term.specs.Winding.{behind, AreWithin, wound, is_application};

use crate::{Pool, TermId};
use dk_model::{NoMemory, NodeOf};

/// Takes a term apart: its arguments go onto the stack, the first one on top.
#[tactic(auto, using(crate::proofs::Winding::wound_pushed, crate::proofs::Winding::within_pushed))]
pub fn unwind(pool: &Pool, whole: TermId, stack: &mut Vec<TermId>) -> Result<TermId, NoMemory>
    requires whole { whole.0 < length pool.now }
    requires stack { AreWithin (length pool.now) stack.old.items }
    ensures same { IfOk result (λ h. wound (term pool.now h) (behind pool.now stack.new.items)
        ≡ wound (term pool.now whole) (behind pool.now stack.old.items)) }
    ensures head { IfOk result (λ h. is_application (term pool.now h) ≡ false) }
    ensures there { IfOk result (λ h. h.0 < length pool.now) }
    ensures stack { OnOk result (AreWithin (length pool.now) stack.new.items) }
{
    let mut head = whole;
    loop {
        match pool.get(head) {
            NodeOf::App(f, a) => {
                stack.push(a)?;
                head = f;
            }
            _ => return Ok(head),
        }
    }
}
