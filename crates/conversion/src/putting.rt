//! A right side or a body that is put before the arguments of a stack: its own arguments go onto the stack, and no node is
//! made for the applications between.
ghost use Rattle.std.specs.Prelude.{◌≡◌, ◌<◌, IfOk, OnOk, length};
ghost use Rattle.shared_term.specs.Pools.{term, Extends, Moves};
ghost use Rattle.conversion.specs.Machine.{behind, AreWithin, wound};
ghost use Rattle.conversion.specs.Fillings.{IsFilling, put_by};

use dk_model::{NoMemory, NodeOf};
use shared_term::{Pool, TermId};

/// What takes the place of variables.
#[derive(Clone, Copy)]
pub(crate) enum Filling<'a> {
    /// The captures of a rule, that of its variables.
    Captures(&'a [Option<TermId>]),
    /// An argument, that of variable 0.
    Argument(TermId),
}

/// The term with this in the place of its variables.
fn filled(pool: &mut Pool, whole: TermId, filling: Filling<'_>) -> Result<TermId, NoMemory>
    requires whole { whole.0 < length pool.old }
    requires filling { IsFilling (length pool.old) filling }
    ensures moves { IfOk result (λ t.
        Moves (put_by pool.old filling.entry) pool.old pool.new whole t) }
    ensures keeps { Extends pool.old pool.new }
{
    match filling {
        Filling::Captures(captures) => pool.filled(whole, captures),
        Filling::Argument(a) => pool.substitute(whole, 0, a),
    }
}

/// The head of the term with this in the place of its variables; its arguments go onto the stack, the first one on top.
#[tactic(auto, using(crate::proofs::Filling::put_pushed, crate::proofs::Filling::put_last, crate::proofs::Filling::filling_within, shared_term::proofs::Winding::within_grown, shared_term::proofs::Winding::within_pushed, crate::proofs::Winding::extends_more, crate::proofs::Winding::extends_none))]
pub(crate) fn put(
    pool: &mut Pool,
    whole: TermId,
    filling: Filling<'_>,
    stack: &mut Vec<TermId>,
) -> Result<TermId, NoMemory>
    requires whole { whole.0 < length pool.old }
    requires filling { IsFilling (length pool.old) filling }
    requires stack { AreWithin (length pool.old) stack.old.items }
    ensures puts { IfOk result (λ h. wound (term pool.new h) (behind pool.new stack.new.items)
        ≡ wound (put_by pool.old filling.entry (term pool.old whole))
        (behind pool.old stack.old.items)) }
    ensures there { IfOk result (λ h. h.0 < length pool.new) }
    ensures stack { AreWithin (length pool.new) stack.new.items }
    ensures keeps { Extends pool.old pool.new }
{
    let mut head = whole;
    loop {
        match pool.get(head) {
            NodeOf::App(f, a) => {
                let a = filled(pool, a, filling)?;
                stack.push(a)?;
                head = f;
            }
            _ => return filled(pool, head, filling),
        }
    }
}
