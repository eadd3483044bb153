//! An application taken apart: its head and its arguments.
ghost use Rattle.std.specs.Prelude.{◌≡◌, ◌+◌, ◌≤◌, ◌<◌, false, IfOk, map};
ghost use Rattle.dk_model.specs.Signatures.{PlainSignature};
ghost use Rattle.signature_log.specs.Reducers.{Keeps, OwnsParts, built, AreOwned};
ghost use Rattle.infer_check.specs.Spine.{is_application, wound, size, total_size};

use dk_model::{NoMemory, NodeOf};
use signature_log::Reducer;

/// An application: a head that is none, and the arguments.
#[derive(Drop)]
pub struct Spine<T> {
    pub head: NodeOf<T>,
    /// The first one on top.
    pub arguments: Vec<T>,
}

/// Takes an application apart. Any other term is its own head. It takes no unit.
#[tactic(auto, using(crate::proofs::Spines::spine_size, crate::proofs::Spines::arguments_smaller, crate::proofs::Contexts::owned_pushed, crate::proofs::Contexts::owned_kept, crate::proofs::Contexts::types_kept, crate::proofs::Contexts::parts_kept, signature_log::proofs::Keeping::keeps_further, signature_log::proofs::Keeping::keeps_none))]
pub fn unwind<R: Reducer>(r: &mut R, whole: NodeOf<R::T>) -> Result<Spine<R::T>, NoMemory>
    requires { OwnsParts R.owns r.old whole }
    ensures term { IfOk result (λ s. wound (built R.denotes r.new s.head)
        (map (R.denotes r.new) s.arguments.items) ≡ built R.denotes r.old whole) }
    ensures head { IfOk result (λ s. is_application (built R.denotes r.new s.head) ≡ false) }
    ensures parts { IfOk result (λ s. OwnsParts R.owns r.new s.head) }
    ensures arguments { IfOk result (λ s. AreOwned R.owns r.new s.arguments.items) }
    ensures size { IfOk result (λ s. size (built R.denotes r.new s.head)
        + total_size (map (R.denotes r.new) s.arguments.items)
        ≤ size (built R.denotes r.old whole)) }
    ensures smaller { IfOk result (λ s. total_size (map (R.denotes r.new) s.arguments.items)
        < size (built R.denotes r.old whole)) }
    ensures keeps { Keeps R.owns R.denotes r.old r.new }
    ensures serves { (S : PlainSignature) → R.serves S r.old → R.serves S r.new }
{
    let mut arguments = Vec::new(r.alloc());
    let mut head = whole;
    loop {
        match head {
            NodeOf::App(f, a) => {
                arguments.push(a)?;
                head = r.open(f)?;
            }
            head => return Ok(Spine { head, arguments }),
        }
    }
}
