//! An application taken apart: its head and its arguments.
ghost use Rattle.std.specs.Prelude.{◌≡◌, ◌≤◌, IfOk, map};
ghost use Rattle.dk_model.specs.Signatures.{PlainSignature};
ghost use Rattle.dk_model.specs.Winding.{wound};
ghost use Rattle.signature_log.specs.Reducers.{AreOwned, Keeps, Makes, OwnsParts, built};
ghost use Rattle.dk_model.specs.Substitution.{substitute};
ghost use Rattle.dk_model.specs.Erasure.{erased};

use dk_model::{NoMemory, NodeOf};
use signature_log::Reducer;

/// An application: a head that is none, and the arguments.
#[derive(Drop)]
pub(crate) struct Spine<T> {
    pub(crate) head: T,
    /// The first one on top.
    pub(crate) arguments: Vec<T>,
}

/// Takes an application apart. It takes no unit.
#[tactic(auto, using(infer_check::proofs::Contexts::owned_pushed, infer_check::proofs::Contexts::owned_kept, infer_check::proofs::Contexts::types_kept, infer_check::proofs::Contexts::parts_kept, signature_log::proofs::Keeping::keeps_further, signature_log::proofs::Keeping::keeps_none))]
pub(crate) fn unwind<R: Reducer>(r: &mut R, whole: NodeOf<R::T>) -> Result<Spine<R::T>, NoMemory>
    requires { OwnsParts R.owns r.old whole }
    ensures term { IfOk result (λ s. wound (R.denotes r.new s.head)
        (map (R.denotes r.new) s.arguments.items) ≡ built R.denotes r.old whole) }
    ensures head { IfOk result (λ s. R.owns r.new s.head) }
    ensures arguments { IfOk result (λ s. AreOwned R.owns r.new s.arguments.items) }
    ensures keeps { Keeps R.owns R.denotes r.old r.new }
    ensures serves { (S : PlainSignature) → R.serves S r.old → R.serves S r.new }
{
    let mut arguments = Vec::new(r.alloc());
    let mut head = whole;
    loop {
        match head {
            NodeOf::App(f, a) => {
                arguments.push(a)?;
                head = r.open(f)?;
            }
            head => {
                let head = r.build(head)?;
                return Ok(Spine { head, arguments });
            }
        }
    }
}

/// The type of an application, from the codomain of its function.
#[tactic(auto, using(crate::proofs::Putting::put_same, dk_model::proofs::Closed::substitute_closed, signature_log::proofs::Keeping::keeps_further, signature_log::proofs::Keeping::keeps_none))]
pub(crate) fn put_argument<R: Reducer>(
    r: &mut R,
    codomain: R::T,
    argument: &R::T,
) -> Result<R::T, NoMemory>
    requires codomain { R.owns r.old codomain }
    requires argument { R.owns r.old argument.now }
    ensures makes { IfOk result (Makes R.owns R.denotes r.new (substitute 0
        (erased (R.denotes r.old argument.now)) (R.denotes r.old codomain))) }
    ensures keeps { Keeps R.owns R.denotes r.old r.new }
    ensures serves { (S : PlainSignature) → R.serves S r.old → R.serves S r.new }
{
    if r.is_closed(&codomain) {
        return Ok(codomain);
    }
    let argument = r.as_argument(argument, &codomain)?;
    r.put_in(&codomain, &argument)
}
