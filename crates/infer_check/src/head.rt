//! The outermost node of the weak head form of a type.
ghost use Rattle.std.specs.Prelude.{◌≡◌, ◌≤◌};
ghost use Rattle.dk_model.specs.Evaluation.{whnf_of};
ghost use Rattle.signature_log.specs.Versions.{entries_of};
ghost use Rattle.infer_check.specs.Formed.{is_formed, GivesNode};
ghost use Rattle.infer_check.specs.Walks.{Follows};

use dk_model::{NodeOf, Stop};
use signature_log::{Reducer, Version};

/// Whether it is a sort or a product, which is its own weak head form.
fn is_formed<T>(node: &NodeOf<T>) -> bool
    ensures { result ≡ is_formed node.now }
{
    match node {
        NodeOf::Star => true,
        NodeOf::Kind => true,
        NodeOf::Prod(..) => true,
        _ => false,
    }
}

/// The outermost node of the weak head form of a type that isn't needed any more. A sort or a product is taken apart for its
/// unit, and no part of it is copied.
#[tactic(auto, using(crate::proofs::Formed::formed_stands, crate::proofs::Formed::unit_wanted, signature_log::proofs::Keeping::keeps_further, crate::proofs::Walks::follows))]
pub fn head_form<R: Reducer>(
    r: &mut R,
    version: &Version,
    typ: R::T,
    left: &mut u64,
) -> Result<NodeOf<R::T>, Stop>
    requires own { R.owns r.old typ }
    requires serves { R.serves (entries_of version.now) r.old }
    ensures gives { GivesNode R.owns R.denotes
        (whnf_of (entries_of version.now) left.old (R.denotes r.old typ)) r.new result left.new }
    ensures follows { Follows R.owns R.denotes R.serves (entries_of version.now) r.old r.new }
    ensures spent { left.new ≤ left.old }
{
    let node = r.open(typ)?;
    if is_formed(&node) {
        if *left == 0 {
            return Err(Stop::Ended);
        }
        *left -= 1;
        return Ok(node);
    }
    let typ = r.build(node)?;
    let found = r.whnf(version, &typ, left)?;
    Ok(r.open(found)?)
}
