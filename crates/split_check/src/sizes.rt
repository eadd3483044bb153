//! The sizes of arguments, by which it is chosen what is given to other threads. Nothing that is proved rests on them.
ghost use Rattle.std.specs.Prelude.{OnOk};
ghost use Rattle.dk_model.specs.Signatures.{PlainSignature};
ghost use Rattle.signature_log.specs.Reducers.{AreOwned, Keeps};

use dk_model::{NoMemory, NodeOf};
use signature_log::Reducer;

// No term has so many nodes.
pub(crate) const MOST: u64 = 1 << 40;

/// One more term that waits.
#[tactic(auto, using(infer_check::proofs::Contexts::owned_pushed))]
fn wait<R: Reducer>(r: &R, waiting: &mut Vec<R::T>, term: R::T) -> Result<(), NoMemory>
    requires waiting { AreOwned R.owns r.now waiting.old.items }
    requires term { R.owns r.now term }
    ensures { OnOk result (AreOwned R.owns r.now waiting.new.items) }
{
    waiting.push(term)?;
    Ok(())
}

/// The nodes of a term, up to so many.
#[tactic(auto, using(infer_check::proofs::Contexts::owned_pushed, infer_check::proofs::Contexts::owned_kept, infer_check::proofs::Contexts::owned_front, infer_check::proofs::Contexts::owned_last, signature_log::proofs::Keeping::keeps_further, signature_log::proofs::Keeping::keeps_none))]
pub(crate) fn size<R: Reducer>(r: &mut R, term: &R::T, most: u64) -> Result<u64, NoMemory>
    requires { R.owns r.old term.now }
    ensures keeps { Keeps R.owns R.denotes r.old r.new }
    ensures serves { (S : PlainSignature) → R.serves S r.old → R.serves S r.new }
{
    let mut waiting = Vec::new(r.alloc());
    waiting.push(r.copy(term)?)?;
    let mut seen = 0;
    while seen < most {
        let Some(term) = waiting.pop() else {
            return Ok(seen);
        };
        seen += 1;
        match r.open(term)? {
            NodeOf::App(f, a) => {
                wait(r, &mut waiting, f)?;
                wait(r, &mut waiting, a)?;
            }
            NodeOf::Abs(annotation, b) => {
                if let Some(d) = annotation {
                    wait(r, &mut waiting, d)?;
                }
                wait(r, &mut waiting, b)?;
            }
            NodeOf::Prod(d, b) => {
                wait(r, &mut waiting, d)?;
                wait(r, &mut waiting, b)?;
            }
            _ => {}
        }
    }
    Ok(most)
}

/// The nodes of each argument, in their order.
///
/// They are counted up to 16, to 32 and so on until at most one has more: that one has what the others leave of `total`. So
/// what is looked at follows the sizes of the others.
#[tactic(auto, using(infer_check::proofs::Contexts::owned_pushed, infer_check::proofs::Contexts::owned_kept, infer_check::proofs::Contexts::owned_front, infer_check::proofs::Contexts::owned_last, signature_log::proofs::Keeping::keeps_further, signature_log::proofs::Keeping::keeps_none))]
pub(crate) fn sizes<R: Reducer>(
    r: &mut R,
    arguments: &[R::T],
    total: u64,
) -> Result<Vec<u64>, NoMemory>
    requires { AreOwned R.owns r.old arguments.now }
    ensures keeps { Keeps R.owns R.denotes r.old r.new }
    ensures serves { (S : PlainSignature) → R.serves S r.old → R.serves S r.new }
{
    let mut most = 16;
    let mut found = sizes_up_to(r, arguments, most)?;
    while most < MOST && large(found.as_slice(), most) > 1 {
        most *= 2;
        found = sizes_up_to(r, arguments, most)?;
    }
    leave_rest(&mut found, most, total);
    Ok(found)
}

/// The nodes of each, up to so many.
#[tactic(auto, using(infer_check::proofs::Contexts::owned_pushed, infer_check::proofs::Contexts::owned_kept, infer_check::proofs::Contexts::owned_front, infer_check::proofs::Contexts::owned_last, signature_log::proofs::Keeping::keeps_further, signature_log::proofs::Keeping::keeps_none))]
fn sizes_up_to<R: Reducer>(r: &mut R, arguments: &[R::T], most: u64) -> Result<Vec<u64>, NoMemory>
    requires { AreOwned R.owns r.old arguments.now }
    ensures keeps { Keeps R.owns R.denotes r.old r.new }
    ensures serves { (S : PlainSignature) → R.serves S r.old → R.serves S r.new }
{
    let mut found = Vec::new(r.alloc());
    let mut rest = arguments;
    while let Some((argument, others)) = rest.split_first() {
        found.push(size(r, argument, most)?)?;
        rest = others;
    }
    Ok(found)
}

/// How many have so many nodes.
pub(crate) fn large(sizes: &[u64], most: u64) -> usize {
    sizes.iter().filter(|size| **size >= most).count()
}

/// Gives the one that has so many what the others leave of all.
fn leave_rest(sizes: &mut Vec<u64>, most: u64, total: u64) {
    let mut others: u64 = 0;
    for size in sizes.iter() {
        if *size < most {
            others = others.saturating_add(*size);
        }
    }
    for size in sizes.iter_mut() {
        if *size >= most {
            *size = total.saturating_sub(others);
        }
    }
}
