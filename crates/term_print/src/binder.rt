//! Names of binders.
ghost use Rattle.std.specs.Prelude.{◌≡◌, IfOk};
ghost use Rattle.term_print.specs.Named.{binder_name};

use crate::spellings::Spellings;
use dk_model::NoMemory;
use itoa::Buffer as Digits;
use std::alloc::Global;

/// The name of a binder in the scope of so many others.
#[tactic(auto, using(crate::proofs::Naming::name_begins, crate::proofs::Naming::name_longer, crate::proofs::Naming::name_ends, crate::proofs::Naming::name_falls))]
pub(crate) fn binder_name(alloc: Global, used: &Spellings, depth: u64) -> Result<Vec<u8>, NoMemory>
    ensures { IfOk result (λ n. n.items ≡ binder_name used.now depth) }
{
    let mut name = Vec::new(alloc);
    name.push(b'x')?;
    name.extend_from_slice(Digits::new().format(depth).as_bytes())?;
    'quotes: while used.has(name.as_slice()) {
        name.push(b'\'')?;
    }
    Ok(name)
}
