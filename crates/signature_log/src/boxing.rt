//! Entries of a version over boxed terms.
ghost use Rattle.std.specs.Prelude.{◌≡◌, IfOk};
ghost use Rattle.dk_model.specs.Trees.{tree};
ghost use Rattle.dk_model.specs.Signatures.{plain_entry};
ghost use Rattle.shared_term.specs.Storage.{stored_term};
ghost use Rattle.signature_log.specs.Versions.{stored_entry};

use dk_model::{Carry, Entry, NoMemory, Term, carry_entry};
use shared_term::Stored;
use std::alloc::Global;

/// Terms of boxes.
struct Boxing;

impl Carry for Boxing {
    type Source = Stored;

    type Target = Term;

    ghost read_tree = { stored_term };

    ghost made_tree = { tree };

    fn carry(alloc: Global, term: &Stored) -> Result<Term, NoMemory> {
        term.to_term(alloc)
    }
}

/// The same entry over boxed terms.
pub fn box_entry(alloc: Global, entry: &Entry<Stored>) -> Result<Entry, NoMemory>
    ensures { IfOk result (λ e. plain_entry e ≡ stored_entry entry.now) }
{
    carry_entry::<Boxing>(alloc, entry)
}
