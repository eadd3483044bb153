//! A text of a session, and what is kept of it.
ghost use Rattle.std.specs.Prelude.{◌≡◌, ◌+◌, IfOk};
ghost use Rattle.std.specs.Arc.{arc_value};
ghost use Rattle.edit_session.specs.Held.{IsSlot, plain_slot};
ghost use Rattle.edit_session.specs.Reading.{IsReadAs};
ghost use Rattle.edit_session.specs.Sessions.{new_slot};

use crate::finding::Findings;
use dk_model::{Limits, Listed, NoMemory};
use dk_parser::Raw;
use std::alloc::Global;
use std::sync::Arc;

/// An answer on a command, with what it rested on when it was made.
#[derive(Drop)]
pub struct Kept {
    /// The texts of what the command rested on, in their order, but for its own.
    pub texts: Vec<Arc<Listed<u8>>>,
    /// Their places, and last its own: the numbers of the symbols in the answer are among these.
    pub places: Listed<u32>,
    pub findings: Findings,
}

/// A text of one command.
#[derive(Drop)]
pub struct Slot {
    pub text: Arc<Listed<u8>>,
    pub raw: Raw,
    pub kept: Option<Kept>,
}

impl Slot {
    /// A text of which nothing is kept, with the command that it is read as.
    pub fn new(alloc: Global, text: &[u8], raw: Raw) -> Result<Slot, NoMemory>
        ensures slot { IfOk result (λ s. plain_slot s ≡ new_slot text.now) }
        ensures raw { IfOk result (λ s. s.raw ≡ raw) }
        ensures text { IfOk result (λ s. arc_value s.text ≡ text.now) }
        ensures kept { IfOk result (λ s. s.kept ≡ None) }
    {
        let text = Arc::new(alloc, Listed::from_slice(alloc, text)?)?;
        Ok(Slot {
            text,
            raw,
            kept: None,
        })
    }
}
