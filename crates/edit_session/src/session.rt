//! A session: the texts of commands, edited one at a time.
ghost use Rattle.std.specs.Prelude.{◌≡◌, ◌≤◌, ◌<◌, ◌-◌, ◌+◌, ◌↔◌, ◌⊎◌, [], ℕ, true, false, Err, Ok, OnOk, OnErr, IfOk, length, map, nat_le, slice_set};
ghost use Rattle.std.specs.List.{insert, remove};
ghost use Rattle.dk_lexer.specs.Tokens.{input_limit};
ghost use Rattle.edit_session.specs.Held.{IsSlot, plain_slot};
ghost use Rattle.edit_session.specs.Sessions.{new_slot, texts_of};
ghost use Rattle.edit_session.specs.Texts.{bytes_of, is_command_text};

use crate::slot::Slot;
use crate::text::read_text;
use dk_model::{Limits, NoMemory};
use std::alloc::Global;
use std::marker::Model;
use std::mem::replace;

/// Why an edit changed nothing.
#[derive(Clone, Copy, Debug, PartialEq, Eq)]
pub enum EditFault {
    /// There is no such place.
    Range,
    /// The text isn't one command of one line, without directives and qualified names.
    Text,
    NoMemory,
}

/// The texts of commands, one behind the other, each with the answer that was made on it last.
///
/// Contracts see the texts, and for which list of texts each answer is kept (docs/sessions.md).
#[derive(Drop)]
pub struct Session {
    pub(crate) alloc: Global,
    pub(crate) limits: Limits,
    pub(crate) budget: u64,
    pub(crate) slots: Vec<Slot>,
}

impl Model for Session {
    ghost use Rattle.std.specs.Prelude.{All, map};
    ghost use Rattle.edit_session.specs.Held.{IsSlot, plain_slot};
    ghost use Rattle.edit_session.specs.Sessions.{PlainSession};

    ghost Value = { PlainSession };

    ghost view = { λ s. record {
      limits = s.limits;
      budget = s.budget;
      slots = map plain_slot s.slots.items;
    } };

    ghost invariant = { λ s. All (IsSlot s.limits s.budget) s.slots.items };
}

// A text of which nothing is kept, where it is a command.
fn slot_of(alloc: Global, limits: Limits, text: &[u8]) -> Result<Slot, EditFault>
    ensures slot { IfOk result (λ s. plain_slot s ≡ new_slot text.now) }
    ensures right { (budget : ℕ) → IfOk result (IsSlot limits budget) }
    ensures is_text { OnOk result (is_command_text limits text.now ≡ true) }
    ensures range { ¬ (result ≡ Err EditFault.Range) }
    ensures text { result ≡ Err EditFault.Text → is_command_text limits text.now ≡ false }
{
    match read_text(alloc, limits, text) {
        Ok(Some(raw)) => match Slot::new(alloc, text, raw) {
            Ok(slot) => Ok(slot),
            Err(NoMemory) => Err(EditFault::NoMemory),
        },
        Ok(None) => Err(EditFault::Text),
        Err(NoMemory) => Err(EditFault::NoMemory),
    }
}

// Puts a text before the one at this place, or behind all others.
fn insert_at(slots: &mut Vec<Slot>, at: usize, slot: Slot) -> Result<(), NoMemory>
    requires within { at ≤ length slots.old.items }
    ensures ok { OnOk result (slots.new.items ≡ insert slots.old.items at slot) }
    ensures err { OnErr result (slots.new.items ≡ slots.old.items) }
{
    Ok(slots.insert(at, slot)?)
}

// Whether the texts, each with a newline, have together at most so many bytes.
fn fit(slots: &[Slot], room: u32) -> bool
    ensures { result ≡ nat_le (length (bytes_of (texts_of (map plain_slot slots.now)))) room }
{
    let mut rest = slots;
    let mut left = room as usize;
    while let Some((slot, others)) = rest.split_first() {
        let bytes = slot.text.len();
        if left <= bytes {
            return false;
        }
        left -= bytes + 1;
        rest = others;
    }
    true
}

impl Session {
    /// A session without texts, within these limits, where each check may take so many units.
    pub fn new(alloc: Global, limits: Limits, budget: u64) -> Result<Session, NoMemory>
        ensures { IfOk result (λ s. s ≡ record { limits = limits; budget = budget; slots = [] }) }
    {
        Ok(Session {
            alloc,
            limits,
            budget,
            slots: Vec::new(alloc),
        })
    }

    /// How many texts there are.
    pub fn len(&self) -> usize
        ensures { result ≡ length self.now.slots }
    {
        self.slots.len()
    }

    /// Whether the texts, each with a newline, have together no more bytes than an input may.
    pub fn fits(&self) -> bool
        ensures { result ≡ nat_le (length (bytes_of (texts_of self.now.slots)))
            (input_limit self.now.limits) }
    {
        fit(
            self.slots.as_slice(),
            self.limits.input_bytes.min(4_294_967_294),
        )
    }

    /// Puts a text before the one that has number `k`, from 1; behind all others where there is none of that number, and it
    /// is the next. Nothing changes after a fault. Range is looked at first.
    pub fn insert(&mut self, k: u32, text: &[u8]) -> Result<(), EditFault>
        requires few { length self.old.slots < 4294967295 }
        ensures ok { OnOk result (self.new ≡ record self.old {
          slots = insert self.old.slots (k - 1) (new_slot text.now);
        }) }
        ensures is_text { OnOk result (is_command_text self.old.limits text.now ≡ true) }
        ensures range { result ≡ Err EditFault.Range
            ↔ ((k ≡ 0) ⊎ (length self.old.slots + 1 < k)) }
        ensures text { result ≡ Err EditFault.Text →
            is_command_text self.old.limits text.now ≡ false }
        ensures err { OnErr result (self.new ≡ self.old) }
    {
        if k == 0 || k as usize > self.slots.len() + 1 {
            return Err(EditFault::Range);
        }
        let slot = slot_of(self.alloc, self.limits, text)?;
        let Ok(()) = insert_at(&mut self.slots, k as usize - 1, slot) else {
            return Err(EditFault::NoMemory);
        };
        Ok(())
    }

    /// Puts a text in the place of the one that has number `k`, from 1. Nothing changes after a fault. Range is looked at
    /// first.
    pub fn replace(&mut self, k: u32, text: &[u8]) -> Result<(), EditFault>
        ensures ok { OnOk result (self.new ≡ record self.old {
          slots = slice_set self.old.slots (k - 1) (new_slot text.now);
        }) }
        ensures is_text { OnOk result (is_command_text self.old.limits text.now ≡ true) }
        ensures range { result ≡ Err EditFault.Range ↔ ((k ≡ 0) ⊎ (length self.old.slots < k)) }
        ensures text { result ≡ Err EditFault.Text →
            is_command_text self.old.limits text.now ≡ false }
        ensures err { OnErr result (self.new ≡ self.old) }
    {
        if k == 0 || k as usize > self.slots.len() {
            return Err(EditFault::Range);
        }
        let slot = slot_of(self.alloc, self.limits, text)?;
        drop(replace(&mut self.slots[k as usize - 1], slot));
        Ok(())
    }

    /// Takes the text away that has number `k`, from 1. Nothing changes after a fault, which is `Range`.
    pub fn delete(&mut self, k: u32) -> Result<(), EditFault>
        ensures ok { OnOk result (self.new ≡ record self.old {
          slots = remove self.old.slots (k - 1);
        }) }
        ensures range { result ≡ Err EditFault.Range ↔ ((k ≡ 0) ⊎ (length self.old.slots < k)) }
        ensures err { OnErr result ((self.new ≡ self.old) × (result ≡ Err EditFault.Range)) }
    {
        if k == 0 || k as usize > self.slots.len() {
            return Err(EditFault::Range);
        }
        drop(self.slots.remove(k as usize - 1));
        Ok(())
    }
}
