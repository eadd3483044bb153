//! A version: the entries of the commands before one.
ghost use Rattle.std.specs.Prelude.{◌≡◌, ℕ, [], ◌∷◌, ◌++◌, ◌+◌, ◌≤◌, length, slice_get, map, Err, IfOk, ◌↔◌};
ghost use Rattle.std.specs.Option.{option_copied, option_map};
ghost use Rattle.std.specs.Arc.{arc_value};
ghost use Rattle.dk_model.specs.Signatures.{plain_signature};
ghost use Rattle.dk_model.specs.SymbolRules.{rules_of, body_rule};
ghost use Rattle.signature_log.specs.Versions.{stored_entry, entries_of};
ghost use Rattle.signature_log.specs.Rows.{row_rules, body_rows};

use crate::blocks::Share;
use crate::boxing::box_entry;
use crate::entries::Entries;
use crate::fork::Fork;
use crate::held::Held;
use crate::slots::Slots;
use crate::table::{RuleTable, with_entry};
use crate::{Grow, Rows, Steps};
use dk_model::{Entry, Listed, NoMemory, Signature};
use shared_term::Stored;
use std::alloc::Global;
use std::marker::{Brand, Model};
use std::sync::Arc;
use std::sync::ledger::{Blank, Ledger};

/// The entries of the commands accepted so far, in file order. Symbol `k` is declared by entry `k`, from 0.
///
/// A version never changes: `append` gives another one, which shares with it all but one link, and once in 32 times all
/// but a group and a block of each level.
#[derive(Drop)]
pub struct Version {
    alloc: Global,
    entries: Entries,
    rules: RuleTable,
}

impl Model for Version {
    ghost use Rattle.std.specs.Prelude.{List};
    ghost use Rattle.std.specs.Coded.{coded_list};
    ghost use Rattle.dk_model.specs.declared.signature.Entry.{Entry};
    ghost use Rattle.shared_term.specs.declared.stored.Stored.{Stored};
    ghost use Rattle.dk_model.specs.contracts.signature.Entry as entry;
    ghost use Rattle.shared_term.specs.contracts.stored.Stored as stored;

    ghost Value = { List (Entry Stored) };

    ghost coded = { coded_list (entry.the_row stored.the_row).coded };

    ghost use Rattle.signature_log.specs.Placed.{IsVersion};

    ghost view = { λ v. v.entries };

    ghost invariant = { λ v. IsVersion v.entries v.rules };
}

const MOST: u64 = 1048576;

fn body_of(entry: Option<&Entry<Stored>>) -> Option<&Stored>
    ensures { (k : ℕ) → body_rows k result
        ≡ body_rule k (option_map stored_entry (option_copied entry.entry)) }
{
    match entry {
        Some(
            Entry::Symbol {
                body: Some(body),
                ..
            },
        ) => Some(body),
        _ => None,
    }
}

impl Version {
    /// No entries.
    pub fn empty(alloc: Global) -> Result<Version, NoMemory>
        ensures { IfOk result (λ v. v ≡ []) }
    {
        Ok(Version {
            alloc,
            entries: Entries::empty(alloc)?,
            rules: Fork::empty(alloc)?,
        })
    }

    /// The version with one entry more. `Full` exactly where there are 1,048,576 already.
    pub fn append(&self, entry: Arc<Entry<Stored>>) -> Result<Version, Grow>
        ensures ok { IfOk result (λ v. v ≡ self.now ++ arc_value entry ∷ []) }
        ensures full { result ≡ Err Grow.Full ↔ length self.now ≡ 1048576 }
    {
        self.append_from::<Brand>(entry, Blank::new(1))
    }

    fn append_from<L: Ledger>(
        &self,
        entry: Arc<Entry<Stored>>,
        blank: Blank,
    ) -> Result<Version, Grow>
        requires name { blank.name ≡ L.name }
        requires parts { blank.parts ≡ L.parts }
        requires one { L.parts ≡ 1 }
        ensures ok { IfOk result (λ v. v ≡ self.now ++ arc_value entry ∷ []) }
        ensures full { result ≡ Err Grow.Full ↔ length self.now ≡ 1048576 }
    {
        let mut steps = Steps::<L>::start(blank);
        self.append_counted(entry, &mut steps)
    }

    /// The same with a count: a step for each place that is put into a new block of entries, and for a new link.
    pub fn append_counted<L: Ledger>(
        &self,
        entry: Arc<Entry<Stored>>,
        steps: &mut Steps<L>,
    ) -> Result<Version, Grow>
        ensures ok { IfOk result (λ v. v ≡ self.now ++ arc_value entry ∷ []) }
        ensures full { result ≡ Err Grow.Full ↔ length self.now ≡ 1048576 }
        ensures cost { steps.new ≤ steps.old + 128 }
    {
        if self.entries.len() >= MOST {
            return Err(Grow::Full);
        }
        let held = Held::new(entry);
        let rules = with_entry(self.alloc, &self.rules, &held)?;
        let entries = self.entries.append(self.alloc, held, steps)?;
        Ok(Version {
            alloc: self.alloc,
            entries,
            rules,
        })
    }

    /// The entry at place `i`, from 0.
    pub fn get(&self, i: u32) -> Option<&Entry<Stored>>
        ensures { option_copied result ≡ slice_get self.now i }
    {
        match self.entries.get(i as u64) {
            Some(held) => Some(held.entry()),
            None => None,
        }
    }

    pub fn len(&self) -> u32
        ensures { result ≡ length self.now }
    {
        self.entries.len() as u32
    }

    /// An equal version, which shares all blocks with it.
    pub fn share(&self) -> Result<Version, NoMemory>
        ensures { IfOk result (λ v. v ≡ self.now) }
    {
        Ok(Version {
            alloc: self.alloc,
            entries: self.entries.share()?,
            rules: self.rules.share()?,
        })
    }

    /// The same entries over boxed terms, in memory of their own.
    pub fn plain(&self) -> Result<Signature, NoMemory>
        ensures { IfOk result (λ s. plain_signature s ≡ entries_of self.now) }
    {
        let mut entries = Listed::new(self.alloc);
        for at in 0..self.len() {
            match self.get(at) {
                Some(entry) => entries.push(box_entry(self.alloc, entry)?)?,
                None => unreachable!(),
            }
        }
        Ok(Signature { entries })
    }

    /// The rules of a symbol: its body, then its declared rules in file order. Takes no memory.
    pub fn rules_of(&self, symbol: u32) -> Rows<'_>
        ensures { row_rules symbol result ≡ rules_of (entries_of self.now) symbol }
    {
        let body = body_of(self.get(symbol));
        let declared = self.rules.find(symbol as u64);
        Rows::new(body, declared)
    }
}
