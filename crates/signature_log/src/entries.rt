//! The entries of a version, which the versions made of it share.
ghost use Rattle.std.specs.Prelude.{◌≡◌, ◌+◌, ◌<◌, ◌≤◌, [], ◌∷◌, ◌++◌, length, slice_get, IfOk};
ghost use Rattle.std.specs.Option.{option_copied};

use crate::Steps;
use crate::blocks::{Blocks, Share, WIDTH};
use crate::branch::Branch;
use crate::chain::Chain;
use crate::held::Held;
use crate::leaf::Leaf;
use dk_model::NoMemory;
use std::alloc::Global;
use std::marker::Model;
use std::sync::ledger::Ledger;

/// How many entries a group has.
const GROUP: u64 = 32;

/// Groups of 32 entries, in three levels of blocks of 32.
type Groups = Branch<Branch<Leaf<Leaf<Held>>>>;

/// Entries in order: whole groups of 32, then the last ones, fewer than 32, in a chain.
///
/// So adding an entry mostly takes one link and copies nothing, and touches the blocks of groups once in 32 times.
#[derive(Drop)]
pub struct Entries {
    groups: Groups,
    recent: Chain<Held>,
    count: u64,
}

impl Model for Entries {
    ghost use Rattle.std.specs.Prelude.{List};
    ghost use Rattle.std.specs.Coded.{coded_list};
    ghost use Rattle.dk_model.specs.declared.signature.Entry.{Entry};
    ghost use Rattle.shared_term.specs.declared.stored.Stored.{Stored};
    ghost use Rattle.dk_model.specs.contracts.signature.Entry as entry;
    ghost use Rattle.shared_term.specs.contracts.stored.Stored as stored;

    ghost Value = { List (Entry Stored) };

    ghost coded = { coded_list (entry.the_row stored.the_row).coded };

    ghost use Rattle.signature_log.specs.Groups.{grouped, IsGrouped};

    ghost view = { λ entries. grouped entries.groups entries.recent };

    ghost invariant = { λ entries. IsGrouped entries.groups entries.recent entries.count };
}

/// The last entries with one more, as a group.
fn group_of<L: Ledger>(
    alloc: Global,
    recent: &Chain<Held>,
    entry: Held,
    steps: &mut Steps<L>,
) -> Result<Leaf<Held>, NoMemory>
    ensures places { IfOk result (λ group. group ≡ recent.now ++ entry ∷ []) }
    ensures cost { steps.new ≤ steps.old + (length recent.now + 1) }
{
    let mut all = Vec::with_capacity(alloc, WIDTH)?;
    recent.list(&mut all, steps)?;
    steps.tick();
    all.push(entry)?;
    Leaf::new(alloc, all)
}

impl Entries {
    pub fn empty(alloc: Global) -> Result<Entries, NoMemory>
        ensures { IfOk result (λ entries. entries ≡ []) }
    {
        Ok(Entries {
            groups: Branch::empty(alloc)?,
            recent: Chain::empty(),
            count: 0,
        })
    }

    pub fn len(&self) -> u64
        ensures count { result ≡ length self.now }
        ensures within { result ≤ 1048576 }
    {
        self.count
    }

    pub fn get(&self, at: u64) -> Option<&Held>
        ensures { option_copied result ≡ slice_get self.now at }
    {
        if at >= self.count {
            return None;
        }
        match self.groups.get(at / GROUP) {
            Some(group) => group.get(at % GROUP),
            None => self.recent.get_back(self.count - 1 - at),
        }
    }

    /// The entries with one more. Where that would make 32 of the last ones, they become a group.
    pub fn append<L: Ledger>(
        &self,
        alloc: Global,
        entry: Held,
        steps: &mut Steps<L>,
    ) -> Result<Entries, NoMemory>
        requires { length self.now < 1048576 }
        ensures entries { IfOk result (λ entries. entries ≡ self.now ++ entry ∷ []) }
        ensures cost { steps.new ≤ steps.old + 128 }
    {
        let count = self.count + 1;
        if count % GROUP != 0 {
            let recent = self.recent.append(alloc, entry, steps)?;
            let groups = self.groups.share()?;
            return Ok(Entries {
                groups,
                recent,
                count,
            });
        }
        let group = group_of(alloc, &self.recent, entry, steps)?;
        let groups = self.groups.append(alloc, group, steps)?;
        let recent = Chain::empty();
        Ok(Entries {
            groups,
            recent,
            count,
        })
    }
}

impl Share for Entries {
    fn share(&self) -> Result<Entries, NoMemory> {
        Ok(Entries {
            groups: self.groups.share()?,
            recent: self.recent.share()?,
            count: self.count,
        })
    }
}
