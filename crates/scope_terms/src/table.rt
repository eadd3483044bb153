//! Names with their numbers, found by hash.
ghost use Rattle.std.specs.Prelude.{◌≡◌, ◌∷◌, ◌++◌, [], is_some, length, not, slice_get, if◌then◌else◌, IfOk, OnErr};
ghost use Rattle.std.specs.Option.{option_map};
ghost use Rattle.std.specs.Map.{lookup};
ghost use Rattle.scope_terms.specs.Scopes.{same_spelling};

use crate::hashing::NameHasher;
use dk_model::{Listed, NoMemory};
use indexmap::IndexMap;
use indexmap::map::Entry;
use std::alloc::Global;
use std::marker::Model;

/// Names, each with a number, in the order in which they were added.
#[derive(Drop)]
pub struct Table {
    numbers: IndexMap<Vec<u8>, u32, NameHasher>,
}

impl Model for Table {
    ghost use Rattle.std.specs.Prelude.{ℕ, List, map};
    ghost use Rattle.scope_terms.specs.Scopes.{Spelling};

    ghost Value = { List (Spelling × ℕ) };

    ghost view = { λ t. map (λ e. (e.0.items, e.1)) t.numbers.entries };
}

impl Table {
    pub(crate) fn new(alloc: Global) -> Table
        ensures { result ≡ [] }
    {
        Table {
            numbers: IndexMap::with_hasher(alloc, NameHasher::new()),
        }
    }

    pub(crate) fn number(&self, name: &[u8]) -> Option<u32>
        ensures { result ≡ lookup (same_spelling name.now) self.now }
    {
        self.numbers.get(name).copied()
    }

    /// How many names there are.
    pub(crate) fn len(&self) -> usize
        ensures { result ≡ length self.now }
    {
        self.numbers.len()
    }

    /// The name that was added at this place.
    pub(crate) fn name(&self, at: usize) -> Option<&[u8]>
        ensures { option_map (λ x. x.now) result ≡ option_map (λ e. e.0) (slice_get self.now at) }
    {
        match self.numbers.get_index(at) {
            Some((name, _)) => Some(name.as_slice()),
            None => None,
        }
    }

    /// Adds a name with this number, unless it has one: whether it was added.
    pub(crate) fn add(
        &mut self,
        alloc: Global,
        name: &Listed<u8>,
        number: u32,
    ) -> Result<bool, NoMemory>
        ensures is_new { IfOk result
            (λ added. added ≡ not (is_some (lookup (same_spelling name.now) self.old))) }
        ensures ok { IfOk result (λ added.
            self.new ≡ if added then self.old ++ (name.now, number) ∷ [] else self.old) }
        ensures err { OnErr result (self.new ≡ self.old) }
    {
        let spelling = name.as_slice().to_vec(alloc)?;
        let Entry::Vacant(entry) = self.numbers.entry(spelling)? else {
            return Ok(false);
        };
        entry.insert(number);
        Ok(true)
    }
}
