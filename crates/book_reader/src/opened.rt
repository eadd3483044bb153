//! The modules that were opened so far.
ghost use Rattle.std.specs.Prelude.{◌≡◌, ◌++◌, ◌∷◌, [], false, length, OnOk};
ghost use Rattle.book_reader.specs.Walkers.{has};

use dk_model::NoMemory;
use indexmap::IndexSet;
use std::alloc::Global;
use std::marker::Model;

/// The names of modules, each once, in the order in which they were added.
#[derive(Drop)]
pub struct Opened {
    names: IndexSet<Vec<u8>>,
}

impl Model for Opened {
    ghost use Rattle.std.specs.Prelude.{ℕ, List, map};

    ghost Value = { List (List ℕ) };

    ghost view = { λ o. map (λ n. n.items) o.names.keys };
}

impl Opened {
    pub fn new(alloc: Global) -> Opened
        ensures { result ≡ [] }
    {
        Opened {
            names: IndexSet::new(alloc),
        }
    }

    pub fn has(&self, name: &[u8]) -> bool
        ensures { result ≡ has self.now name.now }
    {
        self.names.contains(name)
    }

    pub fn len(&self) -> usize
        ensures { result ≡ length self.now }
    {
        self.names.len()
    }

    /// Adds a module that isn't among them.
    pub fn add(&mut self, alloc: Global, name: &[u8]) -> Result<(), NoMemory>
        requires { has self.old name.now ≡ false }
        ensures ok { OnOk result (self.new ≡ self.old ++ name.now ∷ []) }
    {
        let text = name.to_vec(alloc)?;
        let Ok(_) = self.names.insert(text) else {
            return Err(NoMemory);
        };
        Ok(())
    }
}
