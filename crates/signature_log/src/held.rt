//! An entry that versions share.
ghost use Rattle.std.specs.Prelude.{◌≡◌};
ghost use Rattle.std.specs.Arc.{arc_value};

use crate::blocks::Share;
use dk_model::{Entry, NoMemory};
use shared_term::Stored;
use std::marker::Model;
use std::sync::Arc;

/// An entry that versions share.
#[derive(Drop)]
pub struct Held {
    entry: Arc<Entry<Stored>>,
}

impl Model for Held {
    ghost use Rattle.std.specs.Arc.{arc_value};
    ghost use Rattle.dk_model.specs.declared.signature.Entry.{Entry};
    ghost use Rattle.shared_term.specs.declared.stored.Stored.{Stored};
    ghost use Rattle.dk_model.specs.contracts.signature.Entry as entries;
    ghost use Rattle.shared_term.specs.contracts.stored.Stored as stored;

    ghost Value = { Entry Stored };

    ghost coded = { (entries.the_row stored.the_row).coded };

    ghost view = { λ held. arc_value held.entry };
}

impl Held {
    pub fn new(entry: Arc<Entry<Stored>>) -> Held
        ensures { result ≡ arc_value entry }
    {
        Held { entry }
    }

    pub fn entry(&self) -> &Entry<Stored>
        ensures { result.now ≡ self.now }
    {
        &self.entry
    }
}

impl Share for Held {
    fn share(&self) -> Result<Held, NoMemory> {
        Ok(Held {
            entry: Arc::try_clone(&self.entry)?,
        })
    }
}
