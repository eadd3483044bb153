//! A rule by its place in the entry of its command.
ghost use Rattle.std.specs.Prelude.{◌≡◌};
ghost use Rattle.dk_model.specs.Signatures.{rule_by};
ghost use Rattle.shared_term.specs.Storage.{stored_term};
ghost use Rattle.signature_log.specs.Placed.{placed_rule, HasRule};

use crate::blocks::Share;
use crate::held::Held;
use dk_model::{Entry, NoMemory, Rule};
use shared_term::Stored;
use std::marker::Model;

/// A rule by its place in the entry of its command, from 0.
#[derive(Drop)]
pub struct Place {
    held: Held,
    at: usize,
}

impl Model for Place {
    ghost use Rattle.std.specs.Prelude.{ℕ};
    ghost use Rattle.std.specs.Coded.{coded×, coded_ℕ};
    ghost use Rattle.dk_model.specs.declared.signature.Entry.{Entry};
    ghost use Rattle.shared_term.specs.declared.stored.Stored.{Stored};
    ghost use Rattle.dk_model.specs.contracts.signature.Entry as entries;
    ghost use Rattle.shared_term.specs.contracts.stored.Stored as stored;

    ghost Value = { Entry Stored × ℕ };

    ghost coded = { coded× (entries.the_row stored.the_row).coded coded_ℕ };

    ghost use Rattle.signature_log.specs.Placed.{HasRule};

    ghost view = { λ place. (place.held, place.at) };

    ghost invariant = { λ place. HasRule place.held place.at };
}

impl Place {
    pub fn new(held: Held, at: usize) -> Place
        requires { HasRule held at }
        ensures { result ≡ (held, at) }
    {
        Place { held, at }
    }

    pub fn rule(&self) -> &Rule<Stored>
        ensures { rule_by stored_term result.now ≡ placed_rule self.now }
    {
        match self.held.entry() {
            Entry::Rules(rules) => &rules.as_slice()[self.at],
            Entry::Symbol { .. } => unreachable!(),
        }
    }
}

impl Share for Place {
    fn share(&self) -> Result<Place, NoMemory> {
        Ok(Place {
            held: self.held.share()?,
            at: self.at,
        })
    }
}
