//! The rule variables of a context.
ghost use Rattle.std.specs.Prelude.{◌≡◌, ◌<◌, is_some, not, if◌then◌else◌, IfOk, OnErr};
ghost use Rattle.dk_model.specs.declared.code.Fault.TheVariants.{Refused};
ghost use Rattle.scope_terms.specs.Scopes.{no_names, number_of, with_name};

use crate::table::Table;
use dk_model::{Code, Fault, Listed, NoMemory};
use std::alloc::Global;
use std::marker::Model;

/// Names numbered from 0, in the order in which they were added.
#[derive(Drop)]
pub(crate) struct Variables {
    table: Table,
    count: u32,
}

impl Model for Variables {
    ghost use Rattle.scope_terms.specs.Scopes.{Numbered};

    ghost Value = { Numbered };

    ghost view = { λ v. record { numbers = v.table; count = v.count } };
}

impl Variables {
    pub(crate) fn new(alloc: Global) -> Variables
        ensures { result ≡ no_names }
    {
        Variables {
            table: Table::new(alloc),
            count: 0,
        }
    }

    pub(crate) fn number(&self, name: &[u8]) -> Option<u32>
        ensures { result ≡ number_of self.now name.now }
    {
        self.table.number(name)
    }

    pub(crate) fn count(&self) -> u32
        ensures { result ≡ self.now.count }
    {
        self.count
    }

    /// The first fault where this one is of what stands behind the name: the code, if the name is a variable already.
    pub(crate) fn first_fault(&self, name: &Listed<u8>, code: Code, fault: Fault) -> Fault
        ensures { result ≡ if is_some (number_of self.now name.now) then Refused code else fault }
    {
        if self.number(name.as_slice()).is_some() {
            Fault::Refused(code)
        } else {
            fault
        }
    }

    /// Adds a name with the next number, unless it is a variable already: whether it was added.
    pub(crate) fn add(&mut self, alloc: Global, name: &Listed<u8>) -> Result<bool, NoMemory>
        requires room { self.old.count < 4294967295 }
        ensures is_new { IfOk result (λ added. added ≡ not (is_some (number_of self.old name.now))) }
        ensures ok { IfOk result
            (λ added. self.new ≡ if added then with_name self.old name.now else self.old) }
        ensures err { OnErr result (self.new ≡ self.old) }
    {
        let added = self.table.add(alloc, name, self.count)?;
        if added {
            self.count += 1;
        }
        Ok(added)
    }
}
