//! Patterns, rules, entries and signatures copied.
ghost use Rattle.std.specs.Prelude.{◌≡◌, IfOk};
ghost use Rattle.dk_model.specs.Trees.{tree};
ghost use Rattle.dk_model.specs.Signatures.{pattern, plain_entry, plain_rule, plain_signature};

use crate::carry::{Carry, carry_entry, carry_pattern, carry_rule};
use crate::{Entry, Listed, NoMemory, Pat, Rule, Signature, Term};
use std::alloc::Global;

/// Terms as copies of themselves.
struct Copies;

impl Carry for Copies {
    type Source = Term;

    type Target = Term;

    ghost read_tree = { tree };

    ghost made_tree = { tree };

    fn carry(alloc: Global, term: &Term) -> Result<Term, NoMemory> {
        term.copy(alloc)
    }
}

impl Pat {
    /// The same pattern in memory of its own.
    pub fn copy(&self, alloc: Global) -> Result<Pat, NoMemory>
        ensures { IfOk result (λ p. pattern p ≡ pattern self.now) }
    {
        carry_pattern::<Copies>(alloc, self)
    }
}

impl Rule {
    /// The same rule in memory of its own.
    pub fn copy(&self, alloc: Global) -> Result<Rule, NoMemory>
        ensures { IfOk result (λ r. plain_rule r ≡ plain_rule self.now) }
    {
        carry_rule::<Copies>(alloc, self)
    }
}

impl Entry {
    /// The same entry in memory of its own.
    pub fn copy(&self, alloc: Global) -> Result<Entry, NoMemory>
        ensures { IfOk result (λ e. plain_entry e ≡ plain_entry self.now) }
    {
        carry_entry::<Copies>(alloc, self)
    }
}

impl Signature {
    /// The same signature in memory of its own.
    pub fn copy(&self, alloc: Global) -> Result<Signature, NoMemory>
        ensures { IfOk result (λ s. plain_signature s ≡ plain_signature self.now) }
    {
        let mut entries = Listed::new(alloc);
        for entry in self.entries.as_slice() {
            entries.push(entry.copy(alloc)?)?;
        }
        Ok(Signature { entries })
    }
}
