//! What the walk of a left side finds.
ghost use Rattle.std.specs.Prelude.{◌≡◌, IfOk, map, length};
ghost use Rattle.dk_model.specs.Trees.{tree};
ghost use Rattle.dk_model.specs.Signatures.{maybe_tree};
ghost use Rattle.dk_model.specs.RuleTypingOver.{nothing_found, found_type, with_type, with_wildcard, with_guard, with_bindings};
ghost use Rattle.tree_typing.specs.Given.{bindings as bindings_of};
ghost use Rattle.tree_rules.specs.Founds.{found_of, guard_of, types_of};

use dk_model::{Listed, NoMemory, Term};
use std::alloc::Global;
use tree_typing::Bindings;

/// A guard, which is checked once the left side is walked.
#[derive(Drop)]
pub struct Guard {
    /// The types of the variables that are bound at its place, the innermost first.
    pub context: Listed<Term>,
    /// Its term without annotations, over these variables.
    pub term: Term,
    /// The type at its place.
    pub typ: Term,
}

/// The types of the rule variables met so far, the guards, from left to right, and what rule variables are bound to.
///
/// The types of wildcards stand behind those of the rule's context.
#[derive(Drop)]
pub struct Found {
    pub types: Vec<Option<Term>>,
    pub guards: Vec<Guard>,
    pub bindings: Bindings,
}

/// A walked pattern as a term, its type, and what is found then.
#[derive(Drop)]
pub struct Walked {
    pub term: Term,
    pub typ: Term,
    pub found: Found,
}

/// A type, and what rule variables are bound to then.
#[derive(Drop)]
pub(crate) struct Posed {
    pub typ: Term,
    pub bindings: Bindings,
}

impl Found {
    /// Nothing yet of a rule with so many rule variables.
    pub fn nothing(alloc: Global, vars: u32) -> Result<Found, NoMemory>
        ensures { IfOk result (λ w. found_of w ≡ nothing_found vars) }
    {
        let mut types = Vec::new(alloc);
        for _ in 0..vars {
            types.push(None)?;
        }
        Ok(Found {
            types,
            guards: Vec::new(alloc),
            bindings: Bindings {
                terms: Listed::new(alloc),
            },
        })
    }

    /// The type of a rule variable that was met already, in memory of its own.
    pub fn typ(&self, alloc: Global, number: u32) -> Result<Option<Term>, NoMemory>
        ensures { IfOk result (λ t. maybe_tree t ≡ found_type (types_of self.now) number) }
    {
        match self.types.get(number as usize) {
            Some(Some(typ)) => Ok(Some(typ.copy(alloc)?)),
            _ => Ok(None),
        }
    }

    /// The number of the next wildcard, as a rule variable.
    pub fn next_number(&self) -> Result<u32, NoMemory>
        ensures { IfOk result (λ k. k ≡ length (types_of self.now)) }
    {
        match u32::try_from(self.types.len()) {
            Ok(number) => Ok(number),
            Err(_) => Err(NoMemory),
        }
    }

    /// What is found with the type of a rule variable that stands first.
    #[tactic(auto, using(crate::proofs::Founding::typed_is, crate::proofs::Founding::untyped_is))]
    pub fn with_type(self, number: u32, typ: Term) -> Found
        ensures { found_of result ≡ with_type (found_of self) number (tree typ) }
    {
        let mut found = self;
        let at = number as usize;
        if at < found.types.len() {
            found.types[at] = Some(typ);
        }
        found
    }

    /// What is found with the type of a wildcard.
    pub fn with_wildcard(self, typ: Term) -> Result<Found, NoMemory>
        ensures { IfOk result (λ w. found_of w ≡ with_wildcard (found_of self) (tree typ)) }
    {
        let mut found = self;
        found.types.push(Some(typ))?;
        Ok(found)
    }

    /// What is found with one guard more.
    pub fn with_guard(self, guard: Guard) -> Result<Found, NoMemory>
        ensures { IfOk result (λ w. found_of w ≡ with_guard (found_of self) (guard_of guard)) }
    {
        let mut found = self;
        found.guards.push(guard)?;
        Ok(found)
    }

    /// What is found under other bindings.
    pub fn with_bindings(self, bindings: Bindings) -> Found
        ensures { found_of result ≡ with_bindings (found_of self) (bindings_of bindings) }
    {
        let mut found = self;
        found.bindings = bindings;
        found
    }
}
