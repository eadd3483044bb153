//! What the walk of a left side finds.
ghost use Rattle.std.specs.Prelude.{◌≡◌, ◌++◌, ◌∷◌, [], OnOk, OnErr, IfOk, Some, None, replicate, slice_set, length};
ghost use Rattle.std.specs.Option.{option_copied};
ghost use Rattle.rule_check.specs.Steps.{found_at};

use dk_model::{Listed, NoMemory};
use infer_check::Walk;
use std::alloc::Global;

/// A guard, which is checked once the left side is walked.
#[derive(Drop)]
pub struct Guard<T> {
    /// The types of the variables that are bound at its place, the innermost last.
    pub bound: Listed<T>,
    /// Its term without annotations, over these variables.
    pub term: T,
    /// The type at its place.
    pub typ: T,
}

/// The types of the rule variables met so far, and the guards, from left to right.
///
/// The types of wildcards stand behind those of the rule's context.
#[derive(Drop)]
pub struct Found<T> {
    pub types: Vec<Option<T>>,
    pub guards: Vec<Guard<T>>,
    pub bindings: Bindings<T>,
}

/// What rule variables are bound to by the equations so far, each at the place of its number.
///
/// A term may mention rule variables that were bound behind it: those of the levels behind its own. So a term is under all
/// bindings once each was put into it as often as there are levels.
#[derive(Drop)]
pub struct Bindings<T> {
    pub terms: Vec<Option<T>>,
    /// The rule variables that are bound.
    pub levels: Vec<Vec<u32>>,
    pub mentioned: Mentioned<T>,
}

/// The rule variables that may stand in what others are bound to: those that are marked at the place of their number, and
/// those of a term.
#[derive(Drop)]
pub struct Mentioned<T> {
    pub marks: Vec<bool>,
    pub term: Option<T>,
}

/// What the walk of a left side changes: the variables that are bound at its place, the units, and what it finds.
#[derive(Drop)]
pub struct LeftWalk<T> {
    pub walk: Walk<T>,
    pub found: Found<T>,
}

/// A head with the patterns that it is applied to, as a term.
#[derive(Drop)]
pub struct Headed<T> {
    pub term: T,
    pub typ: T,
}

/// A left side: its type, and what its walk has found.
#[derive(Drop)]
pub struct Left<T> {
    pub typ: T,
    pub found: Found<T>,
}

impl<T: Drop> Found<T> {
    /// Nothing yet of a rule with so many rule variables.
    pub fn new(alloc: Global, vars: u32) -> Result<Found<T>, NoMemory>
        ensures types { IfOk result (λ w. w.types.items ≡ replicate vars None) }
        ensures guards { IfOk result (λ w. w.guards.items ≡ []) }
        ensures bindings { IfOk result (λ w. w.bindings.terms.items ≡ []) }
        ensures mentioned { IfOk result (λ w. w.bindings.mentioned.term ≡ None) }
    {
        let mut types = Vec::new(alloc);
        for _ in 0..vars {
            types.push(None)?;
        }
        Ok(Found {
            types,
            guards: Vec::new(alloc),
            bindings: Bindings {
                terms: Vec::new(alloc),
                levels: Vec::new(alloc),
                mentioned: Mentioned {
                    marks: Vec::new(alloc),
                    term: None,
                },
            },
        })
    }

    /// The type of a rule variable that was met already.
    pub fn typ(&self, number: u32) -> Option<&T>
        ensures { option_copied result ≡ found_at self.now.types.items number }
    {
        match self.types.get(number as usize) {
            Some(known) => known.as_ref(),
            None => None,
        }
    }

    /// The type of a rule variable at its first occurrence.
    pub fn set(&mut self, variable: u32, typ: T)
        ensures types { self.new.types.items ≡ slice_set self.old.types.items variable (Some typ) }
        ensures guards { self.new.guards.items ≡ self.old.guards.items }
        ensures bindings { self.new.bindings ≡ self.old.bindings }
    {
        let at = variable as usize;
        if at < self.types.len() {
            self.types[at] = Some(typ);
        }
    }

    /// The type of a wildcard, which is the rule variable of the number answered.
    pub fn push_type(&mut self, typ: T) -> Result<u32, NoMemory>
        ensures number { IfOk result (λ k. k ≡ length self.old.types.items) }
        ensures types { OnOk result (self.new.types.items ≡ self.old.types.items ++ Some typ ∷ []) }
        ensures guards { OnOk result (self.new.guards.items ≡ self.old.guards.items) }
        ensures bindings { OnOk result (self.new.bindings ≡ self.old.bindings) }
    {
        match u32::try_from(self.types.len()) {
            Ok(number) => {
                self.types.push(Some(typ))?;
                Ok(number)
            }
            Err(_) => Err(NoMemory),
        }
    }

    /// A guard, which is checked later.
    pub fn push_guard(&mut self, guard: Guard<T>) -> Result<(), NoMemory>
        ensures types { OnOk result (self.new.types.items ≡ self.old.types.items) }
        ensures guards { OnOk result (self.new.guards.items ≡ self.old.guards.items ++ guard ∷ []) }
        ensures bindings { OnOk result (self.new.bindings ≡ self.old.bindings) }
    {
        self.guards.push(guard)?;
        Ok(())
    }
}
