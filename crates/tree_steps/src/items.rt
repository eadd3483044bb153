//! What the items of a part give, each for one evaluation that typing asks for.
ghost use Rattle.std.specs.Prelude.{◌≡◌, ◌<◌, IfOk, OnSome, length, map};
ghost use Rattle.std.specs.Option.{option_map};
ghost use Rattle.dk_model.specs.Trees.{tree};
ghost use Rattle.dk_model.specs.Signatures.{maybe_tree};
ghost use Rattle.signature_log.specs.Versions.{entries_of};
ghost use Rattle.checked_steps.specs.Checked.{with_rest, next_reduction, next_joining, next_solution};
ghost use Rattle.tree_steps.specs.Items.{left_of, if_joined, if_solved, next_equation};
ghost use Rattle.tree_steps.specs.Views.{pair, solved, bindings as plain};

use crate::pairs::{Pair, push_copies};
use crate::solving::Solved;
use crate::steps::Steps;
use certificate_items::Item;
use dk_model::{NoMemory, Term};
use signature_log::Version;
use std::alloc::Global;
use std::collections::LinkedList;

/// The items of a part that are left.
#[derive(Clone, Copy)]
pub struct ItemsLeft<'i> {
    pub alloc: Global,
    pub items: &'i [Item],
}

/// A copy of what rule variables are bound to.
pub fn copied(alloc: Global, bindings: &[Option<Term>]) -> Result<Vec<Option<Term>>, NoMemory>
    ensures { IfOk result (λ copy. plain copy ≡ map maybe_tree bindings.now) }
{
    let mut copy = Vec::new(alloc);
    for binding in bindings {
        copy.push(copied_one(alloc, binding)?)?;
    }
    Ok(copy)
}

fn copied_one(alloc: Global, binding: &Option<Term>) -> Result<Option<Term>, NoMemory>
    ensures { IfOk result (λ copy. maybe_tree copy ≡ maybe_tree binding.now) }
{
    match binding {
        Some(term) => Ok(Some(term.copy(alloc)?)),
        None => Ok(None),
    }
}

impl<'i> ItemsLeft<'i> {
    /// The form of a term to which the next item reduces it. Without one, what is left then is not said.
    pub fn next_reduction(
        &mut self,
        version: &Version,
        term: &Term,
    ) -> Result<Option<Term>, NoMemory>
        ensures { IfOk result (λ t.
            next_reduction (entries_of version.now) (left_of self.old) (tree term.now)
            ≡ with_rest (left_of self.new) (maybe_tree t)) }
    {
        let [item, rest @ ..] = self.items else {
            return Ok(None);
        };
        let Item::Reduction(steps) = item else {
            return Ok(None);
        };
        let term = term.copy(self.alloc)?;
        let form = Steps::new(self.alloc, version).steps_taken(steps.as_slice(), term)?;
        self.items = rest;
        Ok(form)
    }

    /// Whether the next item joins two terms. Where it doesn't, what is left then is not said.
    pub fn next_joining(
        &mut self,
        version: &Version,
        first: &Term,
        second: &Term,
    ) -> Result<bool, NoMemory>
        ensures { IfOk result (λ yes.
            next_joining (entries_of version.now) (left_of self.old) (tree first.now)
            (tree second.now) ≡ if_joined (left_of self.new) yes) }
    {
        let [item, rest @ ..] = self.items else {
            return Ok(false);
        };
        let Item::Joining(join) = item else {
            return Ok(false);
        };
        let yes = Steps::new(self.alloc, version).joined(join, first, second)?;
        self.items = rest;
        Ok(yes)
    }

    /// What rule variables are bound to once the next items have solved the equation of two terms, each by its parts. Without an
    /// answer, what is left then is not said.
    #[tactic(auto, using(crate::proofs::Solutions::solutions_go, crate::proofs::Solutions::solutions_stop))]
    pub fn next_solution(
        &mut self,
        version: &Version,
        bindings: &[Option<Term>],
        first: &Term,
        second: &Term,
    ) -> Result<Option<Vec<Option<Term>>>, NoMemory>
        ensures { IfOk result (λ s.
            next_solution (entries_of version.now) (left_of self.old) (map maybe_tree bindings.now)
            (tree first.now) (tree second.now) ≡ if_solved (left_of self.new) (option_map plain s)) }
    {
        let mut pending = LinkedList::new(self.alloc);
        push_copies(self.alloc, &mut pending, first, second)?;
        let mut bindings = copied(self.alloc, bindings)?;
        while let Some(sides) = pending.pop_front() {
            let Some(solved) = self.next_equation(version, bindings, &sides)? else {
                return Ok(None);
            };
            let Solved {
                bindings: after,
                mut parts,
            } = solved;
            parts.append(&mut pending)?;
            pending = parts;
            bindings = after;
        }
        Ok(Some(bindings))
    }

    /// An equation as the next item solves it.
    fn next_equation(
        &mut self,
        version: &Version,
        bindings: Vec<Option<Term>>,
        sides: &Pair,
    ) -> Result<Option<Solved>, NoMemory>
        ensures gives { IfOk result (λ s.
            next_equation (entries_of version.now) (left_of self.old) (plain bindings)
            (pair sides.now) ≡ with_rest (left_of self.new) (option_map solved s)) }
        ensures fewer { IfOk result (λ s.
            OnSome s (length self.new.items.now < length self.old.items.now)) }
    {
        let [item, rest @ ..] = self.items else {
            return Ok(None);
        };
        let Item::Equation(word, join) = item else {
            return Ok(None);
        };
        let steps = Steps::new(self.alloc, version);
        let solved = steps.equation_taken(*word, join, bindings, sides)?;
        self.items = rest;
        Ok(solved)
    }
}
