//! The equation of two terms, as an item solves it.
ghost use Rattle.std.specs.Prelude.{◌≡◌, IfOk, map};
ghost use Rattle.std.specs.Option.{option_map};
ghost use Rattle.dk_model.specs.Trees.{tree};
ghost use Rattle.dk_model.specs.Signatures.{maybe_tree};
ghost use Rattle.dk_model.specs.Bindings.{under};
ghost use Rattle.checked_steps.specs.Matching.{within};
ghost use Rattle.signature_log.specs.Versions.{entries_of};
ghost use Rattle.checked_steps.specs.Taken.{if_same, if_bound, if_parts, if_nothing, word_taken, equation_taken, steps_taken};
ghost use Rattle.certificate_items.specs.Views.{plain_steps, plain_word};
ghost use Rattle.tree_steps.specs.Equations.{sides_taken};
ghost use Rattle.tree_steps.specs.Views.{pair, equation as view, solved, bindings as plain};

use crate::equations::{Equation, equation_of, is_left};
use crate::pairs::Pair;
use crate::steps::Steps;
use certificate_items::{Join, Step};
use certificate_lines::Word;
use dk_model::{NoMemory, Term};
use signature_log::Version;
use std::alloc::Global;
use std::collections::LinkedList;
use tree_terms::{bound, under};

/// What rule variables are bound to after an equation, and the equations that stand in its place.
#[derive(Drop)]
pub struct Solved {
    pub bindings: Vec<Option<Term>>,
    pub parts: LinkedList<Pair>,
}

/// Where both sides are the same.
fn same_now(alloc: Global, bindings: Vec<Option<Term>>, sides: &Pair) -> Option<Solved>
    ensures { option_map solved result
        ≡ if_same (plain bindings) (tree sides.now.first) (tree sides.now.second) }
{
    if sides.first.equal(&sides.second) {
        Some(Solved {
            bindings,
            parts: LinkedList::new(alloc),
        })
    } else {
        None
    }
}

/// Where the equation is a binding.
fn bound_now(
    alloc: Global,
    bindings: Vec<Option<Term>>,
    equation: Equation,
) -> Result<Option<Solved>, NoMemory>
    ensures { IfOk result (λ s. option_map solved s ≡ if_bound (plain bindings) (view equation)) }
{
    let Equation::Binds(number, term) = equation else {
        return Ok(None);
    };
    Ok(Some(Solved {
        bindings: bound(alloc, bindings.as_slice(), number, term)?,
        parts: LinkedList::new(alloc),
    }))
}

/// Where it has parts.
fn in_parts(bindings: Vec<Option<Term>>, equation: Equation) -> Option<Solved>
    ensures { option_map solved result ≡ if_parts (plain bindings) (view equation) }
{
    match equation {
        Equation::Parts(parts) => Some(Solved { bindings, parts }),
        _ => None,
    }
}

/// Where it is nothing.
fn let_go(alloc: Global, bindings: Vec<Option<Term>>, equation: Equation) -> Option<Solved>
    ensures { option_map solved result ≡ if_nothing (plain bindings) (view equation) }
{
    match equation {
        Equation::Nothing => Some(Solved {
            bindings,
            parts: LinkedList::new(alloc),
        }),
        _ => None,
    }
}

/// By this word, of two sides under the bindings.
fn word_taken(
    alloc: Global,
    version: &Version,
    word: Word,
    bindings: Vec<Option<Term>>,
    sides: &Pair,
) -> Result<Option<Solved>, NoMemory>
    ensures { IfOk result (λ s. option_map solved s
        ≡ word_taken (entries_of version.now) (plain_word word) (plain bindings)
        (tree sides.now.first) (tree sides.now.second)) }
{
    let equation = equation_of(alloc, version, &sides.first, &sides.second)?;
    let is_left = is_left(&sides.first, &sides.second)?;
    match word {
        Word::Same => Ok(same_now(alloc, bindings, sides)),
        Word::LeftBound => if is_left {
            bound_now(alloc, bindings, equation)
        } else {
            Ok(None)
        },
        Word::RightBound => if is_left {
            Ok(None)
        } else {
            bound_now(alloc, bindings, equation)
        },
        Word::InParts => Ok(in_parts(bindings, equation)),
        Word::LetGo => Ok(let_go(alloc, bindings, equation)),
    }
}

impl<'v> Steps<'v> {
    /// A side under the bindings after its steps, under the bindings again.
    fn side_taken(
        self,
        steps: &[Step],
        bindings: &[Option<Term>],
        side: &Term,
    ) -> Result<Option<Term>, NoMemory>
        ensures { IfOk result (λ t. maybe_tree t ≡ within (under (map maybe_tree bindings.now))
            (steps_taken (entries_of self.entry.version.now) (plain_steps steps.now)
            (under (map maybe_tree bindings.now) (tree side.now)))) }
    {
        let side = under(self.alloc, bindings, side)?;
        match self.steps_taken(steps, side)? {
            Some(side) => Ok(Some(under(self.alloc, bindings, &side)?)),
            None => Ok(None),
        }
    }

    /// Both sides so.
    fn sides_taken(
        self,
        join: &Join,
        bindings: &[Option<Term>],
        sides: &Pair,
    ) -> Result<Option<Pair>, NoMemory>
        ensures { IfOk result (λ p. option_map pair p
            ≡ sides_taken (entries_of self.entry.version.now)
            (plain_steps join.now.first) (plain_steps join.now.second)
            (map maybe_tree bindings.now) (pair sides.now)) }
    {
        let Some(first) = self.side_taken(join.first.as_slice(), bindings, &sides.first)? else {
            return Ok(None);
        };
        match self.side_taken(join.second.as_slice(), bindings, &sides.second)? {
            Some(second) => Ok(Some(Pair { first, second })),
            None => Ok(None),
        }
    }

    /// An equation, once its sides have taken their steps.
    #[tactic(auto, using(crate::proofs::Solutions::equation_is))]
    pub(crate) fn equation_taken(
        self,
        word: Word,
        join: &Join,
        bindings: Vec<Option<Term>>,
        sides: &Pair,
    ) -> Result<Option<Solved>, NoMemory>
        ensures { IfOk result (λ s. option_map solved s
            ≡ equation_taken (entries_of self.entry.version.now) (plain_word word)
            (plain_steps join.now.first) (plain_steps join.now.second) (plain bindings)
            (tree sides.now.first) (tree sides.now.second)) }
    {
        match self.sides_taken(join, bindings.as_slice(), sides)? {
            Some(taken) => word_taken(self.alloc, self.version, word, bindings, &taken),
            None => Ok(None),
        }
    }
}
