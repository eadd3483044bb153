//! What an argument has at the loose places of a pattern, and terms with what rule variables have captured there.
ghost use Rattle.std.specs.Prelude.{◌≡◌, ◌+◌, IfOk, map};
ghost use Rattle.std.specs.Option.{option_copied, option_map};
ghost use Rattle.dk_model.specs.Trees.{tree};
ghost use Rattle.typing_model.specs.Steps.{capture, instantiated};
ghost use Rattle.tree_steps.specs.Views.{part};

use dk_model::{NoMemory, Term, make_annotated, make_app, make_bare, make_product};
use std::alloc::Global;

/// What an argument has at a loose place of its pattern.
#[derive(Drop)]
pub enum Part {
    /// At a rule variable: its number, and the part abstracted over the variable's arguments.
    Variable(u32, Term),
    /// At a guard.
    Guard {
        /// How many variables the pattern binds there.
        depth: u64,
        /// The guard's term.
        guard: Term,
        term: Term,
    },
}

/// One more.
pub(crate) fn next(count: u64) -> Result<u64, NoMemory>
    ensures { IfOk result (λ n. n ≡ count + 1) }
{
    match count.checked_add(1) {
        Some(n) => Ok(n),
        None => Err(NoMemory),
    }
}

/// What a rule variable captures: its first part.
pub(crate) fn capture(parts: &[Part], variable: u32) -> Option<&Term>
    ensures { option_map tree (option_copied result) ≡ capture (map part parts.now) variable }
{
    let [first, rest @ ..] = parts else {
        return None;
    };
    match first {
        Part::Variable(number, term) => if *number == variable {
            Some(term)
        } else {
            capture(rest, variable)
        },
        Part::Guard { .. } => capture(rest, variable),
    }
}

/// A term, `inner` binders deep, with what its rule variables capture in their places.
pub(crate) fn instantiated(
    alloc: Global,
    parts: &[Part],
    inner: u64,
    term: &Term,
) -> Result<Term, NoMemory>
    ensures { IfOk result (λ t. tree t
        ≡ instantiated (capture (map part parts.now)) inner (tree term.now)) }
{
    match term {
        Term::Star | Term::Kind | Term::Sym(_) | Term::Var(_) => term.copy(alloc),
        Term::Rvar(k) => match capture(parts, *k) {
            None => Ok(Term::Rvar(*k)),
            Some(t) => t.shift(alloc, 0, inner),
        },
        Term::App(f, a) => make_app(
            alloc,
            instantiated(alloc, parts, inner, f)?,
            instantiated(alloc, parts, inner, a)?,
        ),
        Term::Abs(None, b) => make_bare(alloc, instantiated(alloc, parts, next(inner)?, b)?),
        Term::Abs(Some(n), b) => make_annotated(
            alloc,
            instantiated(alloc, parts, inner, n)?,
            instantiated(alloc, parts, next(inner)?, b)?,
        ),
        Term::Prod(a, b) => make_product(
            alloc,
            instantiated(alloc, parts, inner, a)?,
            instantiated(alloc, parts, next(inner)?, b)?,
        ),
    }
}
