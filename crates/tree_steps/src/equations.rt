//! What an equation of two terms is: a binding, the equations of their parts, a fault, or nothing.
ghost use Rattle.std.specs.Prelude.{◌≡◌, [], IfOk, Some, None, if◌then◌else◌};
ghost use Rattle.std.specs.Option.{option_map};
ghost use Rattle.dk_model.specs.Trees.{tree};
ghost use Rattle.dk_model.specs.Spines.{head, pairs_of};
ghost use Rattle.dk_model.specs.Shapes.{is_definable};
ghost use Rattle.dk_model.specs.Solving.{has_parts, is_rigid_head, binder_of, rigid_parts, equation_of};
ghost use Rattle.signature_log.specs.Versions.{entries_of};
ghost use Rattle.checked_steps.specs.Taken.{is_left};
ghost use Rattle.tree_steps.specs.Views.{pairs, equation};

use crate::pairs::{Pair, push_copies};
use dk_model::{Entry, NoMemory, SymSort, Term};
use signature_log::Version;
use std::alloc::Global;
use std::collections::LinkedList;
use tree_terms::may_bind;

/// What an equation of two terms is.
#[derive(Drop)]
pub enum Equation {
    /// The rule variable is bound to the term.
    Binds(u32, Term),
    /// The equations of their parts.
    Parts(LinkedList<Pair>),
    /// Two heads that are never the same.
    Clash,
    Nothing,
}

/// Whether the symbol was declared by `def`.
fn is_definable(version: &Version, symbol: u32) -> bool
    ensures { result ≡ is_definable (entries_of version.now) symbol }
{
    match version.get(symbol) {
        Some(Entry::Symbol { sort, .. }) => match sort {
            SymSort::Definable => true,
            SymSort::Static => false,
            SymSort::Theorem => false,
        },
        _ => false,
    }
}

/// Whether the parts of terms with this head are equal where the terms are.
fn has_parts(version: &Version, term: &Term) -> bool
    ensures { result ≡ has_parts (entries_of version.now) (head (tree term.now)) }
{
    match term {
        Term::App(f, _) => has_parts(version, f),
        Term::Sym(k) => !is_definable(version, *k),
        Term::Var(_) | Term::Prod(_, _) | Term::Abs(None, _) => true,
        Term::Star | Term::Kind | Term::Rvar(_) | Term::Abs(Some(_), _) => false,
    }
}

/// Whether no reduction and no binding changes the head.
fn is_rigid(version: &Version, term: &Term) -> bool
    ensures { result ≡ is_rigid_head (entries_of version.now) (head (tree term.now)) }
{
    match term {
        Term::App(f, _) => is_rigid(version, f),
        Term::Sym(k) => !is_definable(version, *k),
        Term::Star | Term::Kind | Term::Var(_) | Term::Prod(_, _) | Term::Abs(None, _) => true,
        Term::Rvar(_) | Term::Abs(Some(_), _) => false,
    }
}

/// The rule variable that a term is, where it may be bound to the other.
fn binder_of(term: &Term, other: &Term) -> Result<Option<u32>, NoMemory>
    ensures { IfOk result (λ k. k ≡ binder_of (tree term.now) (tree other.now)) }
{
    let Term::Rvar(number) = term else {
        return Ok(None);
    };
    if may_bind(*number, other)? {
        Ok(Some(*number))
    } else {
        Ok(None)
    }
}

/// Whether the left side is a rule variable that may be bound to the right one.
pub fn is_left(left: &Term, right: &Term) -> Result<bool, NoMemory>
    ensures { IfOk result (λ yes. yes ≡ is_left (tree left.now) (tree right.now)) }
{
    match binder_of(left, right)? {
        Some(_) => Ok(true),
        None => Ok(false),
    }
}

/// No parts, where two heads are one.
fn none_if(alloc: Global, same: bool) -> Option<LinkedList<Pair>>
    ensures { option_map pairs result ≡ (if same then Some [] else None) }
{
    if same {
        Some(LinkedList::new(alloc))
    } else {
        None
    }
}

/// The parts of two terms with the same head and as many arguments, from left to right.
fn pairs_of(alloc: Global, term: &Term, other: &Term) -> Result<Option<LinkedList<Pair>>, NoMemory>
    ensures { IfOk result (λ ps. option_map pairs ps ≡ pairs_of (tree term.now) (tree other.now)) }
{
    match (term, other) {
        (Term::App(f, a), Term::App(g, b)) => {
            let Some(mut pairs) = pairs_of(alloc, f, g)? else {
                return Ok(None);
            };
            push_copies(alloc, &mut pairs, a, b)?;
            Ok(Some(pairs))
        }
        (Term::Star, Term::Star) => Ok(none_if(alloc, true)),
        (Term::Kind, Term::Kind) => Ok(none_if(alloc, true)),
        (Term::Sym(a), Term::Sym(b)) => Ok(none_if(alloc, *a == *b)),
        (Term::Var(a), Term::Var(b)) => Ok(none_if(alloc, *a == *b)),
        (Term::Rvar(a), Term::Rvar(b)) => Ok(none_if(alloc, *a == *b)),
        (Term::Abs(None, b), Term::Abs(None, c)) => {
            let mut pairs = LinkedList::new(alloc);
            push_copies(alloc, &mut pairs, b, c)?;
            Ok(Some(pairs))
        }
        (Term::Prod(a, b), Term::Prod(c, d)) => {
            let mut pairs = LinkedList::new(alloc);
            push_copies(alloc, &mut pairs, a, c)?;
            push_copies(alloc, &mut pairs, b, d)?;
            Ok(Some(pairs))
        }
        _ => Ok(None),
    }
}

/// The same where their parts are equal where they are.
fn rigid_parts(
    alloc: Global,
    version: &Version,
    term: &Term,
    other: &Term,
) -> Result<Option<LinkedList<Pair>>, NoMemory>
    ensures { IfOk result (λ ps. option_map pairs ps
        ≡ rigid_parts (entries_of version.now) (tree term.now) (tree other.now)) }
{
    if has_parts(version, term) {
        pairs_of(alloc, term, other)
    } else {
        Ok(None)
    }
}

/// What the equation of two terms is. The left rule variable is bound where both may be.
pub fn equation_of(
    alloc: Global,
    version: &Version,
    left: &Term,
    right: &Term,
) -> Result<Equation, NoMemory>
    ensures { IfOk result (λ e. equation e
        ≡ equation_of (entries_of version.now) (tree left.now) (tree right.now)) }
{
    if let Some(number) = binder_of(left, right)? {
        return Ok(Equation::Binds(number, right.copy(alloc)?));
    }
    if let Some(number) = binder_of(right, left)? {
        return Ok(Equation::Binds(number, left.copy(alloc)?));
    }
    match rigid_parts(alloc, version, left, right)? {
        Some(parts) => Ok(Equation::Parts(parts)),
        None => if is_rigid(version, left) && is_rigid(version, right) {
            Ok(Equation::Clash)
        } else {
            Ok(Equation::Nothing)
        },
    }
}
