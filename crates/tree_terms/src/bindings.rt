//! What rule variables are bound to while a left side is typed, and terms under these bindings.
ghost use Rattle.std.specs.Prelude.{◌≡◌, IfOk, map};
ghost use Rattle.dk_model.specs.Trees.{tree};
ghost use Rattle.dk_model.specs.Signatures.{maybe_tree};
ghost use Rattle.dk_model.specs.Bindings.{under, under_option, with_binding, bound};

use crate::captures::capture_at;
use dk_model::{NoMemory, Term, make_annotated, make_app, make_bare, make_product};
use std::alloc::Global;

/// A term with each bound rule variable replaced. Nothing is shifted, since what they are bound to is closed.
pub fn under(alloc: Global, bindings: &[Option<Term>], term: &Term) -> Result<Term, NoMemory>
    ensures { IfOk result (λ t. tree t ≡ under (map maybe_tree bindings.now) (tree term.now)) }
{
    match term {
        Term::Star | Term::Kind | Term::Sym(_) | Term::Var(_) => term.copy(alloc),
        Term::Rvar(k) => match capture_at(bindings, *k) {
            None => Ok(Term::Rvar(*k)),
            Some(t) => t.copy(alloc),
        },
        Term::App(f, a) => make_app(
            alloc,
            under(alloc, bindings, f)?,
            under(alloc, bindings, a)?,
        ),
        Term::Abs(None, b) => make_bare(alloc, under(alloc, bindings, b)?),
        Term::Abs(Some(n), b) => make_annotated(
            alloc,
            under(alloc, bindings, n)?,
            under(alloc, bindings, b)?,
        ),
        Term::Prod(a, b) => make_product(
            alloc,
            under(alloc, bindings, a)?,
            under(alloc, bindings, b)?,
        ),
    }
}

fn under_option(
    alloc: Global,
    bindings: &[Option<Term>],
    term: &Option<Term>,
) -> Result<Option<Term>, NoMemory>
    ensures { IfOk result (λ t. maybe_tree t
        ≡ under_option (map maybe_tree bindings.now) (maybe_tree term.now)) }
{
    match term {
        Some(term) => Ok(Some(under(alloc, bindings, term)?)),
        None => Ok(None),
    }
}

fn all_under(
    alloc: Global,
    bindings: &[Option<Term>],
    terms: &[Option<Term>],
) -> Result<Vec<Option<Term>>, NoMemory>
    ensures { IfOk result (λ all. map maybe_tree all.items
        ≡ map (under_option (map maybe_tree bindings.now)) (map maybe_tree terms.now)) }
{
    let mut all = Vec::new(alloc);
    for term in terms {
        all.push(under_option(alloc, bindings, term)?)?;
    }
    Ok(all)
}

/// The bindings with one for this rule variable.
fn with_binding(
    bindings: Vec<Option<Term>>,
    number: u32,
    term: Term,
) -> Result<Vec<Option<Term>>, NoMemory>
    ensures { IfOk result (λ all. map maybe_tree all.items
        ≡ with_binding (map maybe_tree bindings.items) number (tree term)) }
{
    let mut bindings = bindings;
    let place = number as usize;
    while bindings.len() <= place {
        bindings.push(None)?;
    }
    bindings[place] = Some(term);
    Ok(bindings)
}

/// The bindings with a further rule variable bound, which is replaced in what the others are bound to.
pub fn bound(
    alloc: Global,
    bindings: &[Option<Term>],
    number: u32,
    term: Term,
) -> Result<Vec<Option<Term>>, NoMemory>
    ensures { IfOk result (λ all. map maybe_tree all.items
        ≡ bound (map maybe_tree bindings.now) number (tree term)) }
{
    let one = with_binding(Vec::new(alloc), number, term.copy(alloc)?)?;
    let others = all_under(alloc, one.as_slice(), bindings)?;
    with_binding(others, number, term)
}
