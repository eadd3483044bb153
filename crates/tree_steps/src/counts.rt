//! How many nodes a term has, and each of its parts.
ghost use Rattle.std.specs.Prelude.{◌≡◌, ◌+◌, IfOk, OnOk};
ghost use Rattle.dk_model.specs.Trees.{tree};
ghost use Rattle.tree_steps.specs.Shapes.{size, one_above, two_above, shape_of, shape};

use dk_model::{NoMemory, Term};
use std::alloc::Global;

/// The nodes of a term and of each of its parts, counted.
#[derive(Drop)]
pub enum Counts {
    /// Of a term without parts.
    Leaf,
    /// Of a term with one part: how many nodes it has, and the counts of the part.
    One(u64, Box<Counts>),
    /// The same with two parts.
    Two(u64, Box<Counts>, Box<Counts>),
}

impl Counts {
    /// How many nodes the term has.
    pub(crate) fn total(&self) -> u64
        ensures { result ≡ size (shape self.now) }
    {
        match self {
            Counts::Leaf => 1,
            Counts::One(total, _) => *total,
            Counts::Two(total, _, _) => *total,
        }
    }
}

/// The nodes of a term whose parts have so many.
fn above(first: u64, second: u64) -> Result<u64, NoMemory>
    ensures { IfOk result (λ n. n ≡ 1 + first + second) }
{
    match first.checked_add(second) {
        Some(parts) => match parts.checked_add(1) {
            Some(total) => Ok(total),
            None => Err(NoMemory),
        },
        None => Err(NoMemory),
    }
}

/// Writes down how many nodes a term has whose part has these.
pub(crate) fn recount_one(total: &mut u64, part: &Counts) -> Result<(), NoMemory>
    ensures { OnOk result (total.new ≡ 1 + size (shape part.now)) }
{
    *total = above(part.total(), 0)?;
    Ok(())
}

/// The same of two parts.
pub(crate) fn recount_two(total: &mut u64, first: &Counts, second: &Counts) -> Result<(), NoMemory>
    ensures { OnOk result (total.new ≡ 1 + size (shape first.now) + size (shape second.now)) }
{
    *total = above(first.total(), second.total())?;
    Ok(())
}

fn with_one(alloc: Global, part: Counts) -> Result<Counts, NoMemory>
    ensures { IfOk result (λ counts. shape counts ≡ one_above (shape part)) }
{
    let total = above(part.total(), 0)?;
    Ok(Counts::One(total, Box::new(alloc, part)?))
}

fn with_two(alloc: Global, first: Counts, second: Counts) -> Result<Counts, NoMemory>
    ensures { IfOk result (λ counts. shape counts ≡ two_above (shape first) (shape second)) }
{
    let total = above(first.total(), second.total())?;
    let first = Box::new(alloc, first)?;
    let second = Box::new(alloc, second)?;
    Ok(Counts::Two(total, first, second))
}

/// The nodes of a term, each of them looked at.
pub(crate) fn counts_of(alloc: Global, term: &Term) -> Result<Counts, NoMemory>
    ensures { IfOk result (λ counts. shape counts ≡ shape_of (tree term.now)) }
{
    match term {
        Term::Star | Term::Kind | Term::Sym(_) | Term::Var(_) | Term::Rvar(_) => Ok(Counts::Leaf),
        Term::Abs(None, b) => with_one(alloc, counts_of(alloc, b)?),
        Term::App(a, b) | Term::Abs(Some(a), b) | Term::Prod(a, b) => {
            with_two(alloc, counts_of(alloc, a)?, counts_of(alloc, b)?)
        }
    }
}
