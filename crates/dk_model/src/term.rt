//! Terms of the lambda-Pi calculus, with variables by number (docs/evaluation.md).
ghost use Rattle.std.specs.Prelude.{◌≡◌, ◌+◌, IfOk};
ghost use Rattle.dk_model.specs.Trees.{tree, apply, bare, annotated, product};
ghost use Rattle.dk_model.specs.Substitution.{shift, substitute, equal};
ghost use Rattle.dk_model.specs.Erasure.{erased};

use crate::NoMemory;
use std::alloc::Global;

/// A term. Two terms are equal where their trees are; a box isn't looked at (specs/Trees.antt).
#[derive(Drop)]
pub enum Term {
    /// `Type`.
    Star,
    /// The type of `Type`, which no file spells.
    Kind,
    /// The symbol that entry `k` of the signature declares, from 0.
    Sym(u32),
    /// The variable of the `k`th binder around it, from 0 at the innermost.
    Var(u64),
    /// A variable of a rule's context, by its place there, from 0.
    Rvar(u32),
    /// A function and its argument.
    App(Box<Term>, Box<Term>),
    /// An abstraction: the annotation of its variable, if it has one, and the body, which is under the variable.
    Abs(Option<Box<Term>>, Box<Term>),
    /// A product: the domain, and the codomain, which is under the variable also where it doesn't mention it.
    Prod(Box<Term>, Box<Term>),
}

/// `f a`.
pub fn make_app(alloc: Global, f: Term, a: Term) -> Result<Term, NoMemory>
    ensures { IfOk result (λ t. tree t ≡ apply (tree f) (tree a)) }
{
    let f = Box::new(alloc, f)?;
    let a = Box::new(alloc, a)?;
    Ok(Term::App(f, a))
}

/// `x => b`, where `b` is under `x`.
pub fn make_bare(alloc: Global, b: Term) -> Result<Term, NoMemory>
    ensures { IfOk result (λ t. tree t ≡ bare (tree b)) }
{
    let b = Box::new(alloc, b)?;
    Ok(Term::Abs(None, b))
}

/// `x : n => b`, where `b` is under `x` and `n` isn't.
pub fn make_annotated(alloc: Global, n: Term, b: Term) -> Result<Term, NoMemory>
    ensures { IfOk result (λ t. tree t ≡ annotated (tree n) (tree b)) }
{
    let n = Box::new(alloc, n)?;
    let b = Box::new(alloc, b)?;
    Ok(Term::Abs(Some(n), b))
}

/// `x : a -> b`, where `b` is under `x` and `a` isn't.
pub fn make_product(alloc: Global, a: Term, b: Term) -> Result<Term, NoMemory>
    ensures { IfOk result (λ t. tree t ≡ product (tree a) (tree b)) }
{
    let a = Box::new(alloc, a)?;
    let b = Box::new(alloc, b)?;
    Ok(Term::Prod(a, b))
}

fn next(k: u64) -> Result<u64, NoMemory>
    ensures { IfOk result (λ n. n ≡ k + 1) }
{
    match k.checked_add(1) {
        Some(n) => Ok(n),
        None => Err(NoMemory),
    }
}

impl Term {
    /// The same tree in memory of its own.
    pub fn copy(&self, alloc: Global) -> Result<Term, NoMemory>
        ensures { IfOk result (λ t. tree t ≡ tree self.now) }
    {
        match self {
            Term::Star => Ok(Term::Star),
            Term::Kind => Ok(Term::Kind),
            Term::Sym(k) => Ok(Term::Sym(*k)),
            Term::Var(k) => Ok(Term::Var(*k)),
            Term::Rvar(k) => Ok(Term::Rvar(*k)),
            Term::App(f, a) => make_app(alloc, f.copy(alloc)?, a.copy(alloc)?),
            Term::Abs(None, b) => make_bare(alloc, b.copy(alloc)?),
            Term::Abs(Some(n), b) => make_annotated(alloc, n.copy(alloc)?, b.copy(alloc)?),
            Term::Prod(a, b) => make_product(alloc, a.copy(alloc)?, b.copy(alloc)?),
        }
    }

    /// Adds `by` to each free variable from `cut` on.
    pub fn shift(&self, alloc: Global, cut: u64, by: u64) -> Result<Term, NoMemory>
        ensures { IfOk result (λ t. tree t ≡ shift cut by (tree self.now)) }
    {
        match self {
            Term::Star => Ok(Term::Star),
            Term::Kind => Ok(Term::Kind),
            Term::Sym(k) => Ok(Term::Sym(*k)),
            Term::Var(k) => {
                if *k < cut {
                    Ok(Term::Var(*k))
                } else {
                    match k.checked_add(by) {
                        Some(n) => Ok(Term::Var(n)),
                        None => Err(NoMemory),
                    }
                }
            }
            Term::Rvar(k) => Ok(Term::Rvar(*k)),
            Term::App(f, a) => make_app(alloc, f.shift(alloc, cut, by)?, a.shift(alloc, cut, by)?),
            Term::Abs(None, b) => make_bare(alloc, b.shift(alloc, next(cut)?, by)?),
            Term::Abs(Some(n), b) => make_annotated(
                alloc,
                n.shift(alloc, cut, by)?,
                b.shift(alloc, next(cut)?, by)?,
            ),
            Term::Prod(a, b) => make_product(
                alloc,
                a.shift(alloc, cut, by)?,
                b.shift(alloc, next(cut)?, by)?,
            ),
        }
    }

    /// Puts `by` in the place of variable `depth`.
    pub fn substitute(&self, alloc: Global, depth: u64, by: &Term) -> Result<Term, NoMemory>
        ensures { IfOk result (λ t. tree t ≡ substitute depth (tree by.now) (tree self.now)) }
    {
        match self {
            Term::Star => Ok(Term::Star),
            Term::Kind => Ok(Term::Kind),
            Term::Sym(k) => Ok(Term::Sym(*k)),
            Term::Var(k) => {
                if *k < depth {
                    Ok(Term::Var(*k))
                } else if *k == depth {
                    by.shift(alloc, 0, depth)
                } else {
                    Ok(Term::Var(*k - 1))
                }
            }
            Term::Rvar(k) => Ok(Term::Rvar(*k)),
            Term::App(f, a) => make_app(
                alloc,
                f.substitute(alloc, depth, by)?,
                a.substitute(alloc, depth, by)?,
            ),
            Term::Abs(None, b) => make_bare(alloc, b.substitute(alloc, next(depth)?, by)?),
            Term::Abs(Some(n), b) => make_annotated(
                alloc,
                n.substitute(alloc, depth, by)?,
                b.substitute(alloc, next(depth)?, by)?,
            ),
            Term::Prod(a, b) => make_product(
                alloc,
                a.substitute(alloc, depth, by)?,
                b.substitute(alloc, next(depth)?, by)?,
            ),
        }
    }

    /// The term with every annotation of an abstraction removed.
    pub fn erased(&self, alloc: Global) -> Result<Term, NoMemory>
        ensures { IfOk result (λ t. tree t ≡ erased (tree self.now)) }
    {
        match self {
            Term::Star => Ok(Term::Star),
            Term::Kind => Ok(Term::Kind),
            Term::Sym(k) => Ok(Term::Sym(*k)),
            Term::Var(k) => Ok(Term::Var(*k)),
            Term::Rvar(k) => Ok(Term::Rvar(*k)),
            Term::App(f, a) => make_app(alloc, f.erased(alloc)?, a.erased(alloc)?),
            Term::Abs(_, b) => make_bare(alloc, b.erased(alloc)?),
            Term::Prod(a, b) => make_product(alloc, a.erased(alloc)?, b.erased(alloc)?),
        }
    }

    /// Whether the two are the same tree.
    pub fn equal(&self, other: &Term) -> bool
        ensures { result ≡ equal (tree self.now) (tree other.now) }
    {
        match (self, other) {
            (Term::Star, Term::Star) => true,
            (Term::Kind, Term::Kind) => true,
            (Term::Sym(a), Term::Sym(b)) => *a == *b,
            (Term::Var(a), Term::Var(b)) => *a == *b,
            (Term::Rvar(a), Term::Rvar(b)) => *a == *b,
            (Term::App(f, a), Term::App(g, b)) => f.equal(g) && a.equal(b),
            (Term::Abs(None, b), Term::Abs(None, c)) => b.equal(c),
            (Term::Abs(Some(n), b), Term::Abs(Some(m), c)) => n.equal(m) && b.equal(c),
            (Term::Prod(a, b), Term::Prod(c, d)) => a.equal(c) && b.equal(d),
            _ => false,
        }
    }
}
