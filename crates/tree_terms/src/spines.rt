//! A term as a head with arguments, and one contraction of it.
ghost use Rattle.std.specs.Prelude.{◌≡◌, ◌&&◌, eqb, length, IfOk, MatchOption, None, Some, map, take, drop};
ghost use Rattle.dk_model.specs.Trees.{tree};
ghost use Rattle.dk_model.specs.Signatures.{maybe_tree};
ghost use Rattle.dk_model.specs.Spines.{head, arguments, applied, head_symbol, body_of, contraction};
ghost use Rattle.dk_model.specs.Matrix.{heads_same};

use dk_model::{NoMemory, Term, make_app};
use std::alloc::Global;

/// The number of the symbol at the head.
pub fn head_symbol(term: &Term) -> Option<u32>
    ensures { result ≡ head_symbol (tree term.now) }
{
    match term {
        Term::App(f, _) => head_symbol(f),
        Term::Sym(k) => Some(*k),
        _ => None,
    }
}

/// Whether both are one symbol or one variable.
fn heads_same(term: &Term, other: &Term) -> bool
    ensures { result ≡ heads_same (tree term.now) (tree other.now) }
{
    match (term, other) {
        (Term::Sym(a), Term::Sym(b)) => *a == *b,
        (Term::Var(a), Term::Var(b)) => *a == *b,
        _ => false,
    }
}

/// Whether this symbol or variable stands at the head of the term.
pub fn has_head(term: &Term, wanted: &Term) -> bool
    ensures { result ≡ heads_same (head (tree term.now)) (tree wanted.now) }
{
    match term {
        Term::App(f, _) => has_head(f, wanted),
        _ => heads_same(term, wanted),
    }
}

/// Whether the term is this symbol or variable applied to so many arguments.
pub fn is_applied(term: &Term, wanted: &Term, count: usize) -> bool
    ensures { result ≡ (heads_same (head (tree term.now)) (tree wanted.now)
        && eqb (length (arguments (tree term.now))) count) }
{
    match term {
        Term::App(f, _) => count > 0 && is_applied(f, wanted, count - 1),
        _ => count == 0 && heads_same(term, wanted),
    }
}

/// The arguments from left to right, copied.
#[tactic(auto, using(crate::proofs::Lists::argument_pushed))]
pub fn arguments(alloc: Global, term: &Term) -> Result<Vec<Term>, NoMemory>
    ensures { IfOk result (λ all. map tree all.items ≡ arguments (tree term.now)) }
{
    match term {
        Term::App(f, a) => {
            let mut all = arguments(alloc, f)?;
            all.push(a.copy(alloc)?)?;
            Ok(all)
        }
        _ => Ok(Vec::new(alloc)),
    }
}

/// A term applied to these, from left to right.
pub fn applied(alloc: Global, term: Term, arguments: &[Term]) -> Result<Term, NoMemory>
    ensures { IfOk result (λ t. tree t ≡ applied (tree term) (map tree arguments.now)) }
{
    match arguments {
        [] => Ok(term),
        [first, rest @ ..] => applied(alloc, make_app(alloc, term, first.copy(alloc)?)?, rest),
    }
}

/// The term after one contraction at its head: an abstraction with its first argument.
pub fn contraction(alloc: Global, term: &Term) -> Result<Option<Term>, NoMemory>
    ensures { IfOk result (λ t. maybe_tree t ≡ contraction (tree term.now)) }
{
    let Term::App(f, a) = term else {
        return Ok(None);
    };
    if let Some(body) = body_of(f) {
        return Ok(Some(body.substitute(alloc, 0, a)?));
    }
    match contraction(alloc, f)? {
        Some(g) => Ok(Some(make_app(alloc, g, a.copy(alloc)?)?)),
        None => Ok(None),
    }
}

/// The body of an abstraction without an annotation.
pub fn body_of(term: &Term) -> Option<&Term>
    ensures { MatchOption result (body_of (tree term.now) ≡ None)
        (λ b. body_of (tree term.now) ≡ Some (tree b.now)) }
{
    match term {
        Term::Abs(None, body) => Some(body),
        _ => None,
    }
}

/// The arguments behind the first `count`.
pub fn behind(arguments: &[Term], count: usize) -> &[Term]
    ensures { result.now ≡ drop count arguments.now }
{
    if count < arguments.len() {
        &arguments[count..]
    } else {
        &arguments[arguments.len()..]
    }
}

/// The first `count` arguments.
pub fn front(arguments: &[Term], count: usize) -> &[Term]
    ensures { result.now ≡ take count arguments.now }
{
    if count < arguments.len() {
        &arguments[..count]
    } else {
        arguments
    }
}
