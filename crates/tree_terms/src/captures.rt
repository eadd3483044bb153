//! Changes of a term: a part as a rule variable captures it, a term under captures, and several terms put in at once.
ghost use Rattle.std.specs.Prelude.{◌≡◌, ◌+◌, IfOk, MatchOption, Some, None, map};
ghost use Rattle.dk_model.specs.Trees.{tree};
ghost use Rattle.dk_model.specs.Signatures.{maybe_tree};
ghost use Rattle.dk_model.specs.Captures.{is_in, index_of, mentions_others, renamed, abstracted, captured, capture_at, filled};
ghost use Rattle.dk_model.specs.Bindings.{mentions_rule_variable, is_closed_at, may_bind};
ghost use Rattle.shared_term.specs.Changes.{from_last, substitute_all};

use dk_model::{NoMemory, Term, make_annotated, make_app, make_bare, make_product};
use std::alloc::Global;

fn sum(a: u64, b: u64) -> Result<u64, NoMemory>
    ensures { IfOk result (λ n. n ≡ a + b) }
{
    match a.checked_add(b) {
        Some(n) => Ok(n),
        None => Err(NoMemory),
    }
}

fn is_in(variable: u64, listed: &[u32]) -> bool
    ensures { result ≡ is_in variable listed.now }
{
    match listed {
        [] => false,
        [first, rest @ ..] => variable == u64::from(*first) || is_in(variable, rest),
    }
}

/// The number of a variable under a binder for each of those listed, of which the last is the innermost.
fn index_of(variable: u64, listed: &[u32]) -> u64
    ensures { result ≡ index_of variable listed.now }
{
    match listed {
        [] => 0,
        [first, rest @ ..] => if variable == u64::from(*first) {
            rest.len() as u64
        } else {
            index_of(variable, rest)
        },
    }
}

/// Whether the term, under `under` binders of its own, mentions of the `depth` variables bound by the pattern one
/// that isn't listed.
pub fn mentions_others(
    under: u64,
    depth: u64,
    listed: &[u32],
    term: &Term,
) -> Result<bool, NoMemory>
    ensures { IfOk result (λ b. b ≡ mentions_others under depth listed.now (tree term.now)) }
{
    match term {
        Term::Star | Term::Kind | Term::Sym(_) | Term::Rvar(_) => Ok(false),
        Term::Var(k) => Ok(*k >= under && *k - under < depth && !is_in(*k - under, listed)),
        Term::App(f, a) => Ok(
            mentions_others(under, depth, listed, f)? || mentions_others(under, depth, listed, a)?,
        ),
        Term::Abs(None, b) => mentions_others(sum(under, 1)?, depth, listed, b),
        Term::Abs(Some(n), b) => Ok(
            mentions_others(under, depth, listed, n)?
                || mentions_others(sum(under, 1)?, depth, listed, b)?,
        ),
        Term::Prod(a, b) => Ok(
            mentions_others(under, depth, listed, a)?
                || mentions_others(sum(under, 1)?, depth, listed, b)?,
        ),
    }
}

/// The part, under `under` binders of its own, over the listed variables in place of the `depth` of the pattern.
pub fn renamed(
    alloc: Global,
    under: u64,
    depth: u64,
    listed: &[u32],
    term: &Term,
) -> Result<Term, NoMemory>
    ensures { IfOk result (λ t. tree t ≡ renamed under depth listed.now (tree term.now)) }
{
    match term {
        Term::Star | Term::Kind | Term::Sym(_) | Term::Rvar(_) => term.copy(alloc),
        Term::Var(k) => {
            if *k < under {
                Ok(Term::Var(*k))
            } else if *k - under < depth {
                Ok(Term::Var(sum(index_of(*k - under, listed), under)?))
            } else {
                Ok(Term::Var(sum(*k - depth, listed.len() as u64)?))
            }
        }
        Term::App(f, a) => make_app(
            alloc,
            renamed(alloc, under, depth, listed, f)?,
            renamed(alloc, under, depth, listed, a)?,
        ),
        Term::Abs(None, b) => make_bare(alloc, renamed(alloc, sum(under, 1)?, depth, listed, b)?),
        Term::Abs(Some(n), b) => make_annotated(
            alloc,
            renamed(alloc, under, depth, listed, n)?,
            renamed(alloc, sum(under, 1)?, depth, listed, b)?,
        ),
        Term::Prod(a, b) => make_product(
            alloc,
            renamed(alloc, under, depth, listed, a)?,
            renamed(alloc, sum(under, 1)?, depth, listed, b)?,
        ),
    }
}

fn abstracted(alloc: Global, listed: &[u32], term: Term) -> Result<Term, NoMemory>
    ensures { IfOk result (λ t. tree t ≡ abstracted listed.now (tree term)) }
{
    match listed {
        [] => Ok(term),
        [_, rest @ ..] => make_bare(alloc, abstracted(alloc, rest, term)?),
    }
}

/// A part at depth `depth` of a pattern, abstracted over the listed variables, the first one outermost.
pub fn captured(alloc: Global, depth: u64, listed: &[u32], part: &Term) -> Result<Term, NoMemory>
    ensures { IfOk result (λ t. tree t ≡ captured depth listed.now (tree part.now)) }
{
    abstracted(alloc, listed, renamed(alloc, 0, depth, listed, part)?)
}

/// The capture of a rule variable.
pub fn capture_at(captures: &[Option<Term>], variable: u32) -> Option<&Term>
    ensures { MatchOption result (capture_at (map maybe_tree captures.now) variable ≡ None)
        (λ t. capture_at (map maybe_tree captures.now) variable ≡ Some (tree t.now)) }
{
    match captures.get(variable as usize) {
        Some(Some(t)) => Some(t),
        _ => None,
    }
}

/// A term, under `under` binders of its own, under the captures.
pub fn filled(
    alloc: Global,
    captures: &[Option<Term>],
    under: u64,
    term: &Term,
) -> Result<Term, NoMemory>
    ensures { IfOk result (λ t. tree t ≡ filled (map maybe_tree captures.now) under (tree term.now)) }
{
    match term {
        Term::Star | Term::Kind | Term::Sym(_) | Term::Var(_) => term.copy(alloc),
        Term::Rvar(k) => match capture_at(captures, *k) {
            None => Ok(Term::Rvar(*k)),
            Some(t) => t.shift(alloc, 0, under),
        },
        Term::App(f, a) => make_app(
            alloc,
            filled(alloc, captures, under, f)?,
            filled(alloc, captures, under, a)?,
        ),
        Term::Abs(None, b) => make_bare(alloc, filled(alloc, captures, sum(under, 1)?, b)?),
        Term::Abs(Some(n), b) => make_annotated(
            alloc,
            filled(alloc, captures, under, n)?,
            filled(alloc, captures, sum(under, 1)?, b)?,
        ),
        Term::Prod(a, b) => make_product(
            alloc,
            filled(alloc, captures, under, a)?,
            filled(alloc, captures, sum(under, 1)?, b)?,
        ),
    }
}

/// The term that stands so many before the last one.
fn from_last(terms: &[Term], back: u64) -> Option<&Term>
    ensures { MatchOption result (from_last (map tree terms.now) back ≡ None)
        (λ t. from_last (map tree terms.now) back ≡ Some (tree t.now)) }
{
    match terms {
        [] => None,
        [first, rest @ ..] => if back == rest.len() as u64 {
            Some(first)
        } else {
            from_last(rest, back)
        },
    }
}

/// The term, under `depth` binders of its own, with these in the place of its innermost variables, the last one in that of
/// variable 0.
pub fn all_put(alloc: Global, depth: u64, terms: &[Term], term: &Term) -> Result<Term, NoMemory>
    ensures { IfOk result (λ t. tree t ≡ substitute_all depth (map tree terms.now) (tree term.now)) }
{
    match term {
        Term::Star | Term::Kind | Term::Sym(_) | Term::Rvar(_) => term.copy(alloc),
        Term::Var(k) => {
            if *k < depth {
                return Ok(Term::Var(*k));
            }
            match from_last(terms, *k - depth) {
                None => Ok(Term::Var(k.saturating_sub(terms.len() as u64))),
                Some(t) => t.shift(alloc, 0, depth),
            }
        }
        Term::App(f, a) => make_app(
            alloc,
            all_put(alloc, depth, terms, f)?,
            all_put(alloc, depth, terms, a)?,
        ),
        Term::Abs(None, b) => make_bare(alloc, all_put(alloc, sum(depth, 1)?, terms, b)?),
        Term::Abs(Some(n), b) => make_annotated(
            alloc,
            all_put(alloc, depth, terms, n)?,
            all_put(alloc, sum(depth, 1)?, terms, b)?,
        ),
        Term::Prod(a, b) => make_product(
            alloc,
            all_put(alloc, depth, terms, a)?,
            all_put(alloc, sum(depth, 1)?, terms, b)?,
        ),
    }
}

/// Whether the rule variable stands in the term.
fn mentions_rule_variable(number: u32, term: &Term) -> bool
    ensures { result ≡ mentions_rule_variable number (tree term.now) }
{
    match term {
        Term::Star | Term::Kind | Term::Sym(_) | Term::Var(_) => false,
        Term::Rvar(k) => *k == number,
        Term::Abs(None, b) => mentions_rule_variable(number, b),
        Term::App(a, b) | Term::Abs(Some(a), b) | Term::Prod(a, b) => {
            mentions_rule_variable(number, a) || mentions_rule_variable(number, b)
        }
    }
}

/// Whether the term, under `under` binders of its own, mentions no variable but those that are bound in it.
fn is_closed(under: u64, term: &Term) -> Result<bool, NoMemory>
    ensures { IfOk result (λ b. b ≡ is_closed_at under (tree term.now)) }
{
    match term {
        Term::Star | Term::Kind | Term::Sym(_) | Term::Rvar(_) => Ok(true),
        Term::Var(k) => Ok(*k < under),
        Term::App(f, a) => Ok(is_closed(under, f)? && is_closed(under, a)?),
        Term::Abs(None, b) => is_closed(sum(under, 1)?, b),
        Term::Abs(Some(a), b) | Term::Prod(a, b) => {
            Ok(is_closed(under, a)? && is_closed(sum(under, 1)?, b)?)
        }
    }
}

/// Whether the rule variable may be bound to the term.
pub fn may_bind(number: u32, term: &Term) -> Result<bool, NoMemory>
    ensures { IfOk result (λ b. b ≡ may_bind number (tree term.now)) }
{
    Ok(!mentions_rule_variable(number, term) && is_closed(0, term)?)
}
