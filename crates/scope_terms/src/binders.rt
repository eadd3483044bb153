//! The binders above a place of a command, and which of them a name means.
//!
//! A name is looked for from the innermost binder on. Where its length or its first byte is none of those of the binders it
//! isn't looked for: most names are symbols. A command may have a thousand binders, so each name has one of sixteen classes,
//! and each binder a link to the next one of its class: the first of the class is come to one by one, and from there on
//! about one in sixteen is looked at.
ghost use Rattle.std.specs.Prelude.{◌≡◌, ◌+◌, ◌∷◌, ◌↔◌, ℕ, IsTrue, IfOk, None, Some, false};
ghost use Rattle.std.specs.Option.{option_map};
ghost use Rattle.scope_terms.specs.Scopes.{binds, number_from};
ghost use Rattle.scope_terms.specs.Binding.{AreTold, IsIn, IsTold, MayBe, Widens, binders, class_of, first_byte, LeadsTo};

use dk_model::{Listed, NoMemory};

/// The numbers from the least to the most.
#[derive(Clone, Copy)]
pub(crate) struct Span {
    pub least: usize,
    pub most: usize,
}

/// The lengths and the first bytes of names.
#[derive(Clone, Copy)]
pub(crate) struct Spans {
    pub lengths: Span,
    pub firsts: Span,
}

/// The binders above a place, innermost first.
#[derive(Clone, Copy)]
pub(crate) enum Binders<'a> {
    Outermost,
    Named {
        name: &'a [u8],
        /// Those of the names from here on.
        spans: Spans,
        class: u8,
        outer: &'a Binders<'a>,
        /// Where a name of this class that isn't this one is looked for next, and how many are passed between.
        passed: u64,
        next: &'a Binders<'a>,
    },
    /// So many that bind nothing that can be named.
    Unnamed(u64, &'a Binders<'a>),
}

/// Binders behind some that were passed.
#[derive(Clone, Copy)]
struct Link<'a> {
    passed: u64,
    next: &'a Binders<'a>,
}

const NOTHING: Span = Span {
    least: usize::MAX,
    most: 0,
};

/// A link is looked for in at most so many steps: a binder of a class that none outside of it has would go through all.
const MOST_STEPS: u32 = 64;

fn is_in(n: usize, span: Span) -> bool
    ensures { IsTrue result ↔ IsIn n span }
{
    span.least <= n && n <= span.most
}

fn widened(span: Span, n: usize) -> Span
    ensures { Widens span n result }
{
    Span {
        least: if n < span.least { n } else { span.least },
        most: if span.most < n { n } else { span.most },
    }
}

/// The first byte of a name; 0 where it has none.
fn first_byte(name: &[u8]) -> usize
    ensures { result ≡ first_byte name.now }
{
    match name {
        [first, ..] => *first as usize,
        [] => 0,
    }
}

/// The class of a name, one of sixteen: names of different classes differ.
#[tactic(auto, using(std::proofs::lemmas::List::Sums::fold_more))]
fn class_of(name: &[u8]) -> u8
    ensures { result ≡ class_of name.now }
{
    let mut class = 0;
    for byte in name {
        class = (class * 7 + *byte % 16) % 16;
    }
    class
}

/// The spans of the names among the binders.
#[tactic(auto, using(crate::proofs::Binding::told_unnamed))]
fn spans_of<'a>(bound: &'a Binders<'a>) -> Spans
    requires { IsTold bound.now }
    ensures { AreTold result (binders bound.now) }
{
    match bound {
        Binders::Outermost => Spans {
            lengths: NOTHING,
            firsts: NOTHING,
        },
        Binders::Named { spans, .. } => *spans,
        Binders::Unnamed(_, outer) => spans_of(*outer),
    }
}

/// The nearest of these binders with a name of this class, or what is left after so many steps.
fn nearest<'a>(class: u8, bound: &'a Binders<'a>) -> Result<Link<'a>, NoMemory>
    requires { IsTold bound.now }
    ensures leads { IfOk result
        (λ l. LeadsTo class (binders bound.now) l.passed (binders l.next.now)) }
    ensures told { IfOk result (λ l. IsTold l.next.now) }
{
    let mut passed: u64 = 0;
    let mut next = bound;
    for _step in 0..MOST_STEPS {
        match next {
            Binders::Outermost => break,
            Binders::Unnamed(count, outer) => {
                passed = further(passed, *count)?;
                next = *outer;
            }
            Binders::Named {
                class: other,
                outer,
                ..
            } => {
                if *other == class {
                    break;
                }
                passed = further(passed, 1)?;
                next = *outer;
            }
        }
    }
    Ok(Link { passed, next })
}

/// The binders with a name more, the innermost.
#[tactic(auto, using(crate::proofs::Binding::told_named))]
fn named<'a>(name: &'a [u8], outer: &'a Binders<'a>) -> Result<Binders<'a>, NoMemory>
    requires { IsTold outer.now }
    ensures is { IfOk result (λ b. binders b ≡ Some name.now ∷ binders outer.now) }
    ensures told { IfOk result (λ b. IsTold b) }
{
    let inside = spans_of(outer);
    let spans = Spans {
        lengths: widened(inside.lengths, name.len()),
        firsts: widened(inside.firsts, first_byte(name)),
    };
    let class = class_of(name);
    let Link { passed, next } = nearest(class, outer)?;
    Ok(Binders::Named {
        name,
        spans,
        class,
        outer,
        passed,
        next,
    })
}

/// The binders with one more that binds nothing that can be named.
fn unnamed<'a>(bound: &'a Binders<'a>) -> Result<Binders<'a>, NoMemory>
    requires { IsTold bound.now }
    ensures is { IfOk result (λ b. binders b ≡ None ∷ binders bound.now) }
    ensures told { IfOk result (λ b. IsTold b) }
{
    match bound {
        Binders::Unnamed(count, outer) => Ok(Binders::Unnamed(further(*count, 1)?, *outer)),
        _ => Ok(Binders::Unnamed(1, bound)),
    }
}

/// The binders with one more, the innermost.
pub(crate) fn under<'a>(
    binder: Option<&'a [u8]>,
    bound: &'a Binders<'a>,
) -> Result<Binders<'a>, NoMemory>
    requires { IsTold bound.now }
    ensures is { IfOk result
        (λ b. binders b ≡ option_map (λ y. y.now) binder.entry ∷ binders bound.now) }
    ensures told { IfOk result (λ b. IsTold b) }
{
    match binder {
        Some(name) => named(name, bound),
        None => unnamed(bound),
    }
}

/// The binders with one more that is kept as it is spelt.
pub(crate) fn under_listed<'a>(
    binder: &'a Option<Listed<u8>>,
    bound: &'a Binders<'a>,
) -> Result<Binders<'a>, NoMemory>
    requires { IsTold bound.now }
    ensures is { IfOk result (λ b. binders b ≡ binder.now ∷ binders bound.now) }
    ensures told { IfOk result (λ b. IsTold b) }
{
    match binder {
        Some(name) => named(name.as_slice(), bound),
        None => unnamed(bound),
    }
}

fn further(at: u64, by: u64) -> Result<u64, NoMemory>
    ensures { IfOk result (λ n. n ≡ at + by) }
{
    match at.checked_add(by) {
        Some(n) => Ok(n),
        None => Err(NoMemory),
    }
}

/// Whether a name may be among those of these spans.
fn may_be(name: &[u8], spans: &Spans) -> bool
    ensures { IsTrue result ↔ MayBe name.now spans.now }
{
    is_in(name.len(), spans.lengths) && is_in(first_byte(name), spans.firsts)
}

/// Whether a name may be among those of these binders.
fn may_be_bound<'a>(name: &[u8], bound: &'a Binders<'a>) -> bool
    requires { IsTold bound.now }
    ensures { result ≡ false →
        (n : ℕ) → number_from n (binds name.now) (binders bound.now) ≡ None }
{
    match bound {
        Binders::Outermost => false,
        Binders::Named { spans, .. } => may_be(name, spans),
        Binders::Unnamed(_, outer) => may_be_bound(name, *outer),
    }
}

/// The number of the innermost binder so spelt.
pub(crate) fn variable<'a>(bound: &'a Binders<'a>, name: &[u8]) -> Result<Option<u64>, NoMemory>
    requires { IsTold bound.now }
    ensures { IfOk result (λ found. found ≡ number_from 0 (binds name.now) (binders bound.now)) }
{
    if may_be_bound(name, bound) {
        number_among(bound, name, class_of(name))
    } else {
        Ok(None)
    }
}

/// The same for a name of this class.
#[tactic(auto, using(crate::proofs::Binding::number_unnamed, crate::proofs::Binding::number_absent, crate::proofs::Binding::number_passed))]
fn number_among<'a>(bound: &'a Binders<'a>, name: &[u8], class: u8) -> Result<Option<u64>, NoMemory>
    requires told { IsTold bound.now }
    requires class { class ≡ class_of name.now }
    ensures { IfOk result (λ found. found ≡ number_from 0 (binds name.now) (binders bound.now)) }
{
    let mut at: u64 = 0;
    let mut rest = bound;
    loop {
        match rest {
            Binders::Outermost => return Ok(None),
            Binders::Unnamed(count, outer) => {
                at = further(at, *count)?;
                rest = *outer;
            }
            Binders::Named {
                name: binder,
                spans,
                class: other,
                outer,
                passed,
                next,
            } => {
                if !may_be(name, spans) {
                    return Ok(None);
                }
                if *other != class {
                    at = further(at, 1)?;
                    rest = *outer;
                } else if name == *binder {
                    return Ok(Some(at));
                } else {
                    at = further(further(at, 1)?, *passed)?;
                    rest = *next;
                }
            }
        }
    }
}
