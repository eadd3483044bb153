//! The weak head form turn by turn, the comparison of two terms and the normal form (docs/evaluation.md).
ghost use Rattle.std.specs.Prelude.{◌≡◌, ◌≤◌, ◌<◌, IfOk, IfSome, OnOk, Some, is_some, map};
ghost use Rattle.dk_model.specs.Parts.{each_normal};
ghost use Rattle.dk_model.specs.Spines.{head_symbol};
ghost use Rattle.dk_model.specs.Evaluation.{whnf_of, comparison_of, normal_of, columns, rows};
ghost use Rattle.dk_model.specs.Equations.{heads_compared};
ghost use Rattle.signature_log.specs.Versions.{entries_of};
ghost use Rattle.told_steps.specs.Meetings.{AlwaysMeetIn, MeetIn};
ghost use Rattle.tree_evaluation.specs.Answers.{Answers, Leads, Spends, by_selection, form_told};
ghost use Rattle.tree_evaluation.specs.Tellings.{Begins, Rewrites, LeadsTo};
ghost use Rattle.dk_model.specs.Trees.{bare};
ghost use Rattle.tree_evaluation.specs.Views.{row, tree, columns_of};

use crate::matrix::{Row, columns_of, rows_for, width};
use crate::select::Selected;
use dk_model::{NoMemory, Stop, Term};
use signature_log::Version;
use std::alloc::Global;
use std::collections::LinkedList;
use told_steps::{
    End, Meeting, TakenRule, Told, fire, followed, met_application, met_behind, met_body,
    met_product, met_same, told_annotated, told_application, told_body, told_contraction,
    told_product, unmoved,
};
use tree_terms::{arguments, body_of, filled, front, head_symbol, rules_of};

/// How deep the functions of an evaluation may call each other.
const DEEPEST: u32 = 2_000;

/// The evaluation over a version.
#[derive(Clone, Copy)]
pub struct Evaluation<'v> {
    pub alloc: Global,
    pub version: &'v Version,
    /// How many calls further it may nest.
    pub depth: u32,
}

impl<'v> Evaluation<'v> {
    pub fn new(alloc: Global, version: &'v Version) -> Evaluation<'v>
        ensures { result.version.now ≡ version.now }
    {
        Evaluation {
            alloc,
            version,
            depth: DEEPEST,
        }
    }

    /// The weak head form of a term.
    #[cycle(evaluation)]
    pub fn whnf(self, term: &Term, left: &mut u64) -> Result<Told, Stop>
        ensures gives { Answers form_told
            (whnf_of (entries_of self.entry.version.now) left.old (tree term.now)) result left.new }
        ensures spent { left.new ≤ left.old }
        ensures told { IfOk result (LeadsTo (entries_of self.entry.version.now) (tree term.now)) }
    {
        let inner = Evaluation {
            depth: deeper(self.depth)?,
            ..self
        };
        let mut told = unmoved(self.alloc, term.copy(self.alloc)?);
        while let Some(next) = inner.turn(&told.form, left)? {
            told = followed(told, next)?;
        }
        Ok(told)
    }

    /// A turn, which takes a unit: what the term becomes, or nothing where it stands.
    #[cycle(evaluation)]
    #[tactic(auto, using(crate::proofs::Steps::whnf_out, crate::proofs::Steps::turn_contracts, crate::proofs::Steps::turn_stands, crate::proofs::Steps::turn_selects))]
    fn turn(self, term: &Term, left: &mut u64) -> Result<Option<Told>, Stop>
        ensures gives { Leads (entries_of self.entry.version.now) (tree term.now)
            (whnf_of (entries_of self.entry.version.now) left.old (tree term.now)) result left.new }
        ensures spent { left.new ≤ left.old }
        ensures turned { OnOk result (left.new < left.old) }
        ensures told { IfOk result (λ next. IfSome next
            (LeadsTo (entries_of self.entry.version.now) (tree term.now))) }
    {
        spend(left)?;
        if let Some(next) = told_contraction(self.alloc, term)? {
            return Ok(Some(next));
        }
        match head_symbol(term) {
            Some(symbol) => self.rewrite(symbol, term, left),
            None => Ok(None),
        }
    }

    /// What the first rule of the head symbol that takes the arguments makes of a term, or nothing where none does.
    #[cycle(evaluation)]
    #[tactic(auto, using(crate::proofs::Steps::bind_none, crate::proofs::Steps::bind_some))]
    fn rewrite(self, symbol: u32, term: &Term, left: &mut u64) -> Result<Option<Told>, Stop>
        requires { head_symbol (tree term.now) ≡ Some symbol }
        ensures gives { Leads (entries_of self.entry.version.now) (tree term.now)
            (by_selection (entries_of self.entry.version.now) symbol (tree term.now) left.old)
            result left.new }
        ensures spent { left.new ≤ left.old }
        ensures told { IfOk result (λ next. IfSome next
            (LeadsTo (entries_of self.entry.version.now) (tree term.now))) }
    {
        let (columns, rows) = matrix_of(self.alloc, self.version, symbol, term)?;
        match self.select(rows.as_slice(), columns, left)? {
            Some(selected) => Ok(Some(taken(self.alloc, term, rows.as_slice(), selected)?)),
            None => Ok(None),
        }
    }

    /// Whether two terms are convertible.
    #[cycle(evaluation)]
    #[tactic(auto, using(crate::proofs::Steps::comparison_out, crate::proofs::Steps::both_equal, crate::proofs::Steps::first_ends, crate::proofs::Steps::second_ends, crate::proofs::Steps::by_heads))]
    pub fn same(self, t: &Term, u: &Term, left: &mut u64) -> Result<Option<Meeting>, Stop>
        ensures gives { Answers is_some
            (comparison_of (entries_of self.entry.version.now) left.old (tree t.now) (tree u.now))
            result left.new }
        ensures spent { left.new ≤ left.old }
        ensures told { IfOk result (λ met. IfSome met
            (MeetIn (entries_of self.entry.version.now) (tree t.now) (tree u.now))) }
    {
        let inner = Evaluation {
            depth: deeper(self.depth)?,
            ..self
        };
        spend(left)?;
        if t.equal(u) {
            return Ok(Some(met_same(self.alloc, t)?));
        }
        let first = inner.whnf(t, left)?;
        let second = inner.whnf(u, left)?;
        match inner.heads_same(&first.form, &second.form, left)? {
            Some(met) => Ok(Some(met_behind(first, second, met)?)),
            None => Ok(None),
        }
    }

    /// Whether two weak head forms have the same head and as many arguments, and parts that are convertible.
    #[cycle(evaluation)]
    #[tactic(auto, using(crate::proofs::Steps::bind_none, crate::proofs::Steps::bind_some, crate::proofs::Comparing::bodies_due, crate::proofs::Comparing::arguments_compared, crate::proofs::Comparing::products_compared))]
    fn heads_same(self, t: &Term, u: &Term, left: &mut u64) -> Result<Option<Meeting>, Stop>
        ensures gives { Answers is_some
            (heads_compared (entries_of self.entry.version.now) (tree t.now) (tree u.now) left.old)
            result left.new }
        ensures spent { left.new ≤ left.old }
        ensures told { IfOk result (λ met. IfSome met
            (MeetIn (entries_of self.entry.version.now) (tree t.now) (tree u.now))) }
    {
        let inner = Evaluation {
            depth: deeper(self.depth)?,
            ..self
        };
        match (t, u) {
            (Term::App(f, a), Term::App(g, b)) => {
                let Some(functions) = inner.heads_same(f, g, left)? else {
                    return Ok(None);
                };
                let Some(arguments) = inner.same(a, b, left)? else {
                    return Ok(None);
                };
                Ok(Some(met_application(self.alloc, functions, arguments)?))
            }
            (Term::Abs(None, _), Term::Abs(None, _)) => {
                let (b, c) = bodies(t, u)?;
                match inner.same(b, c, left)? {
                    Some(bodies) => Ok(Some(met_body(self.alloc, bodies)?)),
                    None => Ok(None),
                }
            }
            (Term::Prod(a, b), Term::Prod(c, d)) => {
                let Some(domains) = inner.same(a, c, left)? else {
                    return Ok(None);
                };
                let Some(codomains) = inner.same(b, d, left)? else {
                    return Ok(None);
                };
                Ok(Some(met_product(self.alloc, domains, codomains)?))
            }
            (Term::Star, Term::Star) => Ok(met_if(self.alloc, true, t)?),
            (Term::Kind, Term::Kind) => Ok(met_if(self.alloc, true, t)?),
            (Term::Sym(a), Term::Sym(b)) => Ok(met_if(self.alloc, *a == *b, t)?),
            (Term::Var(a), Term::Var(b)) => Ok(met_if(self.alloc, *a == *b, t)?),
            (Term::Rvar(a), Term::Rvar(b)) => Ok(met_if(self.alloc, *a == *b, t)?),
            _ => Ok(None),
        }
    }

    /// The normal form.
    #[cycle(evaluation)]
    #[tactic(auto, using(crate::proofs::Steps::normal_out, crate::proofs::Steps::normal_ends, crate::proofs::Steps::normal_goes))]
    pub fn normal(self, term: &Term, left: &mut u64) -> Result<Told, Stop>
        ensures gives { Answers form_told
            (normal_of (entries_of self.entry.version.now) left.old (tree term.now)) result left.new }
        ensures spent { left.new ≤ left.old }
        ensures told { IfOk result (LeadsTo (entries_of self.entry.version.now) (tree term.now)) }
    {
        let inner = Evaluation {
            depth: deeper(self.depth)?,
            ..self
        };
        spend(left)?;
        let value = inner.whnf(term, left)?;
        let parts = inner.each_normal(&value.form, left)?;
        Ok(followed(value, parts)?)
    }

    /// A weak head form with each of its parts normalised, from left to right.
    #[cycle(evaluation)]
    #[tactic(auto, using(crate::proofs::Steps::bind_none, crate::proofs::Steps::bind_some))]
    fn each_normal(self, value: &Term, left: &mut u64) -> Result<Told, Stop>
        ensures gives { Answers form_told
            (each_normal (normal_of (entries_of self.entry.version.now)) (tree value.now) left.old)
            result left.new }
        ensures spent { left.new ≤ left.old }
        ensures told { IfOk result (LeadsTo (entries_of self.entry.version.now) (tree value.now)) }
    {
        let inner = Evaluation {
            depth: deeper(self.depth)?,
            ..self
        };
        match value {
            Term::App(f, a) => {
                let f = inner.each_normal(f, left)?;
                let a = inner.normal(a, left)?;
                Ok(told_application(self.alloc, f, a)?)
            }
            Term::Abs(None, b) => {
                let b = inner.normal(b, left)?;
                Ok(told_body(self.alloc, b)?)
            }
            Term::Abs(Some(n), b) => {
                let n = inner.normal(n, left)?;
                let b = inner.normal(b, left)?;
                Ok(told_annotated(self.alloc, n, b)?)
            }
            Term::Prod(a, b) => {
                let a = inner.normal(a, left)?;
                let b = inner.normal(b, left)?;
                Ok(told_product(self.alloc, a, b)?)
            }
            Term::Star | Term::Kind | Term::Sym(_) | Term::Var(_) | Term::Rvar(_) => {
                Ok(unmoved(self.alloc, value.copy(self.alloc)?))
            }
        }
    }
}

/// The bodies of two abstractions. It wants memory where a term is none, or has an annotation.
#[tactic(auto, using(crate::proofs::Comparing::with_body))]
fn bodies<'t>(t: &'t Term, u: &'t Term) -> Result<(&'t Term, &'t Term), NoMemory>
    ensures first { IfOk result (λ both. tree t.now ≡ bare (tree both.0.now)) }
    ensures second { IfOk result (λ both. tree u.now ≡ bare (tree both.1.now)) }
{
    match (body_of(t), body_of(u)) {
        (Some(b), Some(c)) => Ok((b, c)),
        _ => Err(NoMemory),
    }
}

/// A term with itself, if so.
fn met_if(alloc: Global, same: bool, term: &Term) -> Result<Option<Meeting>, NoMemory>
    ensures given { IfOk result (λ met. is_some met ≡ same) }
    ensures meets { IfOk result (λ met. IfSome met (AlwaysMeetIn (tree term.now) (tree term.now))) }
{
    if !same {
        return Ok(None);
    }
    Ok(Some(met_same(alloc, term)?))
}

/// How many calls further an evaluation may nest that is a call further in. It wants memory where none may.
pub fn deeper(depth: u32) -> Result<u32, NoMemory>
    ensures { IfOk result (λ d. d < depth) }
{
    match depth.checked_sub(1) {
        Some(depth) => Ok(depth),
        None => Err(NoMemory),
    }
}

/// Takes a unit.
fn spend(left: &mut u64) -> Result<(), Stop>
    ensures spends { Spends left.old result left.new }
    ensures spent { left.new ≤ left.old }
{
    match left.checked_sub(1) {
        Some(rest) => {
            *left = rest;
            Ok(())
        }
        None => Err(Stop::Ended),
    }
}

/// The columns and the rows for a term with this symbol at its head.
#[tactic(auto, using(crate::proofs::Lists::counted, crate::proofs::Lists::first_mapped))]
fn matrix_of<'v>(
    alloc: Global,
    version: &'v Version,
    symbol: u32,
    term: &Term,
) -> Result<(LinkedList<End>, Vec<Row<'v>>), NoMemory>
    ensures columns { IfOk result (λ m. columns_of m.0
        ≡ columns (entries_of version.now) symbol (tree term.now)) }
    ensures rows { IfOk result (λ m. map row m.1.items
        ≡ rows (entries_of version.now) symbol (tree term.now)) }
    ensures begins { IfOk result (λ m. Begins (entries_of version.now) symbol (tree term.now)
        m.0 m.1.items) }
{
    let rules = rules_of(alloc, version, symbol)?;
    let arguments = arguments(alloc, term)?;
    let arguments = arguments.as_slice();
    let width = width(arguments.len(), rules.as_slice());
    let rows = rows_for(alloc, arguments.len(), width, rules.as_slice())?;
    let columns = columns_of(alloc, 0, front(arguments, width))?;
    Ok((columns, rows))
}

/// A term after the rule that is taken. It wants memory where no row is at the place.
fn taken(
    alloc: Global,
    term: &Term,
    rows: &[Row<'_>],
    selected: Selected<'_>,
) -> Result<Told, NoMemory>
    ensures { IfOk result (λ told. Rewrites (tree term.now) rows.now selected.entry told) }
{
    let Some(row) = rows.get(selected.place) else {
        return Err(NoMemory);
    };
    let right = selected.rule.right().to_term(alloc)?;
    let right = filled(alloc, selected.captures.as_slice(), 0, &right)?;
    let taken = TakenRule {
        number: row.from as u64,
        patterns: selected.rule.pattern_count(),
        joins: selected.joins,
        right,
    };
    let told = fire(alloc, term, taken, selected.ends)?;
    Ok(told)
}
