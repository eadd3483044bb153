//! Evaluation over shared terms and over plain trees: the same answers with the same units.
ghost use Rattle.signature_log.specs.Versions.{entries_of};

use crate::evaluation_rows::{Asked, LARGE, ROWS, Row};
use crate::texts::version_of_text;
use conversion::{PoolReducer, TreeLimits};
use dk_model::{Entry, NoMemory, Stop};
use shared_term::Stored;
use signature_log::{Reducer, Version};
use std::alloc::Global;
use tree_evaluation::Trees;

/// The terms that something is asked of, and the version.
#[derive(Clone, Copy)]
struct Question<'a> {
    version: &'a Version,
    first: &'a Stored,
    second: &'a Stored,
    asked: Asked,
}

fn is_term<R: Reducer>(terms: &R, found: &R::T, due: &Stored) -> Result<bool, NoMemory>
    requires { R.owns terms.now found.now }
{
    let found = terms.send(found)?.to_term(terms.alloc())?;
    Ok(found.equal(&due.to_term(terms.alloc())?))
}

fn told<R: Reducer>(terms: &mut R, question: Question<'_>, left: &mut u64) -> Result<bool, Stop>
    requires { R.serves (entries_of question.version.now) terms.old }
    ensures { R.serves (entries_of question.entry.version.now) terms.new }
{
    let first = terms.bring(question.first)?;
    match question.asked {
        Asked::Alike => {
            let second = terms.bring(question.second)?;
            terms.same(question.version, &first, &second, left)
        }
        Asked::Head => {
            let found = terms.whnf(question.version, &first, left)?;
            Ok(is_term(terms, &found, question.second)?)
        }
        Asked::Normal => {
            let found = terms.normal(question.version, &first, left)?;
            Ok(is_term(terms, &found, question.second)?)
        }
    }
}

/// Whether this is told with so many units, worked out and then remembered, and none is left.
fn tells<R: Reducer>(
    terms: &mut R,
    question: Question<'_>,
    units: u64,
    due: Result<bool, Stop>,
) -> bool
    requires { R.serves (entries_of question.version.now) terms.old }
    ensures { R.serves (entries_of question.entry.version.now) terms.new }
{
    let mut left = units;
    let found = told(terms, question, &mut left);
    let mut left_again = units;
    let found_again = told(terms, question, &mut left_again);
    found == due && left == 0 && found_again == due && left_again == 0
}

/// Whether the budget ends with so many units, and none is left.
fn ends<R: Reducer>(terms: &mut R, question: Question<'_>, units: u64) -> bool
    requires { R.serves (entries_of question.version.now) terms.old }
{
    let mut left = units;
    told(terms, question, &mut left) == Err(Stop::Ended) && left == 0
}

/// Whether a cleared reducer tells this with so many units, and ends with one less.
fn pool_tells(
    terms: &mut PoolReducer,
    question: Question<'_>,
    units: u64,
    due: Result<bool, Stop>,
) -> bool {
    terms.clear();
    let whole = tells(terms, question, units, due);
    terms.clear();
    whole && ends(terms, question, units.saturating_sub(1))
}

fn trees_tell(alloc: Global, question: Question<'_>, units: u64, due: Result<bool, Stop>) -> bool {
    let mut terms = Trees::new(alloc);
    let whole = tells(&mut terms, question, units, due);
    whole && ends(&mut terms, question, units.saturating_sub(1))
}

/// The body of the definition that stands so many entries before the end.
fn body(version: &Version, back: u32) -> Option<&Stored> {
    match version.get(version.len().saturating_sub(back)) {
        Some(
            Entry::Symbol {
                body: Some(body),
                ..
            },
        ) => Some(body),
        _ => None,
    }
}

fn is_told(
    alloc: Global,
    terms: &mut PoolReducer,
    version: &Version,
    row: &Row,
    over_trees: bool,
) -> bool {
    let (_, asked, units, due) = *row;
    let (Some(first), Some(second)) = (body(version, 2), body(version, 1)) else {
        return false;
    };
    let question = Question {
        version,
        first,
        second,
        asked,
    };
    pool_tells(terms, question, units, due)
        && (!over_trees || trees_tell(alloc, question, units, due))
}

fn is_row(
    alloc: Global,
    terms: &mut PoolReducer,
    row: &Row,
    over_trees: bool,
) -> Result<bool, NoMemory> {
    let version = version_of_text(alloc, row.0)?;
    Ok(is_told(alloc, terms, &version, row, over_trees))
}

/// The first row of which something else is told, by its number.
fn first_wrong(
    alloc: Global,
    terms: &mut PoolReducer,
    rows: &[Row],
    over_trees: bool,
) -> Option<usize> {
    let mut number = 0usize;
    for row in rows {
        if is_row(alloc, terms, row, over_trees) != Ok(true) {
            return Some(number);
        }
        number = number.wrapping_add(1);
    }
    None
}

/// The limits by which each symbol has a tree before its rules are gone through.
const AT_ONCE: TreeLimits = TreeLimits {
    fewest_rules: 1,
    walks: 0,
};

/// The first wrong one of the rows, and of the large ones.
fn both_wrong(alloc: Global) -> Result<[Option<usize>; 2], NoMemory> {
    let mut terms = PoolReducer::new(alloc)?;
    let both = first_wrong(alloc, &mut terms, &ROWS, true);
    Ok([both, first_wrong(alloc, &mut terms, &LARGE, false)])
}

/// The same where each symbol has a matching tree at once.
fn both_wrong_at_once(alloc: Global) -> Result<[Option<usize>; 2], NoMemory> {
    let mut terms = PoolReducer::with_limits(alloc, AT_ONCE)?;
    let both = first_wrong(alloc, &mut terms, &ROWS, false);
    Ok([both, first_wrong(alloc, &mut terms, &LARGE, false)])
}

#[test]
fn terms_are_evaluated_with_their_units(rt: HostRuntime) {
    assert_eq!(rt; both_wrong(rt.alloc()), Ok([None; 2]), "of the rows");
}

#[test]
fn matching_trees_change_no_unit(rt: HostRuntime) {
    assert_eq!(rt;
        both_wrong_at_once(rt.alloc()),
        Ok([None; 2]),
        "of the rows"
    );
}
