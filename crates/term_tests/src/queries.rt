//! What queries find, over shared terms and over trees, and their verdicts over a plain signature (docs/queries.md).
use crate::texts::{commands_of, version_after};
use command_check::query;
use command_kinds::is_answered;
use conversion::PoolReducer;
use dk_model::{Code, NoMemory, Scoped, Term, Verdict};
use plain_check::check_plain;
use shared_term::Found;
use signature_log::Version;
use std::alloc::Global;
use tree_evaluation::Trees;

/// What is due of a query. A term stands as the body of one more definition.
#[derive(Clone, Copy)]
enum Due {
    Yes,
    No,
    Type(&'static str),
    Value(&'static str),
    Ends(Verdict),
}

/// A text, the query behind it, and what is due.
type Row = (&'static str, &'static str, Due);

/// The text of docs/queries.md.
const SUMS: &str =
    "nat : Type. zero : nat. succ : nat -> nat. def plus : nat -> nat -> nat. [n] plus zero n --> n [m, n] plus (succ m) n --> succ (plus m n). def two : nat := succ (succ zero). ";

/// A text whose constant takes every unit.
const ENDLESS: &str = "a : Type. x : a. def c : a. [] c --> c. ";

const ROWS: [Row; 8] = [
    (
        SUMS,
        "#EVAL plus two two. ",
        Due::Value("def due := succ (succ (succ (succ zero)))."),
    ),
    (
        SUMS,
        "#EVAL zero zero. ",
        Due::Ends(Verdict::Refused(Code::E20)),
    ),
    (
        SUMS,
        "#INFER plus two. ",
        Due::Type("def due := nat -> nat."),
    ),
    (
        SUMS,
        "#INFER n => n. ",
        Due::Ends(Verdict::Refused(Code::E23)),
    ),
    (SUMS, "#CHECK zero : nat. ", Due::Yes),
    (SUMS, "#CHECK zero zero : nat. ", Due::No),
    (ENDLESS, "#EVAL c. ", Due::Ends(Verdict::Ended)),
    // The end of the units is no answer.
    (ENDLESS, "#CHECK c == x. ", Due::Ends(Verdict::Ended)),
];

/// A query, what it is asked over, and the units for it.
#[derive(Clone, Copy)]
struct Asked<'a> {
    version: &'a Version,
    command: &'a Scoped,
    budget: u64,
}

fn found_by_pool(terms: &mut PoolReducer, asked: Asked<'_>) -> Result<Found, Verdict> {
    if !is_answered(asked.command) {
        return Err(Verdict::Memory);
    }
    terms.clear();
    query(terms, asked.version, asked.command, asked.budget)
}

fn found_by_trees(alloc: Global, asked: Asked<'_>) -> Result<Found, Verdict> {
    if !is_answered(asked.command) {
        return Err(Verdict::Memory);
    }
    query(
        &mut Trees::new(alloc),
        asked.version,
        asked.command,
        asked.budget,
    )
}

/// The body of the definition behind the query.
fn body(command: &Scoped) -> Option<&Term> {
    match command {
        Scoped::Declare {
            body: Some(body),
            ..
        } => Some(body),
        _ => None,
    }
}

/// Whether what was found is due, where a term is the one of this command.
fn is_due(
    alloc: Global,
    found: &Result<Found, Verdict>,
    due: Due,
    last: &Scoped,
) -> Result<bool, NoMemory> {
    match (found, due) {
        (Ok(Found::Yes), Due::Yes) => Ok(true),
        (Ok(Found::No), Due::No) => Ok(true),
        (Ok(Found::Of(typ)), Due::Type(_)) => match body(last) {
            Some(term) => Ok(typ.to_term(alloc)?.equal(term)),
            None => Ok(false),
        },
        (Ok(Found::Value(value)), Due::Value(_)) => match body(last) {
            Some(term) => Ok(value.to_term(alloc)?.equal(term)),
            None => Ok(false),
        },
        (Err(verdict), Due::Ends(due)) => Ok(*verdict == due),
        _ => Ok(false),
    }
}

/// The verdict that is due.
fn verdict_due(due: Due) -> Verdict {
    match due {
        Due::Ends(verdict) => verdict,
        _ => Verdict::Accepted,
    }
}

/// The definition of the term that is due; else any.
fn definition(due: Due) -> &'static str {
    match due {
        Due::Type(text) => text,
        Due::Value(text) => text,
        _ => "due : Type.",
    }
}

/// Whether all ways of asking find what is due.
fn are_due(
    alloc: Global,
    terms: &mut PoolReducer,
    asked: Asked<'_>,
    due: Due,
    last: &Scoped,
) -> Result<bool, NoMemory> {
    let of_pool = found_by_pool(terms, asked);
    let of_trees = found_by_trees(alloc, asked);
    let signature = asked.version.plain()?;
    let verdict = check_plain(alloc, &signature, asked.command, asked.budget);
    Ok(
        is_due(alloc, &of_pool, due, last)?
            && is_due(alloc, &of_trees, due, last)?
            && verdict == verdict_due(due),
    )
}

fn is_row(alloc: Global, terms: &mut PoolReducer, row: &Row) -> Result<bool, NoMemory> {
    let (text, asked, due) = row;
    let commands = commands_of(alloc, &[(*text, 1), (*asked, 1), (definition(*due), 1)])?;
    let commands = commands.as_slice();
    if commands.len() < 2 {
        return Ok(false);
    }
    let place = commands.len() - 2;
    let version = version_after(alloc, &commands[..place])?;
    let asked = Asked {
        version: &version,
        command: &commands[place],
        budget: 1000,
    };
    are_due(alloc, terms, asked, *due, &commands[place + 1])
}

fn first_wrong(alloc: Global) -> Result<Option<&'static str>, NoMemory> {
    let mut terms = PoolReducer::new(alloc)?;
    for row in &ROWS {
        if is_row(alloc, &mut terms, row) != Ok(true) {
            return Ok(Some(row.1));
        }
    }
    Ok(None)
}

#[test]
fn each_query_finds_what_is_due(rt: HostRuntime) {
    assert_eq!(rt; first_wrong(rt.alloc()), Ok(None), "of a query");
}
