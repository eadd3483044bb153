//! Texts with rules, with one refusal of each code of a check, and at their exact budgets, command by command: over shared
//! terms, over trees, and over a plain signature.
use crate::check_rows::{DEEP, ROWS};
use crate::texts::{commands_of, with};
use command_check::{check_command, enter_command};
use command_kinds::is_untyped;
use conversion::PoolReducer;
use dk_model::{Entry, Fault, NoMemory, Scoped, Signature, Verdict};
use pattern_compile::shape_all;
use plain_check::{check_plain, infer_plain};
use shared_term::Stored;
use signature_log::Version;
use std::alloc::Global;
use tree_evaluation::Trees;

/// A command, and what it is checked over.
#[derive(Clone, Copy)]
struct Asked<'a> {
    version: &'a Version,
    command: &'a Scoped,
    budget: u64,
}

/// What a command adds, or its verdict, over shared terms of which nothing is remembered.
fn entered(terms: &mut PoolReducer, asked: Asked<'_>) -> Result<Entry<Stored>, Verdict> {
    terms.clear();
    enter_command(terms, asked.version, asked.command, asked.budget)
}

/// Whether trees, and trees over a plain signature, come to this verdict.
fn is_verdict_of_trees(
    alloc: Global,
    signature: &Signature,
    asked: Asked<'_>,
    due: Verdict,
) -> bool {
    let mut trees = Trees::new(alloc);
    check_command(&mut trees, asked.version, asked.command, asked.budget) == due
        && check_plain(alloc, signature, asked.command, asked.budget) == due
}

/// Whether the type that a plain signature gives an untyped definition is that of the entry; else the verdict.
fn is_inferred(
    alloc: Global,
    signature: &Signature,
    asked: Asked<'_>,
    entered: &Result<Entry<Stored>, Verdict>,
) -> Result<bool, NoMemory> {
    if !is_untyped(asked.command) {
        return Ok(true);
    }
    match (
        infer_plain(alloc, signature, asked.command, asked.budget),
        entered,
    ) {
        (Ok(found), Ok(Entry::Symbol { typ, .. })) => {
            Ok(found.erased(alloc)?.equal(&typ.to_term(alloc)?))
        }
        (Err(verdict), Err(due)) => Ok(verdict == *due),
        _ => Ok(false),
    }
}

/// Whether the rules of a command are given their shapes, or refused for them with this verdict.
fn is_shaped(alloc: Global, signature: &Signature, command: &Scoped, due: Verdict) -> bool {
    let Scoped::Rules(rules) = command else {
        return true;
    };
    match shape_all(alloc, signature, rules) {
        Ok(shapes) => shapes.len() == rules.len(),
        Err(Fault::Refused(code)) => due == Verdict::Refused(code),
        Err(Fault::NoMemory) => false,
    }
}

/// Whether all ways come to what a command added, or to its verdict.
fn are_alike(
    alloc: Global,
    asked: Asked<'_>,
    entered: &Result<Entry<Stored>, Verdict>,
) -> Result<bool, NoMemory> {
    let due = match entered {
        Ok(_) => Verdict::Accepted,
        Err(verdict) => *verdict,
    };
    let signature = asked.version.plain()?;
    let is_alike = is_verdict_of_trees(alloc, &signature, asked, due)
        && is_inferred(alloc, &signature, asked, entered) == Ok(true)
        && is_shaped(alloc, &signature, asked.command, due);
    Ok(is_alike)
}

/// What comes behind a command.
#[derive(Drop)]
enum Next {
    Version(Version),
    Ends(Verdict),
    Differs,
}

fn next_of(alloc: Global, terms: &mut PoolReducer, asked: Asked<'_>) -> Result<Next, NoMemory> {
    let entered = entered(terms, asked);
    if are_alike(alloc, asked, &entered) != Ok(true) {
        return Ok(Next::Differs);
    }
    match entered {
        Ok(entry) => Ok(Next::Version(with(alloc, asked.version, entry)?)),
        Err(verdict) => Ok(Next::Ends(verdict)),
    }
}

/// The number of the first command that isn't accepted, and its verdict; or how many there are. Where the ways differ the
/// number is 0.
fn outcome(
    alloc: Global,
    terms: &mut PoolReducer,
    version: &mut Version,
    commands: &[Scoped],
    budget: u64,
) -> Result<(usize, Verdict), NoMemory> {
    let mut number = 0usize;
    for command in commands {
        number = number.wrapping_add(1);
        let asked = Asked {
            version,
            command,
            budget,
        };
        match next_of(alloc, terms, asked)? {
            Next::Version(next) => *version = next,
            Next::Ends(verdict) => return Ok((number, verdict)),
            Next::Differs => return Ok((0, Verdict::Accepted)),
        }
    }
    Ok((number, Verdict::Accepted))
}

fn outcome_of(
    alloc: Global,
    terms: &mut PoolReducer,
    commands: &[Scoped],
    budget: u64,
) -> Result<(usize, Verdict), NoMemory> {
    let mut version = Version::empty(alloc)?;
    outcome(alloc, terms, &mut version, commands, budget)
}

/// Whether so many commands of a text are looked at, and the last one has this verdict.
fn is_row(
    alloc: Global,
    terms: &mut PoolReducer,
    parts: &[(&str, u32)],
    budget: u64,
    due: (usize, Verdict),
) -> Result<bool, NoMemory> {
    let commands = commands_of(alloc, parts)?;
    let found = outcome_of(alloc, terms, commands.as_slice(), budget);
    Ok(found == Ok(due))
}

/// The first text that isn't as it is due.
fn first_wrong(alloc: Global, terms: &mut PoolReducer) -> Option<&'static str> {
    for (text, budget, count, verdict) in &ROWS {
        let due = (*count, *verdict);
        if is_row(alloc, terms, &[(*text, 1)], *budget, due) != Ok(true) {
            return Some(*text);
        }
    }
    for parts in &DEEP {
        if is_row(alloc, terms, parts, 1_000_000, (4, Verdict::Accepted)) != Ok(true) {
            return Some("deep");
        }
    }
    None
}

fn wrong_text(alloc: Global) -> Result<Option<&'static str>, NoMemory> {
    let mut terms = PoolReducer::new(alloc)?;
    Ok(first_wrong(alloc, &mut terms))
}

#[test]
fn each_way_of_checking_comes_to_the_same(rt: HostRuntime) {
    assert_eq!(rt; wrong_text(rt.alloc()), Ok(None), "of a text");
}
