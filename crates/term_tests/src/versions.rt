//! Versions behind one of 32 entries, and how many entries a version takes.
use crate::texts::{commands_of, entered, version_after};
use dk_model::{Entry, Listed, NoMemory, Scoped, Term};
use shared_term::Stored;
use signature_log::{Grow, Row, Rows, Version};
use std::alloc::Global;
use std::sync::Arc;

/// The symbol that a stored term is.
fn symbol_of(alloc: Global, term: &Stored) -> Result<Option<u32>, NoMemory> {
    match term.to_term(alloc)? {
        Term::Sym(k) => Ok(Some(k)),
        _ => Ok(None),
    }
}

/// The symbol on the right side of a row.
fn right_side(alloc: Global, row: Option<Row<'_>>) -> Result<Option<u32>, NoMemory> {
    match row {
        Some(Row::Body(body)) => symbol_of(alloc, body),
        Some(Row::Rule(rule)) => symbol_of(alloc, &rule.right),
        None => Ok(None),
    }
}

/// Whether these are the right sides of a symbol's rules, and all of them.
fn are_right_sides(alloc: Global, rows: Rows<'_>, due: &[u32]) -> Result<bool, NoMemory> {
    let mut at = 0;
    for symbol in due {
        if right_side(alloc, rows.at(at))? != Some(*symbol) {
            return Ok(false);
        }
        at = rows.len().min(at.saturating_add(1));
    }
    Ok(rows.len() as usize == due.len())
}

/// Whether a version has 32 symbols, each but the first with the one before it as its body, and so many entries, and these
/// are the right sides of the rules of a symbol.
fn has(
    alloc: Global,
    version: &Version,
    count: u32,
    symbol: u32,
    due: &[u32],
) -> Result<bool, NoMemory> {
    for k in 1..32 {
        if !are_right_sides(alloc, version.rules_of(k), &[k.saturating_sub(1)])? {
            return Ok(false);
        }
    }
    let none = version.get(count).is_none() && version.len() == count;
    Ok(none && are_right_sides(alloc, version.rules_of(symbol), due)?)
}

/// Whether a command behind a version of 32 symbols gives one of 33 in which a symbol has one rule, with this right side.
fn adds(
    alloc: Global,
    old: &Version,
    command: &Scoped,
    symbol: u32,
    due: u32,
) -> Result<bool, NoMemory> {
    let version = entered(alloc, old, command)?;
    has(alloc, &version, 33, symbol, &[due])
}

/// Whether each of two commands does so, and both leave the version as it was.
fn leaves(
    alloc: Global,
    old: &Version,
    commands: [&Scoped; 2],
    symbol: u32,
    due: [u32; 2],
) -> Result<bool, NoMemory> {
    Ok(
        adds(alloc, old, commands[0], symbol, due[0])?
            && adds(alloc, old, commands[1], symbol, due[1])?
            && has(alloc, old, 32, symbol, &[])?,
    )
}

fn leaves_a_version(
    alloc: Global,
    commands: &[Scoped],
    symbol: u32,
    due: [u32; 2],
) -> Result<bool, NoMemory> {
    let [old @ .., first, second] = commands else {
        return Ok(false);
    };
    let old = version_after(alloc, old)?;
    leaves(alloc, &old, [first, second], symbol, due)
}

/// Whether two commands behind a version of 32 symbols give two of 33 that differ in the rules of a symbol, which has the
/// first or the second of these right sides; and whether the version is left as it was.
fn two_differ(
    alloc: Global,
    last: &'static str,
    symbol: u32,
    due: [u32; 2],
) -> Result<bool, NoMemory> {
    let commands = commands_of(
        alloc,
        &[("def s0 : Type. ", 1), ("def s@ := s$. ", 31), (last, 1)],
    )?;
    leaves_a_version(alloc, commands.as_slice(), symbol, due)
}

/// How many equal entries a version takes, up to this count, and what comes of one more.
fn filled(alloc: Global, most: u32) -> Result<(u32, Option<Grow>), NoMemory> {
    let entry = Arc::new(alloc, Entry::Rules(Listed::new(alloc)))?;
    let mut version = Version::empty(alloc)?;
    for taken in 0..most {
        match version.append(Arc::try_clone(&entry)?) {
            Ok(next) => version = next,
            Err(grow) => return Ok((taken, Some(grow))),
        }
    }
    Ok((most, version.append(entry).err()))
}

fn is_full_at_the_last_place(alloc: Global) -> Result<bool, NoMemory> {
    Ok(matches!(filled(alloc, 1_048_576)?, (1_048_576, Some(Grow::Full))))
}

#[test]
fn versions_are_as_written_out(rt: HostRuntime) {
    let alloc = rt.alloc();
    let all = [
        two_differ(alloc, "def x := s3. def y := s4.", 32, [3, 4]),
        two_differ(alloc, "[] s0 --> s5. [] s0 --> s6.", 0, [5, 6]),
        is_full_at_the_last_place(alloc),
    ];
    assert_eq!(rt; all, [Ok(true); 3], "of the versions");
}
