//! Certificates and their parts, right ones and damaged ones, rechecked against their commands.
use crate::texts::{commands_of, with};
use command_check::entry_of;
use dk_model::{NoMemory, Scoped, Term};
use recheck::{Wrong, recheck_part};
use recheck_theory::{Answer, recheck};
use shared_term::Stored;
use signature_log::Version;
use std::alloc::Global;
use std::test::Fail;

// A text, and the part of each command without its first line.
const RIGHT: [(&str, &[&str]); 3] = [
    (
        "nat : Type. z : nat. thm t : nat := z.",
        &["r 0\n", "r 0\n", "r 0\nj 0 0\n"],
    ),
    (
        "a : Type. def b : Type := a. x : a. thm t : b := x.",
        &["r 0\n", "r 0\nj 0 0\n", "r 0\n", "r 0\nj 0 1\nf 0 0 0\n"],
    ),
    (KINDS, &KINDS_PARTS),
];

// Items of each kind: a rule with a later occurrence and a guard, equations solved by their parts, a definition without a type.
const KINDS: &str = "nat : Type. z : nat. s : nat -> nat. vec : nat -> Type. nil : vec z.
    cons : n : nat -> nat -> vec n -> vec (s n).
    def same : nat -> nat -> nat -> nat.
    [x] same x {x} x --> x.
    def one := s z.
    def tail : n : nat -> vec (s n) -> vec n.
    [n, m, x, v] tail n (cons m x v) --> v.
    thm t : vec (same one ((x : nat => x) (s z)) one) := cons z z nil.
    thm u : vec z := tail z (cons z z nil).";

const KINDS_PARTS: [&str; 13] = [
    "r 0\n",
    "r 0\n",
    "r 0\nr 0\nr 0\n",
    "r 0\nr 0\nr 0\n",
    "r 0\nj 0 0\nr 0\n",
    "r 0\nr 0\nr 0\nj 0 0\nr 0\nr 0\nr 0\nj 0 0\nj 0 0\nr 0\nr 0\nr 0\nr 0\n",
    "r 0\nr 0\nr 0\nr 0\nr 0\nr 0\nr 0\n",
    "r 0\nr 0\nr 0\ne 0 0 =\nj 0 0\nj 0 0\n",
    "r 0\nj 0 0\n",
    "r 0\nr 0\nr 0\nj 0 0\nj 0 0\nr 0\nr 0\nj 0 0\nr 0\nr 0\nr 0\n",
    "r 0\nr 0\nr 0\nr 0\nr 0\ne 0 0 t\ne 0 0 t\ne 0 0 l\nj 0 0\n",
    "r 0\nr 0\nj 0 0\nr 0\nr 0\nr 0\nr 0\nj 0 0\nj 0 0\nj 0 0\nr 0\nj 0 0\nj 0 0\nr 0\nr 0\nj 0 0\nr 0\nj 0 0\nr 0\nj 0 0\nj 0 2\nf 2 0 2\nj 0 0\nj 1 1\nb 0\nf 0 0 0\nf 2 0 0\n",
    "r 0\nj 0 0\nr 0\nr 0\nj 0 0\nr 0\nr 0\nj 0 0\nr 0\nj 0 0\nr 0\nj 0 0\nj 0 0\nj 0 0\n",
];

// What stands in the part of the twelfth command before the item that takes steps.
const FRONT: &str =
    "r 0\nr 0\nj 0 0\nr 0\nr 0\nr 0\nr 0\nj 0 0\nj 0 0\nj 0 0\nr 0\nj 0 0\nj 0 0\nr 0\nr 0\nj 0 0\nr 0\nj 0 0\nr 0\nj 0 0\n";

// A command of the last text, and a part, in two pieces, that isn't one.
const WRONG: [(usize, &str, &str); 21] = [
    (9, "r 0\n", ""),
    (9, "r 0\nj 0 0\nj 0 0\n", ""),
    (9, "r 0\nj 0 0", ""),
    (9, "r 0\nj 0 0\nr 0\n", ""),
    (9, "r 0\nj 0 00\n", ""),
    (9, "r 0\nj 0 0\nq\n", ""),
    (9, "r 0\nr 0\n", ""),
    (8, "r 0\nr 0\nr 0\ne 0 0 x\nj 0 0\nj 0 0\n", ""),
    (
        11,
        "r 0\nr 0\nr 0\nr 0\nr 0\ne 0 0 t\ne 0 0 t\ne 0 0 r\nj 0 0\n",
        "",
    ),
    (
        11,
        "r 0\nr 0\nr 0\nr 0\nr 0\ne 0 0 t\ne 0 0 t\ne 0 0 x\nj 0 0\n",
        "",
    ),
    (
        11,
        "r 0\nr 0\nr 0\nr 0\nr 0\ne 0 0 t\ne 0 0 t\ne 0 0 =\nj 0 0\n",
        "",
    ),
    (11, "r 0\nr 0\nr 0\nr 0\nr 0\ne 0 0 x\nj 0 0\n", ""),
    (11, "r 0\nr 0\nr 0\nr 0\nr 0\ne 0 0 t\ne 0 0 t\nj 0 0\n", ""),
    (12, FRONT, "j 0 2\nf 2 0 1\nj 0 0\nf 2 0 0\n"),
    (
        12,
        FRONT,
        "j 0 2\nf 2 1 2\nj 0 0\nj 1 1\nb 0\nf 0 0 0\nf 2 0 0\n",
    ),
    (
        12,
        FRONT,
        "j 0 2\nf 1 0 2\nj 0 0\nj 1 1\nb 0\nf 0 0 0\nf 2 0 0\n",
    ),
    (
        12,
        FRONT,
        "j 0 2\nf 99 0 2\nj 0 0\nj 1 1\nb 0\nf 0 0 0\nf 2 0 0\n",
    ),
    (12, FRONT, "j 0 2\nb 2\nf 2 0 0\n"),
    (
        12,
        FRONT,
        "j 0 2\nf 2 0 2\nj 1 1\nb 0\nf 0 0 0\nj 0 0\nf 2 0 0\n",
    ),
    (12, FRONT, "j 0 2\nf 2 0 2\nj 0 0\nj 0 0\nf 2 0 0\n"),
    (12, FRONT, "j 0 1\nf 2 0 2\nj 0 0\nj 1 1\nb 0\nf 0 0 0\n"),
];

// Certificates of the first text, and what is answered of each.
const WHOLE: [(&str, Answer); 14] = [
    (
        "dk certificate 1\nc 1\nr 0\nc 2\nr 0\nc 3\nr 0\nj 0 0\nend\n",
        Answer::Rechecked(3),
    ),
    ("", Answer::Rejected(0)),
    ("dk certificate 1", Answer::Rejected(0)),
    (
        "dk certificate 2\nc 1\nr 0\nc 2\nr 0\nc 3\nr 0\nj 0 0\nend\n",
        Answer::Rejected(0),
    ),
    ("dk certificate 1\n", Answer::Rejected(1)),
    (
        "dk certificate 1\nc 01\nr 0\nc 2\nr 0\nc 3\nr 0\nj 0 0\nend\n",
        Answer::Rejected(1),
    ),
    (
        "dk certificate 1\nc 1\nr 0\nc 2\nr 0\nr 0\nc 3\nr 0\nj 0 0\nend\n",
        Answer::Rejected(2),
    ),
    (
        "dk certificate 1\nc 1\nr 0\nc 2\nr 1\nc 3\nr 0\nj 0 0\nend\n",
        Answer::Rejected(2),
    ),
    (
        "dk certificate 1\nc 1\nr 0\nc 2\nr 0\nb 0\nc 3\nr 0\nj 0 0\nend\n",
        Answer::Rejected(3),
    ),
    (
        "dk certificate 1\nc 1\nr 0\nc 2\nr 0\nc 4\nr 0\nj 0 0\nend\n",
        Answer::Rejected(3),
    ),
    (
        "dk certificate 1\nc 1\nr 0\nc 2\nr 0\nc 3\nr 0\nend\n",
        Answer::Rejected(3),
    ),
    (
        "dk certificate 1\nc 1\nr 0\nc 2\nr 0\nc 3\nr 0\nj 0 0\n",
        Answer::Rejected(4),
    ),
    (
        "dk certificate 1\nc 1\nr 0\nc 2\nr 0\nc 3\nr 0\nj 0 0\nend",
        Answer::Rejected(4),
    ),
    (
        "dk certificate 1\nc 1\nr 0\nc 2\nr 0\nc 3\nr 0\nj 0 0\nend\nend\n",
        Answer::Rejected(4),
    ),
];

/// The version with what a command adds, where this is the type of a definition without a declared one.
fn added(
    alloc: Global,
    version: &Version,
    command: &Scoped,
    typ: Option<Term>,
) -> Result<Version, NoMemory> {
    let inferred = match typ {
        Some(typ) => Some(Stored::from_term(alloc, &typ)?),
        None => None,
    };
    match entry_of(alloc, version, command, inferred) {
        Ok(entry) => with(alloc, version, entry),
        Err(_) => Err(NoMemory),
    }
}

/// The number of the first command whose part isn't one, where that of `number` is `part` in place of its own; 0 where each is.
fn first_wrong(
    alloc: Global,
    text: &str,
    parts: &[&str],
    number: usize,
    part: &[u8],
) -> Result<usize, NoMemory> {
    let commands = commands_of(alloc, &[(text, 1)])?;
    let mut version = Version::empty(alloc)?;
    let mut now = 0usize;
    for (command, own) in commands.as_slice().iter().zip(parts) {
        now = now.wrapping_add(1);
        let bytes = if now == number { part } else { own.as_bytes() };
        match recheck_part(alloc, &version, command, bytes) {
            Ok(typ) => version = added(alloc, &version, command, typ)?,
            Err(Wrong::Rejected) => return Ok(now),
            Err(Wrong::NoMemory) => return Err(NoMemory),
        }
    }
    Ok(if now == parts.len() { 0 } else { now })
}

/// The first text with a part that isn't rechecked.
fn first_right(alloc: Global) -> Result<Option<&'static str>, NoMemory> {
    for (text, parts) in &RIGHT {
        if first_wrong(alloc, text, parts, 0, b"")? != 0 {
            return Ok(Some(*text));
        }
    }
    Ok(None)
}

/// The place of the first damaged part that isn't rejected.
fn first_taken(alloc: Global) -> Result<Option<usize>, NoMemory> {
    for (at, (number, front, rest)) in WRONG.iter().enumerate() {
        let mut part = Vec::from_slice(alloc, front.as_bytes())?;
        part.extend_from_slice(rest.as_bytes())?;
        if first_wrong(alloc, KINDS, &KINDS_PARTS, *number, part.as_slice())? != *number {
            return Ok(Some(at));
        }
    }
    Ok(None)
}

/// The first certificate of which something else is answered.
fn first_whole(alloc: Global) -> Result<Option<&'static str>, NoMemory> {
    let (text, _) = RIGHT[0];
    let commands = commands_of(alloc, &[(text, 1)])?;
    for (certificate, due) in &WHOLE {
        if recheck(alloc, commands.as_slice(), certificate.as_bytes())? != *due {
            return Ok(Some(*certificate));
        }
    }
    Ok(None)
}

#[test]
fn certificates_are_rechecked(rt: HostRuntime) -> Result<(), Fail> {
    let right = first_right(rt.alloc())?;
    let taken = first_taken(rt.alloc())?;
    let whole = first_whole(rt.alloc())?;
    let none = right.is_none() && taken.is_none() && whole.is_none();
    assert!(rt; none, "{right:?} {taken:?} {whole:?}");
    Ok(())
}
