//! What commands mention, and on what they rest, text by text (docs/pruning.md).
use crate::texts::commands_of;
use dk_model::{NoMemory, Scoped};
use prune_theory::{heads, mention_before, mentions, rests};
use std::alloc::Global;

/// A text, the place of a command of it, from 0, and three lists: the symbols that this command mentions, those that
/// head its rules, and the places on which it rests.
type Row = (
    &'static str,
    u32,
    &'static [u32],
    &'static [u32],
    &'static [u32],
);

/// The text of docs/pruning.md.
const NUMBERS: &str =
    "nat : Type. z : nat. s : nat -> nat. def f : nat -> nat. [] f z --> z. t : Type. def g : nat := f (s z). thm h : nat := g. [] f (s z) --> z.";

const ROWS: [Row; 13] = [
    (
        "a : Type. b : Type. x : a. y : b. thm t : a := x.",
        4,
        &[0, 2],
        &[],
        &[0, 2, 4],
    ),
    (
        "a : Type. def f : Type. x : a. [] f --> a. y : f. z : a.",
        4,
        &[1],
        &[],
        &[0, 1, 3, 4],
    ),
    (
        "a : Type. def f : Type. x : a. [] f --> a. y : f. z : a.",
        3,
        &[1, 0],
        &[1],
        &[0, 1, 3],
    ),
    (NUMBERS, 7, &[0, 6], &[], &[0, 1, 2, 3, 4, 6, 7]),
    (NUMBERS, 6, &[0, 3, 2, 1], &[], &[0, 1, 2, 3, 4, 6]),
    // The last rule rests on the first one, since a rule command mentions its head.
    (NUMBERS, 8, &[3, 2, 1, 1], &[3], &[0, 1, 2, 3, 4, 8]),
    (NUMBERS, 5, &[], &[], &[5]),
    // By the second head of a command one comes to it, and to the first head.
    (
        "a : Type. def f : a -> a. def g : a -> a. [x] f x --> x [x] g x --> x. def h : a -> a := g.",
        4,
        &[0, 0, 2],
        &[],
        &[0, 1, 2, 3, 4],
    ),
    // Annotations of the context and of abstractions, and guards.
    (
        "a : Type. b : a. def f : (a -> a) -> a -> a. c : a. [F : a -> a] f (y => F y) {b} --> (y : a => c) b.",
        4,
        &[0, 0, 2, 1, 0, 3, 1],
        &[2],
        &[0, 1, 2, 3, 4],
    ),
    // An abstraction as a head, with its arguments in their order.
    (
        "a : Type. b : a. c : a. def d : a := (x : a => y : a => x) b c.",
        3,
        &[0, 0, 0, 1, 2],
        &[],
        &[0, 1, 2, 3],
    ),
    // Queries mention what they ask, and nothing rests on them.
    (
        "a : Type. b : a. #CHECK b : a. c : a. #EVAL b.",
        2,
        &[1, 0],
        &[],
        &[0, 1, 2],
    ),
    (
        "a : Type. b : a. #CHECK b : a. c : a. #EVAL b.",
        4,
        &[1],
        &[],
        &[0, 1, 4],
    ),
    (
        "a : Type. b : a. #ASSERT b == b. c : a. #INFER c.",
        4,
        &[3],
        &[],
        &[0, 3, 4],
    ),
];

/// Whether a command mentions these, has these heads, and rests on these.
fn rests_so(alloc: Global, commands: &[Scoped], row: &Row) -> Result<bool, NoMemory> {
    let (_, place, mentioned, headed, rested) = row;
    let before = mention_before(alloc, commands)?;
    if !before {
        return Ok(false);
    }
    if *place as usize >= commands.len() {
        return Ok(false);
    }
    let command = &commands[*place as usize];
    Ok(
        mentions(alloc, command)?.as_slice() == *mentioned
            && heads(alloc, command)?.as_slice() == *headed
            && rests(alloc, commands, *place)?.as_slice() == *rested,
    )
}

fn is_row(alloc: Global, row: &Row) -> Result<bool, NoMemory> {
    let commands = commands_of(alloc, &[(row.0, 1)])?;
    rests_so(alloc, commands.as_slice(), row)
}

/// The first text that isn't as it is due, and the place in it.
fn first_wrong(alloc: Global) -> Option<(&'static str, u32)> {
    for row in &ROWS {
        if is_row(alloc, row) != Ok(true) {
            return Some((row.0, row.1));
        }
    }
    None
}

#[test]
fn a_command_rests_on_what_it_mentions_and_on_the_rules_of_that(rt: HostRuntime) {
    assert_eq!(rt; first_wrong(rt.alloc()), None, "of a text");
}
