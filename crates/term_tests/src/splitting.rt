//! Bodies that are split among threads: with each budget the verdict of one thread, from however few nodes on arguments are
//! given away, and however many threads there are to spare.
use crate::texts::{commands_of, version_after};
use board_core::Gate;
use command_check::check_stored;
use conversion::PoolReducer;
use dk_model::{Code, NoMemory, Scoped, Term, Verdict};
use shared_term::{Stored, StoredCommand};
use signature_log::Version;
use split_check::{Crew, Spare, check_split};
use std::alloc::Global;
use std::sync::Wait;
use std::sync::atomic::{AtomicU64, Ordering};
use std::test::Fail;
use std::thread;
use std::thread::Threads;

const STACK: usize = 1 << 26;

// Units that are enough for each row; with fewer, from none on, each is tried too.
const BUDGETS: u64 = 32;

const PAIRS: &str = "nat : Type. z : nat. s : nat -> nat. pair : nat -> nat -> nat. ";

const LISTS: &str = "nat : Type. z : nat. s : nat -> nat. list : nat -> Type. nil : list z. \
cons : n : nat -> nat -> list n -> list (s n). ";

/// What stands before the command that is checked, that command, and its verdict with enough units.
const ROWS: [(&str, &str, Verdict); 17] = [
    (
        PAIRS,
        "thm p : nat := pair (s z) z z.",
        Verdict::Refused(Code::E20),
    ),
    (
        PAIRS,
        "thm p : nat := pair (pair z z) (s z).",
        Verdict::Accepted,
    ),
    (
        PAIRS,
        "thm p : nat := pair (z z) (pair z pair).",
        Verdict::Refused(Code::E20),
    ),
    (
        PAIRS,
        "thm p : nat := pair (pair z pair) (z z).",
        Verdict::Refused(Code::E21),
    ),
    (
        PAIRS,
        "thm p : nat := pair (pair (s z) (s (s z))) (pair (pair z z) (s pair)).",
        Verdict::Refused(Code::E21),
    ),
    (
        PAIRS,
        "thm p : nat := s (s (pair (s (pair z z)) (s z))).",
        Verdict::Accepted,
    ),
    (
        PAIRS,
        "thm f : nat -> nat -> nat := x => y => pair (pair x y) (pair y x).",
        Verdict::Accepted,
    ),
    (
        PAIRS,
        "thm f : nat -> nat -> nat := x : nat => y : nat => pair (pair x y) (pair y x).",
        Verdict::Accepted,
    ),
    (
        PAIRS,
        "thm f : nat -> nat := x : (nat -> nat) => pair z z.",
        Verdict::Refused(Code::E21),
    ),
    (
        PAIRS,
        "thm f : nat := x => pair z z.",
        Verdict::Refused(Code::E24),
    ),
    (
        PAIRS,
        "thm f : nat -> nat := x : z => pair x x.",
        Verdict::Refused(Code::E22),
    ),
    (
        PAIRS,
        "thm p : nat := (x : nat => pair x x) (pair z z).",
        Verdict::Accepted,
    ),
    (PAIRS, "thm p : nat := pair.", Verdict::Refused(Code::E21)),
    (PAIRS, "thm p : z := pair z z.", Verdict::Refused(Code::E22)),
    (
        LISTS,
        "thm l : list (s (s z)) := cons (s z) z (cons z (s z) nil).",
        Verdict::Accepted,
    ),
    (
        LISTS,
        "thm l : list (s (s z)) := cons (s z) z (cons z nil (s z)).",
        Verdict::Refused(Code::E21),
    ),
    (
        LISTS,
        "thm l : list (s z) := cons z (s z) (cons z (s z) nil).",
        Verdict::Refused(Code::E21),
    ),
];

/// Holds no check up.
struct NoGate;

impl Gate for NoGate {
    fn enter(&self, _: u32) {}

    fn leave(&self, _: u32) {}

    fn enter_part(&self, _: u32, _: u32) {}

    fn leave_part(&self, _: u32, _: u32) {}
}

// How often a check that is held up looks for the other before it gives up.
const LOOKS: u32 = 10_000_000;

/// Holds the check of the first argument up until that of the second is done.
#[derive(Drop)]
struct Held {
    left: AtomicU64,
    seen: AtomicU64,
}

impl Gate for Held {
    fn enter(&self, _: u32) {}

    fn leave(&self, _: u32) {}

    fn enter_part(&self, _: u32, part: u32) {
        if part != 0 {
            return;
        }
        for _ in 0..LOOKS {
            if self.left.load(Ordering::SeqCst) == 1 {
                self.seen.store(1, Ordering::SeqCst);
                return;
            }
            thread::yield_now();
        }
    }

    fn leave_part(&self, _: u32, part: u32) {
        if part == 1 {
            self.left.store(1, Ordering::SeqCst);
        }
    }
}

fn stored(alloc: Global, term: &Option<Term>) -> Result<Option<Stored>, NoMemory> {
    match term {
        Some(term) => Ok(Some(Stored::from_term(alloc, term)?)),
        None => Ok(None),
    }
}

/// A declaration as it waits for its check. No other command stands last in a row.
fn declaration(alloc: Global, command: &Scoped) -> Result<StoredCommand, NoMemory> {
    match command {
        Scoped::Declare { sort, typ, body } => Ok(StoredCommand::Declare {
            sort: *sort,
            typ: stored(alloc, typ)?,
            body: stored(alloc, body)?,
        }),
        _ => Err(NoMemory),
    }
}

/// The last command of a text, and the version of those before it.
#[derive(Drop)]
struct Last {
    version: Version,
    command: StoredCommand,
}

fn last_of(alloc: Global, before: &'static str, command: &'static str) -> Result<Last, NoMemory> {
    let commands = commands_of(alloc, &[(before, 1), (command, 1)])?;
    let Some((last, first)) = commands.as_slice().split_last() else {
        return Err(NoMemory);
    };
    Ok(Last {
        version: version_after(alloc, first)?,
        command: declaration(alloc, last)?,
    })
}

/// The verdict by one thread, of which nothing is remembered.
fn alone(terms: &mut PoolReducer, last: &Last, budget: u64) -> Verdict {
    terms.clear();
    check_stored(terms, &last.version, &last.command, budget)
}

/// From how many nodes on an argument is given away, how many threads there are to spare, and the first budget that is tried.
#[derive(Clone, Copy)]
struct Way {
    nodes: u32,
    threads: u64,
    from: u64,
}

/// The verdict of a split check, of which nothing is remembered.
fn apart<R: Threads + Wait + Sync, G: Gate + Sync>(
    rt: &R,
    terms: &mut PoolReducer,
    (gate, way): (&G, Way),
    last: &Last,
    budget: u64,
) -> Verdict {
    let spare = Spare::new(way.threads);
    let crew = Crew {
        version: &last.version,
        rt,
        gate,
        spare: &spare,
        nodes: way.nodes,
        number: 1,
        stack: STACK,
    };
    terms.clear();
    check_split(&crew, terms, &last.command, budget)
}

/// Whether with these budgets a split check comes to the verdict of one thread.
fn is_alike<R: Threads + Wait + Sync>(
    rt: &R,
    terms: &mut PoolReducer,
    last: &Last,
    way: Way,
) -> bool {
    for budget in way.from..BUDGETS {
        let due = alone(terms, last, budget);
        if apart(rt, terms, (&NoGate, way), last, budget) != due {
            return false;
        }
    }
    true
}

const WAYS: [Way; 3] = [
    Way {
        nodes: 1,
        threads: 3,
        from: 0,
    },
    Way {
        nodes: 1,
        threads: 0,
        from: 28,
    },
    Way {
        nodes: 3,
        threads: 1,
        from: 28,
    },
];

/// The first command that isn't as it is due.
fn first_wrong<R: Threads + Wait + Sync>(
    rt: &R,
    alloc: Global,
) -> Result<Option<&'static str>, NoMemory> {
    let mut terms = PoolReducer::new(alloc)?;
    for (before, command, due) in &ROWS {
        let last = last_of(alloc, before, command)?;
        if alone(&mut terms, &last, BUDGETS) != *due {
            return Ok(Some(command));
        }
        for way in WAYS {
            if !is_alike(rt, &mut terms, &last, way) {
                return Ok(Some(command));
            }
        }
    }
    Ok(None)
}

#[test]
fn bodies_are_split_with_the_units_of_one_thread(rt: HostRuntime) -> Result<(), Fail> {
    assert_eq!(rt; first_wrong(&rt, rt.alloc())?, None, "of a command");
    Ok(())
}

/// The verdict on a theorem with so many units, each argument given away.
fn verdict<R: Threads + Wait + Sync>(
    rt: &R,
    alloc: Global,
    command: &'static str,
    budget: u64,
) -> Result<Verdict, NoMemory> {
    let last = last_of(alloc, PAIRS, command)?;
    let mut terms = PoolReducer::new(alloc)?;
    Ok(apart(rt, &mut terms, (&NoGate, WAYS[0]), &last, budget))
}

#[test]
fn splits_take_these_units(rt: HostRuntime) -> Result<(), Fail> {
    for (command, budget, due) in [
        (
            "thm p : nat := pair (s z) z z.",
            8,
            Verdict::Refused(Code::E20),
        ),
        ("thm p : nat := pair (s z) z z.", 7, Verdict::Ended),
        (
            "thm p : nat := pair (pair z z) (s z).",
            12,
            Verdict::Accepted,
        ),
        ("thm p : nat := pair (pair z z) (s z).", 11, Verdict::Ended),
    ] {
        assert_eq!(rt;
            verdict(&rt, rt.alloc(), command, budget)?,
            due,
            "of {command}"
        );
    }
    Ok(())
}

/// Whether the check of the first argument saw that of the second end.
fn are_beside<R: Threads + Wait + Sync>(rt: &R, alloc: Global) -> Result<bool, NoMemory> {
    let last = last_of(alloc, PAIRS, "thm p : nat := pair z z.")?;
    let gate = Held {
        left: AtomicU64::new(0),
        seen: AtomicU64::new(0),
    };
    let mut terms = PoolReducer::new(alloc)?;
    let verdict = apart(rt, &mut terms, (&gate, WAYS[0]), &last, BUDGETS);
    Ok(verdict == Verdict::Accepted && gate.seen.load(Ordering::SeqCst) == 1)
}

#[test]
fn split_holds_first(rt: HostRuntime) -> Result<(), Fail> {
    assert!(rt; are_beside(&rt, rt.alloc())?);
    Ok(())
}
