//! A board that several passes work off, each in a thread of its own or one after the other: the report is the same.
ghost use Rattle.std.specs.Prelude.{◌≡◌, ◌+◌, ◌<◌, ◌≤◌, All, length};
ghost use Rattle.std.specs.List.{Any};
ghost use Rattle.task_board.specs.Passes.{IsIdle, IsNew, IsOver};

use crate::passes::{last_pass, pass_back};
use crate::reports::is_reported;
use crate::told::{NoGate, Own, Told};
use board_core::{End, Place};
use dk_model::{Code, Listed, NoMemory, Verdict};
use std::alloc::Global;
use std::process::Abort;
use std::sync::atomic::Ordering;
use std::sync::{Arc, Wait};
use std::test::Fail;
use std::thread::Threads;
use task_board::{Board, ReaderPass, SealedPass, WorkerPass};
use verdict_book::{Shown, Title, Titles};
use worker_crew::{Reading, run_crew, work};

// The two jobs.
const JOBS: [(&str, Verdict); 2] = [("a", Verdict::Accepted), ("b", Verdict::Refused(Code::E21))];

const REPORT: &str = "ok 1 a\nrefused 2 line 9 E21\n";

/// Puts the jobs, and seals.
fn put_all<R: Wait>(
    rt: &R,
    alloc: Global,
    board: &Board<Own>,
    mut reader: ReaderPass<Own>,
) -> SealedPass<Own>
    requires own { reader.seat.table_id ≡ board.now }
    requires few { length reader.seat.me.0.known ≡ 0 }
    ensures own { result.seat.table_id ≡ board.now }
    ensures made { result.seat.me.0.made ≡ reader.seat.me.0.made }
{
    let [(_, first), (_, second)] = &JOBS;
    if !put_one(rt, alloc, board, &mut reader, *first) {
        return board.seal(rt, reader, End::Whole);
    }
    if !put_one(rt, alloc, board, &mut reader, *second) {
        return board.seal(rt, reader, End::Whole);
    }
    board.seal(rt, reader, End::Whole)
}

/// Puts a job. False where it is refused, or there is no memory for it.
fn put_one<R: Wait>(
    rt: &R,
    alloc: Global,
    board: &Board<Own>,
    reader: &mut ReaderPass<Own>,
    job: Verdict,
) -> bool
    requires own { reader.old.seat.table_id ≡ board.now }
    requires few { length reader.old.seat.me.0.known < 4294967294 }
    ensures own { reader.new.seat.table_id ≡ board.now }
    ensures made { reader.new.seat.me.0.made ≡ reader.old.seat.me.0.made }
    ensures known { length reader.new.seat.me.0.known
        ≤ length reader.old.seat.me.0.known + 1 }
{
    let Ok(job) = Arc::new(alloc, Own(job)) else {
        return false;
    };
    board.put(rt, reader, job, false).is_ok()
}

/// The titles of the jobs, all at line 9.
fn titles_of(alloc: Global) -> Result<Titles, NoMemory> {
    let mut titles = Titles::new(alloc);
    for (name, _) in &JOBS {
        let shown = Shown::Name(Listed::from_slice(alloc, name.as_bytes())?);
        let place = Place::in_file(alloc, 9);
        titles.push(&Title { shown, place })?;
    }
    Ok(titles)
}

/// The last pass, back in the list once it has worked.
fn last_works<R: Wait + Abort>(
    rt: &R,
    board: &Board<Own>,
    passes: &mut Vec<WorkerPass<Own>>,
    back: &mut Listed<WorkerPass<Own>>,
)
    requires all { All (λ p. (p.seat.table_id ≡ board.now) × IsIdle p.seat.me.0) passes.old.items }
    requires own { All (λ p. p.seat.table_id ≡ board.now) back.old }
    requires idle { All (λ p. IsIdle p.seat.me.0) back.old }
    ensures rest { All (λ p. (p.seat.table_id ≡ board.now) × IsIdle p.seat.me.0) passes.new.items }
    ensures own { All (λ p. p.seat.table_id ≡ board.now) back.new }
    ensures idle { All (λ p. IsIdle p.seat.me.0) back.new }
    ensures count { length back.new ≡ length back.old + 1 }
    ensures over { Any (λ p. IsOver p.seat.me.0) back.new }
{
    let pass = last_pass(rt, board, passes);
    let pass = work(rt, board, pass, &Told::new(false), &NoGate);
    pass_back(rt, board, back, pass);
}

/// Whether four passes without threads, each in turn, leave the report.
fn reports_without_threads<R: Wait + Abort>(rt: &R, alloc: Global) -> Result<bool, Fail> {
    let (board, reader, passes) = Board::<Own>::new(alloc, 4)?;
    let sealed = put_all(rt, alloc, &board, reader);
    let mut passes = passes.into_vec();
    let mut back = Listed::new(alloc);
    last_works(rt, &board, &mut passes, &mut back);
    last_works(rt, &board, &mut passes, &mut back);
    last_works(rt, &board, &mut passes, &mut back);
    last_works(rt, &board, &mut passes, &mut back);
    let book = board.close(sealed, back);
    is_reported(alloc, &book, &titles_of(alloc)?, false, REPORT)
}

/// Puts the jobs while a crew works.
#[derive(Drop)]
struct Puts<'a, R: Wait> {
    rt: &'a R,
    alloc: Global,
    board: &'a Board<Own>,
    reader: ReaderPass<Own>,
}

impl<'a, R: Wait> Reading for Puts<'a, R> {
    ghost use Rattle.std.specs.Prelude.{◌≡◌, length};

    type Given = SealedPass<Own>;

    ghost can_read = { λ t. (t.reader.seat.table_id ≡ t.board.now)
        × (length t.reader.seat.me.0.known ≡ 0) };

    ghost gives = { λ t sealed. (sealed.seat.table_id ≡ t.board.now)
        × (sealed.seat.me.0.made ≡ t.reader.seat.me.0.made) };

    fn read(self) -> SealedPass<Own> {
        let Puts {
            rt,
            alloc,
            board,
            reader,
        } = self;
        put_all(rt, alloc, board, reader)
    }
}

/// The jobs, and a crew of which each pass has a thread of its own.
fn read_with_crew<R: Threads + Wait + Sync>(
    rt: &R,
    alloc: Global,
    board: &Board<Own>,
    checker: &Told,
    reader: ReaderPass<Own>,
    passes: Listed<WorkerPass<Own>>,
) -> (SealedPass<Own>, Listed<WorkerPass<Own>>)
    requires own { reader.seat.table_id ≡ board.now }
    requires empty { length reader.seat.me.0.known ≡ 0 }
    requires own_workers { All (λ p. p.seat.table_id ≡ board.now) passes }
    requires new_workers { All (λ p. IsNew p.seat.me.0) passes }
    requires some { 0 < length passes }
    ensures own { result.0.seat.table_id ≡ board.now }
    ensures made { result.0.seat.me.0.made ≡ reader.seat.me.0.made }
    ensures count { length result.1 ≡ length passes }
    ensures own_workers { All (λ p. p.seat.table_id ≡ board.now) result.1 }
    ensures idle { All (λ p. IsIdle p.seat.me.0) result.1 }
    ensures over { Any (λ p. IsOver p.seat.me.0) result.1 }
{
    let reading = Puts {
        rt,
        alloc,
        board,
        reader,
    };
    run_crew(rt, alloc, 1 << 20, board, passes, checker, &NoGate, reading)
}

/// Whether two threads leave the report, where the check of each job waits until it sees that of the other.
fn reports_with_threads<R: Threads + Wait + Sync>(rt: &R, alloc: Global) -> Result<bool, Fail> {
    let checker = Told::new(true);
    let (board, reader, passes) = Board::<Own>::new(alloc, 2)?;
    let (sealed, passes) = read_with_crew(rt, alloc, &board, &checker, reader, passes);
    let book = board.close(sealed, passes);
    let reported = is_reported(alloc, &book, &titles_of(alloc)?, false, REPORT)?;
    Ok(reported && checker.met.load(Ordering::SeqCst) == 2)
}

#[test]
fn passes_report_the_same_with_threads_and_without(rt: HostRuntime) -> Result<(), Fail> {
    let alone = reports_without_threads(&rt, rt.alloc())?;
    let beside = reports_with_threads(&rt, rt.alloc())?;
    assert!(rt; alone && beside);
    Ok(())
}
