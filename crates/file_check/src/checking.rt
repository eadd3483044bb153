//! The check of a file with all that it needs, by a reader and workers, up to the closed board.
ghost use Rattle.std.specs.Prelude.{◌≡◌, ◌+◌, ◌-◌, ◌^◌, ◌<◌, ◌≤◌, [], All, IfOk, IfErr, IfSome, length};
ghost use Rattle.std.specs.String.{string_bytes};
ghost use Rattle.board_core.specs.Events.{end_of};
ghost use Rattle.board_core.specs.Machine.{IsFinished, IsLegal, marks_of};
ghost use Rattle.task_board.specs.Passes.{IsIdle};
ghost use Rattle.file_report.specs.Outcomes.{no_theory};
ghost use Rattle.book_reader.specs.Shelves.{shelf_of};
ghost use Rattle.file_check.specs.Checks.{ChecksShelf, IsUnchecked};
ghost use Rattle.file_check.specs.Desks.{IsFresh};
ghost use Rattle.file_check.specs.Jobs.{due, early, theory_of};
ghost use Rattle.file_check.specs.Lecterns.{EndLeaves, IsBegun, ReadsBooks};

use crate::book_reading::{BookRead, BookReading};
use crate::checker::JobChecker;
use crate::desk::Desk;
use crate::job::{Job, STACK, Worker};
use crate::lectern::Lectern;
use crate::theory::Theory;
use board_core::{Book, Gate};
use book_reader::{Root, Walker};
use dk_io::Shelf;
use dk_model::{Limits, Listed, NoMemory};
use split_check::Spare;
use std::alloc::Global;
use std::sync::Wait;
use std::thread::Threads;
use task_board::{Board, WorkerPass};
use verdict_book::{Titles, history_has_report};
use worker_crew::run_crew;

/// The closed board's book, with what a report shows of its jobs.
#[derive(Drop)]
pub struct CheckedBook {
    pub book: Book<Job>,
    pub titles: Titles,
}

/// What is to be checked: a file and what it needs, each command with this budget, by so many workers.
#[derive(Drop)]
pub struct Asked {
    pub root: Root,
    pub budget: u64,
    pub workers: u32,
    /// From how many nodes on an argument is worth a thread of its own; `None` where no body is split.
    pub split: Option<u32>,
}

/// Why nothing was checked.
#[derive(Debug, Drop)]
pub enum Unchecked {
    /// The file couldn't be opened.
    Unopened,
    /// Memory ended before anything was read.
    NoMemory,
}

// The empty board, with the desk at it and the workers' passes.
struct Table {
    board: Board<Job>,
    desk: Desk,
    passes: Listed<WorkerPass<Job>>,
}

// The table for a theory of no commands.
fn open_table(
    alloc: Global,
    limits: Limits,
    budget: u64,
    workers: u32,
    theory: Theory,
) -> Result<Table, NoMemory>
    requires limit { limits.commands < 4294967294 }
    requires few { workers < 2 ^ 32 - 1 }
    requires none { theory_of theory ≡ no_theory }
    ensures fresh { IfOk result (λ t. IsFresh t.desk) }
    ensures limits { IfOk result (λ t. t.desk.limits ≡ limits) }
    ensures budget { IfOk result (λ t. t.desk.budget ≡ budget) }
    ensures theory { IfOk result (λ t. t.desk.theory ≡ theory) }
    ensures made { IfOk result (λ t. t.desk.pass.seat.me.0.made ≡ workers + 1) }
    ensures own { IfOk result (λ t. t.desk.pass.seat.table_id ≡ t.board) }
    ensures count { IfOk result (λ t. length t.passes ≡ workers) }
    ensures idle { IfOk result (λ t. All (λ p. (p.seat.table_id ≡ t.board)
        × IsIdle p.seat.me.0) t.passes) }
{
    let Ok(worker) = Worker::new(alloc) else {
        drop(theory);
        return Err(NoMemory);
    };
    let Ok((board, pass, passes)) = Board::new(alloc, workers) else {
        drop(theory);
        drop(worker);
        return Err(NoMemory);
    };
    let desk = Desk {
        limits,
        budget,
        theory,
        worker,
        pass,
        titles: Titles::new(alloc),
    };
    Ok(Table {
        board,
        desk,
        passes,
    })
}

// Does nothing, but this use of a returned reference is what ties it, for the borrow checker, to the one that was lent.
fn take_back<H>(shelf: &mut H)
    ensures { shelf.new ≡ shelf.old }
{}

// Reads the file, which is open, and what it needs while workers check the commands, and gives the closed board's book with
// the titles of its jobs.
fn checked_book<R: Threads + Wait + Sync, H: Shelf, G: Gate + Sync>(
    rt: &R,
    checker: JobChecker,
    shelf: &mut H,
    gate: &G,
    opened: (Walker, Table),
) -> CheckedBook
    requires own { opened.1.desk.pass.seat.table_id ≡ opened.1.board }
    requires begun { IsBegun (record { walker = opened.0; desk = opened.1.desk })
        (shelf_of H.Shelf shelf.old) }
    requires some { 0 < length opened.1.passes }
    requires all { length opened.1.passes + 1 ≡ opened.1.desk.pass.seat.me.0.made }
    requires idle { All (λ p. (p.seat.table_id ≡ opened.1.board) × IsIdle p.seat.me.0)
        opened.1.passes }
    ensures legal { IsLegal due early result.book.jobs result.book.events }
    ensures finished { IsFinished (marks_of result.book.jobs) result.book.events }
    ensures read { ReadsBooks opened.0.root opened.1.desk.budget
        (shelf_of H.Shelf shelf.old) (shelf_of H.Shelf shelf.new)
        result.book.jobs (end_of result.book.events) result.titles }
    ensures leaves { IfSome (end_of result.book.events)
        (EndLeaves (length (H.aside shelf.old)) (shelf_of H.Shelf shelf.new)) }
{
    let (walker, table) = opened;
    let Table {
        board,
        desk,
        passes,
    } = table;
    let alloc = checker.alloc;
    let reading = BookReading {
        rt,
        alloc,
        shelf,
        board: &board,
        lectern: Lectern { walker, desk },
    };
    let (read, passes) = run_crew(rt, alloc, STACK, &board, passes, &checker, gate, reading);
    let BookRead {
        shelf,
        sealed,
        titles,
    } = read;
    take_back(shelf);
    drop(checker);
    CheckedBook {
        book: board.close(sealed, passes),
        titles,
    }
}

/// Opens the file on the shelf and reads it with all that it needs, each command a job on a board, while workers check the
/// jobs; gives the closed board's book. The clauses hold for every order of the threads' steps.
pub fn check_books<R: Threads + Wait + Sync, H: Shelf, G: Gate + Sync>(
    rt: &R,
    alloc: Global,
    asked: Asked,
    shelf: &mut H,
    gate: &G,
) -> Result<CheckedBook, Unchecked>
    requires limit { asked.root.limits.commands < 4294967294 }
    requires files { (0 < asked.root.most.files) × (asked.root.most.files ≤ 64) }
    requires some { (1 ≤ asked.workers) × (asked.workers ≤ 64) }
    requires aside { H.aside shelf.old ≡ [] }
    ensures finished { IfOk result (λ c. IsFinished (marks_of c.book.jobs) c.book.events) }
    ensures titled { IfOk result (λ c. length c.titles ≡ length c.book.jobs) }
    ensures checks { IfOk result (λ c. ChecksShelf asked.root asked.budget
        (shelf_of H.Shelf shelf.old) (shelf_of H.Shelf shelf.new) c.titles c.book.events) }
    ensures err { IfErr result (IsUnchecked (string_bytes asked.root.file)
        (shelf_of H.Shelf shelf.old) (shelf_of H.Shelf shelf.new)) }
{
    history_has_report();
    let Asked {
        root,
        budget,
        workers,
        split,
    } = asked;
    let limits = root.limits;
    let Ok(theory) = Theory::new(alloc, &root.own) else {
        drop(root);
        return Err(Unchecked::NoMemory);
    };
    let Ok(walker) = Walker::begin(alloc, root, shelf) else {
        drop(theory);
        return Err(Unchecked::Unopened);
    };
    let Ok(table) = open_table(alloc, limits, budget, workers, theory) else {
        drop(walker);
        return Err(Unchecked::NoMemory);
    };
    let checker = JobChecker {
        alloc,
        split,
        spare: Spare::new(workers as u64 - 1),
    };
    Ok(checked_book(rt, checker, shelf, gate, (walker, table)))
}
