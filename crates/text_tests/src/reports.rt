//! Reports of books, row by row.
ghost use Rattle.std.specs.Prelude.{◌≡◌, ◌+◌, ◌<◌, ◌≤◌, ℕ, true, false, length};
ghost use Rattle.std.specs.List.{list_any};
ghost use Rattle.board_core.specs.Events.{is_seal};
ghost use Rattle.board_core.specs.Machine.{Holds, HoldsNone, IsFinished, marks_of};

use board_core::{Book, Claimed, End, Place, Task, finished_when_drained};
use dk_io::MemSink;
use dk_model::{Code, Listed, Verdict};
use std::alloc::Global;
use std::process::Abort;
use std::sync::Arc;
use std::test::Fail;
use verdict_book::{Shown, Title, Titles, first_fault, write_report};

// How the reader ends, at line 20 of a module's file where it ends at a place.
#[derive(Drop)]
enum Ends {
    Whole,
    Fault(&'static str, Verdict),
    Unread(&'static str),
    Unopened(&'static str),
    /// Memory ends before anything is begun.
    Nothing,
}

// What is shown of a job.
#[derive(Drop)]
enum Says {
    Name(&'static str),
    Asserted,
    Yes,
    No,
    Of(&'static str),
    Value(&'static str),
}

// The report with the folder `lib/`, the jobs with the module of each, what is shown of it, the verdict that it is answered with
// and whether it is settled, the end, and the first fault. Job K stands at line K + 10.
#[derive(Drop)]
struct Row {
    text: &'static str,
    jobs: &'static [(&'static str, Says, Verdict, bool)],
    end: Ends,
    fault: Option<(u32, Verdict)>,
}

const ROWS: [Row; 17] = [
    Row {
        text: "accepted 0\n",
        jobs: &[],
        end: Ends::Whole,
        fault: None,
    },
    Row {
        text: "ok 1 a\nok 2 b\naccepted 2\n",
        jobs: &[
            ("", Says::Name("a"), Verdict::Accepted, false),
            ("", Says::Name("b"), Verdict::Accepted, true),
        ],
        end: Ends::Whole,
        fault: None,
    },
    Row {
        text: "ok 1 a\nrefused 2 line 12 E21\n",
        jobs: &[
            ("", Says::Name("a"), Verdict::Accepted, false),
            ("", Says::Name("b"), Verdict::Refused(Code::E21), false),
            ("", Says::Name("c"), Verdict::Refused(Code::E20), false),
        ],
        end: Ends::Whole,
        fault: Some((2, Verdict::Refused(Code::E21))),
    },
    Row {
        text: "ok 1 a\nbudget 2 line 12 7\n",
        jobs: &[
            ("", Says::Name("a"), Verdict::Accepted, true),
            ("", Says::Name("b"), Verdict::Ended, false),
        ],
        end: Ends::Unread("m"),
        fault: Some((2, Verdict::Ended)),
    },
    Row {
        text: "memory 1 line 11\n",
        jobs: &[("", Says::Name("a"), Verdict::Memory, false)],
        end: Ends::Fault("", Verdict::Ended),
        fault: Some((1, Verdict::Memory)),
    },
    Row {
        text: "ok 1 a\nunread 2\n",
        jobs: &[("", Says::Name("a"), Verdict::Accepted, false)],
        end: Ends::Unread(""),
        fault: None,
    },
    Row {
        text: "ok 1 a\nrefused 2 line 20 E02\n",
        jobs: &[("", Says::Name("a"), Verdict::Accepted, false)],
        end: Ends::Fault("", Verdict::Refused(Code::E02)),
        fault: Some((2, Verdict::Refused(Code::E02))),
    },
    Row {
        text: "ok 1 a\nmemory 2 line 20\n",
        jobs: &[("", Says::Name("a"), Verdict::Accepted, false)],
        end: Ends::Fault("", Verdict::Memory),
        fault: Some((2, Verdict::Memory)),
    },
    Row {
        text: "memory 0 line 0\n",
        jobs: &[],
        end: Ends::Nothing,
        fault: Some((1, Verdict::Memory)),
    },
    Row {
        text: "ok 1 m.a\nok 2 n.{|b|}\nok 3 m.c\nok 4 d\naccepted 4\n",
        jobs: &[
            ("m", Says::Name("a"), Verdict::Accepted, false),
            ("n", Says::Name("{|b|}"), Verdict::Accepted, true),
            ("m", Says::Name("c"), Verdict::Accepted, false),
            ("", Says::Name("d"), Verdict::Accepted, false),
        ],
        end: Ends::Whole,
        fault: None,
    },
    Row {
        text: "ok 1 a\nrefused 2 line 12 E21 in lib/m.dk\n",
        jobs: &[
            ("", Says::Name("a"), Verdict::Accepted, false),
            ("m", Says::Name("b"), Verdict::Refused(Code::E21), false),
            ("", Says::Name("c"), Verdict::Refused(Code::E20), false),
        ],
        end: Ends::Unopened("n"),
        fault: Some((2, Verdict::Refused(Code::E21))),
    },
    Row {
        text: "ok 1 m.a\nbudget 2 line 12 7\n",
        jobs: &[
            ("m", Says::Name("a"), Verdict::Accepted, true),
            ("", Says::Name("b"), Verdict::Ended, false),
        ],
        end: Ends::Whole,
        fault: Some((2, Verdict::Ended)),
    },
    Row {
        text: "memory 1 line 11 in lib/n.dk\n",
        jobs: &[("n", Says::Name("a"), Verdict::Memory, false)],
        end: Ends::Whole,
        fault: Some((1, Verdict::Memory)),
    },
    Row {
        text: "ok 1 a\nunread 2 in lib/m.dk\n",
        jobs: &[("", Says::Name("a"), Verdict::Accepted, false)],
        end: Ends::Unread("m"),
        fault: None,
    },
    Row {
        text: "ok 1 m.a\nunopened lib/n.dk\n",
        jobs: &[("m", Says::Name("a"), Verdict::Accepted, false)],
        end: Ends::Unopened("n"),
        fault: None,
    },
    Row {
        text: "refused 1 line 20 E14 in lib/m.dk\n",
        jobs: &[],
        end: Ends::Fault("m", Verdict::Refused(Code::E14)),
        fault: Some((1, Verdict::Refused(Code::E14))),
    },
    Row {
        text: "ok 1 a\nmemory 2 line 20 in lib/m.dk\n",
        jobs: &[("", Says::Name("a"), Verdict::Accepted, false)],
        end: Ends::Fault("m", Verdict::Memory),
        fault: Some((2, Verdict::Memory)),
    },
];

// The lines of queries, of which a quiet report drops that of `#ASSERT` alone; numbers count on.
const QUERIES: Row = Row {
    text: "ok 1 m.a\nok 2 #ASSERT\nyes 3\nno 4\ntype 5 nat -> nat\nvalue 6 s m.z\nok 7 b\nno 8\naccepted 8\n",
    jobs: &[
        ("m", Says::Name("a"), Verdict::Accepted, false),
        ("m", Says::Asserted, Verdict::Accepted, false),
        ("m", Says::Yes, Verdict::Accepted, true),
        ("", Says::No, Verdict::Accepted, true),
        ("m", Says::Of("nat -> nat"), Verdict::Accepted, true),
        ("", Says::Value("s m.z"), Verdict::Accepted, true),
        ("", Says::Name("b"), Verdict::Accepted, false),
        ("m", Says::No, Verdict::Accepted, true),
    ],
    end: Ends::Whole,
    fault: None,
};

const QUIET: &str = "yes 3\nno 4\ntype 5 nat -> nat\nvalue 6 s m.z\nno 8\naccepted 8\n";

fn module_of<R: Abort>(rt: &R, alloc: Global, module: &str) -> Listed<u8> {
    Listed::from_slice(alloc, module.as_bytes()).expect(rt, "memory for a module")
}

fn place_in<R: Abort>(rt: &R, alloc: Global, module: &str, line: u32) -> Place {
    Place {
        line,
        module: module_of(rt, alloc, module),
    }
}

fn end_of<R: Abort>(rt: &R, alloc: Global, end: &Ends) -> End {
    match end {
        Ends::Whole => End::Whole,
        Ends::Fault(module, verdict) => End::Fault(place_in(rt, alloc, module, 20), *verdict),
        Ends::Unread(module) => End::Unread(place_in(rt, alloc, module, 20)),
        Ends::Unopened(module) => End::Unopened(module_of(rt, alloc, module)),
        Ends::Nothing => End::Fault(place_in(rt, alloc, "m", 0), Verdict::Memory),
    }
}

fn listed<R: Abort>(rt: &R, alloc: Global, text: &str) -> Listed<u8> {
    Listed::from_slice(alloc, text.as_bytes()).expect(rt, "memory for a text")
}

fn shown_of<R: Abort>(rt: &R, alloc: Global, says: &Says) -> Shown {
    match says {
        Says::Name(name) => Shown::Name(listed(rt, alloc, name)),
        Says::Asserted => Shown::Asserted,
        Says::Yes => Shown::Yes,
        Says::No => Shown::No,
        Says::Of(term) => Shown::Of(listed(rt, alloc, term)),
        Says::Value(term) => Shown::Value(listed(rt, alloc, term)),
    }
}

// A book with these jobs, which nobody has claimed, and their titles.
fn put_jobs<R: Abort>(
    rt: &R,
    alloc: Global,
    jobs: &[(&str, Says, Verdict, bool)],
    titles: &mut Titles,
) -> Book<Verdict>
    ensures unsealed { list_any is_seal result.events ≡ false }
    ensures idle { (w : ℕ) → HoldsNone w result.events }
{
    let mut book: Book<Verdict> = Book::new(alloc).expect(rt, "memory for a book");
    let mut line = 11;
    for (module, says, verdict, settled) in jobs {
        assert!(rt; line < 100);
        put_job(rt, alloc, &mut book, *verdict, *settled);
        let shown = shown_of(rt, alloc, says);
        let place = place_in(rt, alloc, module, line);
        titles
            .push(&Title { shown, place })
            .expect(rt, "memory for a title");
        line += 1;
    }
    book
}

fn put_job<R: Abort>(
    rt: &R,
    alloc: Global,
    book: &mut Book<Verdict>,
    verdict: Verdict,
    settled: bool,
)
    requires few { length book.old.jobs < 4294967294 }
    requires unsealed { list_any is_seal book.old.events ≡ false }
    ensures one_more { length book.new.jobs ≡ length book.old.jobs + 1 }
    ensures unsealed { list_any is_seal book.new.events ≡ false }
    ensures idle { (w : ℕ) → HoldsNone w book.old.events → HoldsNone w book.new.events }
{
    let share = Arc::new(alloc, verdict).expect(rt, "memory for a job");
    match book.put(share, settled) {
        Ok(_) => {}
        Err(_) => panic!(rt; "the job was refused"),
    }
}

// Seals a board of which no job has been answered yet.
fn seal<R: Abort>(rt: &R, book: &mut Book<Verdict>, end: End)
    requires unsealed { list_any is_seal book.old.events ≡ false }
    ensures sealed { list_any is_seal book.new.events ≡ true }
    ensures idle { (w : ℕ) → HoldsNone w book.old.events → HoldsNone w book.new.events }
    ensures jobs { book.new.jobs ≡ book.old.jobs }
{
    match end {
        End::Stopped => panic!(rt; "no job is at fault"),
        End::Fault(_, Verdict::Accepted) => panic!(rt; "a fault is never accepted"),
        _ => book.seal(end),
    }
}

// Worker 1 claims a job and answers it, unless all is over.
fn answer_one<R: Abort>(rt: &R, book: &mut Book<Verdict>) -> bool
    requires sealed { list_any is_seal book.old.events ≡ true }
    requires idle { (w : ℕ) → HoldsNone w book.old.events }
    ensures sealed { list_any is_seal book.new.events ≡ true }
    ensures idle { (w : ℕ) → HoldsNone w book.new.events }
    ensures jobs { length book.new.jobs ≡ length book.old.jobs }
    ensures over { result ≡ true → IsFinished (marks_of book.new.jobs) book.new.events }
{
    match book.claim(1) {
        Claimed::Task(Task { number, job }) => {
            book.answer(1, number, *job);
            false
        }
        Claimed::Empty => panic!(rt; "the board is open"),
        Claimed::Over => {
            finished_when_drained();
            true
        }
    }
}

// Worker 1 works until all is over.
fn answer_all<R: Abort>(rt: &R, book: &mut Book<Verdict>)
    requires sealed { list_any is_seal book.old.events ≡ true }
    requires idle { (w : ℕ) → HoldsNone w book.old.events }
    ensures jobs { length book.new.jobs ≡ length book.old.jobs }
    ensures finished { IsFinished (marks_of book.new.jobs) book.new.events }
{
    for _turn in 0..100u32 {
        if answer_one(rt, book) {
            return;
        }
    }
    panic!(rt; "more than 100 jobs");
}

// Whether the report of a finished book is this text. The budget of each job is 7.
pub fn is_reported<J>(
    alloc: Global,
    book: &Book<J>,
    titles: &Titles,
    quiet: bool,
    text: &str,
) -> Result<bool, Fail>
    requires finished { IsFinished (marks_of book.now.jobs) book.now.events }
{
    let mut sink = MemSink::new(alloc, 1000, 7, Vec::new(alloc))?;
    let wrote = titles.len() == book.len()
        && write_report(book, titles, 7, quiet, "lib/", &mut sink).is_ok();
    Ok(wrote && sink.bytes() == text.as_bytes())
}

// Whether the row's jobs, put, sealed and answered, have its first fault, and this report.
fn is_row<R: Abort>(
    rt: &R,
    alloc: Global,
    row: &Row,
    quiet: bool,
    text: &str,
) -> Result<bool, Fail> {
    let mut titles = Titles::new(alloc);
    let mut book = put_jobs(rt, alloc, row.jobs, &mut titles);
    seal(rt, &mut book, end_of(rt, alloc, &row.end));
    answer_all(rt, &mut book);
    Ok(first_fault(&book) == row.fault && is_reported(alloc, &book, &titles, quiet, text)?)
}

#[test]
fn tells_the_first_fault_or_the_end(rt: HostRuntime) -> Result<(), Fail> {
    for row in &ROWS {
        assert!(rt;
            is_row(&rt, rt.alloc(), row, false, row.text)?,
            "where {:?} is due",
            row.text
        );
    }
    Ok(())
}

#[test]
fn tells_what_queries_found_where_it_is_quiet_too(rt: HostRuntime) -> Result<(), Fail> {
    let alloc = rt.alloc();
    assert!(rt; is_row(&rt, alloc, &QUERIES, false, QUERIES.text)?);
    assert!(rt; is_row(&rt, alloc, &QUERIES, true, QUIET)?);
    Ok(())
}
