//! The report of a board's book: what its jobs and its end come to.
ghost use Rattle.std.specs.Prelude.{◌≡◌, ◌↔◌, ◌<◌, ◌≤◌, ◌^◌, ◌++◌, true, false, length, IsNone, IsSomeAnd};
ghost use Rattle.std.specs.List.{list_any};
ghost use Rattle.std.specs.Option.{option_copied};
ghost use Rattle.dk_io.specs.Writing.{Wrote};
ghost use Rattle.dk_io.specs.Causes.{HasCause};
ghost use Rattle.dk_io.specs.Gathered.{Gathers};
ghost use Rattle.board_core.specs.Events.{end_of, is_fault, IsFirstFault};
ghost use Rattle.board_core.specs.Machine.{IsFinished, marks_of};
ghost use Rattle.verdict_book.specs.Report.{FileReport, last_line, line_of, lines_of, report_of};
ghost use Rattle.verdict_book.specs.Pieces.{pieces_text};
ghost use Rattle.verdict_book.specs.Books.{end_outcome, fault_of_end, fault_outcome, IsReportOf, IsWithoutFault};
ghost use Rattle.verdict_book.specs.Places.{IsHeld, titles_in};
ghost use Rattle.verdict_book.specs.Titles.{lines_in};
ghost use Rattle.verdict_book.specs.Stops.{EndsByItself, IsFault, StopsAtFault};

use crate::report::{Style, put_last, put_shown};
use crate::shown::ShownRef;
use crate::title::TitleSlice;
use crate::{ModuleRef, Outcome, Piece, PlaceRef, Titles, put_pieces};
use board_core::{Book, End, Place};
use dk_io::{Buffer, Failed, Sink};
use dk_model::Verdict;

/// The least command that isn't accepted, and its verdict: a job, or else the one behind the last job, where the reader gave it
/// its verdict itself. The report's last line tells it.
pub fn first_fault<J>(book: &Book<J>) -> Option<(u32, Verdict)>
    requires { IsFinished (marks_of book.now.jobs) book.now.events }
    ensures job { list_any is_fault book.now.events ≡ true →
        IsSomeAnd result (λ f. IsFirstFault book.now.events f.0 f.1) }
    ensures end { list_any is_fault book.now.events ≡ false →
        result ≡ fault_of_end (length book.now.jobs) (end_of book.now.events) }
    ensures none { IsNone result ↔ IsWithoutFault book.now.events }
{
    book.history();
    match book.fault() {
        Some(fault) => Some(fault),
        None => end_fault(book.len() as u32, book.end()),
    }
}

// The command behind so many jobs, where the reader gave it its verdict itself.
fn end_fault(count: u32, end: Option<&End>) -> Option<(u32, Verdict)>
    requires { count < 4294967295 }
    ensures { result ≡ fault_of_end count (option_copied end.entry) }
{
    match end {
        Some(End::Fault(_, verdict)) => Some((count + 1, *verdict)),
        _ => None,
    }
}

// The reader's own verdict on the command behind so many jobs.
fn reader_outcome<'a>(count: u32, place: &'a Place, verdict: Verdict) -> Outcome<'a>
    requires few { count < 4294967295 }
    requires fault { IsFault verdict }
    ensures value { result ≡ fault_outcome count place.now verdict }
    ensures fault { StopsAtFault result }
{
    match verdict {
        Verdict::Memory if place.line == 0 => {
            Outcome::Stopped(0, PlaceRef::nowhere(), Verdict::Memory)
        }
        _ => Outcome::Stopped(count + 1, PlaceRef::of(place), verdict),
    }
}

// The outcome behind so many jobs of which none is at fault.
fn own_outcome<'a>(count: u32, end: Option<&'a End>) -> Outcome<'a>
    requires few { count < 4294967295 }
    requires own { EndsByItself (option_copied end) }
    ensures value { result ≡ end_outcome count (option_copied end.entry) }
    ensures fault { StopsAtFault result }
{
    match end {
        Some(End::Whole) => Outcome::Accepted(count),
        Some(End::Unread(place)) => Outcome::Unread(count + 1, PlaceRef::of(place)),
        Some(End::Unopened(module)) => Outcome::Unopened(ModuleRef::of(module)),
        Some(End::Fault(place, verdict)) => reader_outcome(count, place, *verdict),
        Some(End::Stopped) | None => unreachable!(),
    }
}

/// How the file ends whose jobs have these titles, in order: at the book's first fault, or else as the reader ended.
pub fn outcome_of<'a, J>(book: &'a Book<J>, titles: &'a Titles) -> Outcome<'a>
    requires finished { IsFinished (marks_of book.now.jobs) book.now.events }
    requires all { length titles.now ≡ length book.now.jobs }
    ensures value { (report : FileReport) →
        IsReportOf titles.now book.now.events report → result ≡ report.outcome }
    ensures fault { StopsAtFault result }
{
    book.history();
    match book.fault() {
        Some((number, verdict)) => Outcome::Stopped(number, titles.place(number), verdict),
        None => own_outcome(titles.len() as u32, book.end()),
    }
}

// The titles of the jobs that have a line: those before the first fault.
fn before_fault<'t, J>(book: &Book<J>, titles: &TitleSlice<'t>) -> TitleSlice<'t>
    requires all { length titles.now.spots.now ≡ length book.now.jobs }
    requires held { IsHeld titles.now }
    ensures lines { (report : FileReport) →
        IsReportOf (titles_in titles.now) book.now.events report →
        lines_in (titles_in result) ≡ report.lines }
    ensures held { IsHeld result }
    ensures few { length result.spots.now ≤ length titles.now.spots.now }
{
    book.history();
    match book.fault() {
        Some((number, _)) => {
            let (before, _) = titles.spots.split_at(number as usize - 1);
            TitleSlice {
                texts: titles.texts,
                modules: titles.modules,
                spots: before,
            }
        }
        None => TitleSlice {
            texts: titles.texts,
            modules: titles.modules,
            spots: titles.spots,
        },
    }
}

// The line of an accepted command, unless it is an `ok` line and the report is quiet.
fn put_line<'x, K: Sink>(
    buffer: &mut Buffer,
    sink: &mut K,
    number: u64,
    shown: &'x ShownRef<'x>,
    quiet: bool,
) -> Result<(), Failed>
    ensures put { Gathers (K.taken sink.old) buffer.old (K.taken sink.new) buffer.new
        (line_of quiet number shown.now) result }
    ensures cause { HasCause (K.faults sink.old) (K.faults sink.new) result }
{
    if quiet && shown.is_ok() {
        return buffer.put(sink, b"");
    }
    put_shown(buffer, sink, number, shown)
}

// The lines of jobs with these titles.
fn put_titles<K: Sink>(
    buffer: &mut Buffer,
    sink: &mut K,
    titles: &TitleSlice<'_>,
    quiet: bool,
) -> Result<(), Failed>
    requires few { length titles.now.spots.now < 2 ^ 63 }
    requires held { IsHeld titles.now }
    ensures put { Gathers (K.taken sink.old) buffer.old (K.taken sink.new) buffer.new
        (lines_of quiet 1 (lines_in (titles_in titles.now))) result }
    ensures cause { HasCause (K.faults sink.old) (K.faults sink.new) result }
{
    let mut number = 1;
    let mut rest = titles.texts;
    for spot in titles.spots {
        let (text, behind) = rest.split_at(spot.length as usize);
        rest = behind;
        let shown = ShownRef {
            kind: spot.kind,
            module: titles.modules[spot.module_at as usize].as_slice(),
            text,
        };
        match put_line(buffer, sink, number, &shown, quiet) {
            Ok(()) => number += 1,
            Err(failed) => return Err(failed),
        }
    }
    Ok(())
}

// The lines of the report, one after the other.
fn put_lines<'x, K: Sink>(
    buffer: &mut Buffer,
    sink: &mut K,
    titles: &TitleSlice<'_>,
    outcome: &'x Outcome<'x>,
    style: &'x Style<'x>,
) -> Result<(), Failed>
    requires few { length titles.now.spots.now < 2 ^ 63 }
    requires held { IsHeld titles.now }
    requires fault { StopsAtFault outcome.now }
    ensures put { Gathers (K.taken sink.old) buffer.old (K.taken sink.new) buffer.new
        (report_of (lines_in (titles_in titles.now)) outcome.now style.now.budget
        style.now.quiet style.now.folder.now) result }
    ensures cause { HasCause (K.faults sink.old) (K.faults sink.new) result }
{
    match put_titles(buffer, sink, titles, style.quiet) {
        Ok(()) => put_last(buffer, sink, outcome, style),
        Err(failed) => Err(failed),
    }
}

/// Writes the report of the book: the line of each job before its first fault, where `quiet` without `ok` lines, and the last
/// line. Takes no memory.
///
/// `titles` are those of the book's jobs, in order. `budget` is the number in a line that says that the budget ended, `folder`
/// what stands before the name of a module's file, up to and with its last `/`. After `Failed` the sink has taken a front of
/// the report.
pub fn write_report<J, K: Sink>(
    book: &Book<J>,
    titles: &Titles,
    budget: u64,
    quiet: bool,
    folder: &str,
    sink: &mut K,
) -> Result<(), Failed>
    requires finished { IsFinished (marks_of book.now.jobs) book.now.events }
    requires all { length titles.now ≡ length book.now.jobs }
    ensures wrote { (report : FileReport) → IsReportOf titles.now book.now.events report →
        Wrote (K.taken sink.old) (K.taken sink.new)
        (report_of report.lines report.outcome budget quiet folder.now) result }
    ensures cause { HasCause (K.faults sink.old) (K.faults sink.new) result }
{
    let style = Style {
        budget,
        quiet,
        folder,
    };
    let outcome = outcome_of(book, titles);
    let before = before_fault(book, &titles.as_slice());
    let mut buffer = Buffer::new();
    match put_lines(&mut buffer, sink, &before, &outcome, &style) {
        Ok(()) => buffer.flush(sink),
        Err(failed) => Err(failed),
    }
}

/// Writes these pieces, and the last line of a report behind them. Takes no memory.
///
/// After `Failed` the sink has taken a front of that.
pub fn write_last<'x, K: Sink>(
    head: &[Piece<'_>],
    outcome: &'x Outcome<'x>,
    budget: u64,
    folder: &'x str,
    sink: &mut K,
) -> Result<(), Failed>
    requires { StopsAtFault outcome.now }
    ensures wrote { Wrote (K.taken sink.old) (K.taken sink.new)
        (pieces_text head.now ++ last_line outcome.now budget folder.now) result }
    ensures cause { HasCause (K.faults sink.old) (K.faults sink.new) result }
{
    let style = Style {
        budget,
        quiet: true,
        folder,
    };
    let mut lines = Buffer::new();
    match put_behind(&mut lines, sink, head, outcome, &style) {
        Ok(()) => lines.flush(sink),
        Err(failed) => Err(failed),
    }
}

// The pieces, and the last line behind them.
fn put_behind<'x, K: Sink>(
    buffer: &mut Buffer,
    sink: &mut K,
    head: &[Piece<'_>],
    outcome: &'x Outcome<'x>,
    style: &'x Style<'x>,
) -> Result<(), Failed>
    requires { StopsAtFault outcome.now }
    ensures put { Gathers (K.taken sink.old) buffer.old (K.taken sink.new) buffer.new
        (pieces_text head.now
        ++ last_line outcome.now style.now.budget style.now.folder.now) result }
    ensures cause { HasCause (K.faults sink.old) (K.faults sink.new) result }
{
    match put_pieces(buffer, sink, head) {
        Ok(()) => put_last(buffer, sink, outcome, style),
        Err(failed) => Err(failed),
    }
}
