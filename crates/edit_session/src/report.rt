//! The report of a session.
ghost use Rattle.std.specs.Prelude.{◌≡◌, ◌+◌, false, [], ℕ, List, Option, All, Err, Ok, IfErr, IfOk, OnErr, OnOk};
ghost use Rattle.board_core.specs.Places.{in_file};
ghost use Rattle.board_core.specs.declared.event.End.{End};
ghost use Rattle.dk_io.specs.Causes.{Rose};
ghost use Rattle.dk_io.specs.Writing.{Wrote};
ghost use Rattle.verdict_book.specs.Report.{report_of};
ghost use Rattle.edit_session.specs.Folding.{IsQuiet, KeepsSlots};
ghost use Rattle.edit_session.specs.Held.{IsSlot};
ghost use Rattle.edit_session.specs.Reporting.{IsEnded, IsOwnEnd, IsReported, WroteReport};
ghost use Rattle.edit_session.specs.Sessions.{AreReached, checks, kept_then, texts_of};
ghost use Rattle.edit_session.specs.Texts.{report_of_texts};

use crate::fold::{Fold, Lines, Turn};
use crate::slot::Slot;
use crate::{Judge, Session};
use board_core::{Book, End, Place};
use dk_io::{Failed, Sink};
use dk_model::{Limits, NoMemory, Verdict};
use std::alloc::Global;
use verdict_book::write_report;

/// Why a report wasn't written.
#[derive(Clone, Copy, Debug, PartialEq, Eq)]
pub enum ReportFault {
    /// A write failed: the sink has taken a front of the report.
    Failed,
    /// Memory ended before anything was written.
    NoMemory,
}

impl Session {
    /// Writes the report of the texts as they stand, each on a line of its own, and answers how many commands were checked for it.
    ///
    /// From then on an answer is kept of each text that the report gets to. After a fault the texts are as before; `NoMemory`
    /// has written nothing. It is told too where the texts have more bytes together than an input may.
    pub fn report<J: Judge, K: Sink>(
        &mut self,
        judge: &mut J,
        sink: &mut K,
    ) -> Result<u32, ReportFault>
        ensures wrote { let report = report_of_texts self.old.limits self.old.budget
            (texts_of self.old.slots) in
            WroteReport (K.taken sink.old) (K.taken sink.new)
            (report_of report.lines report.outcome self.old.budget false []) result }
        ensures checked { ¬ (result ≡ Err ReportFault.NoMemory) →
            (lists : List (Option (List (List ℕ))))
            × AreReached self.old.limits self.old.budget (texts_of self.old.slots) lists
            × IfOk result (λ count. count ≡ checks self.old.slots lists)
            × (self.new ≡ record self.old { slots = kept_then self.old.slots lists }) }
        ensures texts { texts_of self.new.slots ≡ texts_of self.old.slots }
        ensures limits { self.new.limits ≡ self.old.limits }
        ensures budget { self.new.budget ≡ self.old.budget }
        ensures held { OnOk result (K.faults sink.new ≡ K.faults sink.old) }
        ensures cause { result ≡ Err ReportFault.Failed
            → Rose (K.faults sink.old) (K.faults sink.new) }
        ensures memory { result ≡ Err ReportFault.NoMemory → sink.new ≡ sink.old }
    {
        if !self.fits() {
            return Err(ReportFault::NoMemory);
        }
        let Ok(fold) = fold_slots(self.alloc, self.limits, self.budget, judge, &mut self.slots)
        else {
            return Err(ReportFault::NoMemory);
        };
        let Lines { book, titles } = &fold.lines;
        match write_report(book, titles, self.budget, false, "", sink) {
            Ok(()) => Ok(fold.checked),
            Err(Failed) => Err(ReportFault::Failed),
        }
    }
}

// The commands of all texts, up to the first that isn't accepted.
fn fold_slots<J: Judge>(
    alloc: Global,
    limits: Limits,
    budget: u64,
    judge: &mut J,
    slots: &mut Vec<Slot>,
) -> Result<Box<Fold>, NoMemory>
    requires right { All (IsSlot limits budget) slots.old.items }
    ensures reported { IfOk result (λ fold.
        IsReported limits budget slots.old.items slots.new.items fold.value) }
    ensures slots { KeepsSlots limits budget slots.old.items slots.new.items }
{
    let mut fold = Fold::new(alloc, limits, budget)?;
    for at in 0..slots.len() {
        match fold.take(judge, slots, at)? {
            Turn::Accepted => {}
            Turn::Stopped(verdict) => {
                let end = stopped_at(alloc, at, verdict)?;
                seal(&mut fold.lines.book, end)?;
                return Ok(fold);
            }
        }
    }
    seal(&mut fold.lines.book, End::Whole)?;
    Ok(fold)
}

// The end at the command of the text at this place, which has this verdict.
fn stopped_at(alloc: Global, at: usize, verdict: Verdict) -> Result<End, NoMemory>
    ensures { IfOk result (λ end. end ≡ End.Fault (in_file (at + 1)) verdict) }
{
    let Ok(at) = u32::try_from(at) else {
        return Err(NoMemory);
    };
    let Some(line) = at.checked_add(1) else {
        return Err(NoMemory);
    };
    Ok(End::Fault(Place::in_file(alloc, line), verdict))
}

// No command comes behind these.
#[tactic(auto, using(crate::proofs::Ending::seal_ended))]
fn seal(book: &mut Book<()>, end: End) -> Result<(), NoMemory>
    requires own { IsOwnEnd end }
    ensures { OnOk result ((count : ℕ) → IsQuiet book.old count → IsEnded book.new count end) }
{
    match book.end() {
        Some(_) => return Err(NoMemory),
        None => {}
    }
    book.seal(end);
    book.history();
    Ok(())
}
