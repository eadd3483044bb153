//! The commands of a session, one after the other, each with its answer, kept or made anew.
ghost use Rattle.std.specs.Prelude.{◌≡◌, ◌+◌, ◌<◌, ◌++◌, ◌∷◌, [], ℕ, List, length, IfOk, OnErr, OnOk};
ghost use Rattle.dk_model.specs.Scoping.{plain_command};
ghost use Rattle.dk_model.specs.Signatures.{maybe_by};
ghost use Rattle.dk_model.specs.Verdicts.{entry_of, inferred_type};
ghost use Rattle.dk_model.specs.declared.limits.Limits.{Limits};
ghost use Rattle.board_core.specs.Places.{in_file};
ghost use Rattle.scope_terms.specs.Names.{reading};
ghost use Rattle.scope_terms.specs.Reading.{no_reading};
ghost use Rattle.shared_term.specs.Storage.{stored_term};
ghost use Rattle.signature_log.specs.Versions.{entries_of, stored_entry};
ghost use Rattle.edit_session.specs.Folding.{IsBegun, IsFolded, IsQuiet, KeepsSlots, TurnsTo};
ghost use Rattle.edit_session.specs.Shaping.{IsEntryFor};
ghost use Rattle.edit_session.specs.Turning.{Accepts, AnswersAt};
ghost use Rattle.edit_session.specs.declared.slot.Slot.{Slot};

use crate::Judge;
use crate::answering::{Answered, Asked, answer};
use crate::both::both;
use crate::finding::Findings;
use crate::grounds::ground_at;
use crate::resting::Resting;
use crate::shaping::{Shaped, shape};
use crate::shown::shown_with;
use crate::slot::Slot;
use board_core::{Book, Place};
use dk_model::{Code, Entry, Fault, Limits, NoMemory, Scoped, Verdict};
use scope_terms::Names;
use shared_term::Stored;
use signature_log::Version;
use std::alloc::Global;
use std::sync::Arc;
use verdict_book::{Shown, Title, Titles};

/// What the commands so far come to, each of which was accepted.
#[derive(Drop)]
pub struct Fold {
    pub alloc: Global,
    /// How many commands a file may have.
    pub most: u32,
    pub budget: u64,
    pub names: Names,
    pub version: Version,
    pub resting: Resting,
    pub lines: Lines,
    /// How many commands were checked.
    pub checked: u32,
}

/// What a report shows of the commands so far.
#[derive(Drop)]
pub struct Lines {
    pub book: Book<()>,
    pub titles: Titles,
}

/// How the next command came out.
#[derive(Drop)]
pub enum Turn {
    Accepted,
    /// With a verdict other than `Accepted`.
    Stopped(Verdict),
}

// The entry that an accepted command adds: it is taken from the command, or made with the type that was inferred.
fn entry_with<J: Judge>(
    judge: &mut J,
    version: &Version,
    shaped: &mut Shaped,
    typ: Option<Stored>,
) -> Result<Entry<Stored>, NoMemory>
    ensures { IfOk result (λ e. (budget : ℕ) →
        IsEntryFor (entries_of version.now) (plain_command shaped.old.command) shaped.old.entry →
        maybe_by stored_term typ
        ≡ inferred_type (entries_of version.now) (plain_command shaped.old.command) budget →
        stored_entry e ≡ entry_of (entries_of version.now) (plain_command shaped.old.command)
        (inferred_type (entries_of version.now) (plain_command shaped.old.command) budget)) }
{
    if let Some(entry) = shaped.entry.take() {
        return Ok(entry);
    }
    match judge.entry_of(version, &shaped.command, typ) {
        Ok(entry) => Ok(entry),
        Err(_) => Err(NoMemory),
    }
}

// Goes on to the version with this entry.
fn advance(alloc: Global, version: &mut Version, entry: Entry<Stored>) -> Result<(), NoMemory>
    ensures { OnOk result
        (entries_of version.new ≡ entries_of version.old ++ stored_entry entry ∷ []) }
{
    let next = match version.append(Arc::new(alloc, entry)?) {
        Ok(next) => next,
        Err(_) => return Err(NoMemory),
    };
    *version = next;
    Ok(())
}

impl Lines {
    // None yet.
    fn new(alloc: Global) -> Result<Lines, NoMemory>
        ensures titles { IfOk result (λ lines. lines.titles ≡ []) }
        ensures quiet { IfOk result (λ lines. IsQuiet lines.book 0) }
    {
        Ok(Lines {
            book: Book::new(alloc)?,
            titles: Titles::new(alloc),
        })
    }

    // The line of an accepted command.
    fn put(&mut self, alloc: Global, shown: Shown, line: u32) -> Result<(), NoMemory>
        ensures titles { OnOk result (self.new.titles
            ≡ self.old.titles ++ record { shown = shown; place = in_file line } ∷ []) }
        ensures quiet { OnOk result ((count : ℕ) → IsQuiet self.old.book count →
            IsQuiet self.new.book (count + 1)) }
    {
        let title = Title {
            shown,
            place: Place::in_file(alloc, line),
        };
        self.titles.push(&title)?;
        put_job(alloc, &mut self.book)
    }
}

// A job that is done.
#[tactic(auto, using(crate::proofs::Ending::put_quiet, crate::proofs::Ending::unsealed_by))]
fn put_job(alloc: Global, book: &mut Book<()>) -> Result<(), NoMemory>
    ensures { OnOk result ((count : ℕ) → IsQuiet book.old count → IsQuiet book.new (count + 1)) }
{
    if book.len() >= 4294967294 {
        return Err(NoMemory);
    }
    match book.end() {
        Some(_) => return Err(NoMemory),
        None => {}
    }
    match book.put(Arc::new(alloc, ())?, true) {
        Ok(_) => Ok(()),
        Err(_) => Err(NoMemory),
    }
}

// No names, and no entries.
fn start(alloc: Global) -> Result<(Names, Version), NoMemory>
    ensures names { IfOk result (λ both. reading both.0 ≡ no_reading) }
    ensures version { IfOk result (λ both. entries_of both.1 ≡ []) }
{
    both(Names::new(alloc), Version::empty(alloc))
}

impl Fold {
    /// Before the first command.
    pub fn new(alloc: Global, limits: Limits, budget: u64) -> Result<Box<Fold>, NoMemory>
        ensures begun { IfOk result (λ fold. IsBegun limits budget fold.value) }
    {
        Ok(Box::new(alloc, Fold::begun(alloc, limits, budget)?)?)
    }

    // The same by value.
    fn begun(alloc: Global, limits: Limits, budget: u64) -> Result<Fold, NoMemory>
        ensures { IfOk result (IsBegun limits budget) }
    {
        let ((names, version), lines) = both(start(alloc), Lines::new(alloc))?;
        Ok(Fold {
            alloc,
            most: limits.commands,
            budget,
            names,
            version,
            resting: Resting::new(alloc),
            lines,
            checked: 0,
        })
    }

    /// Takes the command of the text at `at` behind those so far; says how it came out.
    pub fn take<J: Judge>(
        &mut self,
        judge: &mut J,
        slots: &mut Vec<Slot>,
        at: usize,
    ) -> Result<Turn, NoMemory>
        requires within { at < length slots.old.items }
        ensures turn { IfOk result
            (TurnsTo at self.old slots.old.items self.new slots.new.items) }
        ensures slots { (limits : Limits) (start : List Slot) →
            IsFolded limits self.old.budget start at slots.old.items self.old →
            KeepsSlots limits self.old.budget slots.old.items slots.new.items }
        ensures budget { self.new.budget ≡ self.old.budget }
    {
        if at >= self.most as usize {
            return Ok(Turn::Stopped(Verdict::Refused(Code::E08)));
        }
        let raw = &slots[at].raw;
        let mut shaped = match shape(self.alloc, judge, &mut self.names, &self.version, raw) {
            Ok(shaped) => shaped,
            Err(Fault::Refused(code)) => return Ok(Turn::Stopped(Verdict::Refused(code))),
            Err(Fault::NoMemory) => return Err(NoMemory),
        };
        let mut findings = self.answered(judge, slots, at, &shaped.command)?;
        match findings.verdict {
            Verdict::Accepted => {
                match self.accept(judge, &slots[at], at as u32 + 1, &mut shaped, &mut findings) {
                    Ok(()) => Ok(Turn::Accepted),
                    Err(NoMemory) => Err(NoMemory),
                }
            }
            verdict => Ok(Turn::Stopped(verdict)),
        }
    }

    // The answer on the command of the text at `at`, which is scoped and has its shapes.
    fn answered<J: Judge>(
        &mut self,
        judge: &mut J,
        slots: &mut Vec<Slot>,
        at: usize,
        command: &Scoped,
    ) -> Result<Findings, NoMemory>
        requires within { at < length slots.old.items }
        ensures ok { IfOk result (AnswersAt at (plain_command command.now) self.old
            slots.old.items self.new slots.new.items) }
        ensures err { OnErr result (slots.new.items ≡ slots.old.items) }
        ensures budget { self.new.budget ≡ self.old.budget }
    {
        if self.checked == u32::MAX {
            return Err(NoMemory);
        }
        let places = self.resting.add(self.alloc, command)?;
        let basis = ground_at(self.alloc, slots.as_slice(), places, at)?;
        let asked = Asked {
            version: &self.version,
            command,
            budget: self.budget,
        };
        let Answered { findings, checks } = answer(
            self.alloc,
            judge,
            &mut slots[at],
            basis,
            &asked,
        )?;
        self.checked += checks;
        Ok(findings)
    }

    // Adds an accepted command, which stands on this line. Its entry and its type are taken.
    fn accept<J: Judge>(
        &mut self,
        judge: &mut J,
        slot: &Slot,
        line: u32,
        shaped: &mut Shaped,
        findings: &mut Findings,
    ) -> Result<(), NoMemory>
        ensures ok { OnOk result
            (Accepts slot.now line shaped.old findings.old self.old self.new) }
        ensures budget { self.new.budget ≡ self.old.budget }
    {
        let entry = entry_with(judge, &self.version, shaped, findings.typ.take())?;
        advance(self.alloc, &mut self.version, entry)?;
        let shown = shown_with(self.alloc, &self.names, &slot.raw.form, &findings.found)?;
        self.lines.put(self.alloc, shown, line)
    }
}
