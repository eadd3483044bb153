//! The check of an open book, command by command, on plain trees.
ghost use Rattle.std.specs.Prelude.{◌≡◌, ◌<◌, ◌≤◌, ◌+◌, IfErr, IfOk, OnOk, Some, length};
ghost use Rattle.dk_model.specs.declared.code.Verdict.{Verdict};
ghost use Rattle.board_core.specs.Machine.{IsFinished, marks_of};
ghost use Rattle.verdict_book.specs.Stops.{EndsByItself};
ghost use Rattle.tree_program.specs.Trials.{GoesOn};

use crate::name::shown_of;
use crate::tried::Tried;
use board_core::{End, Place};
use command_check::enter_command;
use command_kinds::is_answered;
use dk_io::Shelf;
use dk_model::{Code, Entry, Fault, Limits, NoMemory, Scoped, Verdict};
use dk_parser::Raw;
use file_reader::{ReadEnd, Reader};
use scope_terms::Names;
use shared_term::Stored;
use signature_log::Version;
use std::alloc::Global;
use std::sync::Arc;
use tree_evaluation::Trees;
use verdict_book::Title;

/// What the commands so far came to. Each was accepted, but for the last one where the file ends at it.
#[derive(Drop)]
pub struct Trial {
    // How many commands a file may have.
    pub most: u32,
    // The units that the check of each command may take.
    pub budget: u64,
    pub trees: Trees,
    pub names: Names,
    pub version: Version,
    pub tried: Tried,
}

impl Trial {
    fn new(alloc: Global, limits: Limits, budget: u64) -> Result<Trial, NoMemory>
        requires { limits.commands < 4294967294 }
        ensures { IfOk result GoesOn }
    {
        Ok(Trial {
            most: limits.commands,
            budget,
            trees: Trees::new(alloc),
            names: Names::new(alloc)?,
            version: Version::empty(alloc)?,
            tried: Tried::new(alloc)?,
        })
    }

    // Checks each command of the open book; or says how the book ends, by itself or at a command that isn't accepted.
    fn read<H: Shelf>(&mut self, alloc: Global, limits: Limits, shelf: &mut H) -> End
        requires { GoesOn self.old }
        ensures goes_on { GoesOn self.new }
        ensures ends { EndsByItself (Some result) }
    {
        let mut reader = Reader::new(alloc, limits);
        'commands: loop {
            let raw = match reader.next(alloc, shelf) {
                Ok(next) => next.into_raw(),
                Err(end) => return end_at(alloc, end),
            };
            if let Err(verdict) = self.enter(alloc, &raw) {
                return End::Fault(Place::in_file(alloc, raw.line), verdict);
            }
        }
    }

    // Checks the next command over those before it and adds what it declares; or says its verdict.
    fn enter(&mut self, alloc: Global, raw: &Raw) -> Result<(), Verdict>
        requires { GoesOn self.old }
        ensures goes_on { GoesOn self.new }
        ensures most { self.new.most ≡ self.old.most }
        ensures few { OnOk result (length self.new.tried.titles ≤ self.new.most) }
        ensures more { OnOk result
            (length self.new.tried.titles ≡ length self.old.tried.titles + 1) }
        ensures refused { IfErr result (λ v. ¬ (v ≡ Verdict.Accepted)) }
    {
        if self.tried.titles.len() >= self.most as usize {
            return Err(Verdict::Refused(Code::E08));
        }
        let command = scoped(alloc, &mut self.names, raw)?;
        if is_answered(&command) {
            return Err(Verdict::Refused(Code::E06));
        }
        let entry = enter_command(&mut self.trees, &self.version, &command, self.budget)?;
        match self.add(alloc, raw, entry) {
            Ok(()) => Ok(()),
            Err(NoMemory) => Err(Verdict::Memory),
        }
    }

    // Adds an accepted command.
    fn add(&mut self, alloc: Global, raw: &Raw, entry: Entry<Stored>) -> Result<(), NoMemory>
        requires goes_on { GoesOn self.old }
        requires few { length self.old.tried.titles < self.old.most }
        ensures goes_on { GoesOn self.new }
        ensures most { self.new.most ≡ self.old.most }
        ensures more { OnOk result
            (length self.new.tried.titles ≡ length self.old.tried.titles + 1) }
    {
        let Ok(version) = self.version.append(Arc::new(alloc, entry)?) else {
            return Err(NoMemory);
        };
        self.version = version;
        let title = Title {
            shown: shown_of(alloc, &raw.form)?,
            place: Place::in_file(alloc, raw.line),
        };
        self.tried.add(alloc, &title)
    }
}

// The command with its names as numbers. There are as many as accepted commands, so they don't run out before these do.
fn scoped(alloc: Global, names: &mut Names, raw: &Raw) -> Result<Scoped, Verdict>
    ensures refused { IfErr result (λ v. ¬ (v ≡ Verdict.Accepted)) }
{
    if names.count() == u32::MAX {
        return Err(Verdict::Refused(Code::E08));
    }
    match names.scope(alloc, raw) {
        Ok(command) => Ok(command),
        Err(Fault::Refused(code)) => Err(Verdict::Refused(code)),
        Err(Fault::NoMemory) => Err(Verdict::Memory),
    }
}

// How the file ends where reading it ended so.
fn end_at(alloc: Global, read_end: ReadEnd) -> End
    ensures { EndsByItself (Some result) }
{
    match read_end {
        ReadEnd::Whole => End::Whole,
        ReadEnd::Unread => End::Unread(Place::in_file(alloc, 0)),
        ReadEnd::Refused(line, code) => {
            End::Fault(Place::in_file(alloc, line), Verdict::Refused(code))
        }
        ReadEnd::NoMemory(line) => End::Fault(Place::in_file(alloc, line), Verdict::Memory),
    }
}

/// Reads the open book within these limits and checks its commands one after the other, each with this budget; gives the
/// sealed book of those that are accepted. `NoMemory` comes before anything is read.
pub fn try_book<H: Shelf>(
    alloc: Global,
    limits: Limits,
    budget: u64,
    shelf: &mut H,
) -> Result<Tried, NoMemory>
    requires { limits.commands < 4294967294 }
    ensures finished { IfOk result (λ t. IsFinished (marks_of t.book.jobs) t.book.events) }
    ensures titled { IfOk result (λ t. length t.titles ≡ length t.book.jobs) }
{
    let mut trial = Trial::new(alloc, limits, budget)?;
    let end = trial.read(alloc, limits, shelf);
    let Trial { mut tried, .. } = trial;
    tried.seal(end);
    Ok(tried)
}
