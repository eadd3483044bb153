//! What the commands so far declare, and the job of the next one.
ghost use Rattle.std.specs.Prelude.{◌≡◌, ◌<◌, ◌++◌, ◌∷◌, [], IfOk, IfErr, OnOk, length};
ghost use Rattle.dk_model.specs.Signatures.{maybe_by};
ghost use Rattle.dk_model.specs.Verdicts.{entry_of, verdict_of};
ghost use Rattle.dk_parser.specs.RawViews.{written_form};
ghost use Rattle.scope_terms.specs.Names.{reading};
ghost use Rattle.scope_terms.specs.Reading.{after_entering, after_leaving, no_reading};
ghost use Rattle.std.specs.Option.{option_map};
ghost use Rattle.shared_term.specs.Commands.{stored_command};
ghost use Rattle.shared_term.specs.Finding.{plain_found};
ghost use Rattle.shared_term.specs.Storage.{stored_term};
ghost use Rattle.signature_log.specs.Versions.{entries_of, stored_entry};
ghost use Rattle.file_report.specs.Outcomes.{no_theory};
ghost use Rattle.file_check.specs.Jobs.{GoesOn, IsOtherVerdict, IsPrepared, KeepsModules, Prepares, theory_of, verdict_in};
ghost use Rattle.file_check.specs.Shown.{shown_with, words_in};

use crate::finding::{Findings, find, is_early};
use crate::halt::Located;
use crate::job::{Job, Worker};
use crate::shown::shown_with;
use board_core::Past;
use command_check::entry_of_stored;
use dk_model::{Entry, Fault, Listed, NoMemory, TypeFault, Verdict};
use dk_parser::Raw;
use scope_terms::Names;
use shared_term::{Found, Making, Stored, StoredCommand};
use signature_log::Version;
use std::alloc::Global;
use std::mem::replace;
use std::str::from_utf8;
use std::sync::Arc;
use verdict_book::Title;

/// What the commands so far declare, as if each were accepted.
#[derive(Drop)]
pub struct Theory {
    names: Names,
    // The memory in which terms are made.
    making: Making,
    version: Version,
}

/// A command that can be put on the board.
#[derive(Drop)]
pub struct Prepared {
    pub job: Job,
    /// Whether its check is done: its type was inferred, since the next version needs it, or it was answered.
    pub settled: bool,
    pub title: Title,
}

// The entry that the command adds if it is accepted, where its type was inferred; else its verdict, where the entry can't
// be made.
#[tactic(auto, using(crate::proofs::Preparing::entry_refused))]
fn entry_after(
    alloc: Global,
    version: &Version,
    command: &StoredCommand,
    typ: Option<Stored>,
    budget: u64,
) -> Result<Entry<Stored>, Verdict>
    ensures ok { IfOk result (λ e. stored_entry e
        ≡ entry_of (entries_of version.now) (stored_command command.now)
        (maybe_by stored_term typ)) }
    ensures err { IfErr result (IsOtherVerdict
        (verdict_of (entries_of version.now) (stored_command command.now) budget)) }
{
    match entry_of_stored(alloc, version, command, typ) {
        Ok(entry) => Ok(entry),
        Err(TypeFault::Refused(code)) => Err(Verdict::Refused(code)),
        Err(TypeFault::Ended) => Err(Verdict::Ended),
        Err(TypeFault::NoMemory) => Err(Verdict::Memory),
    }
}

/// The command that the theory went on by.
#[derive(Drop)]
pub struct GoneOn {
    /// The version before it.
    pub before: Version,
    pub stored: StoredCommand,
    /// What the reader found of it itself.
    pub found: Option<Found>,
    pub settled: bool,
}

// What the report shows of the next command, where the reader found this of it itself.
fn title_of(
    alloc: Global,
    names: &Names,
    command: Located,
    found: &Option<Found>,
) -> Result<Title, NoMemory>
    ensures { IfOk result (λ title. title ≡ record {
      shown = shown_with (words_in (reading names.now)) (written_form command.raw.form)
          (option_map plain_found found.now);
      place = command.place;
    }) }
{
    let Located { raw, place } = command;
    let shown = shown_with(alloc, names, raw.form, found)?;
    Ok(Title { shown, place })
}

// The job of a command that the theory went on by, whose names these are.
fn as_job(
    alloc: Global,
    names: &Names,
    budget: u64,
    gone: GoneOn,
    command: Located,
) -> Result<Prepared, NoMemory>
    ensures { IfOk result (λ p. IsPrepared budget names.now gone
        (written_form command.raw.form) command.place p) }
{
    let Ok(title) = title_of(alloc, names, command, &gone.found) else {
        drop(gone);
        return Err(NoMemory);
    };
    let GoneOn {
        before,
        stored,
        found,
        settled,
    } = gone;
    drop(found);
    let job = Job {
        version: before,
        command: stored,
        budget,
        title: Past::of(&title),
    };
    Ok(Prepared {
        job,
        settled,
        title,
    })
}

// Enters a module that is new.
fn enter_module(
    alloc: Global,
    names: &mut Names,
    module: &Option<Listed<u8>>,
) -> Result<(), NoMemory>
    ensures { OnOk result (reading names.new ≡ after_entering (reading names.old) «module».now) }
{
    let Some(name) = module else {
        names.enter(alloc, None)?;
        return Ok(());
    };
    // A plain name is ASCII, so this is a text.
    let Ok(text) = from_utf8(name.as_slice()) else {
        return Err(NoMemory);
    };
    names.enter(alloc, Some(text))?;
    Ok(())
}

impl Theory {
    /// That of no commands, with the file's module entered.
    pub fn new(alloc: Global, own: &Option<Listed<u8>>) -> Result<Theory, NoMemory>
        ensures theory { IfOk result (λ t. theory_of t ≡ no_theory) }
        ensures entered { IfOk result (λ t. reading t.names ≡ after_entering no_reading own.now) }
    {
        let mut names = Names::new(alloc)?;
        let Ok(()) = enter_module(alloc, &mut names, own) else {
            drop(names);
            return Err(NoMemory);
        };
        let Ok(version) = Version::empty(alloc) else {
            drop(names);
            return Err(NoMemory);
        };
        Ok(Theory {
            names,
            making: Making::new(alloc),
            version,
        })
    }

    /// Enters a module that is new: the next commands stand there.
    pub fn enter(&mut self, alloc: Global, module: &Option<Listed<u8>>) -> Result<(), NoMemory>
        ensures ok { OnOk result
            (reading self.new.names ≡ after_entering (reading self.old.names) «module».now) }
        ensures version { self.new.version ≡ self.old.version }
    {
        enter_module(alloc, &mut self.names, module)
    }

    /// Leaves the module that was entered last: the next commands stand in the one entered before it.
    pub fn leave(&mut self)
        requires { 0 < length (reading self.old.names).entered }
        ensures left { reading self.new.names ≡ after_leaving (reading self.old.names) }
        ensures version { self.new.version ≡ self.old.version }
    {
        self.names.leave();
    }

    /// The job of the next command, over the commands before it; the theory goes on as if it were accepted. Or, where the
    /// next version can't be made, the command's verdict; then the theory is to be let go.
    pub fn prepare(
        &mut self,
        alloc: Global,
        worker: &mut Worker,
        budget: u64,
        command: Located,
    ) -> Result<Prepared, Verdict>
        requires few { (theory_of self.old).names.count < 4294967295 }
        ensures ok { IfOk result (λ p.
            Prepares budget self.old (written_form command.raw.form) command.place p self.new) }
        ensures modules { OnOk result (KeepsModules self.old self.new) }
        ensures err { IfErr result
            (IsOtherVerdict (verdict_in budget self.old (written_form command.raw.form))) }
    {
        match self.go_on(alloc, worker, budget, &command.raw) {
            Ok(gone) => {
                let Ok(prepared) = as_job(alloc, &self.names, budget, gone, command) else {
                    return Err(Verdict::Memory);
                };
                Ok(prepared)
            }
            Err(verdict) => {
                drop(command);
                Err(verdict)
            }
        }
    }

    // Goes on as if the next command were accepted.
    fn go_on(
        &mut self,
        alloc: Global,
        worker: &mut Worker,
        budget: u64,
        raw: &Raw,
    ) -> Result<GoneOn, Verdict>
        requires few { (theory_of self.old).names.count < 4294967295 }
        ensures ok { IfOk result (λ g.
            GoesOn budget self.old (written_form raw.now.form) g self.new) }
        ensures err { IfErr result
            (IsOtherVerdict (verdict_in budget self.old (written_form raw.now.form))) }
    {
        let stored = match self.names.place(&mut self.making, raw) {
            Ok(stored) => stored,
            Err(Fault::Refused(code)) => return Err(Verdict::Refused(code)),
            Err(Fault::NoMemory) => return Err(Verdict::Memory),
        };
        let Findings { typ, found } = match find(worker, &self.version, &stored, budget) {
            Ok(findings) => findings,
            Err(verdict) => {
                drop(stored);
                return Err(verdict);
            }
        };
        let entry = match entry_after(alloc, &self.version, &stored, typ, budget) {
            Ok(entry) => entry,
            Err(verdict) => {
                drop(stored);
                drop(found);
                return Err(verdict);
            }
        };
        let settled = is_early(&stored);
        let Ok(before) = self.advance(alloc, entry) else {
            drop(stored);
            drop(found);
            return Err(Verdict::Memory);
        };
        Ok(GoneOn {
            before,
            stored,
            found,
            settled,
        })
    }

    // Goes on to the version with this entry and gives the one before it.
    fn advance(&mut self, alloc: Global, entry: Entry<Stored>) -> Result<Version, NoMemory>
        ensures before { IfOk result (λ v. v ≡ self.old.version) }
        ensures after { IfOk result (λ _. entries_of self.new.version
            ≡ entries_of self.old.version ++ stored_entry entry ∷ []) }
        ensures kept { self.new.names ≡ self.old.names }
    {
        let next = match self.version.append(Arc::new(alloc, entry)?) {
            Ok(version) => version,
            Err(_) => return Err(NoMemory),
        };
        Ok(replace(&mut self.version, next))
    }
}
