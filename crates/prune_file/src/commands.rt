//! The commands of a file in memory, each scoped behind those before it.
ghost use Rattle.std.specs.Prelude.{◌≡◌, ℕ, [], List, IfOk, OnOk};
ghost use Rattle.dk_model.specs.declared.limits.Limits.{Limits};
ghost use Rattle.dk_parser.specs.RawViews.{written_form};
ghost use Rattle.dk_parser.specs.Written.{WrittenCommand};
ghost use Rattle.scope_terms.specs.Names.{reading};
ghost use Rattle.scope_terms.specs.Reading.{after_entering, no_reading};
ghost use Rattle.text_law.specs.Cuts.{IsReadAs};
ghost use Rattle.file_reader.specs.declared.reader.ReadEnd.TheVariants.{Whole};
ghost use Rattle.file_reader.specs.Progress.{HasBegun};
ghost use Rattle.scope_terms.specs.Scopes.{Module};
ghost use Rattle.prune_file.specs.Commands.{Adds, HasAll, Stands, TakesFirst, TakesNext, found_of, nothing_found};
ghost use Rattle.prune_file.specs.Pruned.{declares};

use crate::memory::BookInMemory;
use command_texts::Span;
use dk_model::{Limits, Listed, NoMemory, Scoped};
use dk_parser::{Raw, RawForm};
use file_reader::{Next, ReadEnd, Reader};
use scope_terms::Names;
use std::alloc::Global;
use std::str::from_utf8;

/// The commands that were found so far, and which of them declares the name that is looked for.
#[derive(Drop)]
pub struct Commands {
    pub scoped: Vec<Scoped>,
    pub spans: Vec<Span>,
    pub place: Option<u32>,
    pub names: Names,
}

// Whether the command declares this name.
fn declares(name: &[u8], raw: &Raw) -> bool
    ensures { result ≡ declares name.now (written_form raw.now.form) }
{
    match &raw.form {
        RawForm::Declare { name: declared, .. } => declared.as_slice() == name,
        RawForm::Rules(_) => false,
        RawForm::Query { .. } => false,
        RawForm::Module(_) => false,
        RawForm::Require(_) => false,
    }
}

// Enters the file's own module.
fn enter_module(alloc: Global, names: &mut Names, own: &Option<Listed<u8>>) -> Result<(), NoMemory>
    ensures { OnOk result (reading names.new ≡ after_entering (reading names.old) own.now) }
{
    let Some(name) = own else {
        names.enter(alloc, None)?;
        return Ok(());
    };
    // A plain name is ASCII, so this is a text.
    let Ok(text) = from_utf8(name.as_slice()) else {
        return Err(NoMemory);
    };
    names.enter(alloc, Some(text))?;
    Ok(())
}

// No names, and the file's own module is being read.
fn names_in(alloc: Global, own: &Option<Listed<u8>>) -> Result<Names, NoMemory>
    ensures { IfOk result (λ names. reading names ≡ after_entering no_reading own.now) }
{
    let mut names = Names::new(alloc)?;
    enter_module(alloc, &mut names, own)?;
    Ok(names)
}

impl Commands {
    // Before the first command.
    fn new(alloc: Global, names: Names) -> Commands
        ensures { found_of result ≡ nothing_found (reading names) }
    {
        Commands {
            scoped: Vec::new(alloc),
            spans: Vec::new(alloc),
            place: None,
            names,
        }
    }

    // The next command. One that isn't scoped is no command of an accepted file.
    fn add(&mut self, alloc: Global, name: &[u8], raw: &Raw, span: Span) -> Result<(), NoMemory>
        ensures { OnOk result
            (Adds name.now (written_form raw.now.form) span (found_of self.old) (found_of self.new)) }
    {
        if self.names.count() == u32::MAX {
            return Err(NoMemory);
        }
        let Ok(place) = u32::try_from(self.scoped.len()) else {
            return Err(NoMemory);
        };
        let Ok(command) = self.names.scope(alloc, raw) else {
            return Err(NoMemory);
        };
        self.scoped.push(command)?;
        self.spans.push(span)?;
        self.place = match self.place {
            Some(found) => Some(found),
            None if declares(name, raw) => Some(place),
            None => None,
        };
        Ok(())
    }

    // The next command or directive.
    fn take(&mut self, alloc: Global, name: &[u8], next: &Next, span: Span) -> Result<(), NoMemory>
        ensures { OnOk result
            (TakesNext name.now next.now span (found_of self.old) (found_of self.new)) }
    {
        match next {
            Next::Command(raw) => self.add(alloc, name, raw, span),
            Next::Directive(_) => Ok(()),
        }
    }

    // The next command or directive, with the first of these spans; gives those behind it.
    fn take_first<'s>(
        &mut self,
        alloc: Global,
        name: &[u8],
        next: &Next,
        spans: &'s [Span],
    ) -> Result<&'s [Span], NoMemory>
        ensures { IfOk result (λ behind. TakesFirst name.now next.now spans.now behind.now
            (found_of self.old) (found_of self.new)) }
    {
        let Some((span, behind)) = spans.split_first() else {
            return Err(NoMemory);
        };
        self.take(alloc, name, next, *span)?;
        Ok(behind)
    }

    // All that the reader gives of the book up to its end, with these spans.
    fn read_on(
        mut self,
        name: &[u8],
        reader: &mut Reader,
        book: &mut BookInMemory,
        spans: &[Span],
    ) -> Result<Commands, NoMemory>
        requires { HasBegun reader.old }
        ensures { IfOk result (λ all. (limits : Limits) (own : Module) (bytes : List ℕ) →
            Stands limits own name.now bytes spans.now [] reader.old book.old.rest.now spans.now
            (found_of self) → (items : List WrittenCommand) → IsReadAs limits bytes items →
            HasAll own name.now items spans.now (found_of all)) }
    {
        let alloc = *self.scoped.allocator();
        let mut rest = spans;
        'items: loop {
            match reader.next(alloc, book) {
                Ok(next) => {
                    let behind = self.take_first(alloc, name, &next, rest);
                    drop(next);
                    rest = behind?;
                }
                Err(end) => return found_whole(end, self),
            }
        }
    }
}

// What was found, where reading ended with the file.
fn found_whole(end: ReadEnd, found: Commands) -> Result<Commands, NoMemory>
    ensures { IfOk result (λ all. (end ≡ Whole) × (all ≡ found)) }
{
    match end {
        ReadEnd::Whole => Ok(found),
        _ => Err(NoMemory),
    }
}

/// The commands of a file with these bytes, whose commands and directives have these spans. Where not all of it can be read and
/// scoped, want of memory is told.
pub fn read_commands(
    alloc: Global,
    limits: Limits,
    own: &Option<Listed<u8>>,
    name: &[u8],
    bytes: &[u8],
    spans: &[Span],
) -> Result<Commands, NoMemory>
    ensures { IfOk result (λ found. (items : List WrittenCommand) →
        IsReadAs limits bytes.now items →
        HasAll own.now name.now items spans.now (found_of found)) }
{
    let found = Commands::new(alloc, names_in(alloc, own)?);
    let mut reader = Reader::new(alloc, limits);
    let mut book = BookInMemory {
        rest: bytes,
        below: &[],
        has_below: false,
        missed: 0,
    };
    let all = found.read_on(name, &mut reader, &mut book, spans);
    drop(reader);
    all
}
