//! The books being read, with the commands that came of them.
ghost use Rattle.std.specs.Prelude.{◌≡◌, ◌<◌, ◌≤◌, List, Some, Err, IfErr, OnErr, OnOk, length};
ghost use Rattle.std.specs.String.{string_bytes};
ghost use Rattle.dk_io.specs.Bytes.{Books};
ghost use Rattle.dk_parser.specs.RawViews.{written_form};
ghost use Rattle.scope_terms.specs.Names.{reading};
ghost use Rattle.scope_terms.specs.Reading.{after_entering};
ghost use Rattle.theory_walk.specs.Walks.{Placed};
ghost use Rattle.book_reader.specs.Ends.{KeepsBelow, LeavesRoom};
ghost use Rattle.book_reader.specs.Rooms.{room_of_walk};
ghost use Rattle.book_reader.specs.Shelves.{shelf_of};
ghost use Rattle.theory_reading.specs.Faults.{IsFault};
ghost use Rattle.theory_reading.specs.Readers.{Adds, IsReady, Keeps, Puts, Stands, StepCauses, StepsTo, fault_next};

use crate::names::enter_module;
use crate::shapes::check_shapes;
use book_reader::{Turn, WalkEnd, Walker};
use dk_io::Shelf;
use dk_model::{Code, Fault, Listed, Scoped};
use dk_parser::Raw;
use scope_terms::Names;
use std::alloc::Global;

/// The open books, with the commands so far.
#[derive(Drop)]
pub struct TheoryReader {
    /// How many commands there may be.
    pub most: u32,
    pub walker: Walker,
    pub names: Names,
    pub commands: Listed<Scoped>,
}

impl TheoryReader {
    /// Reads the file and what it needs, and says why no further command comes.
    pub fn read<H: Shelf>(&mut self, alloc: Global, shelf: &mut H) -> WalkEnd
        requires ready { IsReady self.old (shelf_of H.Shelf shelf.old) }
        ensures keeps { Keeps self.old self.new }
        ensures few { length self.new.commands ≤ self.new.most }
        ensures books { H.books shelf.new ≡ H.books shelf.old }
        ensures leaves { LeavesRoom (length (H.aside shelf.old)) (shelf_of H.Shelf shelf.new)
            result }
        ensures causes { StepCauses (string_bytes self.old.walker.root.file)
            (shelf_of H.Shelf shelf.old) (shelf_of H.Shelf shelf.new) (Err result) }
        ensures ends { (books : Books) (done : List Placed) → H.books shelf.old ≡ Some books →
            Stands books done self.old (shelf_of H.Shelf shelf.old) →
            StepsTo books self.new (shelf_of H.Shelf shelf.new) (Err result) }
    {
        'turns: loop {
            match self.step(alloc, shelf) {
                Ok(()) => {}
                Err(end) => return end,
            }
        }
    }

    // One turn of the walk, and what comes of it.
    fn step<H: Shelf>(&mut self, alloc: Global, shelf: &mut H) -> Result<(), WalkEnd>
        requires ready { IsReady self.old (shelf_of H.Shelf shelf.old) }
        ensures keeps { Keeps self.old self.new }
        ensures ready { OnOk result (IsReady self.new (shelf_of H.Shelf shelf.new)) }
        ensures few { length self.new.commands ≤ self.new.most }
        ensures room { OnOk result
            (room_of_walk self.new.walker < room_of_walk self.old.walker) }
        ensures books { H.books shelf.new ≡ H.books shelf.old }
        ensures leaves { KeepsBelow self.old.walker (shelf_of H.Shelf shelf.old) self.new.walker
            (shelf_of H.Shelf shelf.new) result }
        ensures causes { StepCauses (string_bytes self.old.walker.root.file)
            (shelf_of H.Shelf shelf.old) (shelf_of H.Shelf shelf.new) result }
        ensures stands { (books : Books) (done : List Placed) → H.books shelf.old ≡ Some books →
            Stands books done self.old (shelf_of H.Shelf shelf.old) →
            StepsTo books self.new (shelf_of H.Shelf shelf.new) result }
    {
        match self.walker.turn(alloc, shelf) {
            Ok(turn) => match turn {
                Turn::On => Ok(()),
                Turn::Entered => self.enter(alloc),
                Turn::Left => {
                    self.names.leave();
                    Ok(())
                }
                Turn::Command(raw) => self.put(alloc, &raw),
            },
            Err(end) => Err(end),
        }
    }

    // Enters the module of the book that was opened.
    fn enter(&mut self, alloc: Global) -> Result<(), WalkEnd>
        ensures walker { self.new.walker ≡ self.old.walker }
        ensures most { self.new.most ≡ self.old.most }
        ensures commands { self.new.commands ≡ self.old.commands }
        ensures ok { OnOk result (reading self.new.names
            ≡ after_entering (reading self.old.names) self.old.walker.top.«module») }
        ensures err { IfErr result (λ end. end ≡ WalkEnd.NoMemory 1) }
    {
        // Nothing of the book was read, so its first line is the one that is due.
        let Ok(module) = self.walker.module(alloc) else {
            return Err(WalkEnd::NoMemory(1));
        };
        match enter_module(alloc, &mut self.names, &module) {
            Ok(()) => Ok(()),
            Err(_) => Err(WalkEnd::NoMemory(1)),
        }
    }

    // Takes the next command, of the book being read.
    fn put(&mut self, alloc: Global, raw: &Raw) -> Result<(), WalkEnd>
        requires few { length self.old.commands ≤ self.old.most }
        requires counted { (reading self.old.names).symbols.count ≡ length self.old.commands }
        ensures walker { self.new.walker ≡ self.old.walker }
        ensures most { self.new.most ≡ self.old.most }
        ensures kept { OnErr result (self.new.commands ≡ self.old.commands) }
        ensures few { length self.new.commands ≤ self.new.most }
        ensures puts { Puts self.old (written_form raw.now.form) raw.now.line self.new result }
    {
        if self.commands.len() >= self.most as usize {
            return Err(WalkEnd::Refused(raw.line, Code::E08));
        }
        match self.add(alloc, raw) {
            Ok(()) => Ok(()),
            Err(Fault::Refused(code)) => Err(WalkEnd::Refused(raw.line, code)),
            Err(Fault::NoMemory) => Err(WalkEnd::NoMemory(raw.line)),
        }
    }

    // Adds a command within the limit, scoped in the module being read. After a fault the names are to be let go.
    fn add(&mut self, alloc: Global, raw: &Raw) -> Result<(), Fault>
        requires few { (reading self.old.names).symbols.count < 4294967295 }
        ensures walker { self.new.walker ≡ self.old.walker }
        ensures most { self.new.most ≡ self.old.most }
        ensures kept { OnErr result (self.new.commands ≡ self.old.commands) }
        ensures ok { OnOk result (Adds self.old (written_form raw.now.form) self.new) }
        ensures err { IfErr result (IsFault (fault_next self.old (written_form raw.now.form))) }
    {
        let command = self.names.scope(alloc, raw)?;
        check_shapes(alloc, self.commands.as_slice(), &command)?;
        self.commands.push(command)?;
        Ok(())
    }
}
