//! The books being read, and the desk where their commands become jobs.
ghost use Rattle.std.specs.Prelude.{◌≡◌, ◌<◌, List, Some, Err, OnOk, IfErr, length};
ghost use Rattle.std.specs.String.{string_bytes};
ghost use Rattle.dk_io.specs.Bytes.{Books};
ghost use Rattle.dk_model.specs.declared.code.Verdict.TheVariants.{Memory};
ghost use Rattle.dk_parser.specs.RawViews.{written_form};
ghost use Rattle.board_core.specs.Machine.{MayEnd};
ghost use Rattle.theory_walk.specs.BookNames.{book_named};
ghost use Rattle.theory_walk.specs.Walks.{Placed};
ghost use Rattle.file_report.specs.Reports.{place_of};
ghost use Rattle.book_reader.specs.Rooms.{room_of_walk};
ghost use Rattle.book_reader.specs.Shelves.{shelf_of};
ghost use Rattle.file_check.specs.Desks.{IsReady as IsReadyDesk, IsSound, known_at, same_bounds, seen_at};
ghost use Rattle.file_check.specs.Halts.{end_at};
ghost use Rattle.file_check.specs.declared.halt.Halt.TheVariants.{Fault};
ghost use Rattle.file_check.specs.Lecterns.{EndLeaves, EntersModule, HaltCounts, IsBegun, IsReady, Keeps, KeepsDesk, PutsCommand, Stands, StepCounts, StepLeaves, StepsTo, halt_at};

use crate::desk::Desk;
use crate::halt::{Halt, Located, NotPut, place_of};
use crate::job::Job;
use book_reader::{Turn, WalkEnd, Walker};
use dk_io::Shelf;
use dk_model::Verdict;
use dk_parser::Raw;
use std::alloc::Global;
use std::sync::Wait;
use task_board::Board;

/// The open books with the desk.
#[derive(Drop)]
pub struct Lectern {
    pub walker: Walker,
    pub desk: Desk,
}

// Why no further command comes.
fn halt_at(end: WalkEnd) -> Halt
    ensures { result ≡ halt_at end }
{
    match end {
        WalkEnd::Whole => Halt::Whole,
        WalkEnd::Refused(line, code) => Halt::Fault(line, Verdict::Refused(code)),
        WalkEnd::Unread => Halt::Unread,
        WalkEnd::Unopened(name, _) => Halt::Unopened(name),
        WalkEnd::NoMemory(line) => Halt::Fault(line, Verdict::Memory),
    }
}

impl Lectern {
    /// Makes each command of the file and of what it needs a job, up to where reading halts.
    pub fn read<R: Wait, H: Shelf>(
        &mut self,
        rt: &R,
        alloc: Global,
        shelf: &mut H,
        board: &Board<Job>,
    ) -> Halt
        requires own { self.old.desk.pass.seat.table_id ≡ board.now }
        requires begun { IsBegun self.old (shelf_of H.Shelf shelf.old) }
        ensures own { self.new.desk.pass.seat.table_id ≡ board.now }
        ensures keeps { Keeps self.old self.new }
        ensures sound { IsSound self.new.desk.limits self.new.desk.titles (known_at self.new.desk) }
        ensures may_end { MayEnd (seen_at self.new.desk)
            (end_at self.new.walker.top.module result) }
        ensures books { H.books shelf.new ≡ H.books shelf.old }
        ensures counts { HaltCounts (book_named (string_bytes self.old.walker.root.file))
            (shelf_of H.Shelf shelf.old) (shelf_of H.Shelf shelf.new) result }
        ensures leaves { EndLeaves (length (H.aside shelf.old)) (shelf_of H.Shelf shelf.new)
            (end_at self.new.walker.top.module result) }
        ensures ends { (books : Books) → H.books shelf.old ≡ Some books →
            StepsTo books self.new (shelf_of H.Shelf shelf.new) (Err result) }
    {
        'turns: loop {
            match self.step(rt, alloc, shelf, board) {
                Ok(()) => {}
                Err(halt) => return halt,
            }
        }
    }

    // One turn of the walk, and what comes of it.
    fn step<R: Wait, H: Shelf>(
        &mut self,
        rt: &R,
        alloc: Global,
        shelf: &mut H,
        board: &Board<Job>,
    ) -> Result<(), Halt>
        requires own { self.old.desk.pass.seat.table_id ≡ board.now }
        requires ready { IsReady self.old (shelf_of H.Shelf shelf.old) }
        ensures own { self.new.desk.pass.seat.table_id ≡ board.now }
        ensures keeps { Keeps self.old self.new }
        ensures ready { OnOk result (IsReady self.new (shelf_of H.Shelf shelf.new)) }
        ensures room { OnOk result
            (room_of_walk self.new.walker < room_of_walk self.old.walker) }
        ensures sound { IsSound self.new.desk.limits self.new.desk.titles (known_at self.new.desk) }
        ensures may_end { IfErr result (λ halt.
            MayEnd (seen_at self.new.desk) (end_at self.new.walker.top.module halt)) }
        ensures books { H.books shelf.new ≡ H.books shelf.old }
        ensures counts { StepCounts (book_named (string_bytes self.old.walker.root.file))
            (shelf_of H.Shelf shelf.old) (shelf_of H.Shelf shelf.new) result }
        ensures leaves { StepLeaves self.old (shelf_of H.Shelf shelf.old) self.new
            (shelf_of H.Shelf shelf.new) result }
        ensures stands { (books : Books) (done : List Placed) → H.books shelf.old ≡ Some books →
            Stands books done self.old (shelf_of H.Shelf shelf.old) →
            StepsTo books self.new (shelf_of H.Shelf shelf.new) result }
    {
        match self.walker.turn(alloc, shelf) {
            Ok(turn) => match turn {
                Turn::On => Ok(()),
                Turn::Entered => self.enter(alloc),
                Turn::Left => {
                    self.desk.theory.leave();
                    Ok(())
                }
                Turn::Command(raw) => self.put(rt, alloc, board, raw),
            },
            Err(end) => Err(halt_at(end)),
        }
    }

    // Enters the module of the book that was opened.
    fn enter(&mut self, alloc: Global) -> Result<(), Halt>
        ensures walker { self.new.walker ≡ self.old.walker }
        ensures desk { KeepsDesk self.old.desk self.new.desk }
        ensures ok { OnOk result
            (EntersModule self.old.desk self.new.desk self.old.walker.top.module) }
        ensures err { IfErr result (λ halt. halt ≡ Fault 1 Memory) }
    {
        // Nothing of the book was read, so its first line is the one that is due.
        let Ok(module) = self.walker.module(alloc) else {
            return Err(Halt::Fault(1, Verdict::Memory));
        };
        match self.desk.theory.enter(alloc, &module) {
            Ok(()) => Ok(()),
            Err(_) => Err(Halt::Fault(1, Verdict::Memory)),
        }
    }

    // Makes the next command, of the book being read, a job.
    fn put<R: Wait>(
        &mut self,
        rt: &R,
        alloc: Global,
        board: &Board<Job>,
        raw: Raw,
    ) -> Result<(), Halt>
        requires own { self.old.desk.pass.seat.table_id ≡ board.now }
        requires ready { IsReadyDesk self.old.desk }
        ensures own { self.new.desk.pass.seat.table_id ≡ board.now }
        ensures walker { self.new.walker ≡ self.old.walker }
        ensures made { self.new.desk.pass.seat.me.0.made ≡ self.old.desk.pass.seat.me.0.made }
        ensures puts { PutsCommand self.old.desk (written_form raw.form)
            (place_of (record { book = self.old.walker.top.module; line = raw.line }))
            self.new.desk result }
        ensures sound { IsSound self.new.desk.limits self.new.desk.titles (known_at self.new.desk) }
        ensures bounds { same_bounds self.old.desk self.new.desk }
    {
        let line = raw.line;
        let Ok(module) = self.walker.module(alloc) else {
            drop(raw);
            return Err(Halt::Fault(line, Verdict::Memory));
        };
        let place = place_of(alloc, module, line);
        match self.desk.enter(rt, alloc, board, Located { raw, place }) {
            Ok(()) => Ok(()),
            Err(NotPut::Stopped) => Err(Halt::Stopped),
            Err(NotPut::Verdict(verdict)) => Err(Halt::Fault(line, verdict)),
        }
    }
}
