//! The commands of a theory, or how it ended before its end.
ghost use Rattle.std.specs.Prelude.{◌≡◌, ◌<◌, ◌≤◌, [], Err, Some, IfErr, OnErr, OnOk, length};
ghost use Rattle.std.specs.String.{string_bytes};
ghost use Rattle.dk_io.specs.Bytes.{Books};
ghost use Rattle.file_report.specs.Reports.{place_of};
ghost use Rattle.theory_walk.specs.BookNames.{book_named};
ghost use Rattle.book_reader.specs.Ends.{LeavesFormer};
ghost use Rattle.book_reader.specs.Shelves.{shelf_of};
ghost use Rattle.book_reader.specs.Walkers.{setting_of};
ghost use Rattle.theory_reading.specs.Reads.{CountsReading, KeepsUnopened, ReadsBooks};
ghost use Rattle.theory_reading.specs.Told.{told_of};

use crate::names::names_in;
use crate::reader::TheoryReader;
use board_core::Place;
use book_reader::{Root, WalkEnd, Walker};
use dk_io::Shelf;
use dk_model::{Code, Listed, Scoped};
use std::alloc::Global;

/// Why a theory wasn't read to its end.
#[derive(Drop)]
pub enum ReadingEnd {
    /// The command of this number, from 1, or what stands where it was due, has this code.
    Refused(u32, Place, Code),
    /// A read failed while the command of this number was due.
    Unread(u32, Place),
    /// The book of this module couldn't be opened.
    Unopened(Listed<u8>),
    /// The file couldn't be opened.
    NoFile,
    NoMemory,
}

// A line of the book of a module, or of the file.
fn place_at(alloc: Global, module: Option<Listed<u8>>, line: u32) -> Place
    ensures { result ≡ place_of (record { book = «module»; line = line }) }
{
    match module {
        Some(module) => Place { line, module },
        None => Place::in_file(alloc, line),
    }
}

// What came of a theory, where reading ended so.
fn told(alloc: Global, reader: TheoryReader, end: WalkEnd) -> Result<Listed<Scoped>, ReadingEnd>
    requires { length reader.commands < 4294967295 }
    ensures { result ≡ told_of reader.walker.top.«module» reader.commands end }
{
    let TheoryReader {
        walker,
        commands,
        ..
    } = reader;
    let number = commands.len() as u32 + 1;
    let module = walker.into_module();
    match end {
        WalkEnd::Whole => Ok(commands),
        WalkEnd::Refused(line, code) => Err(ReadingEnd::Refused(
            number,
            place_at(alloc, module, line),
            code,
        )),
        WalkEnd::Unread => Err(ReadingEnd::Unread(number, place_at(alloc, module, 0))),
        WalkEnd::Unopened(name, _) => Err(ReadingEnd::Unopened(name)),
        WalkEnd::NoMemory(_) => Err(ReadingEnd::NoMemory),
    }
}

/// The commands of the file and of what it needs, in order; or how the theory ended before its end. Each is within the limit,
/// scoped, and its rules have their shapes; nothing is typed.
pub fn read_theory<H: Shelf>(
    alloc: Global,
    root: Root,
    shelf: &mut H,
) -> Result<Listed<Scoped>, ReadingEnd>
    requires limit { root.limits.commands < 4294967295 }
    requires files { (0 < root.most.files) × (root.most.files ≤ 64) }
    requires aside { H.aside shelf.old ≡ [] }
    ensures reads { (books : Books) → H.books shelf.old ≡ Some books →
        ReadsBooks (setting_of root books) (shelf_of H.Shelf shelf.new) result }
    ensures books { H.books shelf.new ≡ H.books shelf.old }
    ensures leaves { OnOk result
        (LeavesFormer (shelf_of H.Shelf shelf.old) (shelf_of H.Shelf shelf.new)) }
    ensures unopened { IfErr result (KeepsUnopened
        (shelf_of H.Shelf shelf.old) (shelf_of H.Shelf shelf.new)) }
    ensures counts { CountsReading (book_named (string_bytes root.file))
        (shelf_of H.Shelf shelf.old) (shelf_of H.Shelf shelf.new) result }
{
    let most = root.limits.commands;
    let Ok(names) = names_in(alloc, &root.own) else {
        return Err(ReadingEnd::NoMemory);
    };
    let Ok(walker) = Walker::begin(alloc, root, shelf) else {
        return Err(ReadingEnd::NoFile);
    };
    let mut reader = TheoryReader {
        most,
        walker,
        names,
        commands: Listed::new(alloc),
    };
    let end = reader.read(alloc, shelf);
    told(alloc, reader, end)
}
