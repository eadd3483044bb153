//! Theories of several files, read and scoped with nothing typed: how many commands they have, or how they end.
ghost use Rattle.std.specs.Prelude.{◌≡◌, [], IfOk};

use book_reader::Root;
use dk_io::{Book, MemShelf, NoMemory};
use dk_model::{Limits, Listed, Scoped};
use std::alloc::Global;
use std::test::Fail;
use theory_reading::{ReadingEnd, read_theory};
use theory_walk::ModuleLimits;

// The books with their texts, and what comes of reading f.dk.
const ROWS: [(&[(&str, &str)], &str); 9] = [
    (&[("f.dk", "a : Type. x : a. thm t : a := x.")], "read 3"),
    (&[("f.dk", "a : Type Type. #EVAL a.")], "read 2"),
    (&[("f.dk", "x : m.a."), ("m.dk", "a : Type.")], "read 2"),
    (&[("f.dk", "")], "read 0"),
    (&[("f.dk", "a : Type. x : b.")], "refused 2 E10"),
    (&[("f.dk", "a : Type. a : Type.")], "refused 2 E11"),
    (&[("f.dk", "a : Type. [] a --> a.")], "refused 2 E30"),
    (&[("f.dk", "x : m.a.")], "unopened m"),
    (&[("m.dk", "a : Type.")], "no file"),
];

fn shelf_of(alloc: Global, texts: &[(&str, &str)]) -> Result<MemShelf, NoMemory>
    ensures { IfOk result (λ s. s.aside ≡ []) }
{
    let mut books = Vec::new(alloc);
    for (name, text) in texts {
        books.push(Book {
            name: String::from_str(alloc, name)?,
            bytes: Vec::from_slice(alloc, text.as_bytes())?,
        })?;
    }
    MemShelf::new(alloc, books, 3, Vec::new(alloc))
}

fn said(alloc: Global, read: &Result<Listed<Scoped>, ReadingEnd>) -> Result<String, NoMemory> {
    let text = match read {
        Ok(commands) => {
            let count = commands.len();
            format!(in alloc; "read {count}")
        }
        Err(ReadingEnd::Refused(number, _, code)) => {
            format!(in alloc; "refused {number} {code:?}")
        }
        Err(ReadingEnd::Unread(number, _)) => format!(in alloc; "unread {number}"),
        Err(ReadingEnd::Unopened(name)) => match std::str::from_utf8(name.as_slice()) {
            Ok(name) => format!(in alloc; "unopened {name}"),
            Err(_) => return Err(NoMemory),
        },
        Err(ReadingEnd::NoFile) => String::from_str(alloc, "no file"),
        Err(ReadingEnd::NoMemory) => return Err(NoMemory),
    };
    Ok(text?)
}

/// The first of the texts that are due where something else comes of reading.
fn first_other(alloc: Global) -> Result<Option<&'static str>, NoMemory> {
    let limits = Limits::standard();
    if limits.commands == u32::MAX {
        return Err(NoMemory);
    }
    for (texts, due) in &ROWS {
        let mut shelf = shelf_of(alloc, texts)?;
        let root = Root {
            limits,
            most: ModuleLimits {
                files: 64,
                modules: 1000,
            },
            file: String::from_str(alloc, "f.dk")?,
            own: None,
        };
        let read = read_theory(alloc, root, &mut shelf);
        if said(alloc, &read)?.as_str() != *due {
            return Ok(Some(*due));
        }
    }
    Ok(None)
}

#[test]
fn reads_each_theory(rt: HostRuntime) -> Result<(), Fail> {
    let other = first_other(rt.alloc())?;
    assert!(rt; other.is_none(), "{other:?}");
    Ok(())
}
