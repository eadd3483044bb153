//! What a report names of a job, and the list of it for all jobs.
ghost use Rattle.std.specs.Prelude.{◌≡◌, ◌-◌, ◌<◌, ◌≤◌, ◌++◌, ◌∷◌, [], length, slice_get, take, IsTrue, IfOk, OnOk, OnErr};
ghost use Rattle.verdict_book.specs.Books.{place_at};
ghost use Rattle.verdict_book.specs.Places.{Extends, IsHeld, titles_in};

use crate::PlaceRef;
use crate::shown::{Kind, Shown};
use board_core::Place;
use dk_model::{Listed, NoMemory};
use std::alloc::Global;
use std::marker::Model;

/// What a report names of a job.
#[derive(Drop)]
pub struct Title {
    /// What its line shows, where it is accepted.
    pub shown: Shown,
    /// Its command's module, and the line of that command's first token, from 1.
    pub place: Place,
}

/// A title whose name or term stands in a text and whose module in a list.
#[derive(Clone, Copy)]
pub struct Spot {
    pub kind: Kind,
    /// How many bytes the name or term has.
    pub length: u32,
    pub line: u32,
    /// Where in the list its module stands.
    pub module_at: u32,
}

/// The titles of jobs, in order. Their names and terms stand in one text, one behind the other, so
/// that a job takes no block of memory for its own; a module stands once for all jobs in a row that
/// have it.
#[derive(Drop)]
pub struct Titles {
    texts: Vec<u8>,
    modules: Vec<Listed<u8>>,
    spots: Vec<Spot>,
}

impl Model for Titles {
    ghost use Rattle.std.specs.Prelude.{◌≡◌, List, length};
    ghost use Rattle.verdict_book.specs.declared.title.Title.{Title};
    ghost use Rattle.verdict_book.specs.Places.{AreIn, titled, total};

    ghost Value = { List Title };

    ghost view = { λ t. titled t.modules.items t.texts.items t.spots.items };

    ghost invariant = { λ t. (total t.spots.items ≡ length t.texts.items)
        × AreIn t.modules.items t.spots.items };
}

/// Some titles of a list, in order.
#[derive(Drop)]
pub struct TitleSlice<'t> {
    pub texts: &'t [u8],
    pub modules: &'t [Listed<u8>],
    pub spots: &'t [Spot],
}

impl Titles {
    pub fn new(alloc: Global) -> Titles
        ensures { result ≡ [] }
    {
        Titles {
            texts: Vec::new(alloc),
            modules: Vec::new(alloc),
            spots: Vec::new(alloc),
        }
    }

    pub fn len(&self) -> usize
        ensures { result ≡ length self.now }
    {
        self.spots.len()
    }

    /// Adds a copy of a title, behind the others. A name or term of 2^32 bytes is want of memory.
    pub fn push(&mut self, title: &Title) -> Result<(), NoMemory>
        ensures ok { OnOk result (self.new ≡ self.old ++ title.now ∷ []) }
        ensures err { OnErr result (self.new ≡ self.old) }
    {
        let text = title.shown.text();
        let Ok(length) = u32::try_from(text.len()) else {
            return Err(NoMemory);
        };
        self.spots.reserve(1)?;
        let module_at = module_number(&mut self.modules, &title.place.module)?;
        self.texts.extend_from_slice(text)?;
        self.spots.push_reserved(Spot {
            kind: title.shown.kind(),
            length,
            line: title.place.line,
            module_at,
        });
        Ok(())
    }

    /// Takes the last title away, if there is one.
    pub fn pop(&mut self)
        ensures { self.new ≡ take (length self.old - 1) self.old }
    {
        if let Some(spot) = self.spots.pop() {
            let kept = self.texts.len() - spot.length as usize;
            self.texts.truncate(kept);
        }
    }

    /// The place of the job of this number.
    pub fn place(&self, number: u32) -> PlaceRef<'_>
        requires { (0 < number) × (number ≤ length self.now) }
        ensures { result ≡ place_at self.now number }
    {
        let spot = &self.spots[number as usize - 1];
        PlaceRef::at(spot.line, &self.modules[spot.module_at as usize])
    }

    pub(crate) fn as_slice(&self) -> TitleSlice<'_>
        ensures titles { titles_in result ≡ self.now }
        ensures held { IsHeld result }
    {
        TitleSlice {
            texts: self.texts.as_slice(),
            modules: self.modules.as_slice(),
            spots: self.spots.as_slice(),
        }
    }
}

// Whether the module stands last in the list.
fn is_last(modules: &[Listed<u8>], module: &Listed<u8>) -> bool
    ensures { IsTrue result →
        slice_get modules.now (length modules.now - 1) ≡ Some «module».now }
{
    match modules.last() {
        Some(last) => last.as_slice() == module.as_slice(),
        None => false,
    }
}

// Where the module stands in the list: last. It is put there, unless it was the last already.
fn module_number(modules: &mut Vec<Listed<u8>>, module: &Listed<u8>) -> Result<u32, NoMemory>
    ensures kept { Extends modules.old.items modules.new.items }
    ensures ok { IfOk result (λ n. slice_get modules.new.items n ≡ Some «module».now) }
{
    if !is_last(modules.as_slice(), module) {
        modules.push(module.copy(*modules.allocator())?)?;
    }
    let Ok(number) = u32::try_from(modules.len() - 1) else {
        return Err(NoMemory);
    };
    Ok(number)
}
