//! The file that is pruned, in memory: what a shelf gave of it, as a book to be read.
ghost use Rattle.std.specs.Prelude.{◌≡◌, ◌≤◌, ◌<◌, ◌++◌, [], None, Some, IfOk, OnOk, OnErr, length};
ghost use Rattle.dk_io.specs.Bytes.{Opens, TakesFront, put_aside};
ghost use Rattle.dk_io.specs.Causes.{HasCause, HasCauseAt, MayRise, MayRiseAll};
ghost use Rattle.book_reader.specs.Shelves.{shelf_of};
ghost use Rattle.dk_check_run.specs.Held.{FitsGiving, GivesBook};

use dk_io::{Failed, Shelf};
use dk_model::NoMemory;
use std::alloc::Global;

/// How the giving of a book ended.
#[derive(Clone, Copy, Debug, PartialEq, Eq)]
pub enum Giving {
    /// It was given to its end.
    Whole,
    /// A read failed.
    Failed,
    /// More bytes were given than a file may have.
    TooLong,
}

/// What was given of a book.
#[derive(Drop)]
pub struct Given {
    pub bytes: Vec<u8>,
    pub how: Giving,
}

/// Takes the book that is open, up to one byte more than so many.
pub fn take_book<H: Shelf>(alloc: Global, most: u32, shelf: &mut H) -> Result<Given, NoMemory>
    ensures gives { IfOk result (λ given.
        GivesBook (shelf_of H.Shelf shelf.old) (shelf_of H.Shelf shelf.new) given.bytes.items given.how) }
    ensures fits { IfOk result (λ given. FitsGiving most given.bytes.items given.how) }
{
    let mut bytes = Vec::new(alloc);
    let mut buf = [0u8; 4096];
    while bytes.len() <= most as usize {
        match shelf.read(&mut buf) {
            Ok(0) => return Ok(Given {
                bytes,
                how: Giving::Whole,
            }),
            Ok(count) => bytes.extend_from_slice(&buf[..count])?,
            Err(Failed) => return Ok(Given {
                bytes,
                how: Giving::Failed,
            }),
        }
    }
    Ok(Given {
        bytes,
        how: Giving::TooLong,
    })
}

/// Whether a held book may lie below another.
pub trait Lies {
    ghost use Rattle.std.specs.Prelude.{Bool};

    // Whether it may.
    ghost below: { Bool };
}

/// It is read alone.
#[derive(Clone, Copy, Debug, PartialEq, Eq)]
pub struct Alone;

impl Lies for Alone {
    ghost use Rattle.std.specs.Prelude.{false};

    ghost below = { false };
}

/// A book that was given so from a shelf, and may be opened once. Behind what was given its reads fail, unless the book ended
/// there.
#[derive(Drop)]
pub struct HeldBook<'a, H, B> {
    pub shelf: &'a H,
    pub file: &'a str,
    pub bytes: &'a [u8],
    pub how: Giving,
    pub at: usize,
    pub is_open: bool,
    pub lies: B,
    /// Whether the file lies below too, where it may, with all given that was given of it.
    pub is_below: bool,
    pub faults: u64,
    pub missed: u64,
}

impl<'a, H: Shelf, B: Lies> Shelf for HeldBook<'a, H, B> {
    ghost use Rattle.std.specs.Prelude.{[], ◌∷◌, ◌&&◌, Some, if◌then◌else◌};
    ghost use Rattle.dk_check_run.specs.Held.{held_books, held_left, rest_of};

    ghost books = { λ t. Some (held_books t.file.now t.bytes.now (rest_of t.how (H.left t.shelf.now))) };

    ghost is_open = { λ t. t.is_open };

    ghost left = { λ t.
        Some (held_left t.faults t.at t.bytes.now (rest_of t.how (H.left t.shelf.now))) };

    ghost aside = { λ t.
        if B.below && t.is_below then Some (rest_of t.how (H.left t.shelf.now)) ∷ [] else [] };

    ghost faults = { λ t. t.faults };

    ghost missed = { λ t name. t.missed };

    fn open_book(&mut self, name: &str) -> Result<(), Failed> {
        if self.is_open || self.at > 0 || self.faults > 0 || name != self.file {
            self.missed = self.missed.saturating_add(1);
            return Err(Failed);
        }
        self.is_open = true;
        Ok(())
    }

    #[tactic(auto, using(crate::proofs::Giving::all_given))]
    fn back(&mut self) {
        if self.is_below {
            self.at = self.bytes.len();
            self.is_open = true;
            self.is_below = false;
        }
    }

    fn read(&mut self, buf: &mut [u8]) -> Result<usize, Failed> {
        let rest = match self.bytes.get(self.at..) {
            Some(rest) if self.faults == 0 => rest,
            _ => &[],
        };
        let count = rest.len().min(buf.len());
        if count == 0 && self.how != Giving::Whole {
            self.faults = self.faults.saturating_add(1);
            return Err(Failed);
        }
        buf[..count].copy_from_slice(&rest[..count]);
        self.at += count;
        Ok(count)
    }
}
