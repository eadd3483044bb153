//! The made theory as a text in memory, which is read as a book.
ghost use Rattle.std.specs.Prelude.{◌≡◌, ◌≤◌, ◌<◌, [], None, Some, IfOk, IfErr, OnOk, OnErr, IsErr, length};
ghost use Rattle.dk_io.specs.Bytes.{Opens, TakesFront, added};
ghost use Rattle.dk_io.specs.Causes.{HasCause, HasCauseAt, MayRise, MayRiseAll, Rose};
ghost use Rattle.dk_make.specs.Theory.{theory_of};

use crate::make;
use dk_io::{Failed, NoMemory, Shelf, Sink};
use std::alloc::Global;
use std::marker::Model;

// Takes a text, as far as memory lasts.
#[derive(Drop)]
struct Gathered {
    bytes: Vec<u8>,
    faults: u64,
}

impl Sink for Gathered {
    ghost use Rattle.std.specs.Prelude.{Some};

    ghost taken = { λ s. Some s.bytes.items };

    ghost faults = { λ s. s.faults };

    fn write(&mut self, piece: &[u8]) -> Result<usize, Failed> {
        match self.bytes.extend_from_slice(piece) {
            Ok(()) => Ok(piece.len()),
            Err(_) => {
                self.faults = self.faults.saturating_add(1);
                Err(Failed)
            }
        }
    }
}

/// The text of a made theory: the one book of a shelf, open from the start, whose reads never fail.
/// Its name is empty, and an opening of any other name fails.
#[derive(Drop)]
pub struct MadeText {
    bytes: Vec<u8>,
    at: usize,
    // How many bytes were read when it was put aside, the last time at the end; there is room for 64.
    aside: Vec<usize>,
    missed: u64,
}

impl Model for MadeText {
    ghost use Rattle.std.specs.Prelude.{◌≤◌, drop, vec_capacity};
    ghost use Rattle.dk_make.specs.Texts.{TextState, rests};

    ghost Value = { TextState };

    ghost view = { λ t. record {
      bytes = t.bytes.items;
      left = drop t.at t.bytes.items;
      aside = rests t.bytes.items t.aside.items;
      missed = t.missed;
    } };

    ghost invariant = { λ t. 64 ≤ vec_capacity t.aside };
}

impl MadeText {
    /// The theory with so many theorems.
    pub fn new(alloc: Global, n: u32) -> Result<MadeText, NoMemory>
        ensures { IfOk result (λ t. t ≡ record {
          bytes = theory_of n;
          left = theory_of n;
          aside = [];
          missed = 0;
        }) }
    {
        let aside = Vec::with_capacity(alloc, 64)?;
        let mut gathered = Gathered {
            bytes: Vec::new(alloc),
            faults: 0,
        };
        match make(n, &mut gathered) {
            Ok(()) => Ok(MadeText {
                bytes: gathered.bytes,
                at: 0,
                aside,
                missed: 0,
            }),
            Err(Failed) => Err(NoMemory),
        }
    }

    /// The bytes of the whole text.
    pub fn size(&self) -> usize
        ensures { result ≡ length self.now.bytes }
    {
        self.bytes.len()
    }
}

impl Shelf for MadeText {
    ghost use Rattle.std.specs.Prelude.{◌∷◌, [], Some, map, true};

    ghost books = { λ t. Some (([], t.bytes) ∷ []) };

    ghost is_open = { λ t. true };

    ghost left = { λ t. Some t.left };

    ghost aside = { λ t. map Some t.aside };

    ghost faults = { λ t. 0 };

    ghost missed = { λ t name. t.missed };

    fn open_book(&mut self, name: &str) -> Result<(), Failed> {
        if !name.is_empty() {
            self.missed = self.missed.saturating_add(1);
            return Err(Failed);
        }
        self.aside.push_reserved(self.at);
        self.at = 0;
        Ok(())
    }

    fn back(&mut self) {
        if let Some(at) = self.aside.pop() {
            self.at = at;
        }
    }

    fn read(&mut self, buf: &mut [u8]) -> Result<usize, Failed> {
        let Some(rest) = self.bytes.get(self.at..) else {
            return Ok(0);
        };
        let count = rest.len().min(buf.len());
        buf[..count].copy_from_slice(&rest[..count]);
        self.at += count;
        Ok(count)
    }
}
