//! A book in memory.
ghost use Rattle.std.specs.Prelude.{◌≡◌, ◌≤◌, ◌<◌, [], None, Some, OnOk, OnErr, IfOk, length};
ghost use Rattle.dk_io.specs.Bytes.{Opens, TakesFront};
ghost use Rattle.dk_io.specs.Causes.{HasCause, HasCauseAt, MayRise, MayRiseAll};

use dk_io::{Failed, Shelf};

/// What is left of a book in memory, which is open; its reads never fail. No other can be opened, but one may lie below it.
#[derive(Drop)]
pub struct BookInMemory<'a> {
    pub rest: &'a [u8],
    /// What is left of the book below, where there is one.
    pub below: &'a [u8],
    pub has_below: bool,
    pub missed: u64,
}

impl<'a> Shelf for BookInMemory<'a> {
    ghost use Rattle.std.specs.Prelude.{[], ◌∷◌, None, Some, true, if◌then◌else◌};

    ghost books = { λ t. None };

    ghost is_open = { λ t. true };

    ghost left = { λ t. Some t.rest.now };

    ghost aside = { λ t. if t.has_below then Some t.below.now ∷ [] else [] };

    ghost faults = { λ t. 0 };

    ghost missed = { λ t name. t.missed };

    fn open_book(&mut self, _name: &str) -> Result<(), Failed> {
        self.missed = self.missed.saturating_add(1);
        Err(Failed)
    }

    fn back(&mut self) {
        if self.has_below {
            self.rest = self.below;
            self.has_below = false;
        }
    }

    fn read(&mut self, buf: &mut [u8]) -> Result<usize, Failed> {
        let count = self.rest.len().min(buf.len());
        let (front, behind) = self.rest.split_at(count);
        buf[..count].copy_from_slice(front);
        self.rest = behind;
        Ok(count)
    }
}
