//! Places and modules that are lent, so that a report takes no memory for them.
ghost use Rattle.std.specs.Prelude.{◌≡◌};
ghost use Rattle.verdict_book.specs.Report.{nowhere};

use board_core::Place;
use dk_model::Listed;
use std::marker::Model;

/// The name of a module that is lent.
#[derive(Drop)]
pub struct ModuleRef<'a> {
    name: &'a [u8],
}

impl<'a> Model for ModuleRef<'a> {
    ghost use Rattle.std.specs.Prelude.{ℕ, List};

    ghost Value = { List ℕ };

    ghost view = { λ m. m.name.now };
}

impl<'a> ModuleRef<'a> {
    pub fn of(module: &'a Listed<u8>) -> ModuleRef<'a>
        ensures { result ≡ «module».now }
    {
        ModuleRef {
            name: module.as_slice(),
        }
    }

    pub fn name(&self) -> &'a [u8]
        ensures { result.now ≡ self.now }
    {
        self.name
    }
}

/// A place that is lent.
#[derive(Drop)]
pub struct PlaceRef<'a> {
    line: u32,
    module: &'a [u8],
}

impl<'a> Model for PlaceRef<'a> {
    ghost use Rattle.board_core.specs.declared.event.Place.{Place};

    ghost Value = { Place };

    ghost view = { λ p. record { line = p.line; «module» = p.«module».now } };
}

impl<'a> PlaceRef<'a> {
    pub fn of(place: &'a Place) -> PlaceRef<'a>
        ensures { result ≡ place.now }
    {
        PlaceRef {
            line: place.line,
            module: place.module.as_slice(),
        }
    }

    pub fn at(line: u32, module: &'a Listed<u8>) -> PlaceRef<'a>
        ensures { result ≡ record { line = line; «module» = «module».now } }
    {
        PlaceRef {
            line,
            module: module.as_slice(),
        }
    }

    /// The place of what ended before anything was begun.
    pub fn nowhere() -> PlaceRef<'a>
        ensures { result ≡ nowhere }
    {
        PlaceRef {
            line: 0,
            module: b"",
        }
    }

    pub fn line(&self) -> u32
        ensures { result ≡ self.now.line }
    {
        self.line
    }

    /// Empty for the file that is checked.
    pub fn module(&self) -> &'a [u8]
        ensures { result.now ≡ self.now.«module» }
    {
        self.module
    }
}
