//! What a report shows of an accepted command.
ghost use Rattle.std.specs.Prelude.{◌≡◌, IfOk};
ghost use Rattle.verdict_book.specs.Report.{is_ok};
ghost use Rattle.verdict_book.specs.Titles.{kind_of, text_of};

use dk_model::{Listed, NoMemory};
use std::alloc::Global;
use std::marker::Model;

/// What a report shows of an accepted command.
#[derive(Drop)]
pub enum Shown {
    /// The name that it declares or has rules for, without its module.
    Name(Listed<u8>),
    /// That a command `#ASSERT` was accepted.
    Asserted,
    /// What a command `#CHECK` found.
    Yes,
    No,
    /// What `#INFER` found: a type, printed.
    Of(Listed<u8>),
    /// What `#EVAL` found: a term, printed.
    Value(Listed<u8>),
}

/// Which of them is shown.
#[derive(Clone, Copy)]
pub enum Kind {
    Name,
    Asserted,
    Yes,
    No,
    Of,
    Value,
}

impl Shown {
    pub fn kind(&self) -> Kind
        ensures { result ≡ kind_of self.now }
    {
        match self {
            Shown::Name(_) => Kind::Name,
            Shown::Asserted => Kind::Asserted,
            Shown::Yes => Kind::Yes,
            Shown::No => Kind::No,
            Shown::Of(_) => Kind::Of,
            Shown::Value(_) => Kind::Value,
        }
    }

    /// Its name or term; empty where there is neither.
    pub fn text(&self) -> &[u8]
        ensures { result.now ≡ text_of self.now }
    {
        match self {
            Shown::Name(text) | Shown::Of(text) | Shown::Value(text) => text.as_slice(),
            Shown::Asserted | Shown::Yes | Shown::No => b"",
        }
    }
}

/// What a report shows of an accepted command, lent.
#[derive(Drop)]
pub struct ShownRef<'a> {
    pub kind: Kind,
    /// The command's module; empty for the file that is checked.
    pub module: &'a [u8],
    pub text: &'a [u8],
}

impl<'a> Model for ShownRef<'a> {
    ghost use Rattle.verdict_book.specs.Report.{PlainShown};
    ghost use Rattle.verdict_book.specs.Titles.{shown_by, shown_in};

    ghost Value = { PlainShown };

    ghost view = { λ s. shown_in s.«module».now (shown_by s.kind s.text.now) };
}

impl<'a> ShownRef<'a> {
    /// Whether its line is an `ok` line.
    pub fn is_ok(&self) -> bool
        ensures { result ≡ is_ok self.now }
    {
        matches!(self.kind, Kind::Name | Kind::Asserted)
    }
}
