//! The codes of refusals and the verdict on a command (docs/codes.md has each with an example).
ghost use Rattle.std.specs.Prelude.{◌≡◌};
ghost use Rattle.dk_model.specs.Codes.{code_text};

use crate::NoMemory;

/// Why a command is refused, by the code that the report gives.
#[derive(Clone, Copy, Debug, PartialEq, Eq)]
pub enum Code {
    /// No token can be spelt at this byte.
    E01,
    /// The token can't stand here by the grammar.
    E02,
    /// The input ends inside a command, a comment, a quoted name or an unfinished sign.
    E03,
    /// A level past the limit, or an argument of one application past it.
    E04,
    /// A name or a command of more bytes than the limit.
    E05,
    /// A word outside the profile.
    E06,
    /// An input of more bytes than the limit.
    E07,
    /// A command past the limit of commands.
    E08,
    /// An unknown name.
    E10,
    /// The declared name is declared already.
    E11,
    /// A wildcard in a term.
    E12,
    /// A name twice in the context of one rule.
    E13,
    /// A needed module is open and isn't the one being read, or a directive needs the one being read.
    E14,
    /// A module is needed while as many files are open as may be.
    E15,
    /// A module is needed where as many were opened as may be.
    E16,
    /// A need of another module in a theory that is pruned.
    E17,
    /// An applied term whose type isn't a product.
    E20,
    /// Two types that aren't convertible.
    E21,
    /// Something stands as a type that has no sort.
    E22,
    /// A bare abstraction without an expected type.
    E23,
    /// An abstraction against a type that isn't a product.
    E24,
    /// A body of type `Kind`.
    E25,
    /// The head of a rule isn't definable.
    E30,
    /// The head of a left side isn't a symbol.
    E31,
    /// An argument of a left side isn't a pattern: a rule variable applied to distinct bound variables, the wildcard, a
    /// guard, an abstraction of a pattern, or a symbol or bound variable applied to patterns.
    E32,
    /// A rule variable is used outside the pattern and missing in it.
    E33,
    /// The left side doesn't type.
    E34,
    /// The type of a rule variable mentions a bound variable that it may not.
    E35,
}

impl Code {
    /// The code as the report spells it.
    pub fn spelling(self) -> &'static [u8]
        ensures { result.now ≡ code_text self }
    {
        match self {
            Code::E01 => b"E01",
            Code::E02 => b"E02",
            Code::E03 => b"E03",
            Code::E04 => b"E04",
            Code::E05 => b"E05",
            Code::E06 => b"E06",
            Code::E07 => b"E07",
            Code::E08 => b"E08",
            Code::E10 => b"E10",
            Code::E11 => b"E11",
            Code::E12 => b"E12",
            Code::E13 => b"E13",
            Code::E14 => b"E14",
            Code::E15 => b"E15",
            Code::E16 => b"E16",
            Code::E17 => b"E17",
            Code::E20 => b"E20",
            Code::E21 => b"E21",
            Code::E22 => b"E22",
            Code::E23 => b"E23",
            Code::E24 => b"E24",
            Code::E25 => b"E25",
            Code::E30 => b"E30",
            Code::E31 => b"E31",
            Code::E32 => b"E32",
            Code::E33 => b"E33",
            Code::E34 => b"E34",
            Code::E35 => b"E35",
        }
    }
}

/// Why reading, scoping or the shape of a rule gave no answer.
#[derive(Clone, Copy, Debug, PartialEq, Eq)]
pub enum Fault {
    Refused(Code),
    NoMemory,
}

impl From<NoMemory> for Fault {
    ghost use Rattle.std.specs.Prelude.{◌≡◌};
    ghost use Rattle.dk_model.specs.declared.code.Fault.{Fault};

    ghost from_gives = { λ _ fault. fault ≡ Fault.NoMemory };

    fn from(_error: NoMemory) -> Fault {
        Fault::NoMemory
    }
}

/// What the check of one command answers.
#[derive(Clone, Copy, Debug, PartialEq, Eq)]
pub enum Verdict {
    Accepted,
    /// The first fault of the command.
    Refused(Code),
    /// The check needs more units than the budget.
    Ended,
    /// A growth was refused; no fact of the command.
    Memory,
}
