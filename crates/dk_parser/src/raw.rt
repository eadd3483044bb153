//! Commands and directives as they are written, before scoping (docs/grammar.md).
ghost use Rattle.std.specs.Prelude.{◌≡◌};
ghost use Rattle.dk_parser.specs.RawViews.{written_form};
ghost use Rattle.dk_parser.specs.Modules.{is_directive};

use dk_model::{Listed, SymSort};
use dk_terms::{RawPat, RawTerm};

/// A command or a directive, and the line of its first token, from 1.
#[derive(Drop)]
pub struct Raw {
    pub line: u32,
    pub form: RawForm,
}

/// The forms of commands and of directives.
#[derive(Drop)]
pub enum RawForm {
    /// A declaration, a definition or a theorem.
    Declare {
        sort: SymSort,
        /// The declared name as spelt, a quoted one with its signs.
        name: Listed<u8>,
        params: Listed<RawParam>,
        /// The type behind the colon; a definition may have none.
        typ: Option<RawTerm>,
        /// The body behind `:=`.
        body: Option<RawTerm>,
    },
    /// One or more rewrite rules.
    Rules(Listed<RawRule>),
    /// A query: with `demand` it is `#ASSERT`, which is refused where the answer is no.
    Query {
        demand: bool,
        asked: RawAsked,
    },
    /// The directive `#NAME` and a module, which changes nothing.
    Module(Listed<u8>),
    /// The directive `#REQUIRE` and the module that it needs.
    Require(Listed<u8>),
}

/// What a query asks.
#[derive(Drop)]
pub enum RawAsked {
    /// Whether the first has the second as its type.
    Typed(RawTerm, RawTerm),
    /// Whether the two are convertible.
    Equal(RawTerm, RawTerm),
    /// The type of the term.
    Infer(RawTerm),
    /// The normal form of the term.
    Eval(RawTerm),
}

impl RawForm {
    /// Whether it is a directive, and no command.
    pub fn is_directive(&self) -> bool
        ensures { result ≡ is_directive (written_form self.now) }
    {
        matches!(self, RawForm::Module(_) | RawForm::Require(_))
    }
}

/// A parameter `(binder : type)`. A binder that is None is the wildcard.
#[derive(Drop)]
pub struct RawParam {
    pub binder: Option<Listed<u8>>,
    pub typ: RawTerm,
}

/// A rule `[context] left --> right`.
#[derive(Drop)]
pub struct RawRule {
    pub context: Listed<RawNote>,
    pub left: RawPat,
    pub right: RawTerm,
}

/// An entry of a rule's context: a name, perhaps with a type.
#[derive(Drop)]
pub struct RawNote {
    pub name: Listed<u8>,
    pub note: Option<RawTerm>,
}
