//! Declarations, one terminal at a time.
ghost use Rattle.std.specs.Prelude.{◌≡◌, [], IfOk};
ghost use Rattle.dk_parser.specs.Parsing.{body_behind_type, dot_behind_type, head_next, named};
ghost use Rattle.dk_parser.specs.Parsing as plain;
ghost use Rattle.dk_parser.specs.Views.{plain_head, plain_step};
ghost use Rattle.dk_parser.specs.RawViews.{maybe_written, written};
ghost use Rattle.dk_parser.specs.Written.{written_declare};

use crate::command_so_far::{Advance, CommandSoFar, Due, Purpose};
use crate::{RawForm, RawParam};
use dk_lexer::Sign;
use dk_model::{Listed, NoMemory, SymSort};
use dk_terms::{RawTerm, Terminal};
use std::alloc::Global;
use std::mem::replace;

/// The sort, the name and the parameters so far.
#[derive(Drop)]
pub struct Head {
    pub sort: SymSort,
    pub name: Listed<u8>,
    pub params: Listed<RawParam>,
}

impl Head {
    /// Behind the name.
    pub fn new(alloc: Global, sort: SymSort, name: Listed<u8>) -> Head
        ensures { plain_head result ≡ record { sort = sort; name = name; params = [] } }
    {
        Head {
            sort,
            name,
            params: Listed::new(alloc),
        }
    }
}

impl CommandSoFar {
    // Behind the name of a declaration.
    pub(crate) fn named(&mut self, alloc: Global, sort: SymSort, name: Listed<u8>) -> Advance
        ensures { plain_step result self.new ≡ named sort name }
    {
        self.head = Head::new(alloc, sort, name);
        self.goes(Due::Head)
    }

    // A parameter, the colon, or `:=`.
    pub(crate) fn head_next(&mut self, x: Terminal) -> Advance
        ensures { plain_step result self.new ≡ head_next (plain_head self.old.head) x }
    {
        match x {
            Terminal::Sign(Sign::OpenBracket) => self.goes(Due::Binder),
            Terminal::Sign(Sign::Colon) => self.goes_into(Purpose::Type),
            Terminal::Sign(Sign::Defined) => match self.head.sort {
                SymSort::Definable => self.goes_into(Purpose::Body(None)),
                _ => Advance::Refuses,
            },
            _ => Advance::Refuses,
        }
    }

    // The command ends with the declaration of this type and this body.
    pub(crate) fn declares(
        &mut self,
        alloc: Global,
        typ: Option<RawTerm>,
        body: Option<RawTerm>,
    ) -> Result<Advance, NoMemory>
        ensures { IfOk result (λ step. plain_step step self.new ≡ plain.ends (written_declare
            self.old.head.sort self.old.head.name (plain_head self.old.head).params
            (maybe_written typ) (maybe_written body))) }
    {
        let none = Head::new(alloc, SymSort::Static, Listed::new(alloc));
        let Head { sort, name, params } = replace(&mut self.head, none);
        let form = RawForm::Declare {
            sort,
            name,
            params,
            typ,
            body,
        };
        self.ends(alloc, form)
    }

    // The dot behind the type of a declaration.
    pub(crate) fn dot_behind_type(
        &mut self,
        alloc: Global,
        typ: RawTerm,
    ) -> Result<Advance, NoMemory>
        ensures { IfOk result (λ step. plain_step step self.new
            ≡ dot_behind_type self.old.head.sort (plain_head self.old.head) (written typ)) }
    {
        match self.head.sort {
            SymSort::Theorem => Ok(Advance::Refuses),
            _ => self.declares(alloc, Some(typ), None),
        }
    }

    // The `:=` behind the type of a declaration.
    pub(crate) fn body_behind_type(&mut self, typ: RawTerm) -> Advance
        ensures { plain_step result self.new
            ≡ body_behind_type self.old.head.sort (plain_head self.old.head) (written typ) }
    {
        match self.head.sort {
            SymSort::Static => Advance::Refuses,
            _ => self.goes_into(Purpose::Body(Some(typ))),
        }
    }
}
