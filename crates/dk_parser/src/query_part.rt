//! Queries, one terminal at a time.
ghost use Rattle.std.specs.Prelude.{◌≡◌, IfOk};
ghost use Rattle.dk_parser.specs.Parsing.{asks, behind_asked, behind_query, query_form};
ghost use Rattle.dk_parser.specs.RawViews.{written, written_form};
ghost use Rattle.dk_parser.specs.Views.{plain_asking, plain_step};

use crate::command_so_far::{Advance, CommandSoFar, Due, Purpose};
use crate::{RawAsked, RawForm};
use dk_lexer::Sign;
use dk_model::NoMemory;
use dk_terms::RawTerm;
use std::alloc::Global;

/// A query without its last term.
#[derive(Drop)]
pub enum Asking {
    /// Behind `t :`; `true` for `#ASSERT`.
    Typed(bool, RawTerm),
    /// Behind `t ==`; `true` for `#ASSERT`.
    Equal(bool, RawTerm),
    /// Behind `#INFER`.
    Infer,
    /// Behind `#EVAL`.
    Eval,
}

impl Asking {
    /// The query with its last term.
    pub fn form(self, last: RawTerm) -> RawForm
        ensures { written_form result ≡ query_form (plain_asking self) (written last) }
    {
        match self {
            Asking::Typed(demand, term) => RawForm::Query {
                demand,
                asked: RawAsked::Typed(term, last),
            },
            Asking::Equal(demand, term) => RawForm::Query {
                demand,
                asked: RawAsked::Equal(term, last),
            },
            Asking::Infer => RawForm::Query {
                demand: false,
                asked: RawAsked::Infer(last),
            },
            Asking::Eval => RawForm::Query {
                demand: false,
                asked: RawAsked::Eval(last),
            },
        }
    }
}

impl CommandSoFar {
    // Behind `#CHECK` or `#ASSERT`.
    pub(crate) fn asks(&mut self, demand: bool) -> Advance
        ensures { plain_step result self.new ≡ asks demand }
    {
        self.term.begin_asked();
        self.goes(Due::Term(Purpose::Asked(demand)))
    }

    // A sign behind what is asked of.
    pub(crate) fn asked_read(&mut self, demand: bool, term: RawTerm, sign: Sign) -> Advance
        ensures { plain_step result self.new ≡ behind_asked demand (written term) sign }
    {
        match sign {
            Sign::Colon => self.goes_into(Purpose::Query(Asking::Typed(demand, term))),
            Sign::Equal => self.goes_into(Purpose::Query(Asking::Equal(demand, term))),
            _ => Advance::Refuses,
        }
    }

    // A sign behind the last term of a query.
    pub(crate) fn query_read(
        &self,
        alloc: Global,
        asking: Asking,
        term: RawTerm,
        sign: Sign,
    ) -> Result<Advance, NoMemory>
        ensures { IfOk result (λ step.
            plain_step step self.now ≡ behind_query (plain_asking asking) (written term) sign) }
    {
        match sign {
            Sign::Dot => self.ends(alloc, asking.form(term)),
            _ => Ok(Advance::Refuses),
        }
    }
}
