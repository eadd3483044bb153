//! Commands and directives, one terminal at a time.
ghost use Rattle.std.specs.Prelude.{◌≡◌, IfOk};
ghost use Rattle.dk_parser.specs.Parsing.{advanced, behind_term, goes_into, in_term_by};
ghost use Rattle.dk_terms.specs.Parsing.{term_next};
ghost use Rattle.dk_parser.specs.Parsing as plain;
ghost use Rattle.dk_parser.specs.Views.{plain_command, plain_due, plain_purpose, plain_step};
ghost use Rattle.dk_terms.specs.Views.{plain_term};
ghost use Rattle.dk_parser.specs.RawViews.{written, written_form};

use crate::declare_part::Head;
use crate::directive_part::Directive;
use crate::query_part::Asking;
use crate::rule_part::RuleHead;
use crate::{Raw, RawForm, RawParam};
use dk_lexer::Sign;
use dk_model::{Listed, NoMemory, SymSort};
use dk_terms::{LeftSoFar, RawPat, RawTerm, TermSoFar, TermStep, Terminal};
use std::alloc::Global;
use std::mem::replace;

/// What a term is read for.
#[derive(Drop)]
pub enum Purpose {
    /// The type of a parameter with this binder.
    Param(Option<Listed<u8>>),
    /// The type of the declaration.
    Type,
    /// The body of the declaration, with this type.
    Body(Option<RawTerm>),
    /// The type of an entry of the context.
    Entry(Listed<u8>),
    /// A guard behind what was read of the left side.
    Guard,
    /// The right side of the rule with this left side.
    Right(RawPat),
    /// What `#CHECK` asks of, or `#ASSERT` with `true`.
    Asked(bool),
    /// The last term of a query.
    Query(Asking),
}

/// What is due next.
#[derive(Drop)]
pub enum Due {
    /// The first token of a command.
    Command,
    /// The name of a definition or a theorem.
    Name(SymSort),
    /// A parameter, the colon, or `:=`.
    Head,
    /// The binder of a parameter.
    Binder,
    /// The colon behind this binder.
    BinderColon(Option<Listed<u8>>),
    /// The name of a rule.
    RuleName,
    /// The brace behind the name of a rule.
    RuleBrace,
    /// A context.
    Square,
    /// The first entry of a context, or the end of one that has none.
    Context,
    /// An entry of a context.
    Entry,
    /// What stands behind the name of an entry.
    EntryNamed(Listed<u8>),
    /// More of a left side, or what ends it.
    Left,
    /// More of a term, or what ends it.
    Term(Purpose),
    /// The module of a directive.
    Module(Directive),
    /// The dot behind a directive with this module.
    Dot(Directive, Listed<u8>),
}

/// A command that has begun: what is due, and what has been read of the parts that it may have.
#[derive(Drop)]
pub struct CommandSoFar {
    pub due: Due,
    pub head: Head,
    pub rules: RuleHead,
    pub left: LeftSoFar,
    pub term: TermSoFar,
}

/// What a terminal makes of a command that has begun.
#[derive(Drop)]
pub enum Advance {
    /// It goes on.
    Goes,
    /// This command ends; its line is still to be told.
    Ends(Box<Raw>),
    /// No command begins so.
    Refuses,
}

impl CommandSoFar {
    /// Before the first terminal.
    pub fn new(alloc: Global) -> CommandSoFar
        ensures { plain_command result ≡ plain.command_due }
    {
        CommandSoFar {
            due: Due::Command,
            head: Head::new(alloc, SymSort::Static, Listed::new(alloc)),
            rules: RuleHead::new(alloc),
            left: LeftSoFar::new(alloc),
            term: TermSoFar::new(alloc),
        }
    }

    /// Takes a terminal. Most stand in a term, so these come first.
    pub fn next(&mut self, alloc: Global, x: Terminal) -> Result<Advance, NoMemory>
        ensures { IfOk result (λ step. plain_step step self.new
            ≡ advanced (plain_command self.old) x) }
    {
        match self.due {
            Due::Term(_) => self.term_next(alloc, x),
            _ => self.part_next(alloc, x),
        }
    }

    // What is due and the terminal, as in `advanced`.
    fn part_next(&mut self, alloc: Global, x: Terminal) -> Result<Advance, NoMemory>
        ensures { IfOk result (λ step. plain_step step self.new
            ≡ advanced (plain_command self.old) x) }
    {
        match (replace(&mut self.due, Due::Command), x) {
            (Due::Command, x) => Ok(self.command_next(alloc, x)),
            (Due::Name(sort), Terminal::Name(name)) => Ok(self.named(alloc, sort, name)),
            (Due::Head, x) => Ok(self.head_next(x)),
            (Due::Binder, Terminal::Name(name)) => Ok(self.goes(Due::BinderColon(Some(name)))),
            (Due::Binder, Terminal::Wildcard) => Ok(self.goes(Due::BinderColon(None))),
            (Due::BinderColon(binder), Terminal::Sign(Sign::Colon)) => {
                Ok(self.goes_into(Purpose::Param(binder)))
            }
            (Due::RuleName, Terminal::Name(_)) => Ok(self.goes(Due::RuleBrace)),
            (Due::RuleName, Terminal::Qualified(_, _)) => Ok(self.goes(Due::RuleBrace)),
            (Due::RuleBrace, Terminal::Sign(Sign::CloseBrace)) => Ok(self.goes(Due::Square)),
            (Due::Square, Terminal::Sign(Sign::OpenSquare)) => Ok(self.goes(Due::Context)),
            (Due::Context, Terminal::Sign(Sign::CloseSquare)) => Ok(self.left_due(alloc)),
            (Due::Context, Terminal::Name(name)) => Ok(self.goes(Due::EntryNamed(name))),
            (Due::Entry, Terminal::Name(name)) => Ok(self.goes(Due::EntryNamed(name))),
            (Due::EntryNamed(name), x) => self.named_next(alloc, name, x),
            (Due::Left, x) => self.left_next(alloc, x),
            (Due::Term(purpose), x) => self.in_term(alloc, purpose, x),
            (Due::Module(directive), Terminal::Name(name)) => {
                Ok(self.module_named(directive, name))
            }
            (Due::Dot(directive, name), Terminal::Sign(Sign::Dot)) => {
                self.ends(alloc, directive.form(name))
            }
            _ => Ok(Advance::Refuses),
        }
    }

    // A terminal where a term for this is due.
    fn in_term(&mut self, alloc: Global, purpose: Purpose, x: Terminal) -> Result<Advance, NoMemory>
        ensures { IfOk result (λ step. plain_step step self.new ≡ in_term_by
            (plain_purpose self.old purpose) (term_next (plain_term self.old.term) x)) }
    {
        self.due = Due::Term(purpose);
        self.term_next(alloc, x)
    }

    // Goes on where this is due.
    pub(crate) fn goes(&mut self, due: Due) -> Advance
        ensures { plain_step result self.new ≡ plain.goes (plain_due self.old due) }
    {
        self.due = due;
        Advance::Goes
    }

    // Goes on with a term.
    pub(crate) fn goes_into(&mut self, purpose: Purpose) -> Advance
        ensures { plain_step result self.new ≡ goes_into (plain_purpose self.old purpose) }
    {
        self.term.begin();
        self.goes(Due::Term(purpose))
    }

    // The command ends with this form.
    pub(crate) fn ends(&self, alloc: Global, form: RawForm) -> Result<Advance, NoMemory>
        ensures { IfOk result (λ step. plain_step step self.now ≡ plain.ends (written_form form)) }
    {
        Ok(Advance::Ends(Box::new(alloc, Raw { line: 0, form })?))
    }

    // The first terminal of a command.
    fn command_next(&mut self, alloc: Global, x: Terminal) -> Advance
        ensures { plain_step result self.new ≡ advanced plain.command_due x }
    {
        match x {
            Terminal::Name(name) => self.named(alloc, SymSort::Static, name),
            Terminal::Def => self.goes(Due::Name(SymSort::Definable)),
            Terminal::Thm => self.goes(Due::Name(SymSort::Theorem)),
            Terminal::Sign(Sign::OpenBrace) => {
                self.rules = RuleHead::new(alloc);
                self.goes(Due::RuleName)
            }
            Terminal::Sign(Sign::OpenSquare) => {
                self.rules = RuleHead::new(alloc);
                self.goes(Due::Context)
            }
            Terminal::NameWord => self.goes(Due::Module(Directive::Name)),
            Terminal::RequireWord => self.goes(Due::Module(Directive::Require)),
            Terminal::Check => self.asks(false),
            Terminal::Assert => self.asks(true),
            Terminal::Infer => self.goes_into(Purpose::Query(Asking::Infer)),
            Terminal::Eval => self.goes_into(Purpose::Query(Asking::Eval)),
            _ => Advance::Refuses,
        }
    }

    // One terminal more of a term, or what ends it.
    fn term_next(&mut self, alloc: Global, x: Terminal) -> Result<Advance, NoMemory>
        ensures { IfOk result (λ step. (purpose : Purpose) → self.old.due ≡ Due.Term purpose →
            plain_step step self.new ≡ in_term_by (plain_purpose self.old purpose)
            (term_next (plain_term self.old.term) x)) }
    {
        match self.term.next(alloc, x)? {
            TermStep::Goes => Ok(Advance::Goes),
            TermStep::Ends(term, sign) => match replace(&mut self.due, Due::Command) {
                Due::Term(purpose) => self.behind_term(alloc, purpose, term, sign),
                _ => Ok(Advance::Refuses),
            },
            TermStep::Refuses => Ok(Advance::Refuses),
        }
    }

    // A sign behind a whole term.
    fn behind_term(
        &mut self,
        alloc: Global,
        purpose: Purpose,
        term: RawTerm,
        sign: Sign,
    ) -> Result<Advance, NoMemory>
        ensures { IfOk result (λ step. plain_step step self.new
            ≡ behind_term (plain_purpose self.old purpose) (written term) sign) }
    {
        match (purpose, sign) {
            (Purpose::Param(binder), Sign::CloseBracket) => {
                self.head.params.push(RawParam { binder, typ: term })?;
                Ok(self.goes(Due::Head))
            }
            (Purpose::Type, Sign::Dot) => self.dot_behind_type(alloc, term),
            (Purpose::Type, Sign::Defined) => Ok(self.body_behind_type(term)),
            (Purpose::Body(typ), Sign::Dot) => self.declares(alloc, typ, Some(term)),
            (Purpose::Entry(name), sign) => self.entry_read(alloc, name, Some(term), sign),
            (Purpose::Guard, Sign::CloseBrace) => {
                self.left.atom(alloc, RawPat::Guard(term))?;
                Ok(self.goes(Due::Left))
            }
            (Purpose::Right(left), sign) => self.rule_read(alloc, left, term, sign),
            (Purpose::Asked(demand), sign) => Ok(self.asked_read(demand, term, sign)),
            (Purpose::Query(asking), sign) => self.query_read(alloc, asking, term, sign),
            _ => Ok(Advance::Refuses),
        }
    }
}
