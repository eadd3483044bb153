//! The rules of a command, one terminal at a time.
ghost use Rattle.std.specs.Prelude.{◌≡◌, IfOk};
ghost use Rattle.dk_terms.specs.Views.{plain_left};
ghost use Rattle.dk_parser.specs.Parsing.{behind_entry, behind_rule, goes, in_left_next, named_next, no_rules, with_entry, with_rule};
ghost use Rattle.dk_parser.specs.Parsing as plain;
ghost use Rattle.dk_terms.specs.Parsing.{left_due};
ghost use Rattle.dk_parser.specs.Views.{plain_rule_head, plain_step};
ghost use Rattle.dk_parser.specs.RawViews.{maybe_written, written, written_pattern};

use crate::command_so_far::{Advance, CommandSoFar, Due, Purpose};
use crate::{RawForm, RawNote, RawRule};
use dk_lexer::Sign;
use dk_model::{Listed, NoMemory};
use dk_terms::{LeftStep, RawPat, RawTerm, Terminal};
use std::alloc::Global;
use std::mem::replace;

/// The rules, and the context of the next one so far.
#[derive(Drop)]
pub struct RuleHead {
    pub rules: Listed<RawRule>,
    pub context: Listed<RawNote>,
}

impl RuleHead {
    /// Before the first rule.
    pub fn new(alloc: Global) -> RuleHead
        ensures { plain_rule_head result ≡ no_rules }
    {
        RuleHead {
            rules: Listed::new(alloc),
            context: Listed::new(alloc),
        }
    }
}

impl CommandSoFar {
    // Behind a context.
    pub(crate) fn left_due(&mut self, alloc: Global) -> Advance
        ensures { plain_step result self.new
            ≡ goes (plain.in_left (plain_rule_head self.old.rules) left_due) }
    {
        self.left.begin(alloc);
        self.goes(Due::Left)
    }

    // A sign behind a whole entry of a context.
    pub(crate) fn entry_read(
        &mut self,
        alloc: Global,
        name: Listed<u8>,
        note: Option<RawTerm>,
        sign: Sign,
    ) -> Result<Advance, NoMemory>
        ensures { IfOk result (λ step. plain_step step self.new ≡ behind_entry
            (with_entry (plain_rule_head self.old.rules) name (maybe_written note)) sign) }
    {
        self.rules.context.push(RawNote { name, note })?;
        match sign {
            Sign::Comma => Ok(self.goes(Due::Entry)),
            Sign::CloseSquare => Ok(self.left_due(alloc)),
            _ => Ok(Advance::Refuses),
        }
    }

    // A terminal behind the name of an entry.
    pub(crate) fn named_next(
        &mut self,
        alloc: Global,
        name: Listed<u8>,
        x: Terminal,
    ) -> Result<Advance, NoMemory>
        ensures { IfOk result (λ step. plain_step step self.new
            ≡ named_next (plain_rule_head self.old.rules) name x) }
    {
        match x {
            Terminal::Sign(Sign::Colon) => Ok(self.goes_into(Purpose::Entry(name))),
            Terminal::Sign(sign) => self.entry_read(alloc, name, None, sign),
            _ => Ok(Advance::Refuses),
        }
    }

    // A terminal on a left side.
    pub(crate) fn left_next(&mut self, alloc: Global, x: Terminal) -> Result<Advance, NoMemory>
        ensures { IfOk result (λ step. plain_step step self.new
            ≡ in_left_next (plain_rule_head self.old.rules) (plain_left self.old.left) x) }
    {
        match x {
            Terminal::Sign(Sign::OpenBrace) => Ok(self.goes_into(Purpose::Guard)),
            x => match self.left.next(alloc, x)? {
                LeftStep::Goes => Ok(self.goes(Due::Left)),
                LeftStep::Ends(left) => Ok(self.goes_into(Purpose::Right(left))),
                LeftStep::Refuses => Ok(Advance::Refuses),
            },
        }
    }

    // A sign behind a right side.
    pub(crate) fn rule_read(
        &mut self,
        alloc: Global,
        left: RawPat,
        right: RawTerm,
        sign: Sign,
    ) -> Result<Advance, NoMemory>
        ensures { IfOk result (λ step. plain_step step self.new ≡ behind_rule (with_rule
            (plain_rule_head self.old.rules) (written_pattern left) (written right)) sign) }
    {
        let context = replace(&mut self.rules.context, Listed::new(alloc));
        self.rules.rules.push(RawRule {
            context,
            left,
            right,
        })?;
        match sign {
            Sign::Dot => {
                let RuleHead { rules, context: _ } = replace(&mut self.rules, RuleHead::new(alloc));
                self.ends(alloc, RawForm::Rules(rules))
            }
            Sign::OpenSquare => Ok(self.goes(Due::Context)),
            Sign::OpenBrace => Ok(self.goes(Due::RuleName)),
            _ => Ok(Advance::Refuses),
        }
    }
}
