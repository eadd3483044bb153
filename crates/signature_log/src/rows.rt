//! The rules of a symbol: its body, then its declared rules in file order.
ghost use Rattle.std.specs.Prelude.{◌≡◌, ℕ, length, slice_get};
ghost use Rattle.std.specs.Option.{option_copied, option_map};
ghost use Rattle.signature_log.specs.Versions.{row_rule};
ghost use Rattle.signature_log.specs.Rows.{row_rules};
ghost use Rattle.signature_log.specs.Placed.{listed_rules};

use crate::rule_list::RuleList;
use dk_model::Rule;
use shared_term::Stored;

/// A rule of a symbol.
#[derive(Clone, Copy)]
pub enum Row<'a> {
    /// The symbol's own body, by definition: a rule of no patterns.
    Body(&'a Stored),
    /// A declared rule.
    Rule(&'a Rule<Stored>),
}

/// The rules of a symbol in a version: its body if it has one, then its declared rules in file order.
#[derive(Clone, Copy)]
pub struct Rows<'a> {
    body: Option<&'a Stored>,
    declared: Option<&'a RuleList>,
}

fn declared_row<'a>(declared: Option<&'a RuleList>, at: u32) -> Option<Row<'a>>
    ensures { (k : ℕ) → option_map (row_rule k) result
        ≡ slice_get (listed_rules (option_copied declared.entry)) at }
{
    match declared {
        Some(list) => match list.get(at as u64) {
            Some(place) => Some(Row::Rule(place.rule())),
            None => None,
        },
        None => None,
    }
}

impl<'a> Rows<'a> {
    pub(crate) fn new(body: Option<&'a Stored>, declared: Option<&'a RuleList>) -> Rows<'a>
        ensures { result ≡ record { body = body.entry; declared = declared.entry } }
    {
        Rows { body, declared }
    }

    pub fn len(&self) -> u32
        ensures { (k : ℕ) → result ≡ length (row_rules k self.now) }
    {
        let declared = match self.declared {
            Some(list) => list.len() as u32,
            None => 0,
        };
        match self.body {
            Some(_) => declared + 1,
            None => declared,
        }
    }

    /// The row at place `i`, from 0.
    pub fn at(&self, i: u32) -> Option<Row<'a>>
        ensures { (k : ℕ) → option_map (row_rule k) result ≡ slice_get (row_rules k self.now) i }
    {
        match self.body {
            Some(body) => {
                if i == 0 {
                    Some(Row::Body(body))
                } else {
                    declared_row(self.declared, i - 1)
                }
            }
            None => declared_row(self.declared, i),
        }
    }
}
