//! The rules of a symbol, one at a time: its body, then its rules in file order.
ghost use Rattle.std.specs.Prelude.{◌≡◌, ◌<◌, Some, map, length, slice_get};
ghost use Rattle.signature_log.specs.Rows.{row_rules};
ghost use Rattle.shared_term.specs.Storage.{stored_term};
ghost use Rattle.rule_match.specs.Rows.{stored_pattern};
ghost use Rattle.conversion.specs.Rules.{plain_rule_of};

use dk_model::Pat;
use shared_term::Stored;
use signature_log::{Row, Rows};

/// A rule of a symbol, and its place among the symbol's rules.
#[derive(Clone, Copy)]
pub(crate) struct SymbolRule<'v> {
    pub(crate) symbol: u32,
    pub(crate) at: u32,
    pub(crate) row: Row<'v>,
}

/// The rule at this place among those of the symbol.
pub(crate) fn rule_at<'v>(rules: &Rows<'v>, symbol: u32, at: u32) -> SymbolRule<'v>
    requires { at < length (row_rules symbol rules.now) }
    ensures rule { slice_get (row_rules symbol rules.now) at ≡ Some (plain_rule_of result) }
    ensures place { result.at ≡ at }
{
    match rules.at(at) {
        Some(row) => SymbolRule { symbol, at, row },
        None => unreachable!(),
    }
}

impl<'v> SymbolRule<'v> {
    /// How many arguments its patterns take.
    pub(crate) fn pattern_count(&self) -> usize
        ensures { result ≡ length (plain_rule_of self.now).pats }
    {
        self.patterns().len()
    }

    /// The patterns of its arguments.
    fn patterns(&self) -> &'v [Pat<Stored>]
        ensures { map stored_pattern result.now ≡ (plain_rule_of self.now).pats }
    {
        match self.row {
            Row::Body(_) => &[],
            Row::Rule(rule) => rule.pats.as_slice(),
        }
    }

    /// Its right side.
    pub(crate) fn right(&self) -> &'v Stored
        ensures { stored_term result.now ≡ (plain_rule_of self.now).right }
    {
        match self.row {
            Row::Body(body) => body,
            Row::Rule(rule) => &rule.right,
        }
    }
}
