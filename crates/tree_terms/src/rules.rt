//! The rules of a symbol, as the version keeps them.
ghost use Rattle.std.specs.Prelude.{◌≡◌, ◌<◌, IfOk, Some, map, length, slice_get};
ghost use Rattle.std.specs.Option.{option_map};
ghost use Rattle.dk_model.specs.SymbolRules.{rules_of};
ghost use Rattle.shared_term.specs.Storage.{stored_term};
ghost use Rattle.signature_log.specs.Versions.{entries_of};
ghost use Rattle.signature_log.specs.Rows.{row_rules};
ghost use Rattle.tree_terms.specs.Rules.{stored_pattern, rule};

use dk_model::{NoMemory, Pat};
use shared_term::Stored;
use signature_log::{Row, Rows, Version};
use std::alloc::Global;

/// A rule of a symbol: its body, as a rule of no patterns, or a declared one.
#[derive(Clone, Copy)]
pub struct SymbolRule<'v> {
    pub symbol: u32,
    pub row: Row<'v>,
}

impl<'v> SymbolRule<'v> {
    /// How many rule variables it has.
    pub fn variable_count(self) -> u32
        ensures { result ≡ (rule self.entry).vars }
    {
        match self.row {
            Row::Body(_) => 0,
            Row::Rule(rule) => rule.vars,
        }
    }

    pub fn pattern_count(self) -> usize
        ensures { result ≡ length (rule self.entry).pats }
    {
        match self.row {
            Row::Body(_) => 0,
            Row::Rule(rule) => rule.pats.len(),
        }
    }

    pub fn patterns(self) -> &'v [Pat<Stored>]
        ensures { map stored_pattern result.now ≡ (rule self.entry).pats }
    {
        match self.row {
            Row::Body(_) => &[],
            Row::Rule(rule) => rule.pats.as_slice(),
        }
    }

    pub fn right(self) -> &'v Stored
        ensures { stored_term result.now ≡ (rule self.entry).right }
    {
        match self.row {
            Row::Body(body) => body,
            Row::Rule(rule) => &rule.right,
        }
    }
}

/// The rule at a place.
fn rule_at<'v>(rows: &Rows<'v>, symbol: u32, at: u32) -> SymbolRule<'v>
    requires { at < length (row_rules symbol rows.now) }
    ensures { slice_get (row_rules symbol rows.now) at ≡ Some (rule result) }
{
    match rows.at(at) {
        Some(row) => SymbolRule { symbol, row },
        None => unreachable!(),
    }
}

/// The rules of a symbol: its body, then its rules in file order.
#[tactic(auto, using(crate::proofs::Lists::rule_listed))]
pub fn rules_of<'v>(
    alloc: Global,
    version: &'v Version,
    symbol: u32,
) -> Result<Vec<SymbolRule<'v>>, NoMemory>
    ensures { IfOk result (λ rules. map rule rules.items ≡ rules_of (entries_of version.now) symbol) }
{
    let rows = version.rules_of(symbol);
    let mut rules = Vec::new(alloc);
    for at in 0..rows.len() {
        rules.push(rule_at(&rows, symbol, at))?;
    }
    Ok(rules)
}

/// The rule of this number among those of a symbol, from 0. Takes no memory.
pub fn rule_of<'v>(version: &'v Version, symbol: u32, number: u64) -> Option<SymbolRule<'v>>
    ensures { option_map rule result ≡ slice_get (rules_of (entries_of version.now) symbol) number }
{
    let rows = version.rules_of(symbol);
    if number < u64::from(rows.len()) {
        Some(rule_at(&rows, symbol, number as u32))
    } else {
        None
    }
}
