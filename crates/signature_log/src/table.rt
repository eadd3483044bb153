//! The declared rules of all symbols, by the numbers of the symbols.
ghost use Rattle.std.specs.Prelude.{◌≡◌, ℕ, [], ◌∷◌, ◌++◌, length, IfOk};
ghost use Rattle.std.specs.Option.{option_copied};
ghost use Rattle.signature_log.specs.Slots.{IsPut};
ghost use Rattle.signature_log.specs.Placed.{placed_rule, places_in, AddsRules, entry_rules, table_at};

use crate::Steps;
use crate::blocks::Share;
use crate::cells::Cells;
use crate::fork::Fork;
use crate::held::Held;
use crate::place::Place;
use crate::rule_list::RuleList;
use crate::slots::Slots;
use dk_model::{Entry, NoMemory};
use std::alloc::Global;
use std::marker::Brand;
use std::sync::ledger::{Blank, Ledger};

/// Four levels of blocks: of 32 cells, then of 32 blocks, and as many blocks as the largest number asks for.
pub type RuleTable = Fork<Fork<Fork<Cells<RuleList>>>>;

/// The list of a symbol with one rule more.
fn listed<L: Ledger>(
    alloc: Global,
    table: &RuleTable,
    symbol: u64,
    place: Place,
    steps: &mut Steps<L>,
) -> Result<RuleList, NoMemory>
    ensures { IfOk result (λ list. list ≡ places_in (table_at table.now symbol) ++ place ∷ []) }
{
    match table.find(symbol) {
        Some(list) => list.append(alloc, place, steps),
        None => RuleList::one(alloc, place, steps),
    }
}

/// The table with one rule more, at its head.
fn with_rule<L: Ledger>(
    alloc: Global,
    table: &RuleTable,
    place: Place,
    steps: &mut Steps<L>,
) -> Result<RuleTable, NoMemory>
    ensures { IfOk result (λ t. AddsRules table.now t (placed_rule place ∷ [])) }
{
    let head = place.rule().head as u64;
    let list = listed(alloc, table, head, place, steps)?;
    table.put(alloc, head, list)
}

fn rule_count(held: &Held) -> usize
    ensures { result ≡ length (entry_rules held.now) }
{
    match held.entry() {
        Entry::Rules(rules) => rules.len(),
        Entry::Symbol { .. } => 0,
    }
}

fn counted<L: Ledger>(
    alloc: Global,
    table: &RuleTable,
    held: &Held,
    blank: Blank,
) -> Result<RuleTable, NoMemory>
    requires name { blank.name ≡ L.name }
    requires parts { blank.parts ≡ L.parts }
    requires one { L.parts ≡ 1 }
    ensures { IfOk result (λ t. AddsRules table.now t (entry_rules held.now)) }
{
    let mut steps = Steps::<L>::start(blank);
    let mut all = table.share()?;
    for at in 0..rule_count(held) {
        let place = Place::new(held.share()?, at);
        all = with_rule(alloc, &all, place, &mut steps)?;
    }
    Ok(all)
}

/// The table with the rules of an entry.
pub fn with_entry(alloc: Global, table: &RuleTable, held: &Held) -> Result<RuleTable, NoMemory>
    ensures { IfOk result (λ t. AddsRules table.now t (entry_rules held.now)) }
{
    if rule_count(held) == 0 {
        return table.share();
    }
    counted::<Brand>(alloc, table, held, Blank::new(1))
}
