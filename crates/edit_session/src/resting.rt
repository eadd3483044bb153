//! What each command rests on, as the commands come one after the other.
ghost use Rattle.std.specs.Prelude.{◌≡◌, ◌≤◌, ◌<◌, ◌+◌, ℕ, List, [], ◌∷◌, true, get_or, length, All, Contains, IfOk, OnOk};
ghost use Rattle.dk_model.specs.PlainCommands.{PlainCommand};
ghost use Rattle.dk_model.specs.Scoping.{plain_command};
ghost use Rattle.prune_theory.specs.Mentions.{IsAscending};
ghost use Rattle.edit_session.specs.Resting.{AreReached, AreReachedFrom, IsResting, RestOn, ascend_from, behind};
ghost use Rattle.prune_theory.specs.Before.{all_below};
ghost use Rattle.prune_theory.specs.Reaching.{with_edge, with_edges};

use dk_model::{Listed, NoMemory, Scoped};
use prune_theory::{heads, mentions};
use std::alloc::Global;

/// What is known of the commands so far: what each mentions, and the rule commands that have its symbol as a head.
#[derive(Drop)]
pub struct Resting {
    pub mentions: Vec<Listed<u32>>,
    pub rules: Vec<Listed<u32>>,
    /// For each place the last command from which it was reached, its place plus one; 0 where none was.
    pub marks: Vec<u32>,
}

/// What is reached from one command.
#[derive(Clone, Copy)]
struct Ways<'a> {
    mentions: &'a [Listed<u32>],
    rules: &'a [Listed<u32>],
    // The mark of the command.
    mark: u32,
}

// The list at this place; the empty one where there is none.
#[tactic(auto, using(crate::proofs::Searching::list_there, crate::proofs::Searching::list_missing))]
fn list_at<'a>(lists: &'a [Listed<u32>], place: u32) -> &'a [u32]
    ensures { result.now ≡ get_or lists.now place [] }
{
    match lists.get(place as usize) {
        Some(list) => list.as_slice(),
        None => &[],
    }
}

// Marks a place and puts it behind those that are reached, unless it was. There is always such a place: a command mentions
// only what stands before it.
fn reach(
    marks: &mut Vec<u32>,
    reached: &mut Vec<u32>,
    mark: u32,
    place: u32,
) -> Result<(), NoMemory>
    ensures { OnOk result (AreReachedFrom mark marks.old.items reached.old.items
        marks.new.items reached.new.items
        (place ∷ [])) }
{
    let at = place as usize;
    if at >= marks.len() {
        return Err(NoMemory);
    }
    if marks[at] != mark {
        reached.push(place)?;
        marks[at] = mark;
    }
    Ok(())
}

// The same of several places.
#[tactic(auto, using(crate::proofs::Searching::leads_all, crate::proofs::Searching::leads_more, crate::proofs::Searching::leads_end))]
fn reach_all(
    marks: &mut Vec<u32>,
    reached: &mut Vec<u32>,
    mark: u32,
    places: &[u32],
) -> Result<(), NoMemory>
    ensures { OnOk result (AreReachedFrom mark marks.old.items reached.old.items
        marks.new.items reached.new.items
        places.now) }
{
    let mut rest = places;
    while let Some((place, others)) = rest.split_first() {
        reach(marks, reached, mark, *place)?;
        rest = others;
    }
    Ok(())
}

// Whether each place is below all later ones.
fn ascend(places: &[u32]) -> bool
    ensures { result ≡ ascend_from 0 places.now }
{
    let mut least = 0u64;
    let mut rest = places;
    while let Some((place, others)) = rest.split_first() {
        if u64::from(*place) < least {
            return false;
        }
        least = u64::from(*place) + 1;
        rest = others;
    }
    true
}

// Those that are reached, in their order, each once.
#[tactic(auto, using(crate::proofs::Searching::ascends, crate::proofs::Searching::permuted_in, crate::proofs::Searching::permuted_back))]
fn in_order(mut reached: Vec<u32>) -> Result<Vec<u32>, NoMemory>
    ensures ascending { IfOk result (λ places. IsAscending places.items) }
    ensures all { IfOk result (λ places. (i : ℕ) → Contains reached.items i → Contains places.items i) }
    ensures only { IfOk result (λ places. (i : ℕ) → Contains places.items i → Contains reached.items i) }
{
    reached.sort()?;
    if !ascend(reached.as_slice()) {
        return Err(NoMemory);
    }
    Ok(reached)
}

impl<'a> Ways<'a> {
    // The places that are reached from the last one, ascending. It looks once at each of them, and at no other.
    fn from_last(&self, alloc: Global, marks: &mut Vec<u32>, own: u32) -> Result<Vec<u32>, NoMemory>
        ensures ascending { IfOk result (λ places. IsAscending places.items) }
        ensures reached { IfOk result (λ places.
            All (λ m. m < self.now.mark) marks.old.items →
            AreReached self.now.mentions.now self.now.rules.now own places.items) }
        ensures marks { OnOk result (length marks.new.items ≡ length marks.old.items) }
        ensures marked { OnOk result (All (λ m. m < self.now.mark) marks.old.items →
            All (λ m. m ≤ self.now.mark) marks.new.items) }
    {
        let mut reached = Vec::new(alloc);
        reach(marks, &mut reached, self.mark, own)?;
        for seen in 0..self.mentions.len() {
            let Some(place) = reached.get(seen) else {
                return in_order(reached);
            };
            let place = *place;
            let mentioned = list_at(self.mentions, place);
            reach_all(marks, &mut reached, self.mark, mentioned)?;
            let rules = list_at(self.rules, place);
            reach_all(marks, &mut reached, self.mark, rules)?;
        }
        // There are no more places than commands.
        if reached.len() > self.mentions.len() {
            return Err(NoMemory);
        }
        in_order(reached)
    }
}

// Whether each is below this place.
fn all_below(places: &[u32], own: u32) -> bool
    ensures { result ≡ all_below own places.now }
{
    let mut rest = places;
    while let Some((place, others)) = rest.split_first() {
        if *place >= own {
            return false;
        }
        rest = others;
    }
    true
}

// Adds a place to the list of a symbol, if there is one.
#[tactic(auto, using(prune_theory::proofs::Edges::edge_is, prune_theory::proofs::Edges::edge_past))]
fn add_edge(rules: &mut Vec<Listed<u32>>, head: u32, place: u32) -> Result<(), NoMemory>
    ensures { OnOk result (rules.new.items ≡ with_edge rules.old.items head place) }
{
    let at = head as usize;
    if at < rules.len() {
        rules[at].push(place)?;
    }
    Ok(())
}

// Adds a place to the lists of these symbols.
fn add_edges(rules: &mut Vec<Listed<u32>>, heads: &[u32], place: u32) -> Result<(), NoMemory>
    ensures { OnOk result (rules.new.items ≡ with_edges rules.old.items heads.now place) }
{
    let mut rest = heads;
    while let Some((head, others)) = rest.split_first() {
        add_edge(rules, *head, place)?;
        rest = others;
    }
    Ok(())
}

impl Resting {
    /// Before the first command.
    pub fn new(alloc: Global) -> Resting
        ensures { IsResting [] result }
    {
        Resting {
            mentions: Vec::new(alloc),
            rules: Vec::new(alloc),
            marks: Vec::new(alloc),
        }
    }

    /// Adds the next command. The answer has the places on which it rests, ascending, its own last.
    ///
    /// It looks once at each place that it reaches, and at no other.
    pub fn add(&mut self, alloc: Global, command: &Scoped) -> Result<Vec<u32>, NoMemory>
        ensures added { OnOk result ((commands : List PlainCommand) → IsResting commands self.old →
            IsResting (behind commands (plain_command command.now)) self.new) }
        ensures places { IfOk result (λ places. (commands : List PlainCommand) →
            IsResting commands self.old →
            RestOn commands (plain_command command.now) places.items) }
    {
        let count = self.marks.len();
        if count >= 4294967295 {
            return Err(NoMemory);
        }
        let own = count as u32;
        let mark = own + 1;
        let heads = heads(alloc, command)?;
        if !all_below(heads.as_slice(), own) {
            return Err(NoMemory);
        }
        self.mentions.push(mentions(alloc, command)?)?;
        self.rules.push(Listed::new(alloc))?;
        self.marks.push(0)?;
        let ways = Ways {
            mentions: self.mentions.as_slice(),
            rules: self.rules.as_slice(),
            mark,
        };
        let places = ways.from_last(alloc, &mut self.marks, own)?;
        add_edges(&mut self.rules, heads.as_slice(), own)?;
        Ok(places)
    }
}
