//! The items of a part from its bytes, line by line.
ghost use Rattle.std.specs.Prelude.{◌≡◌, ◌<◌, ◌+◌, ℕ, List, [], ◌∷◌, length, position, None, Err, IfSome, IfOk};
ghost use Rattle.checked_steps.specs.Items.{Item as PlainItem};
ghost use Rattle.certificate_items.specs.Reading.{
  is_newline,
  HasNoItem,
  HasNoJoin,
  HasNoJoins,
  HasNoLine,
  HasNoStep,
  HasNoSteps,
  HasNotBoth,
};
ghost use Rattle.certificate_items.specs.Texts.{
  begins_item,
  both_lines,
  item_lines,
  join_count,
  join_lines,
  joins_lines,
  step_count,
  step_lines,
  steps_lines,
  BeginsWith,
  HasFront,
  IsNoText,
  IsTextOf,
};
ghost use Rattle.certificate_items.specs.Views.{
  plain_item,
  plain_items,
  plain_joins,
  plain_step,
  plain_steps,
};

use crate::fault::ReadFault;
use crate::item::{Item, Join, Step};
use certificate_lines::{Line, read_line};
use dk_model::{Listed, NoMemory};
use std::alloc::Global;

/// A rule's step inside so many joins isn't read.
const DEEPEST: u32 = 1000;

/// What is left to read.
#[derive(Drop)]
struct Reader<'a> {
    alloc: Global,
    rest: &'a [u8],
}

fn newline(bytes: &[u8]) -> Option<usize>
    ensures value { result ≡ position is_newline bytes.now }
    ensures within { IfSome result (λ at. at < length bytes.now) }
{
    bytes.iter().position(|byte| *byte == b'\n')
}

/// One level less to nest.
fn deeper(depth: u32) -> Result<u32, NoMemory>
    ensures { IfOk result (λ d. d + 1 ≡ depth) }
{
    match depth.checked_sub(1) {
        Some(left) => Ok(left),
        None => Err(NoMemory),
    }
}

impl<'a> Reader<'a> {
    /// The next line.
    #[tactic(auto, using(crate::proofs::Cutting::no_line, crate::proofs::Cutting::no_newline))]
    fn line(&mut self) -> Option<Line>
        ensures some { IfSome result (λ l. BeginsWith (l ∷ []) self.old.rest.now self.new.rest.now) }
        ensures none { result ≡ None → HasNoLine self.old.rest.now }
    {
        let bytes = self.rest;
        let end = newline(bytes)?;
        let line = read_line(&bytes[..end])?;
        self.rest = &bytes[end + 1..];
        Some(line)
    }

    #[cycle(reading)]
    fn step(&mut self, depth: u32) -> Result<Step, ReadFault>
        ensures ok { IfOk result (λ x.
            BeginsWith (step_lines (plain_step x)) self.old.rest.now self.new.rest.now) }
        ensures none { result ≡ Err ReadFault.NoItems → HasNoStep self.old.rest.now }
    {
        let Some(line) = self.line() else {
            return Err(ReadFault::NoItems);
        };
        match line {
            Line::Beta(place) => Ok(Step::Beta(place)),
            Line::Rule(place, number, conditions) => {
                let joins = self.joins(conditions, deeper(depth)?)?;
                Ok(Step::Rule {
                    place,
                    number,
                    joins,
                })
            }
            _ => Err(ReadFault::NoItems),
        }
    }

    /// So many steps.
    #[cycle(reading)]
    fn steps(&mut self, count: u64, depth: u32) -> Result<Listed<Step>, ReadFault>
        ensures ok { IfOk result (λ xs.
            BeginsWith (steps_lines (plain_steps xs)) self.old.rest.now self.new.rest.now) }
        ensures count { IfOk result (λ xs. step_count (plain_steps xs) ≡ count) }
        ensures none { result ≡ Err ReadFault.NoItems → HasNoSteps count self.old.rest.now }
    {
        let mut steps = Listed::new(self.alloc);
        for _at in 0..count {
            steps.push(self.step(depth)?)?;
        }
        Ok(steps)
    }

    /// So many steps of two terms.
    #[cycle(reading)]
    fn both(&mut self, first: u64, second: u64, depth: u32) -> Result<Join, ReadFault>
        ensures ok { IfOk result (λ j. BeginsWith
            (both_lines (plain_steps j.first) (plain_steps j.second))
            self.old.rest.now self.new.rest.now) }
        ensures first { IfOk result (λ j. step_count (plain_steps j.first) ≡ first) }
        ensures second { IfOk result (λ j. step_count (plain_steps j.second) ≡ second) }
        ensures none { result ≡ Err ReadFault.NoItems → HasNotBoth first second self.old.rest.now }
    {
        let first = self.steps(first, depth)?;
        let second = self.steps(second, depth)?;
        Ok(Join { first, second })
    }

    #[cycle(reading)]
    fn join(&mut self, depth: u32) -> Result<Join, ReadFault>
        ensures ok { IfOk result (λ j. BeginsWith
            (join_lines (plain_steps j.first) (plain_steps j.second))
            self.old.rest.now self.new.rest.now) }
        ensures none { result ≡ Err ReadFault.NoItems → HasNoJoin self.old.rest.now }
    {
        let Some(line) = self.line() else {
            return Err(ReadFault::NoItems);
        };
        match line {
            Line::Joining(first, second) => self.both(first, second, depth),
            _ => Err(ReadFault::NoItems),
        }
    }

    /// So many joins.
    #[cycle(reading)]
    fn joins(&mut self, count: u64, depth: u32) -> Result<Listed<Join>, ReadFault>
        ensures ok { IfOk result (λ js.
            BeginsWith (joins_lines (plain_joins js)) self.old.rest.now self.new.rest.now) }
        ensures count { IfOk result (λ js. join_count (plain_joins js) ≡ count) }
        ensures none { result ≡ Err ReadFault.NoItems → HasNoJoins count self.old.rest.now }
    {
        let mut joins = Listed::new(self.alloc);
        for _at in 0..count {
            joins.push(self.join(depth)?)?;
        }
        Ok(joins)
    }

    fn item(&mut self) -> Result<Item, ReadFault>
        ensures ok { IfOk result (λ x.
            BeginsWith (item_lines (plain_item x)) self.old.rest.now self.new.rest.now) }
        ensures none { result ≡ Err ReadFault.NoItems → HasNoItem self.old.rest.now }
    {
        let Some(line) = self.line() else {
            return Err(ReadFault::NoItems);
        };
        match line {
            Line::Reduction(count) => Ok(Item::Reduction(self.steps(count, DEEPEST)?)),
            Line::Joining(first, second) => Ok(Item::Joining(self.both(first, second, DEEPEST)?)),
            Line::Equation(first, second, word) => {
                Ok(Item::Equation(word, self.both(first, second, DEEPEST)?))
            }
            _ => Err(ReadFault::NoItems),
        }
    }
}

/// The items whose text the bytes are, of one part.
pub fn read_items(alloc: Global, bytes: &[u8]) -> Result<Listed<Item>, ReadFault>
    ensures ok { IfOk result (λ items. IsTextOf bytes.now (plain_items items)) }
    ensures only { IfOk result (λ items.
        (others : List PlainItem) → IsTextOf bytes.now others → others ≡ plain_items items) }
    ensures none { result ≡ Err ReadFault.NoItems → IsNoText bytes.now }
{
    let mut reader = Reader { alloc, rest: bytes };
    let mut items = Listed::new(alloc);
    while !reader.rest.is_empty() {
        items.push(reader.item()?)?;
    }
    Ok(items)
}

fn begins_item(bytes: &[u8]) -> bool
    ensures { result ≡ begins_item bytes.now }
{
    match bytes {
        [first, second, ..] => {
            (*first == b'r' || *first == b'j' || *first == b'e') && *second == b' '
        }
        _ => false,
    }
}

/// The items at the front of a text, up to the first line that begins as none, and what stands
/// behind them. No items are told where a line begins as an item does and none is spelt there.
pub fn take_items(alloc: Global, bytes: &[u8]) -> Result<(Listed<Item>, &[u8]), ReadFault>
    ensures ok { IfOk result (λ p. HasFront bytes.now (plain_items p.0) p.1.now) }
    ensures only { IfOk result (λ p. (others : List PlainItem) (rest : List ℕ)
        → HasFront bytes.now others rest → (others ≡ plain_items p.0) × (rest ≡ p.1.now)) }
    ensures none { result ≡ Err ReadFault.NoItems
        → (items : List PlainItem) (rest : List ℕ) → ¬ HasFront bytes.now items rest }
{
    let mut reader = Reader { alloc, rest: bytes };
    let mut items = Listed::new(alloc);
    while begins_item(reader.rest) {
        items.push(reader.item()?)?;
    }
    Ok((items, reader.rest))
}
