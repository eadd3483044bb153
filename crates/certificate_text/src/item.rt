//! Items, each as its line and the lines of its steps.
ghost use Rattle.std.specs.Prelude.{OnOk};
ghost use Rattle.dk_io.specs.Causes.{HasCause};
ghost use Rattle.dk_io.specs.Gathered.{Gathers};
ghost use Rattle.checked_steps.specs.Items.{equation, reduction};
ghost use Rattle.certificate_items.specs.Texts.{
  both_lines,
  item_lines,
  join_lines,
  joins_lines,
  lines_of,
  lines_text,
  step_lines,
  steps_lines,
  AreShort,
};
ghost use Rattle.certificate_items.specs.Views.{
  plain_item,
  plain_items,
  plain_joins,
  plain_step,
  plain_steps,
  plain_word,
};

use crate::line::put_line;
use certificate_items::{Item, Join, Step};
use certificate_lines::{Line, Word};
use dk_io::{Buffer, Failed, Sink};

#[cycle(steps)]
fn put_step<K: Sink>(buffer: &mut Buffer, sink: &mut K, step: &Step) -> Result<(), Failed>
    ensures put { Gathers (K.taken sink.old) buffer.old (K.taken sink.new) buffer.new
        (lines_text (step_lines (plain_step step.now))) result }
    ensures short { OnOk result (AreShort (step_lines (plain_step step.now))) }
    ensures cause { HasCause (K.faults sink.old) (K.faults sink.new) result }
{
    match step {
        Step::Beta(place) => put_line(buffer, sink, &Line::Beta(*place)),
        Step::Rule {
            place,
            number,
            joins,
        } => {
            let line = Line::Rule(*place, *number, joins.len() as u64);
            match put_line(buffer, sink, &line) {
                Ok(()) => put_joins(buffer, sink, joins.as_slice()),
                Err(failed) => Err(failed),
            }
        }
    }
}

/// Puts the lines of steps, one after the other. Takes no memory; calls nest as the joins of rules do.
#[cycle(steps)]
pub fn put_steps<K: Sink>(buffer: &mut Buffer, sink: &mut K, steps: &[Step]) -> Result<(), Failed>
    ensures put { Gathers (K.taken sink.old) buffer.old (K.taken sink.new) buffer.new
        (lines_text (steps_lines (plain_steps steps.now))) result }
    ensures short { OnOk result (AreShort (steps_lines (plain_steps steps.now))) }
    ensures cause { HasCause (K.faults sink.old) (K.faults sink.new) result }
{
    for step in steps {
        match put_step(buffer, sink, step) {
            Ok(()) => {}
            Err(failed) => return Err(failed),
        }
    }
    Ok(())
}

/// The steps of two terms.
#[cycle(steps)]
fn put_both<K: Sink>(buffer: &mut Buffer, sink: &mut K, join: &Join) -> Result<(), Failed>
    ensures put { Gathers (K.taken sink.old) buffer.old (K.taken sink.new) buffer.new
        (lines_text (both_lines (plain_steps join.now.first) (plain_steps join.now.second)))
        result }
    ensures short { OnOk result (AreShort
        (both_lines (plain_steps join.now.first) (plain_steps join.now.second))) }
    ensures cause { HasCause (K.faults sink.old) (K.faults sink.new) result }
{
    match put_steps(buffer, sink, join.first.as_slice()) {
        Ok(()) => put_steps(buffer, sink, join.second.as_slice()),
        Err(failed) => Err(failed),
    }
}

#[cycle(steps)]
fn put_join<K: Sink>(buffer: &mut Buffer, sink: &mut K, join: &Join) -> Result<(), Failed>
    ensures put { Gathers (K.taken sink.old) buffer.old (K.taken sink.new) buffer.new
        (lines_text (join_lines (plain_steps join.now.first) (plain_steps join.now.second)))
        result }
    ensures short { OnOk result (AreShort
        (join_lines (plain_steps join.now.first) (plain_steps join.now.second))) }
    ensures cause { HasCause (K.faults sink.old) (K.faults sink.new) result }
{
    let line = Line::Joining(join.first.len() as u64, join.second.len() as u64);
    match put_line(buffer, sink, &line) {
        Ok(()) => put_both(buffer, sink, join),
        Err(failed) => Err(failed),
    }
}

/// Puts the lines of joins, one after the other. Takes no memory.
#[cycle(steps)]
pub fn put_joins<K: Sink>(buffer: &mut Buffer, sink: &mut K, joins: &[Join]) -> Result<(), Failed>
    ensures put { Gathers (K.taken sink.old) buffer.old (K.taken sink.new) buffer.new
        (lines_text (joins_lines (plain_joins joins.now))) result }
    ensures short { OnOk result (AreShort (joins_lines (plain_joins joins.now))) }
    ensures cause { HasCause (K.faults sink.old) (K.faults sink.new) result }
{
    for join in joins {
        match put_join(buffer, sink, join) {
            Ok(()) => {}
            Err(failed) => return Err(failed),
        }
    }
    Ok(())
}

/// An item that is a reduction.
fn put_reduction<K: Sink>(buffer: &mut Buffer, sink: &mut K, steps: &[Step]) -> Result<(), Failed>
    ensures put { Gathers (K.taken sink.old) buffer.old (K.taken sink.new) buffer.new
        (lines_text (item_lines (reduction (plain_steps steps.now)))) result }
    ensures short { OnOk result (AreShort (item_lines (reduction (plain_steps steps.now)))) }
    ensures cause { HasCause (K.faults sink.old) (K.faults sink.new) result }
{
    match put_line(buffer, sink, &Line::Reduction(steps.len() as u64)) {
        Ok(()) => put_steps(buffer, sink, steps),
        Err(failed) => Err(failed),
    }
}

/// An item that is an equation.
fn put_equation<K: Sink>(
    buffer: &mut Buffer,
    sink: &mut K,
    word: Word,
    join: &Join,
) -> Result<(), Failed>
    ensures put { Gathers (K.taken sink.old) buffer.old (K.taken sink.new) buffer.new
        (lines_text (item_lines (equation (plain_word word)
        (plain_steps join.now.first) (plain_steps join.now.second)))) result }
    ensures short { OnOk result (AreShort (item_lines (equation (plain_word word)
        (plain_steps join.now.first) (plain_steps join.now.second)))) }
    ensures cause { HasCause (K.faults sink.old) (K.faults sink.new) result }
{
    let line = Line::Equation(join.first.len() as u64, join.second.len() as u64, word);
    match put_line(buffer, sink, &line) {
        Ok(()) => put_both(buffer, sink, join),
        Err(failed) => Err(failed),
    }
}

/// Puts the lines of an item. Takes no memory.
pub fn put_item<K: Sink>(buffer: &mut Buffer, sink: &mut K, item: &Item) -> Result<(), Failed>
    ensures put { Gathers (K.taken sink.old) buffer.old (K.taken sink.new) buffer.new
        (lines_text (item_lines (plain_item item.now))) result }
    ensures short { OnOk result (AreShort (item_lines (plain_item item.now))) }
    ensures cause { HasCause (K.faults sink.old) (K.faults sink.new) result }
{
    match item {
        Item::Reduction(steps) => put_reduction(buffer, sink, steps.as_slice()),
        Item::Joining(join) => put_join(buffer, sink, join),
        Item::Equation(word, join) => put_equation(buffer, sink, *word, join),
    }
}

/// Puts the lines of the items of a part, one after the other. Takes no memory.
///
/// After `Failed` the sink has taken a front of them.
pub fn put_items<K: Sink>(buffer: &mut Buffer, sink: &mut K, items: &[Item]) -> Result<(), Failed>
    ensures put { Gathers (K.taken sink.old) buffer.old (K.taken sink.new) buffer.new
        (lines_text (lines_of (plain_items items.now))) result }
    ensures short { OnOk result (AreShort (lines_of (plain_items items.now))) }
    ensures cause { HasCause (K.faults sink.old) (K.faults sink.new) result }
{
    for item in items {
        match put_item(buffer, sink, item) {
            Ok(()) => {}
            Err(failed) => return Err(failed),
        }
    }
    Ok(())
}
