//! What a file is pruned to.
ghost use Rattle.std.specs.Prelude.{◌≡◌, ◌++◌, ◌∷◌, [], ℕ, IfOk, IfSome, IsNone, length};
ghost use Rattle.dk_io.specs.Causes.{HasCause};
ghost use Rattle.dk_io.specs.Gathered.{Gathers};
ghost use Rattle.dk_io.specs.Writing.{Wrote};
ghost use Rattle.prune_file.specs.Commands.{AllBelow, at_places};
ghost use Rattle.prune_file.specs.Files.{IsAccepted};
ghost use Rattle.prune_file.specs.Laws.{text_at};
ghost use Rattle.prune_file.specs.Pruned.{IsPruned, IsUnknown};

use crate::commands::read_commands;
use command_texts::{Span, command_spans};
use dk_io::{Buffer, Failed, Sink};
use dk_model::{Limits, Listed, NoMemory};
use prune_theory::rests;
use std::alloc::Global;

// Those at these places.
fn spans_at(alloc: Global, spans: &[Span], places: &[u32]) -> Result<Vec<Span>, NoMemory>
    requires { AllBelow (length spans.now) places.now }
    ensures { IfOk result (λ some. some.items ≡ at_places spans.now places.now) }
{
    let mut some = Vec::new(alloc);
    let mut rest = places;
    while let Some((place, others)) = rest.split_first() {
        let span = &spans[*place as usize];
        some.push(*span)?;
        rest = others;
    }
    Ok(some)
}

/// Where the texts stand in the bytes of an accepted file of the commands on which the one rests that declares this name; None
/// exactly where none declares it (docs/pruning.md).
pub fn pruned_spans(
    alloc: Global,
    limits: Limits,
    own: &Option<Listed<u8>>,
    name: &[u8],
    bytes: &[u8],
) -> Result<Option<Vec<Span>>, NoMemory>
    requires accepted { (budget : ℕ) × IsAccepted limits own.now budget bytes.now }
    ensures pruned { IfOk result (λ some. IfSome some (λ spans. (budget : ℕ) →
        IsAccepted limits own.now budget bytes.now →
        IsPruned limits own.now budget name.now bytes.now (text_at bytes.now spans.items))) }
    ensures unknown { IfOk result (λ some. IsNone some → IsUnknown limits name.now bytes.now) }
{
    let spans = command_spans(alloc, limits, bytes)?;
    let found = read_commands(alloc, limits, own, name, bytes, spans.as_slice())?;
    let Some(place) = found.place else {
        return Ok(None);
    };
    let places = rests(alloc, found.scoped.as_slice(), place)?;
    Ok(Some(spans_at(alloc, found.spans.as_slice(), places.as_slice())?))
}

// Puts a text on lines of its own.
fn put_text<K: Sink>(buffer: &mut Buffer, sink: &mut K, text: &[u8]) -> Result<(), Failed>
    ensures put { Gathers (K.taken sink.old) buffer.old (K.taken sink.new) buffer.new
        (text.now ++ 10 ∷ []) result }
    ensures cause { HasCause (K.faults sink.old) (K.faults sink.new) result }
{
    match buffer.put(sink, text) {
        Ok(()) => buffer.put(sink, b"\n"),
        Err(failed) => Err(failed),
    }
}

// Puts the texts, one after the other.
fn put_texts<K: Sink>(
    buffer: &mut Buffer,
    sink: &mut K,
    bytes: &[u8],
    spans: &[Span],
) -> Result<(), Failed>
    ensures put { Gathers (K.taken sink.old) buffer.old (K.taken sink.new) buffer.new
        (text_at bytes.now spans.now) result }
    ensures cause { HasCause (K.faults sink.old) (K.faults sink.new) result }
{
    let mut rest = spans;
    while let Some((span, others)) = rest.split_first() {
        match put_text(buffer, sink, span.text(bytes)) {
            Ok(()) => rest = others,
            Err(failed) => return Err(failed),
        }
    }
    Ok(())
}

/// Writes the texts that stand at these places in the bytes, each on lines of its own. Takes no memory.
///
/// After `Failed` the sink has taken a front of that.
pub fn write_texts<K: Sink>(sink: &mut K, bytes: &[u8], spans: &[Span]) -> Result<(), Failed>
    ensures wrote { Wrote (K.taken sink.old) (K.taken sink.new)
        (text_at bytes.now spans.now) result }
    ensures cause { HasCause (K.faults sink.old) (K.faults sink.new) result }
{
    let mut buffer = Buffer::new();
    match put_texts(&mut buffer, sink, bytes, spans) {
        Ok(()) => buffer.flush(sink),
        Err(failed) => Err(failed),
    }
}
