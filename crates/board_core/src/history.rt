//! A book's history, as it is kept: steps of a few bytes, and beside them the one end.
ghost use Rattle.std.specs.Prelude.{◌≡◌, ◌<◌, length, slice_get, Some, IfOk};
ghost use Rattle.std.specs.Option.{option_copied};
ghost use Rattle.board_core.specs.Steps.{event_of, events_in, sealed_with};

use crate::event::{End, Event};
use dk_model::{NoMemory, Verdict};
use std::alloc::Global;
use std::marker::Model;

/// An event without the end that a seal gives; a history has one end at most.
#[derive(Clone, Copy)]
pub enum Step {
    /// The job of this number was put.
    Put(u32),
    /// A worker, named by its own number, took the job of the second number.
    Claim(u32, u32),
    /// That worker gave that job this verdict.
    Answer(u32, u32, Verdict),
    /// No job comes after this.
    Seal,
}

/// All that happened, in order, lent by the book.
#[derive(Drop)]
pub struct History<'a> {
    steps: &'a [Step],
    // How the book was sealed, if it was.
    end: Option<&'a End>,
}

impl<'a> Model for History<'a> {
    ghost use Rattle.std.specs.Prelude.{List};
    ghost use Rattle.std.specs.Option.{option_copied};
    ghost use Rattle.board_core.specs.declared.event.Event.{Event};
    ghost use Rattle.board_core.specs.Steps.{events_in};

    ghost Value = { List Event };

    ghost view = { λ h. events_in (option_copied h.end) h.steps.now };
}

impl<'a> History<'a> {
    pub fn new(steps: &'a [Step], end: Option<&'a End>) -> History<'a>
        ensures { result ≡ events_in (option_copied end.entry) steps.now }
    {
        History { steps, end }
    }

    /// How many events there are.
    pub fn len(&self) -> usize
        ensures { result ≡ length self.now }
    {
        self.steps.len()
    }

    /// The event at that place, from 0, in memory of its own.
    pub fn event(&self, alloc: Global, at: usize) -> Result<Event, NoMemory>
        requires { at < length self.now }
        ensures { IfOk result (λ event. slice_get self.now at ≡ Some event) }
    {
        whole_event(alloc, self.end, self.steps[at])
    }
}

/// What a step says, where this is how the book was sealed.
fn whole_event(alloc: Global, end: Option<&End>, step: Step) -> Result<Event, NoMemory>
    ensures { IfOk result (λ event. event ≡ event_of (option_copied end.entry) step) }
{
    Ok(match step {
        Step::Put(number) => Event::Put(number),
        Step::Claim(worker, number) => Event::Claim(worker, number),
        Step::Answer(worker, number, verdict) => Event::Answer(worker, number, verdict),
        Step::Seal => Event::Seal(copy_end(alloc, end)?),
    })
}

/// The end of a sealed history in memory of its own.
fn copy_end(alloc: Global, end: Option<&End>) -> Result<End, NoMemory>
    ensures { IfOk result (λ copy. copy ≡ sealed_with (option_copied end.entry)) }
{
    match end {
        Some(end) => end.copy(alloc),
        None => Ok(End::Whole),
    }
}
