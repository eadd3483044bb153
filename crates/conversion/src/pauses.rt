//! Selections that wait for the weak head form of a term: how they go on with it, up to the next one or to an answer. What a
//! selection asks to be compared or to be brought to its normal form waits here too, in memory.
ghost use Rattle.std.specs.Prelude.{◌≡◌, ◌≤◌, ◌<◌, ◌+◌, [], Some, IfOk, OnOk, length};
ghost use Rattle.shared_term.specs.Pools.{term, Extends};
ghost use Rattle.signature_log.specs.Versions.{entries_of};
ghost use Rattle.conversion.specs.Machine.{AreWithin};
ghost use Rattle.conversion.specs.Reducers.{Serves};
ghost use Rattle.conversion.specs.Pending.{IsLook, IsUnderWay, look_due, look_made, look_rank};
ghost use Rattle.conversion.specs.Waiting.{IsNext, IsResumed, resumed, next_due, next_rank};
ghost use Rattle.conversion.specs.Pausing.{answered, awaited, IsWaiter, IsPause, IsAwaited, TakesAlike, TakesNormal};
ghost use Rattle.conversion.specs.Turning.{turn_rank};
ghost use Rattle.conversion.specs.Clauses.{TurnsCompared, TurnsNormal, TurnsTold};

use crate::PoolReducer;
use crate::compare::{Compared, Look, OpenPair, Step, pair_parts};
use crate::normal::{Frame, Next, Normalised, OpenPart, part_parts};
use crate::selection::{Selection, told};
use crate::turn::Turn;
use dk_model::Stop;
use rule_match::{Answer, Matcher};
use shared_term::TermId;
use signature_log::Version;
use std::alloc::Global;
use std::mem;

/// What a selection waits for, by way of weak head forms.
#[derive(Drop)]
pub(crate) enum Purpose {
    /// The weak head form of its column.
    Column,
    /// Whether two terms are alike: of the pair that is compared the first weak head form, or the second one, where the first is
    /// there.
    Compares(Vec<Step>, OpenPair, Option<TermId>),
    /// A normal form: the weak head form of a part.
    Normalises(Vec<Frame>, OpenPart),
}

/// A selection that asked for something, with the arguments of its symbol.
#[derive(Drop)]
pub(crate) struct Waiter<'v> {
    pub(crate) symbol: u32,
    pub(crate) matcher: Matcher<'v>,
    /// The first one on top.
    pub(crate) stack: Vec<TermId>,
}

/// A selection that waits for the weak head form of a term.
#[derive(Drop)]
pub(crate) struct Pause<'v> {
    pub(crate) waiter: Waiter<'v>,
    pub(crate) purpose: Purpose,
    pub(crate) asked: TermId,
    /// The units that there were when it was asked for.
    pub(crate) start: u64,
}

/// A selection that takes the arguments with it.
pub(crate) fn with_arguments<'v>(
    alloc: Global,
    symbol: u32,
    matcher: Matcher<'v>,
    stack: &mut Vec<TermId>,
) -> Waiter<'v>
    ensures waits { result
        ≡ record { symbol = symbol; matcher = matcher.entry; stack = stack.old } }
    ensures empty { stack.new.items ≡ [] }
{
    Waiter {
        symbol,
        matcher,
        stack: mem::replace(stack, Vec::new(alloc)),
    }
}

impl<'v> Waiter<'v> {
    /// The selection with its answer. It puts the arguments back.
    fn goes(self, answer: Answer, stack: &mut Vec<TermId>) -> Selection<'v>
        ensures goes { result ≡ answered self.entry answer }
        ensures stack { stack.new ≡ self.entry.stack }
    {
        *stack = self.stack;
        Selection {
            symbol: self.symbol,
            matcher: self.matcher,
            answer,
        }
    }
}

impl PoolReducer {
    /// A selection that asked whether two terms are alike, with its answer or up to the next weak head form.
    #[tactic(auto, using(crate::proofs::Winding::extends_none, crate::proofs::Winding::extends_more, shared_term::proofs::Winding::within_grown))]
    pub(crate) fn compare_for<'v>(
        &mut self,
        version: &Version,
        waiter: Waiter<'v>,
        look: Look,
        work: Vec<Step>,
        stack: &mut Vec<TermId>,
        left: &mut u64,
    ) -> Result<Turn<'v>, Stop>
        requires waiter { IsWaiter (entries_of version.now) (length self.old.pool) waiter }
        requires fits { TakesAlike waiter.matcher }
        requires look { IsLook (length self.old.pool) look }
        requires open { IsUnderWay (entries_of version.now) self.old.pool
            (look_due (entries_of version.now) self.old.pool look left.old work.items)
            (look_made (entries_of version.now) self.old.pool look left.old) left.old work.items }
        requires stack { stack.old.items ≡ [] }
        requires serves { Serves (entries_of version.now) self.old }
        ensures gives { TurnsCompared version.now self.old waiter.entry look work left.old result
            self.new stack.new left.new }
        ensures stack { OnOk result (AreWithin (length self.new.pool) stack.new.items) }
        ensures keeps { Extends self.old.pool self.new.pool }
        ensures serves { Serves (entries_of version.now) self.new }
        ensures spent { left.new ≤ left.old }
        ensures turned { IfOk result (λ turn.
            left.new + turn_rank turn ≤ left.old + look_rank look) }
    {
        let mut work = work;
        let mut look = look;
        loop {
            match self.compare_on(version, look, &mut work, left)? {
                Compared::Told(alike) => {
                    return Ok(Turn::Selects(waiter.goes(told(alike), stack)));
                }
                Compared::Asks(pair) => match self.recalled(version, pair.first, left)? {
                    None => {
                        return Ok(Turn::Asks(Pause {
                            waiter,
                            purpose: Purpose::Compares(work, pair, None),
                            asked: pair.first,
                            start: *left,
                        }));
                    }
                    Some(first) => match self.recalled(version, pair.second, left)? {
                        None => {
                            return Ok(Turn::Asks(Pause {
                                waiter,
                                purpose: Purpose::Compares(work, pair, Some(first)),
                                asked: pair.second,
                                start: *left,
                            }));
                        }
                        Some(second) => {
                            let alike = pair_parts(&self.pool, pair, first, second, &mut work)?;
                            look = Look::Behind(alike);
                        }
                    },
                },
            }
        }
    }

    /// A selection that asked for a normal form, with its answer or up to the next weak head form.
    #[tactic(auto, using(crate::proofs::Winding::extends_none, crate::proofs::Winding::extends_more, shared_term::proofs::Winding::within_grown))]
    pub(crate) fn normalise_for<'v>(
        &mut self,
        version: &Version,
        waiter: Waiter<'v>,
        next: Next,
        frames: Vec<Frame>,
        stack: &mut Vec<TermId>,
        left: &mut u64,
    ) -> Result<Turn<'v>, Stop>
        requires waiter { IsWaiter (entries_of version.now) (length self.old.pool) waiter }
        requires fits { TakesNormal waiter.matcher }
        requires next { IsNext (length self.old.pool) next }
        requires way { IsResumed (entries_of version.now) self.old.pool
            (resumed (entries_of version.now) self.old.pool frames.items
            (next_due (entries_of version.now) self.old.pool next left.old))
            (next_due (entries_of version.now) self.old.pool next left.old) left.old frames.items }
        requires stack { stack.old.items ≡ [] }
        requires serves { Serves (entries_of version.now) self.old }
        ensures gives { TurnsNormal version.now self.old waiter.entry next frames left.old result
            self.new stack.new left.new }
        ensures stack { OnOk result (AreWithin (length self.new.pool) stack.new.items) }
        ensures keeps { Extends self.old.pool self.new.pool }
        ensures serves { Serves (entries_of version.now) self.new }
        ensures spent { left.new ≤ left.old }
        ensures turned { IfOk result (λ turn.
            left.new + turn_rank turn ≤ left.old + next_rank next) }
    {
        let mut frames = frames;
        let mut next = next;
        loop {
            match self.normalise_on(version, next, &mut frames, left)? {
                Normalised::Told(normal) => {
                    return Ok(Turn::Selects(waiter.goes(Answer::Normal(normal), stack)));
                }
                Normalised::Asks(opened) => match self.recalled(version, opened.part, left)? {
                    None => {
                        return Ok(Turn::Asks(Pause {
                            waiter,
                            purpose: Purpose::Normalises(frames, opened),
                            asked: opened.part,
                            start: *left,
                        }));
                    }
                    Some(value) => next = part_parts(&self.pool, opened, value, &mut frames)?,
                },
            }
        }
    }

    /// A selection that waited, with the weak head form that it waited for.
    #[tactic(auto, using(crate::proofs::Winding::extends_none, crate::proofs::Winding::extends_more, shared_term::proofs::Winding::within_grown))]
    pub(crate) fn told<'v>(
        &mut self,
        version: &Version,
        pause: Pause<'v>,
        value: TermId,
        stack: &mut Vec<TermId>,
        left: &mut u64,
    ) -> Result<Turn<'v>, Stop>
        requires pause { IsPause (entries_of version.now) (length self.old.pool) pause }
        requires waits { IsAwaited (entries_of version.now) self.old.pool pause }
        requires told { awaited (entries_of version.now) self.old.pool pause
            ≡ Some (term self.old.pool value, left.old) }
        requires value { value.0 < length self.old.pool }
        requires serves { Serves (entries_of version.now) self.old }
        ensures gives { TurnsTold version.now self.old pause.entry result self.new stack.new
            left.new }
        ensures stack { OnOk result (AreWithin (length self.new.pool) stack.new.items) }
        ensures keeps { Extends self.old.pool self.new.pool }
        ensures serves { Serves (entries_of version.now) self.new }
        ensures spent { left.new ≤ left.old }
        ensures turned { IfOk result (λ turn. left.new + turn_rank turn ≤ left.old + 1) }
    {
        stack.clear();
        let waiter = pause.waiter;
        match pause.purpose {
            Purpose::Column => Ok(Turn::Selects(waiter.goes(Answer::Value(value), stack))),
            Purpose::Compares(work, pair, first) => match first {
                None => Ok(Turn::Asks(Pause {
                    waiter,
                    purpose: Purpose::Compares(work, pair, Some(value)),
                    asked: pair.second,
                    start: *left,
                })),
                Some(first) => {
                    let mut work = work;
                    let alike = pair_parts(&self.pool, pair, first, value, &mut work)?;
                    self.compare_for(version, waiter, Look::Behind(alike), work, stack, left)
                }
            },
            Purpose::Normalises(frames, opened) => {
                let mut frames = frames;
                let next = part_parts(&self.pool, opened, value, &mut frames)?;
                self.normalise_for(version, waiter, next, frames, stack, left)
            }
        }
    }
}
