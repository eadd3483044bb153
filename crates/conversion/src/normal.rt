//! The normal form, by a stack of what waits for the normal form of a part.
ghost use Rattle.std.specs.Prelude.{◌≡◌, ◌≤◌, ◌<◌, ◌+◌, [], ◌∷◌, ◌++◌, length, OnOk, IfOk};
ghost use Rattle.dk_model.specs.Evaluation.{normal_of};
ghost use Rattle.shared_term.specs.Pools.{term, Extends};
ghost use Rattle.signature_log.specs.Versions.{entries_of};
ghost use Rattle.conversion.specs.Clauses.{Normalises};
ghost use Rattle.conversion.specs.Reducers.{Serves};
ghost use Rattle.conversion.specs.Waiting.{resumed, value_due, IsNext, IsResumed, next_due, next_rank, MeetsPart, GivesNormal, TakesValueApart, asks_rank};
ghost use Rattle.conversion.specs.declared.normal.Frame.TheVariants.{Conclude};

use crate::PoolReducer;
use crate::state::Value;
use dk_model::{NoMemory, NodeOf, Stop};
use shared_term::{Pool, TermId};
use signature_log::Version;

/// What waits for the normal form of a part.
#[derive(Clone, Copy)]
pub(crate) enum Frame {
    /// An application of the part, whose argument this is and comes next.
    Argument(TermId),
    /// An application to the part, whose function this is, already normal.
    Function(TermId),
    /// An abstraction without annotation, whose body the part is.
    Body,
    /// An abstraction with the part as its annotation, whose body this is and comes next.
    Annotation(TermId),
    /// An abstraction with the part as its body, whose annotation this is, already normal.
    Annotated(TermId),
    /// A product with the part as its domain, whose codomain this is and comes next.
    Domain(TermId),
    /// A product with the part as its codomain, whose domain this is, already normal.
    Codomain(TermId),
    /// A term that has the normal form of the part. There were so many units before.
    Conclude(TermId, u64),
}

/// What a normal form goes on with.
#[derive(Clone, Copy)]
pub(crate) enum Next {
    /// A part that comes first.
    Part(TermId),
    /// A part that is normal.
    Head(TermId),
}

/// A part whose weak head form is taken apart.
#[derive(Clone, Copy)]
pub(crate) struct OpenPart {
    pub(crate) part: TermId,
    /// The units that there were before.
    pub(crate) before: u64,
}

/// What a normal form comes to, or waits for.
#[derive(Clone, Copy)]
pub(crate) enum Normalised {
    Told(TermId),
    /// The weak head form of a part.
    Asks(OpenPart),
}

impl PoolReducer {
    /// The normal form. Each part takes a unit, and its weak head form those that it takes.
    ///
    /// `Ended` comes only where they don't suffice, and leaves none. The normal form of each part is remembered.
    #[tactic(auto, using(crate::proofs::Winding::extends_none, crate::proofs::Winding::extends_more))]
    pub(crate) fn normalise(
        &mut self,
        version: &Version,
        whole: TermId,
        left: &mut u64,
    ) -> Result<TermId, Stop>
        requires whole { whole.0 < length self.old.pool }
        requires serves { Serves (entries_of version.now) self.old }
        ensures gives { Normalises version.now self.old whole left.old result self.new left.new }
        ensures keeps { Extends self.old.pool self.new.pool }
        ensures serves { Serves (entries_of version.now) self.new }
        ensures spent { left.new ≤ left.old }
    {
        let mut frames = Vec::new(self.alloc);
        let mut next = Next::Part(whole);
        loop {
            match self.normalise_on(version, next, &mut frames, left)? {
                Normalised::Told(value) => return Ok(value),
                Normalised::Asks(opened) => {
                    let value = self.evaluate(version, opened.part, left)?;
                    next = part_parts(&self.pool, opened, value, &mut frames)?;
                }
            }
        }
    }

    /// Goes on with a normal form, up to the weak head form that it asks for.
    #[tactic(auto, using(crate::proofs::Winding::extends_none, crate::proofs::Winding::extends_more))]
    pub(crate) fn normalise_on(
        &mut self,
        version: &Version,
        next: Next,
        frames: &mut Vec<Frame>,
        left: &mut u64,
    ) -> Result<Normalised, Stop>
        requires next { IsNext (length self.old.pool) next }
        requires way { IsResumed (entries_of version.now) self.old.pool
            (resumed (entries_of version.now) self.old.pool frames.old.items
            (next_due (entries_of version.now) self.old.pool next left.old))
            (next_due (entries_of version.now) self.old.pool next left.old) left.old
            frames.old.items }
        requires serves { Serves (entries_of version.now) self.old }
        ensures gives { GivesNormal (entries_of version.now)
            (resumed (entries_of version.now) self.old.pool frames.old.items
            (next_due (entries_of version.now) self.old.pool next left.old)) self.new.pool result
            frames.new.items left.new }
        ensures keeps { Extends self.old.pool self.new.pool }
        ensures serves { Serves (entries_of version.now) self.new }
        ensures spent { left.new ≤ left.old }
        ensures turned { OnOk result (left.new < left.old + next_rank next) }
        ensures asked { IfOk result (λ r. left.new + asks_rank r ≤ left.old) }
    {
        let mut next = next;
        loop {
            match next {
                Next::Part(part) => {
                    let before = *left;
                    match self.meet_part(version, part, left)? {
                        Some(value) => next = Next::Head(value),
                        None => return Ok(Normalised::Asks(OpenPart { part, before })),
                    }
                }
                Next::Head(value) => match frames.pop() {
                    None => return Ok(Normalised::Told(value)),
                    Some(frame) => next = self.resume(version, frame, value, frames, *left)?,
                },
            }
        }
    }

    /// The normal form of a part, where it is remembered. It takes a unit at least.
    fn meet_part(
        &mut self,
        version: &Version,
        part: TermId,
        left: &mut u64,
    ) -> Result<Option<TermId>, Stop>
        requires part { part.0 < length self.old.pool }
        requires serves { Serves (entries_of version.now) self.old }
        ensures gives { MeetsPart (entries_of version.now) self.old.pool part left.old result
            left.new }
        ensures same { self.new ≡ self.old }
        ensures spent { left.new ≤ left.old }
        ensures turned { OnOk result (left.new < left.old) }
    {
        let _version = version;
        if *left == 0 {
            return Err(Stop::Ended);
        }
        match self.normals.find(part.number(), 0) {
            Some(found) => {
                if *left < found.units {
                    *left = 0;
                    return Err(Stop::Ended);
                }
                *left -= found.units;
                Ok(Some(found.id))
            }
            None => {
                *left -= 1;
                Ok(None)
            }
        }
    }

    /// Goes on with the normal form of a part.
    fn resume(
        &mut self,
        version: &Version,
        frame: Frame,
        value: TermId,
        frames: &mut Vec<Frame>,
        left: u64,
    ) -> Result<Next, NoMemory>
        requires value { value.0 < length self.old.pool }
        requires way { IsResumed (entries_of version.now) self.old.pool
            (resumed (entries_of version.now) self.old.pool (frames.old.items ++ frame ∷ [])
            (value_due self.old.pool value left))
            (value_due self.old.pool value left) left (frames.old.items ++ frame ∷ []) }
        requires serves { Serves (entries_of version.now) self.old }
        ensures gives { IfOk result (λ next. IsNext (length self.new.pool) next) }
        ensures way { IfOk result (λ next. IsResumed (entries_of version.now) self.new.pool
            (resumed (entries_of version.now) self.old.pool (frames.old.items ++ frame ∷ [])
            (value_due self.old.pool value left))
            (next_due (entries_of version.now) self.new.pool next left) left frames.new.items) }
        ensures keeps { Extends self.old.pool self.new.pool }
        ensures serves { Serves (entries_of version.now) self.new }
        ensures ranked { IfOk result (λ next.
            length frames.new.items + next_rank next ≤ length frames.old.items + 1) }
    {
        match frame {
            Frame::Argument(argument) => {
                push_frame(frames, Frame::Function(value))?;
                Ok(Next::Part(argument))
            }
            Frame::Function(function) => {
                let whole = self.pool.intern(NodeOf::App(function, value))?;
                Ok(Next::Head(whole))
            }
            Frame::Body => {
                let whole = self.pool.intern(NodeOf::Abs(None, value))?;
                Ok(Next::Head(whole))
            }
            Frame::Annotation(body) => {
                push_frame(frames, Frame::Annotated(value))?;
                Ok(Next::Part(body))
            }
            Frame::Annotated(annotation) => {
                let whole = self.pool.intern(NodeOf::Abs(Some(annotation), value))?;
                Ok(Next::Head(whole))
            }
            Frame::Domain(codomain) => {
                push_frame(frames, Frame::Codomain(value))?;
                Ok(Next::Part(codomain))
            }
            Frame::Codomain(domain) => {
                let whole = self.pool.intern(NodeOf::Prod(domain, value))?;
                Ok(Next::Head(whole))
            }
            Frame::Conclude(whole, before) => {
                let units = before - left;
                self.normals
                    .put(whole.number(), 0, Value { id: value, units });
                Ok(Next::Head(value))
            }
        }
    }
}

/// A weak head form of a part is taken apart, on what is to be concluded of the part.
pub(crate) fn part_parts(
    pool: &Pool,
    opened: OpenPart,
    value: TermId,
    frames: &mut Vec<Frame>,
) -> Result<Next, NoMemory>
    requires { value.0 < length pool.now }
    ensures { IfOk result (λ next. TakesValueApart pool.now (term pool.now value)
        (frames.old.items ++ Conclude opened.part opened.before ∷ []) next frames.new.items) }
{
    push_frame(frames, Frame::Conclude(opened.part, opened.before))?;
    take_apart(pool, value, frames)
}

/// Lets a frame wait.
fn push_frame(frames: &mut Vec<Frame>, frame: Frame) -> Result<(), NoMemory>
    ensures { OnOk result (frames.new.items ≡ frames.old.items ++ frame ∷ []) }
{
    frames.push(frame)?;
    Ok(())
}

/// Takes a weak head form apart: what waits for its first part goes onto the stack.
#[tactic(auto, using(crate::proofs::Waiting::apart_argument, crate::proofs::Waiting::apart_body, crate::proofs::Waiting::apart_annotation, crate::proofs::Waiting::apart_domain, crate::proofs::Waiting::apart_head))]
fn take_apart(pool: &Pool, value: TermId, frames: &mut Vec<Frame>) -> Result<Next, NoMemory>
    requires { value.0 < length pool.now }
    ensures { IfOk result
        (λ next. TakesValueApart pool.now (term pool.now value) frames.old.items next
        frames.new.items) }
{
    let mut head = value;
    loop {
        match pool.get(head) {
            NodeOf::App(function, argument) => {
                frames.push(Frame::Argument(argument))?;
                head = function;
            }
            NodeOf::Abs(None, body) => {
                frames.push(Frame::Body)?;
                return Ok(Next::Part(body));
            }
            NodeOf::Abs(Some(annotation), body) => {
                frames.push(Frame::Annotation(body))?;
                return Ok(Next::Part(annotation));
            }
            NodeOf::Prod(domain, codomain) => {
                frames.push(Frame::Domain(codomain))?;
                return Ok(Next::Part(domain));
            }
            NodeOf::Star => return Ok(Next::Head(head)),
            NodeOf::Kind => return Ok(Next::Head(head)),
            NodeOf::Sym(_) => return Ok(Next::Head(head)),
            NodeOf::Var(_) => return Ok(Next::Head(head)),
            NodeOf::Rvar(_) => return Ok(Next::Head(head)),
        }
    }
}
