//! The weak head form, by turns over a term, a stack of arguments and a stack of selections that wait for a value.
ghost use Rattle.std.specs.Prelude.{◌≡◌, ◌+◌, ◌*◌, ◌≤◌, ◌<◌, ◌∷◌, ◌++◌, [], IfOk, OnOk, length};
ghost use Rattle.shared_term.specs.Pools.{Extends};
ghost use Rattle.signature_log.specs.Versions.{entries_of};
ghost use Rattle.conversion.specs.Machine.{AreWithin};
ghost use Rattle.conversion.specs.Reducers.{Serves};
ghost use Rattle.conversion.specs.Trees.{AreInUse};
ghost use Rattle.conversion.specs.Courses.{IsCourse, IsReached, Begins};
ghost use Rattle.conversion.specs.Pausing.{IsPause, ArePauses};
ghost use Rattle.conversion.specs.Turning.{IsDue, IsNext, next_rank, told_rank, next_weight, turn_rank};
ghost use Rattle.conversion.specs.Clauses.{Evaluates, Completes, TurnsOn, Turns, LetsWait};
ghost use Rattle.dk_model.specs.Trees.{Tree};
ghost use Rattle.dk_model.specs.Units.{Units};

use crate::PoolReducer;
use crate::machine::wind;
use crate::pauses::Pause;
use crate::selection::{Selection, selection_before};
use crate::state::Value;
use crate::trees::{Trees, TreesInUse};
use crate::turn::Turn;
use dk_model::{NoMemory, Stop};
use shared_term::{TermId, unwind};
use signature_log::Version;
use std::mem;

/// What is done next over a stack of arguments.
#[derive(Drop)]
pub(crate) enum Next<'v> {
    /// A turn of this term.
    Whole(TermId),
    /// A selection, to go on.
    Goes(Selection<'v>),
    /// A selection that waited for this weak head form.
    Told(Pause<'v>, TermId),
}

/// An evaluation under way.
#[derive(Drop)]
pub(crate) struct Course<'v> {
    /// The last one waits for what is done next, each other one for what the one behind it gives.
    pub(crate) pauses: Vec<Pause<'v>>,
    /// The arguments, the first one on top.
    pub(crate) stack: Vec<TermId>,
    pub(crate) next: Next<'v>,
}

/// How far an evaluation came.
#[derive(Drop)]
pub(crate) enum Reached<'v> {
    /// To the weak head form.
    Value(TermId),
    /// To a symbol before the arguments of a stack, which is to have a tree before a selection from its rules begins.
    Wants(u32, Vec<Pause<'v>>, Vec<TermId>),
}

impl PoolReducer {
    /// The weak head form of a term.
    ///
    /// `left` has the units that may be spent, and then those that are left. Each turn takes one: a contraction, a rule of
    /// the head symbol, or the end. `Ended` comes only where they don't suffice, and leaves none. A form that was found
    /// before takes what it took then.
    #[tactic(auto, using(crate::proofs::Winding::extends_none, crate::proofs::Winding::extends_more, crate::proofs::Serving::loaded_grown, crate::proofs::Serving::heads_grown, crate::proofs::Serving::values_grown, crate::proofs::Serving::normals_grown, crate::proofs::Serving::answers_grown))]
    pub(crate) fn evaluate(
        &mut self,
        version: &Version,
        whole: TermId,
        left: &mut u64,
    ) -> Result<TermId, Stop>
        requires whole { whole.0 < length self.old.pool }
        requires serves { Serves (entries_of version.now) self.old }
        ensures gives { Evaluates version.now self.old whole left.old result self.new left.new }
        ensures keeps { Extends self.old.pool self.new.pool }
        ensures serves { Serves (entries_of version.now) self.new }
        ensures spent { left.new ≤ left.old }
    {
        if let Some(found) = self.known(version, whole) {
            if *left < found.units {
                *left = 0;
                return Err(Stop::Ended);
            }
            *left -= found.units;
            return Ok(found.id);
        }
        let before = *left;
        let id = self.evaluated(version, whole, left)?;
        let units = before - *left;
        self.values.put(whole.number(), 0, Value { id, units });
        Ok(id)
    }

    /// The same, of a term whose form isn't remembered. The reducer's trees are taken out of it meanwhile, since selections
    /// that wait borrow them; those that were compiled come to them.
    #[tactic(auto, using(crate::proofs::Winding::extends_none))]
    fn evaluated(
        &mut self,
        version: &Version,
        whole: TermId,
        left: &mut u64,
    ) -> Result<TermId, Stop>
        requires whole { whole.0 < length self.old.pool }
        requires serves { Serves (entries_of version.now) self.old }
        ensures gives { Evaluates version.now self.old whole left.old result self.new left.new }
        ensures keeps { Extends self.old.pool self.new.pool }
        ensures serves { Serves (entries_of version.now) self.new }
        ensures spent { left.new ≤ left.old }
    {
        let course = Course {
            pauses: Vec::new(self.alloc),
            stack: Vec::new(self.alloc),
            next: Next::Whole(whole),
        };
        let kept = mem::replace(&mut self.trees, Trees::new(self.alloc));
        let found = self.complete(version, TreesInUse::of(self.alloc, &kept), course, left);
        let compiled = mem::replace(&mut self.trees, kept);
        self.trees.put_all(compiled);
        found
    }

    /// An evaluation to its end, from where it is. Where a symbol is to have a tree, that is compiled in the middle, and the
    /// evaluation goes on from there with one tree more.
    #[tactic(auto, using(crate::proofs::Winding::extends_none, crate::proofs::Winding::extends_more))]
    fn complete<'v>(
        &mut self,
        version: &'v Version,
        trees: TreesInUse<'v>,
        course: Course<'v>,
        left: &mut u64,
    ) -> Result<TermId, Stop>
        requires course { IsCourse (entries_of version.now) self.old.pool course left.old }
        requires trees { AreInUse (entries_of version.now) trees }
        requires serves { Serves (entries_of version.now) self.old }
        ensures gives { Completes version.now self.old course.entry left.old result self.new
            left.new }
        ensures keeps { Extends self.old.pool self.new.pool }
        ensures serves { Serves (entries_of version.now) self.new }
        ensures spent { left.new ≤ left.old }
    {
        match self.turns(version, &trees, course, left)? {
            Reached::Value(value) => Ok(value),
            Reached::Wants(symbol, pauses, stack) => {
                let Some(tree) = version.rules_of(symbol).tree(self.alloc)? else {
                    unreachable!()
                };
                let more = trees.with(symbol, &tree)?;
                let selection = self.begins(version, &more, symbol, stack.as_slice())?;
                let course = Course {
                    pauses,
                    stack,
                    next: Next::Goes(selection),
                };
                let found = self.complete(version, more, course, left);
                let _kept = self.trees.put(symbol, tree);
                found
            }
        }
    }

    /// The turns of an evaluation, up to its end or to a symbol that is to have a tree.
    #[tactic(auto, using(crate::proofs::Winding::extends_none, crate::proofs::Winding::extends_more, crate::proofs::Serving::loaded_grown, crate::proofs::Serving::heads_grown, crate::proofs::Serving::values_grown, crate::proofs::Serving::normals_grown, crate::proofs::Serving::answers_grown, shared_term::proofs::Winding::within_grown, crate::proofs::Pausing::pauses_grown, crate::proofs::Pausing::pauses_pushed, crate::proofs::Pausing::pauses_popped, crate::proofs::Pausing::popped_pause, crate::proofs::Pausing::awaits_none))]
    fn turns<'v>(
        &mut self,
        version: &'v Version,
        trees: &TreesInUse<'v>,
        course: Course<'v>,
        left: &mut u64,
    ) -> Result<Reached<'v>, Stop>
        requires course { IsCourse (entries_of version.now) self.old.pool course left.old }
        requires trees { AreInUse (entries_of version.now) trees.now }
        requires serves { Serves (entries_of version.now) self.old }
        ensures gives { TurnsOn version.now self.old course.entry left.old result self.new
            left.new }
        ensures reached { IfOk result (IsReached (entries_of version.now) (length self.new.pool)
            trees.now.room) }
        ensures keeps { Extends self.old.pool self.new.pool }
        ensures serves { Serves (entries_of version.now) self.new }
        ensures spent { left.new ≤ left.old }
    {
        let mut pauses = course.pauses;
        let mut stack = course.stack;
        let mut next = course.next;
        loop {
            match self.turn(version, next, &mut stack, left)? {
                Turn::Goes(term) => next = Next::Whole(term),
                Turn::Begins(symbol) => {
                    if self
                        .walks
                        .wants_tree(&version.rules_of(symbol), trees, symbol)
                    {
                        return Ok(Reached::Wants(symbol, pauses, stack));
                    }
                    let selection = self.begins(version, trees, symbol, stack.as_slice())?;
                    next = Next::Goes(selection);
                }
                Turn::Selects(selection) => next = Next::Goes(selection),
                Turn::Asks(pause) => next = self.wait(version, pause, &mut pauses, left)?,
                Turn::Stands(head) => {
                    let value = wind(&mut self.pool, head, stack)?;
                    stack = Vec::new(self.alloc);
                    match pauses.pop() {
                        None => return Ok(Reached::Value(value)),
                        Some(pause) => {
                            let units = pause.start - *left;
                            let key = pause.asked.number();
                            self.values.put(key, 0, Value { id: value, units });
                            next = Next::Told(pause, value);
                        }
                    }
                }
            }
        }
    }

    /// The selection for a symbol at its start.
    #[tactic(auto, using(crate::proofs::Turning::symbol_selects_from, crate::proofs::Turning::selection_within))]
    fn begins<'v>(
        &self,
        version: &'v Version,
        trees: &TreesInUse<'v>,
        symbol: u32,
        stack: &[TermId],
    ) -> Result<Selection<'v>, NoMemory>
        requires stack { AreWithin (length self.now.pool) stack.now }
        requires trees { AreInUse (entries_of version.now) trees.now }
        ensures { IfOk result (Begins (entries_of version.now) self.now.pool symbol stack.now) }
    {
        let rules = version.rules_of(symbol);
        selection_before(self.alloc, &rules, trees.find(symbol), symbol, stack)
    }

    /// A selection that asks for a weak head form waits, unless that is remembered.
    fn wait<'v>(
        &self,
        version: &Version,
        pause: Pause<'v>,
        pauses: &mut Vec<Pause<'v>>,
        left: &mut u64,
    ) -> Result<Next<'v>, Stop>
        requires pause { IsPause (entries_of version.now) (length self.now.pool) pause }
        requires start { pause.start ≡ left.old }
        requires pauses { ArePauses (entries_of version.now) (length self.now.pool)
            pauses.old.items }
        requires serves { Serves (entries_of version.now) self.now }
        ensures gives { LetsWait version.now self.now pause.entry pauses.old result pauses.new
            left.new }
        ensures next { IfOk result (IsNext (entries_of version.now) (length self.now.pool)) }
        ensures pauses { OnOk result (ArePauses (entries_of version.now) (length self.now.pool)
            pauses.new.items) }
        ensures spent { left.new ≤ left.old }
        ensures less { IfOk result (λ next.
            8 * left.new + (2 * length pauses.new.items + next_weight next)
            ≤ 8 * left.old + (2 * length pauses.old.items + 2)) }
    {
        match self.known(version, pause.asked) {
            Some(found) => {
                if *left < found.units {
                    *left = 0;
                    return Err(Stop::Ended);
                }
                *left -= found.units;
                Ok(Next::Told(pause, found.id))
            }
            None => {
                let asked = pause.asked;
                push_pause(pauses, pause)?;
                Ok(Next::Whole(asked))
            }
        }
    }

    /// A turn of a term, or a selection for a symbol, whose turn took its unit already, up to its next answer.
    #[tactic(auto, using(crate::proofs::Winding::extends_none, crate::proofs::Winding::extends_more, crate::proofs::Serving::loaded_grown, crate::proofs::Serving::heads_grown, crate::proofs::Serving::values_grown, crate::proofs::Serving::normals_grown, crate::proofs::Serving::answers_grown))]
    fn turn<'v>(
        &mut self,
        version: &'v Version,
        next: Next<'v>,
        stack: &mut Vec<TermId>,
        left: &mut u64,
    ) -> Result<Turn<'v>, Stop>
        requires next { IsNext (entries_of version.now) (length self.old.pool) next }
        requires due { (due : Units Tree) × IsDue (entries_of version.now) self.old.pool next
            stack.old.items left.old due }
        requires stack { AreWithin (length self.old.pool) stack.old.items }
        requires serves { Serves (entries_of version.now) self.old }
        ensures gives { Turns version.now self.old next.entry stack.old left.old result self.new
            stack.new left.new }
        ensures stack { OnOk result (AreWithin (length self.new.pool) stack.new.items) }
        ensures keeps { Extends self.old.pool self.new.pool }
        ensures serves { Serves (entries_of version.now) self.new }
        ensures spent { left.new ≤ left.old }
        ensures turned { OnOk result (left.new < left.old + next_rank next.entry) }
        ensures selects { IfOk result (λ turn.
            left.new + turn_rank turn ≤ left.old + told_rank next.entry) }
    {
        match next {
            Next::Whole(term) => {
                let head = unwind(&self.pool, term, stack)?;
                self.turn_head(version, head, stack, left)
            }
            Next::Goes(selection) => self.turn_selection(version, selection, stack, left),
            Next::Told(pause, value) => self.told(version, pause, value, stack, left),
        }
    }
}

/// Lets a selection wait.
fn push_pause<'v>(pauses: &mut Vec<Pause<'v>>, pause: Pause<'v>) -> Result<(), NoMemory>
    ensures { OnOk result (pauses.new.items ≡ pauses.old.items ++ pause.entry ∷ []) }
{
    pauses.push(pause)?;
    Ok(())
}
