//! A turn of the weak head form: a contraction, a body, a rule of the head symbol, or the end.
ghost use Rattle.std.specs.Prelude.{◌≡◌, ℕ, ◌+◌, ◌≤◌, ◌<◌, IfSome, IfOk, OnOk, false, length};
ghost use Rattle.dk_model.specs.Trees.{symbol as symbol_term};
ghost use Rattle.dk_model.specs.SymbolRules.{rules_of};
ghost use Rattle.shared_term.specs.Pools.{term, Extends};
ghost use Rattle.shared_term.specs.Changes.{AreCaptures};
ghost use Rattle.signature_log.specs.Rows.{row_rules};
ghost use Rattle.signature_log.specs.Versions.{entries_of};
ghost use Rattle.rule_match.specs.Rows.{rule_at};
ghost use Rattle.rule_match.specs.Selecting.{IsMatcher, Stands, TakesValue};
ghost use Rattle.rule_match.specs.Trees.{IsTree};
ghost use Rattle.conversion.specs.Machine.{AreWithin, is_application};
ghost use Rattle.conversion.specs.Pausing.{IsSelection, StartsOver};
ghost use Rattle.conversion.specs.Reducers.{Serves};
ghost use Rattle.conversion.specs.Turning.{turn_rank};
ghost use Rattle.conversion.specs.Clauses.{TurnsHead, TurnsSymbol, TurnsSelection, PutsRight, Normalises, Compares};

use crate::PoolReducer;
use crate::compare::Look;
use crate::normal::Next;
use crate::pauses::{Pause, Purpose, with_arguments};
use crate::putting::{Filling, put};
use crate::rules::rule_at;
use crate::selection::Selection;
use crate::state::Head;
use dk_model::{NoMemory, NodeOf, Stop};
use rule_match::{Answer, Ask};
use shared_term::TermId;
use signature_log::{Row, Version};

/// What a turn makes of a term before arguments.
#[derive(Drop)]
pub(crate) enum Turn<'v> {
    /// The next term in its place.
    Goes(TermId),
    /// The head, which takes no turn.
    Stands(TermId),
    /// A selection from the rules of the head symbol begins.
    Begins(u32),
    /// It goes on.
    Selects(Selection<'v>),
    /// A selection that waits for a value. It took the arguments with it.
    Asks(Pause<'v>),
}

impl PoolReducer {
    /// The turn of a head before the arguments of a stack. It takes a unit.
    #[tactic(auto, using(crate::proofs::Winding::extends_none, crate::proofs::Winding::extends_more, crate::proofs::Serving::loaded_grown, crate::proofs::Serving::heads_grown, crate::proofs::Serving::values_grown, crate::proofs::Serving::normals_grown, crate::proofs::Serving::answers_grown, shared_term::proofs::Winding::within_grown, crate::proofs::Winding::within_popped, crate::proofs::Winding::popped_within, crate::proofs::Turning::turn_out, crate::proofs::Turning::turn_contracts, crate::proofs::Turning::turn_bare, crate::proofs::Turning::turn_stuck))]
    pub(crate) fn turn_head<'v>(
        &mut self,
        version: &'v Version,
        head: TermId,
        stack: &mut Vec<TermId>,
        left: &mut u64,
    ) -> Result<Turn<'v>, Stop>
        requires head { head.0 < length self.old.pool }
        requires alone { is_application (term self.old.pool head) ≡ false }
        requires stack { AreWithin (length self.old.pool) stack.old.items }
        requires serves { Serves (entries_of version.now) self.old }
        ensures gives { TurnsHead version.now self.old head stack.old left.old result self.new
            stack.new left.new }
        ensures stack { OnOk result (AreWithin (length self.new.pool) stack.new.items) }
        ensures keeps { Extends self.old.pool self.new.pool }
        ensures serves { Serves (entries_of version.now) self.new }
        ensures spent { left.new ≤ left.old }
        ensures turned { OnOk result (left.new < left.old) }
    {
        if *left == 0 {
            return Err(Stop::Ended);
        }
        *left -= 1;
        match self.pool.get(head) {
            NodeOf::Abs(None, body) => match stack.pop() {
                Some(a) => {
                    let next = put(&mut self.pool, body, Filling::Argument(a), stack)?;
                    Ok(Turn::Goes(next))
                }
                None => Ok(Turn::Stands(head)),
            },
            NodeOf::Sym(k) => {
                let turn = self.turn_symbol(version, k, head, stack.as_slice())?;
                Ok(turn)
            }
            NodeOf::Star => Ok(Turn::Stands(head)),
            NodeOf::Kind => Ok(Turn::Stands(head)),
            NodeOf::Var(_) => Ok(Turn::Stands(head)),
            NodeOf::Rvar(_) => Ok(Turn::Stands(head)),
            NodeOf::Abs(Some(_), _) => Ok(Turn::Stands(head)),
            NodeOf::Prod(..) => Ok(Turn::Stands(head)),
            NodeOf::App(..) => unreachable!(),
        }
    }

    /// The turn of a symbol, whose unit is taken: its body, whatever rules stand behind it, or a selection from its rules.
    #[tactic(auto, using(crate::proofs::Winding::extends_none, crate::proofs::Winding::extends_more, crate::proofs::Serving::loaded_grown, crate::proofs::Serving::heads_grown, crate::proofs::Serving::values_grown, crate::proofs::Serving::normals_grown, crate::proofs::Serving::answers_grown, crate::proofs::Turning::symbol_stands))]
    fn turn_symbol<'v>(
        &mut self,
        version: &'v Version,
        symbol: u32,
        head: TermId,
        stack: &[TermId],
    ) -> Result<Turn<'v>, NoMemory>
        requires head { head.0 < length self.old.pool }
        requires symbol { term self.old.pool head ≡ symbol_term symbol }
        requires stack { AreWithin (length self.old.pool) stack.now }
        requires serves { Serves (entries_of version.now) self.old }
        ensures gives { IfOk result (TurnsSymbol version.now self.old symbol stack.now self.new) }
        ensures keeps { Extends self.old.pool self.new.pool }
        ensures serves { Serves (entries_of version.now) self.new }
    {
        match self.heads.find(symbol, 0) {
            Some(Head::Stands) => Ok(Turn::Stands(head)),
            Some(Head::Unfolds(body)) => Ok(Turn::Goes(body)),
            None => self.turn_by_rules(version, symbol, head, stack),
        }
    }

    /// The same by the rules of the version. What they do before any arguments is remembered.
    #[tactic(auto, using(crate::proofs::Winding::extends_none, crate::proofs::Winding::extends_more, crate::proofs::Serving::loaded_grown, crate::proofs::Serving::heads_grown, crate::proofs::Serving::values_grown, crate::proofs::Serving::normals_grown, crate::proofs::Serving::answers_grown, crate::proofs::Turning::symbol_stands))]
    fn turn_by_rules<'v>(
        &mut self,
        version: &'v Version,
        symbol: u32,
        head: TermId,
        stack: &[TermId],
    ) -> Result<Turn<'v>, NoMemory>
        requires head { head.0 < length self.old.pool }
        requires symbol { term self.old.pool head ≡ symbol_term symbol }
        requires stack { AreWithin (length self.old.pool) stack.now }
        requires serves { Serves (entries_of version.now) self.old }
        ensures gives { IfOk result (TurnsSymbol version.now self.old symbol stack.now self.new) }
        ensures keeps { Extends self.old.pool self.new.pool }
        ensures serves { Serves (entries_of version.now) self.new }
    {
        let rules = version.rules_of(symbol);
        match rules.at(0) {
            None => {
                self.heads.put(symbol, 0, Head::Stands);
                Ok(Turn::Stands(head))
            }
            Some(Row::Body(stored)) => {
                let body = self.pool.load(stored)?;
                self.heads.put(symbol, 0, Head::Unfolds(body));
                Ok(Turn::Goes(body))
            }
            Some(Row::Rule(_)) => Ok(Turn::Begins(symbol)),
        }
    }

    /// A selection with its answer, up to what it asks for next, over the arguments of a stack: the turn of its symbol
    /// where a rule is taken or none.
    #[tactic(auto, using(crate::proofs::Winding::extends_none, crate::proofs::Winding::extends_more, crate::proofs::Serving::loaded_grown, crate::proofs::Serving::heads_grown, crate::proofs::Serving::values_grown, crate::proofs::Serving::normals_grown, crate::proofs::Serving::answers_grown, shared_term::proofs::Winding::within_grown))]
    pub(crate) fn turn_selection<'v>(
        &mut self,
        version: &'v Version,
        selection: Selection<'v>,
        stack: &mut Vec<TermId>,
        left: &mut u64,
    ) -> Result<Turn<'v>, Stop>
        requires selection { IsSelection (entries_of version.now) (length self.old.pool) selection }
        requires stack { AreWithin (length self.old.pool) stack.old.items }
        requires serves { Serves (entries_of version.now) self.old }
        ensures gives { TurnsSelection version.now self.old selection.entry stack.old left.old
            result self.new stack.new left.new }
        ensures stack { OnOk result (AreWithin (length self.new.pool) stack.new.items) }
        ensures keeps { Extends self.old.pool self.new.pool }
        ensures serves { Serves (entries_of version.now) self.new }
        ensures spent { left.new ≤ left.old }
        ensures turned { IfOk result (λ turn. left.new + turn_rank turn ≤ left.old) }
    {
        let symbol = selection.symbol;
        let mut matcher = selection.matcher;
        let mut answer = selection.answer;
        loop {
            let ask = matcher.next(&mut self.pool, answer)?;
            match ask {
                Ask::Evaluate(column) => {
                    let asked = matcher.at(column);
                    match self.recalled(version, asked, left)? {
                        Some(value) => answer = Answer::Value(value),
                        None => {
                            let waiter = with_arguments(self.alloc, symbol, matcher, stack);
                            return Ok(Turn::Asks(Pause {
                                waiter,
                                purpose: Purpose::Column,
                                asked,
                                start: *left,
                            }));
                        }
                    }
                }
                Ask::Take(at, captures) => {
                    let next = self.put_right(version, symbol, at, captures.as_slice(), stack)?;
                    return Ok(Turn::Goes(next));
                }
                Ask::Nothing => {
                    let head = self.pool.intern(NodeOf::Sym(symbol))?;
                    return Ok(Turn::Stands(head));
                }
                Ask::Escape(part) => {
                    let waiter = with_arguments(self.alloc, symbol, matcher, stack);
                    let frames = Vec::new(self.alloc);
                    return self.normalise_for(
                        version,
                        waiter,
                        Next::Part(part),
                        frames,
                        stack,
                        left,
                    );
                }
                Ask::Same(first, second) => {
                    let waiter = with_arguments(self.alloc, symbol, matcher, stack);
                    let work = Vec::new(self.alloc);
                    let look = Look::At(first, second);
                    return self.compare_for(version, waiter, look, work, stack, left);
                }
            }
        }
    }

    /// The right side of a rule that was taken, in the place of the arguments of its patterns.
    #[tactic(auto, using(crate::proofs::Winding::extends_none, crate::proofs::Winding::extends_more, crate::proofs::Serving::loaded_grown, crate::proofs::Serving::heads_grown, crate::proofs::Serving::values_grown, crate::proofs::Serving::normals_grown, crate::proofs::Serving::answers_grown, shared_term::proofs::Winding::within_grown, crate::proofs::Winding::within_taken, rule_match::proofs::Growing::captures_within))]
    fn put_right(
        &mut self,
        version: &Version,
        symbol: u32,
        at: usize,
        captures: &[Option<TermId>],
        stack: &mut Vec<TermId>,
    ) -> Result<TermId, NoMemory>
        requires place { at < length (rules_of (entries_of version.now) symbol) }
        requires captures { AreCaptures (length self.old.pool) captures.now }
        requires stack { AreWithin (length self.old.pool) stack.old.items }
        requires serves { Serves (entries_of version.now) self.old }
        ensures puts { IfOk result (λ t. PutsRight self.old captures.now
            (rule_at (rules_of (entries_of version.now) symbol) at) stack.old self.new t
            stack.new) }
        ensures stack { AreWithin (length self.new.pool) stack.new.items }
        ensures keeps { Extends self.old.pool self.new.pool }
        ensures serves { Serves (entries_of version.now) self.new }
    {
        let Ok(at) = u32::try_from(at) else {
            return Err(NoMemory);
        };
        let rule = rule_at(&version.rules_of(symbol), symbol, at);
        let right = self.brought(version, symbol, at)?;
        let kept = stack.len().saturating_sub(rule.pattern_count());
        stack.truncate(kept);
        let next = put(&mut self.pool, right, Filling::Captures(captures), stack)?;
        Ok(next)
    }
}
