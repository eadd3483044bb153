//! The board and its calls.
ghost use Rattle.std.specs.Prelude.{◌≡◌, ◌⊎◌, ℕ, ◌+◌, ◌-◌, ◌^◌, ◌<◌, ◌≤◌, [], All, Any, length, map, IfOk, IfErr};
ghost use Rattle.std.specs.Arc.{arc_value};
ghost use Rattle.dk_model.specs.declared.code.Verdict.TheVariants.{Memory};
ghost use Rattle.board_core.specs.declared.event.Event.{Event};
ghost use Rattle.board_core.specs.Events.{end_of};
ghost use Rattle.board_core.specs.Machine.{IsFinished, IsLegal, MayEnd, MaySettle, marks_of};
ghost use Rattle.ticket_slot.specs.Views.{EachOnce, EndsIn, calls_by, ended_of};
ghost use Rattle.task_board.specs.Histories.{events_in, log_of};
ghost use Rattle.task_board.specs.Passes.{Adds, ClaimTold, HasTask, IsIdle, IsNew, IsOver, PutRefusedTold, PutTold, TakesTurn, new_reader};

use crate::judged::Judged;
use crate::pace::Pace;
use crate::passes::{ReaderPass, SealedPass, WorkerPass};
use board_core::{Book, Checkable, Claimed, End, Offer, PutRefused, Task};
use dk_model::{Listed, NoMemory, Verdict};
use std::alloc::Global;
use std::marker::Model;
use std::mem;
use std::sync::{Arc, Wait};
use ticket_slot::Slot;

/// How many answered jobs are kept for the reader at most: more than a worker answers between two of its sleeps where the
/// reader is the slower one.
const MOST_SPENT: usize = 256;

/// A board that the reader and the workers share. Contracts see the identity that its passes carry.
pub struct Board<J: Checkable> {
    slot: Slot<Judged<J>>,
    alloc: Global,
}

impl<J: Checkable> Model for Board<J> {
    ghost use Rattle.atomic_table.specs.Seated.{TableId, table_id_coded};

    ghost Value = { TableId };

    ghost coded = { table_id_coded };

    ghost view = { λ b. b.slot };
}

impl<J: Checkable + Drop> Board<J> {
    /// An empty board with the reader's pass and so many workers' passes. The room for the seal is
    /// reserved here.
    pub fn new(
        alloc: Global,
        workers: u32,
    ) -> Result<(Board<J>, ReaderPass<J>, Listed<WorkerPass<J>>), NoMemory>
        requires few { workers < 2 ^ 32 - 1 }
        ensures own { IfOk result (λ made. made.1.seat.table_id ≡ made.0) }
        ensures reader { IfOk result (λ made. made.1.seat.me.0 ≡ new_reader (workers + 1)) }
        ensures workers { IfOk result (λ made. length made.2 ≡ workers) }
        ensures own_workers { IfOk result (λ made. All (λ p. p.seat.table_id ≡ made.0) made.2) }
        ensures new_workers { IfOk result (λ made. All (λ p. IsNew p.seat.me.0) made.2) }
    {
        let mut passes = Vec::with_capacity(alloc, workers as usize)?;
        let book = Book::new(alloc)?;
        let spent = Vec::with_capacity(alloc, MOST_SPENT)?;
        let judged = Judged { book, spent };
        match Slot::new(alloc, judged) {
            Err(refused) => {
                let Judged { book, spent } = refused.value;
                drop(book);
                drop(spent);
                Err(NoMemory)
            }
            Ok((slot, mut seat)) => {
                for place in 0..workers {
                    let own = slot.split(&mut seat);
                    passes.push_reserved(WorkerPass {
                        seat: own,
                        number: place + 1,
                    });
                }
                Ok((
                    Board { slot, alloc },
                    ReaderPass {
                        seat,
                        count: 0,
                        pace: Pace::new(),
                    },
                    Listed::from_vec(passes),
                ))
            }
        }
    }

    /// Puts a job, which takes the next number, unless some verdict is other than `Accepted`. A job
    /// may be put as settled only where it is early and due to be accepted. A refusal changes
    /// nothing and hands the job back.
    pub fn put<R: Wait>(
        &self,
        rt: &R,
        pass: &mut ReaderPass<J>,
        job: Arc<J>,
        settled: bool,
    ) -> Result<u32, PutRefused<J>>
        requires own { pass.old.seat.table_id ≡ self.now }
        requires few { length pass.old.seat.me.0.known < 4294967294 }
        requires settled { MaySettle J.due J.early (arc_value job, settled) }
        ensures own { pass.new.seat.table_id ≡ self.now }
        ensures made { pass.new.seat.me.0.made ≡ pass.old.seat.me.0.made }
        ensures turn { TakesTurn J.due J.early pass.old.seat.me.0 pass.new.seat.me.0 }
        ensures ok { IfOk result (λ n.
            PutTold pass.old.seat.me.0 (arc_value job) settled n pass.new.seat.me.0) }
        ensures refused { IfErr result (λ why.
            PutRefusedTold pass.old.seat.me.0 (arc_value job) why pass.new.seat.me.0) }
    {
        // Longer lists are made before the turn, and what is over is let go after it: answered jobs too, two for each that
        // is put, so that they don't pile up.
        let ReaderPass { seat, count, pace } = pass;
        let offer = Offer::new(self.alloc, job, settled, *count);
        let mut judged = self.slot.lock(rt, seat);
        let (reply, leftover) = judged.book.post(offer);
        let spent = (judged.spent.pop(), judged.spent.pop());
        let waiting = judged.book.waiting();
        let _history = judged.book.history();
        if let Ok(_) = &reply {
            self.slot.add(seat, &judged);
            *count += 1;
        }
        self.slot.unlock(seat, judged);
        drop(leftover);
        drop(spent);
        pace.rest(rt, waiting);
        reply
    }

    /// Says that no job comes after this. Takes no memory.
    pub fn seal<R: Wait>(&self, rt: &R, pass: ReaderPass<J>, end: End) -> SealedPass<J>
        requires own { pass.seat.table_id ≡ self.now }
        requires end { MayEnd (events_in pass.seat.me.0.seen) end }
        ensures own { result.seat.table_id ≡ self.now }
        ensures made { result.seat.me.0.made ≡ pass.seat.me.0.made }
        ensures turn { TakesTurn J.due J.early pass.seat.me.0 result.seat.me.0 }
        ensures added { Adds pass.seat.me.0 (Event.Seal end) result.seat.me.0 }
        ensures known { result.seat.me.0.known ≡ pass.seat.me.0.known }
    {
        let ReaderPass {
            mut seat,
            count: _,
            pace: _,
        } = pass;
        let mut judged = self.slot.lock(rt, &mut seat);
        judged.book.seal(end);
        let spent = mem::replace(&mut judged.spent, Vec::new(self.alloc));
        let _history = judged.book.history();
        self.slot.add(&mut seat, &judged);
        self.slot.unlock(&mut seat, judged);
        drop(spent);
        SealedPass { seat }
    }

    /// Claims the least job that is free and lies below every fault. `Empty` and `Over` change
    /// nothing. Takes no memory.
    pub fn claim<R: Wait>(&self, rt: &R, pass: &mut WorkerPass<J>) -> Claimed<J>
        requires own { pass.old.seat.table_id ≡ self.now }
        requires idle { IsIdle pass.old.seat.me.0 }
        ensures own { pass.new.seat.table_id ≡ self.now }
        ensures number { pass.new.number ≡ pass.old.number }
        ensures turn { TakesTurn J.due J.early pass.old.seat.me.0 pass.new.seat.me.0 }
        ensures reply { ClaimTold pass.old.seat.me.0 result pass.new.seat.me.0 }
    {
        let WorkerPass { seat, number } = pass;
        let mut judged = self.slot.lock(rt, seat);
        let reply = judged.book.claim(*number);
        let _history = judged.book.history();
        if let Claimed::Task(_) = &reply {
            self.slot.add(seat, &judged);
        }
        self.slot.unlock(seat, judged);
        reply
    }

    /// Answers the task that the pass holds. Takes no memory.
    pub fn answer<R: Wait>(&self, rt: &R, pass: &mut WorkerPass<J>, task: Task<J>, verdict: Verdict)
        requires own { pass.old.seat.table_id ≡ self.now }
        requires task { HasTask pass.old.seat.me.0 task.number (arc_value task.job) }
        requires due { (verdict ≡ J.due (arc_value task.job)) ⊎ (verdict ≡ Memory) }
        ensures own { pass.new.seat.table_id ≡ self.now }
        ensures number { pass.new.number ≡ pass.old.number }
        ensures turn { TakesTurn J.due J.early pass.old.seat.me.0 pass.new.seat.me.0 }
        ensures added { Adds pass.old.seat.me.0
            (Event.Answer pass.old.number task.number verdict) pass.new.seat.me.0 }
        ensures idle { IsIdle pass.new.seat.me.0 }
    {
        // The reader made the job, so the reader lets it go: memory that one thread took and another gives back costs both
        // more. What there is no place for is let go here, behind the turn, so that no job is taken apart in it.
        let Task {
            number: answered,
            job,
        } = task;
        let WorkerPass { seat, number } = pass;
        let mut judged = self.slot.lock(rt, seat);
        judged.book.answer(*number, answered, verdict);
        let over = keep_for_reader(&mut judged.spent, job);
        let _history = judged.book.history();
        self.slot.add(seat, &judged);
        self.slot.unlock(seat, judged);
        drop(over);
    }

    /// Gives the book once all passes are back and no worker has a task. It has one history: what
    /// each pass has seen is a beginning of it, and each pass's own events are those of its number.
    pub fn close(self, sealed: SealedPass<J>, passes: Listed<WorkerPass<J>>) -> Book<J>
        requires own { sealed.seat.table_id ≡ self }
        requires own_workers { All (λ p. p.seat.table_id ≡ self) passes }
        requires all { length passes + 1 ≡ sealed.seat.me.0.made }
        requires idle { All (λ p. IsIdle p.seat.me.0) passes }
        ensures legal { IsLegal J.due J.early result.jobs result.events }
        ensures jobs { result.jobs ≡ sealed.seat.me.0.known }
        ensures reader { EndsIn (log_of result.events) result.jobs (ended_of sealed.seat.me.0) }
        ensures workers { All (λ p. EndsIn (log_of result.events) result.jobs
            (ended_of p.seat.me.0)) passes }
        ensures each_once { EachOnce sealed.seat.me.0.made
            (map (λ p. ended_of p.seat.me.0) passes) }
        ensures no_others { (n : ℕ) → sealed.seat.me.0.made ≤ n →
            calls_by n (log_of result.events) ≡ [] }
        ensures end { end_of result.events ≡ end_of (events_in sealed.seat.me.0.mine) }
        ensures finished { Any (λ p. IsOver p.seat.me.0) passes →
            IsFinished (marks_of result.jobs) result.events }
    {
        let SealedPass { mut seat } = sealed;
        let mut passes = passes.into_vec();
        while let Some(pass) = passes.pop() {
            let WorkerPass {
                seat: own,
                number: _,
            } = pass;
            self.slot.join(&mut seat, own);
        }
        let Board { slot, alloc: _ } = self;
        let Judged { book, spent } = slot.close(seat);
        drop(spent);
        book
    }
}

// Keeps an answered job where there is a place for it; else gives it back.
fn keep_for_reader<J>(spent: &mut Vec<Arc<J>>, job: Arc<J>) -> Option<Arc<J>> {
    if spent.len() >= spent.capacity() {
        return Some(job);
    }
    spent.push_reserved(job);
    None
}
