//! The book: the jobs, what was done with them, and the history that says so.
ghost use Rattle.std.specs.Prelude.{◌≡◌, ◌+◌, ◌-◌, ◌*◌, ◌^◌, ◌<◌, ◌≤◌, false, [], length, IfOk, IfErr, IfSome, IfNone};
ghost use Rattle.std.specs.List.{list_any};
ghost use Rattle.std.specs.Option.{option_copied};
ghost use Rattle.std.specs.Arc.{arc_value};
ghost use Rattle.board_core.specs.declared.event.Event.{Event};
ghost use Rattle.board_core.specs.Events.{is_seal, is_fault, puts, end_of, verdict_at, is_settled, IsFirstFault};
ghost use Rattle.board_core.specs.Machine.{Allowed, Holds, HoldsNone, IsLawful, marks_of};
ghost use Rattle.board_core.specs.Rooms.{IsRoomBehind};
ghost use Rattle.board_core.specs.Shown.{added, put_on, ClaimReply, HoldsGiven, IsRefusal};

mod replay;

use crate::event::End;
use crate::history::{History, Step};
use crate::past::Past;
use crate::room::{Leftover, Lists, Offer, make_place};
use crate::steps::{fault_after, idle, let_wait, take_below};
use crate::task::{Claimed, PutRefused};
use dk_model::{NoMemory, Verdict};
use std::alloc::Global;
use std::collections::VecDeque;
use std::marker::Model;
use std::sync::Arc;

/// What is kept of a job as it was put: whether it was settled, and for contracts alone its value.
#[derive(Drop)]
pub struct Posted<J> {
    pub job: Past<J>,
    pub settled: bool,
}

/// A job that is neither settled nor claimed. Its claim gives it away.
#[derive(Drop)]
pub struct Waiting<J> {
    pub number: u32,
    pub job: Arc<J>,
}

/// The jobs, numbered from 1, each settled or not, and the history of all that happened to them. A
/// job is held until it is claimed; of the others there are their marks, verdicts and events.
#[derive(Drop)]
pub struct Book<J> {
    jobs: Vec<Posted<J>>,
    // The least number first.
    waiting: VecDeque<Waiting<J>>,
    // What was answered for each job.
    verdicts: Vec<Option<Verdict>>,
    // The least number with a verdict other than `Accepted`, and that verdict.
    fault: Option<(u32, Verdict)>,
    // How it was sealed, if it was.
    end: Option<End>,
    history: Vec<Step>,
}

impl<J> Model for Book<J> {
    ghost use Rattle.board_core.specs.Shown.{Shown};

    ghost Value = { Shown J };

    ghost use Rattle.board_core.specs.Kept.{Kept, jobs_in};
    ghost use Rattle.board_core.specs.Steps.{events_in};

    ghost view = { λ b.
        record { jobs = jobs_in b.jobs.items; events = events_in b.end b.history.items } };

    ghost invariant = { λ b. Kept b };
}

impl<J> Book<J> {
    /// All that happened, in order, and what every history of a book is.
    pub fn history(&self) -> History<'_>
        ensures value { result ≡ self.now.events }
        ensures lawful { IsLawful (marks_of self.now.jobs) self.now.events }
        ensures all_put { puts self.now.events ≡ length self.now.jobs }
        ensures few_jobs { length self.now.jobs < 2 ^ 32 - 1 }
        ensures few_events { length self.now.events ≤ 3 * length self.now.jobs + 1 }
    {
        History::new(self.history.as_slice(), self.end.as_ref())
    }

    /// How many jobs were put.
    pub fn len(&self) -> usize
        ensures { result ≡ length self.now.jobs }
    {
        self.jobs.len()
    }

    /// How many jobs are neither settled nor claimed.
    pub fn waiting(&self) -> usize {
        self.waiting.len()
    }

    /// Whether the job of this number was put as settled.
    pub fn is_settled(&self, number: u32) -> bool
        requires { (0 < number) × (number ≤ length self.now.jobs) }
        ensures { result ≡ is_settled (marks_of self.now.jobs) number }
    {
        self.jobs[number as usize - 1].settled
    }

    /// The verdict that stands for that job: the answered one, or `Accepted` where it is settled.
    pub fn verdict(&self, number: u32) -> Option<Verdict>
        requires { (0 < number) × (number ≤ length self.now.jobs) }
        ensures { result ≡ verdict_at (marks_of self.now.jobs) self.now.events number }
    {
        let at = number as usize - 1;
        if self.jobs[at].settled {
            return Some(Verdict::Accepted);
        }
        self.verdicts[at]
    }

    /// The least number with a verdict other than `Accepted`, and that verdict.
    pub fn fault(&self) -> Option<(u32, Verdict)>
        ensures none { IfNone result (list_any is_fault self.now.events ≡ false) }
        ensures first { IfSome result (λ f. IsFirstFault self.now.events f.0 f.1) }
    {
        self.fault
    }

    /// How the board was sealed, if it was.
    pub fn end(&self) -> Option<&End>
        ensures { option_copied result ≡ end_of self.now.events }
    {
        self.end.as_ref()
    }
}

impl<J: Drop> Book<J> {
    /// A book without jobs. The places for the first job and for the seal are reserved here.
    pub fn new(alloc: Global) -> Result<Book<J>, NoMemory>
        ensures { IfOk result (λ b. b ≡ record { jobs = []; events = [] }) }
    {
        let Lists {
            jobs,
            waiting,
            verdicts,
            history,
        } = Lists::with_places(alloc, 1)?;
        Ok(Book {
            jobs,
            waiting,
            verdicts,
            fault: None,
            end: None,
            history,
        })
    }

    /// Puts a job, which takes the next number, unless some verdict is other than `Accepted`. A
    /// settled job counts as answered `Accepted` and is never claimed. Room for the job's claim and
    /// answer is made here. A refusal changes nothing and hands the job back.
    pub fn put(&mut self, job: Arc<J>, settled: bool) -> Result<u32, PutRefused<J>>
        requires few { length self.old.jobs < 4294967294 }
        requires unsealed { list_any is_seal self.old.events ≡ false }
        ensures running { IfOk result (λ n. list_any is_fault self.old.events ≡ false) }
        ensures number { IfOk result (λ n. n ≡ length self.old.jobs + 1) }
        ensures ok { IfOk result (λ n. self.new ≡ put_on self.old (arc_value job) settled n) }
        ensures refused { IfErr result (λ r. IsRefusal self.old.events (arc_value job) r) }
        ensures err { IfErr result (λ r. self.new ≡ self.old) }
    {
        let alloc = *self.history.allocator();
        let offer = Offer::new(alloc, job, settled, self.len() as u32);
        let (reply, _leftover) = self.post(offer);
        reply
    }

    /// The same with the room for the job made before, so that it takes no memory. What is over is
    /// given back, so that the caller lets it go when it wants to.
    pub fn post(&mut self, offer: Offer<J>) -> (Result<u32, PutRefused<J>>, Leftover<J>)
        requires few { length self.old.jobs < 4294967294 }
        requires unsealed { list_any is_seal self.old.events ≡ false }
        requires behind { offer.behind ≡ length self.old.jobs }
        requires room { IsRoomBehind offer.behind offer.room }
        ensures running { IfOk result.0 (λ n. list_any is_fault self.old.events ≡ false) }
        ensures number { IfOk result.0 (λ n. n ≡ length self.old.jobs + 1) }
        ensures ok { IfOk result.0 (λ n.
            self.new ≡ put_on self.old (arc_value offer.job) offer.settled n) }
        ensures refused { IfErr result.0 (λ r. IsRefusal self.old.events (arc_value offer.job) r) }
        ensures err { IfErr result.0 (λ r. self.new ≡ self.old) }
    {
        let Offer {
            job,
            settled,
            behind: _,
            room,
        } = offer;
        if let Some((number, verdict)) = self.fault {
            let stopped = PutRefused::Stopped {
                number,
                verdict,
                job,
            };
            return (
                Err(stopped),
                Leftover {
                    lists: room.into_lists(),
                    job: None,
                },
            );
        }
        let Book {
            jobs,
            waiting,
            verdicts,
            history,
            ..
        } = self;
        let Ok(lists) = make_place(jobs, waiting, verdicts, history, room) else {
            return (
                Err(PutRefused::NoMemory { job }),
                Leftover {
                    lists: None,
                    job: None,
                },
            );
        };
        let number = jobs.len() as u32 + 1;
        let past = Past::of(&*job);
        jobs.push_reserved(Posted { job: past, settled });
        let job = let_wait(waiting, number, job, settled);
        verdicts.push_reserved(None);
        history.push_reserved(Step::Put(number));
        (Ok(number), Leftover { lists, job })
    }

    /// Gives the worker the least job that is neither settled nor claimed, if it lies below every
    /// fault. Takes no memory, and the same time however many jobs there are.
    pub fn claim(&mut self, worker: u32) -> Claimed<J>
        requires { HoldsNone worker self.old.events }
        ensures reply { ClaimReply self.old worker result self.new }
        ensures holds { HoldsGiven worker result self.new.events }
    {
        let Some(task) = take_below(&mut self.waiting, self.fault) else {
            return idle(self.end.is_some(), self.fault);
        };
        self.history.push_reserved(Step::Claim(worker, task.number));
        Claimed::Task(task)
    }

    /// Keeps the verdict of a job that this worker has claimed. Takes no memory.
    pub fn answer(&mut self, worker: u32, number: u32, verdict: Verdict)
        requires { Holds worker number self.old.events }
        ensures added { self.new ≡ added self.old (Event.Answer worker number verdict) }
        ensures idle { HoldsNone worker self.new.events }
    {
        let _opened = &self.history;
        let at = number as usize - 1;
        self.verdicts[at] = Some(verdict);
        self.fault = fault_after(self.fault, number, verdict);
        self.history
            .push_reserved(Step::Answer(worker, number, verdict));
    }

    /// No job comes after this. Takes no memory.
    pub fn seal(&mut self, end: End)
        requires { Allowed (marks_of self.old.jobs) self.old.events (Event.Seal end) }
        ensures { self.new ≡ added self.old (Event.Seal end) }
    {
        self.end = Some(end);
        self.history.push_reserved(Step::Seal);
    }
}
