//! The desk of the reader: each command of a theory becomes a job on the board.
ghost use Rattle.std.specs.Prelude.{◌≡◌, ◌<◌, Some, IfOk, length};
ghost use Rattle.dk_parser.specs.RawViews.{written_form};
ghost use Rattle.board_core.specs.Events.{end_of};
ghost use Rattle.board_core.specs.Machine.{MayEnd, MaySettle};
ghost use Rattle.task_board.specs.Histories.{events_in};
ghost use Rattle.file_report.specs.Jobs.{job_titles};
ghost use Rattle.file_check.specs.Jobs.{due, early, job_of};
ghost use Rattle.file_check.specs.Desks.{Enters, IsReady, IsSound, Puts, known_at, same_bounds, seen_at};

use crate::halt::{Located, NotPut};
use crate::job::{Job, Worker};
use crate::theory::{Prepared, Theory};
use board_core::{End, PutRefused};
use dk_model::{Code, Limits, Verdict};
use std::alloc::Global;
use std::mem::forget;
use std::sync::{Arc, Wait};
use task_board::{Board, ReaderPass, SealedPass};
use verdict_book::Titles;

/// What the reader keeps while it makes the commands of a theory jobs.
#[derive(Drop)]
pub struct Desk {
    pub limits: Limits,
    pub budget: u64,
    pub theory: Theory,
    /// Who checks a definition without a type, since the next version needs its type, and answers queries.
    pub worker: Worker,
    pub pass: ReaderPass<Job>,
    /// What the report shows of the jobs, in order.
    pub titles: Titles,
}

impl Desk {
    /// Makes the next command a job on the board.
    pub fn enter<R: Wait>(
        &mut self,
        rt: &R,
        alloc: Global,
        board: &Board<Job>,
        command: Located,
    ) -> Result<(), NotPut>
        requires own { self.old.pass.seat.table_id ≡ board.now }
        requires ready { IsReady self.old }
        ensures own { self.new.pass.seat.table_id ≡ board.now }
        ensures made { self.new.pass.seat.me.0.made ≡ self.old.pass.seat.me.0.made }
        ensures enters { Enters self.old (written_form command.raw.form) command.place
            self.new result }
        ensures sound { IsSound self.new.limits self.new.titles (known_at self.new) }
        ensures bounds { same_bounds self.old self.new }
    {
        if self.titles.len() >= self.limits.commands as usize {
            drop(command);
            return Err(NotPut::Verdict(Verdict::Refused(Code::E08)));
        }
        match self
            .theory
            .prepare(alloc, &mut self.worker, self.budget, command)
        {
            Ok(prepared) => self.put(rt, alloc, board, prepared),
            Err(verdict) => Err(NotPut::Verdict(verdict)),
        }
    }

    // Puts a job.
    fn put<R: Wait>(
        &mut self,
        rt: &R,
        alloc: Global,
        board: &Board<Job>,
        prepared: Prepared,
    ) -> Result<(), NotPut>
        requires own { self.old.pass.seat.table_id ≡ board.now }
        requires sound { IsSound self.old.limits self.old.titles (known_at self.old) }
        requires few { length self.old.titles < self.old.limits.commands }
        requires title { prepared.title ≡ (job_of prepared.job).title }
        requires settled { MaySettle due early (prepared.job, prepared.settled) }
        ensures own { self.new.pass.seat.table_id ≡ board.now }
        ensures made { self.new.pass.seat.me.0.made ≡ self.old.pass.seat.me.0.made }
        ensures puts { Puts self.old prepared self.new result }
        ensures sound { IsSound self.new.limits self.new.titles (known_at self.new) }
        ensures bounds { same_bounds self.old self.new }
        ensures theory { self.new.theory ≡ self.old.theory }
    {
        let Prepared {
            job,
            settled,
            title,
        } = prepared;
        let Ok(job) = Arc::new(alloc, job) else {
            drop(title);
            return Err(NotPut::Verdict(Verdict::Memory));
        };
        let Ok(()) = self.titles.push(&title) else {
            drop(title);
            drop(job);
            return Err(NotPut::Verdict(Verdict::Memory));
        };
        drop(title);
        match board.put(rt, &mut self.pass, job, settled) {
            Ok(_) => Ok(()),
            Err(PutRefused::Stopped { job, .. }) => {
                drop(job);
                self.titles.pop();
                Err(NotPut::Stopped)
            }
            Err(PutRefused::NoMemory { job }) => {
                drop(job);
                self.titles.pop();
                Err(NotPut::Verdict(Verdict::Memory))
            }
        }
    }

    /// Seals the board so, and gives the titles of its jobs. The theory isn't let go: its memory stays taken until the
    /// program ends.
    pub fn seal<R: Wait>(self, rt: &R, board: &Board<Job>, end: End) -> (SealedPass<Job>, Titles)
        requires own { self.pass.seat.table_id ≡ board.now }
        requires sound { IsSound self.limits self.titles (known_at self) }
        requires may_end { MayEnd (seen_at self) end }
        ensures own { result.0.seat.table_id ≡ board.now }
        ensures made { result.0.seat.me.0.made ≡ self.pass.seat.me.0.made }
        ensures jobs { result.0.seat.me.0.known ≡ known_at self }
        ensures end { end_of (events_in result.0.seat.me.0.mine) ≡ Some end }
        ensures titles { result.1 ≡ job_titles job_of (known_at self) }
    {
        let Desk {
            pass,
            titles,
            theory,
            worker,
            ..
        } = self;
        // The program ends behind the report, and the system takes all back at once; here it would go piece by piece.
        forget(theory);
        let sealed = board.seal(rt, pass, end);
        drop(worker);
        (sealed, titles)
    }
}
