//! A job of the board: one command, and its check.
ghost use Rattle.std.specs.Prelude.{◌≡◌, ◌⊎◌, IsTrue, Some, IfOk, IfErr};
ghost use Rattle.dk_model.specs.Answering.{is_answered, is_untyped};
ghost use Rattle.dk_model.specs.Verdicts.{found_of, inferred_type, verdict_of};
ghost use Rattle.dk_model.specs.declared.code.Verdict.TheVariants.{Memory};
ghost use Rattle.shared_term.specs.Commands.{stored_command};
ghost use Rattle.shared_term.specs.Finding.{plain_found};
ghost use Rattle.shared_term.specs.Storage.{stored_term};
ghost use Rattle.signature_log.specs.Versions.{entries_of};
ghost use Rattle.file_report.specs.Jobs.{due_on};
ghost use Rattle.file_check.specs.Jobs.{IsOtherVerdict, job_of};

use crate::gate::OpenGate;
use board_core::{Checkable, Past};
use command_check::{check_stored, infer_stored, query_stored};
use conversion::PoolReducer;
use dk_model::{NoMemory, Verdict};
use shared_term::{Found, Stored, StoredCommand};
use signature_log::Version;
use split_check::{Crew, Spare, check_split};
use std::alloc::Global;
use std::sync::Wait;
use std::thread::Threads;
use verdict_book::Title;

/// The stack of a thread that works on terms, in bytes. It has room for what nests (docs/DECISIONS.md); a page of it takes
/// memory only once it is used.
pub const STACK: usize = 1 << 28;

/// One command with what its check needs. What a report shows of it is kept beside the board, and stands here for contracts
/// alone.
#[derive(Drop)]
pub struct Job {
    /// The version of the commands before it.
    pub version: Version,
    pub command: StoredCommand,
    /// The units that its check may take.
    pub budget: u64,
    pub title: Past<Title>,
}

impl Checkable for Job {
    ghost use Rattle.file_check.specs.Jobs.{due, early};

    ghost due = { due };

    ghost early = { early };
}

/// Who checks jobs, with a pool of terms that is used again for each.
#[derive(Drop)]
pub struct Worker {
    reducer: PoolReducer,
}

impl Worker {
    pub fn new(alloc: Global) -> Result<Worker, NoMemory> {
        Ok(Worker {
            reducer: PoolReducer::new(alloc)?,
        })
    }

    /// The verdict of the job, by what stands in it and by nothing else, or `Memory`.
    #[tactic(auto, using(crate::proofs::Preparing::verdict_or_memory))]
    pub fn check(&mut self, job: &Job) -> Verdict
        ensures { (result ≡ due_on (job_of job.now)) ⊎ (result ≡ Memory) }
    {
        self.reducer.clear();
        check_stored(&mut self.reducer, &job.version, &job.command, job.budget)
    }

    /// The same, where the body is split among threads at arguments of so many nodes.
    #[tactic(auto, using(crate::proofs::Preparing::verdict_or_memory))]
    pub fn check_split<R: Threads + Wait + Sync>(
        &mut self,
        rt: &R,
        spare: &Spare,
        nodes: u32,
        job: &Job,
    ) -> Verdict
        ensures { (result ≡ due_on (job_of job.now)) ⊎ (result ≡ Memory) }
    {
        self.reducer.clear();
        let crew = Crew {
            version: &job.version,
            rt,
            gate: &OpenGate,
            spare,
            nodes,
            number: 0,
            stack: STACK,
        };
        check_split(&crew, &mut self.reducer, &job.command, job.budget)
    }

    /// The type of a definition without a declared one, where it is accepted; else its verdict.
    pub fn infer(
        &mut self,
        version: &Version,
        command: &StoredCommand,
        budget: u64,
    ) -> Result<Stored, Verdict>
        requires { IsTrue (is_untyped (stored_command command.now)) }
        ensures ok { IfOk result (λ t.
            inferred_type (entries_of version.now) (stored_command command.now) budget
            ≡ Some (stored_term t)) }
        ensures accepted { IfOk result (λ _.
            verdict_of (entries_of version.now) (stored_command command.now) budget
            ≡ Verdict.Accepted) }
        ensures err { IfErr result (IsOtherVerdict
            (verdict_of (entries_of version.now) (stored_command command.now) budget)) }
    {
        self.reducer.clear();
        infer_stored(&mut self.reducer, version, command, budget)
    }

    /// What a query other than `#ASSERT` finds, where it is accepted; else its verdict.
    pub fn query(
        &mut self,
        version: &Version,
        command: &StoredCommand,
        budget: u64,
    ) -> Result<Found, Verdict>
        requires { IsTrue (is_answered (stored_command command.now)) }
        ensures ok { IfOk result (λ f.
            found_of (entries_of version.now) (stored_command command.now) budget
            ≡ Some (plain_found f)) }
        ensures accepted { IfOk result (λ _.
            verdict_of (entries_of version.now) (stored_command command.now) budget
            ≡ Verdict.Accepted) }
        ensures err { IfErr result (IsOtherVerdict
            (verdict_of (entries_of version.now) (stored_command command.now) budget)) }
    {
        self.reducer.clear();
        query_stored(&mut self.reducer, version, command, budget)
    }
}
