//! How a worker of the board checks a job.
use crate::job::{Job, Worker};
use dk_model::Verdict;
use split_check::Spare;
use std::alloc::Global;
use std::mem::replace;
use std::sync::Wait;
use std::thread::Threads;
use worker_crew::ThreadedChecker;

/// Gives each job its own verdict, by the version, the command and the budget that stand in it.
#[derive(Drop)]
pub struct JobChecker {
    pub alloc: Global,
    /// From how many nodes on an argument is worth a thread; `None` where no body is split.
    pub split: Option<u32>,
    /// The threads beside the workers that may check parts.
    pub spare: Spare,
}

impl ThreadedChecker for JobChecker {
    type Job = Job;

    // The pool is made at the first job, and again where memory was short.
    type Kit = Option<Worker>;

    fn kit(&self) -> Option<Worker> {
        None
    }

    fn check<R: Threads + Wait + Sync>(
        &self,
        rt: &R,
        kit: &mut Option<Worker>,
        job: &Job,
    ) -> Verdict {
        if kit.is_none() {
            drop(replace(kit, Worker::new(self.alloc).ok()));
        }
        match kit {
            None => Verdict::Memory,
            Some(worker) => match self.split {
                None => worker.check(job),
                Some(nodes) => worker.check_split(rt, &self.spare, nodes, job),
            },
        }
    }
}
