//! Who checks the commands of a session.
use command_check::{check_command, entry_of, infer_type, query};
use conversion::PoolReducer;
use dk_model::{Entry, NoMemory, Scoped, TypeFault, Verdict};
use edit_session::Judge;
use shared_term::{Found, Stored};
use signature_log::Version;
use std::alloc::Global;

/// Checks commands one by one, with a pool of terms that is used again for each.
#[derive(Drop)]
pub struct Referee {
    alloc: Global,
    reducer: Box<PoolReducer>,
}

impl Referee {
    pub fn new(alloc: Global) -> Result<Referee, NoMemory> {
        Ok(Referee {
            alloc,
            reducer: Box::new(alloc, PoolReducer::new(alloc)?)?,
        })
    }
}

impl Judge for Referee {
    fn entry_of(
        &mut self,
        version: &Version,
        command: &Scoped,
        inferred: Option<Stored>,
    ) -> Result<Entry<Stored>, TypeFault> {
        entry_of(self.alloc, version, command, inferred)
    }

    fn infer_type(
        &mut self,
        version: &Version,
        command: &Scoped,
        budget: u64,
    ) -> Result<Stored, Verdict> {
        self.reducer.clear();
        infer_type(&mut *self.reducer, version, command, budget)
    }

    fn check_command(&mut self, version: &Version, command: &Scoped, budget: u64) -> Verdict {
        self.reducer.clear();
        check_command(&mut *self.reducer, version, command, budget)
    }

    fn query(
        &mut self,
        version: &Version,
        command: &Scoped,
        budget: u64,
    ) -> Result<Found, Verdict> {
        self.reducer.clear();
        query(&mut *self.reducer, version, command, budget)
    }
}
