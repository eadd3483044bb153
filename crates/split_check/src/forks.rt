//! Reducers of which each thread has its own.
ghost use Rattle.std.specs.Prelude.{IfOk};
ghost use Rattle.dk_model.specs.Signatures.{PlainSignature};

use conversion::PoolReducer;
use dk_model::NoMemory;
use signature_log::Reducer;

/// A reducer that further ones can be made beside.
pub trait Forks: Reducer {
    /// One that remembers nothing yet.
    fn fresh(&self) -> Result<Self, NoMemory>
        ensures serves { IfOk result (λ r. (S : PlainSignature) → Self.serves S r) };
}

impl Forks for PoolReducer {
    fn fresh(&self) -> Result<PoolReducer, NoMemory> {
        PoolReducer::new(self.alloc())
    }
}
