//! The evaluator over a pool as a value, for what is written over any reducer.
ghost use Rattle.std.specs.Prelude.{IfOk};
ghost use Rattle.dk_model.specs.Signatures.{PlainSignature};
ghost use Rattle.signature_log.specs.Reducers.{Keeps, Makes, OwnsParts, built};
ghost use Rattle.conversion.specs.Owned.{owned, denoted};
ghost use Rattle.conversion.specs.Reducers.{Serves};

use crate::PoolReducer;
use crate::loading::loaded;
use crate::mentions::may_bind;
use dk_model::{NoMemory, NodeOf, Stop, Term};
use shared_term::{Stored, TermId};
use signature_log::{Reducer, Version};
use std::alloc::Global;

impl Reducer for PoolReducer {
    ghost use Rattle.conversion.specs.Owned.{owned, denoted};
    ghost use Rattle.conversion.specs.Reducers.{Serves};

    type T = TermId;

    ghost owns = { owned };

    ghost denotes = { denoted };

    ghost serves = { λ s r. Serves s r };

    fn alloc(&self) -> Global {
        self.alloc
    }

    #[tactic(auto, using(crate::proofs::Pooling::pool_keeps, crate::proofs::Pooling::pool_gives))]
    fn whnf(&mut self, v: &Version, t: &TermId, left: &mut u64) -> Result<TermId, Stop> {
        self.evaluate(v, *t, left)
    }

    #[tactic(auto, using(crate::proofs::Pooling::pool_keeps, crate::proofs::Pooling::pool_answers))]
    fn same(&mut self, v: &Version, t: &TermId, u: &TermId, left: &mut u64) -> Result<bool, Stop> {
        self.compare(v, *t, *u, left)
    }

    #[tactic(auto, using(crate::proofs::Pooling::pool_keeps, crate::proofs::Pooling::pool_gives))]
    fn normal(&mut self, v: &Version, t: &TermId, left: &mut u64) -> Result<TermId, Stop> {
        self.normalise(v, *t, left)
    }

    #[tactic(auto, using(crate::proofs::Pooling::pool_keeps, crate::proofs::Pooling::pool_shows, crate::proofs::Winding::extends_none))]
    fn open(&mut self, t: TermId) -> Result<NodeOf<TermId>, NoMemory> {
        Ok(self.pool.get(t))
    }

    #[tactic(auto, using(crate::proofs::Pooling::pool_keeps, crate::proofs::Pooling::pool_shows, crate::proofs::Winding::extends_none))]
    fn look(&mut self, t: &TermId) -> Result<NodeOf<TermId>, NoMemory> {
        Ok(self.pool.get(*t))
    }

    #[tactic(auto, using(crate::proofs::Pooling::pool_keeps, crate::proofs::Pooling::pool_built, crate::proofs::Pooling::parts_within, crate::proofs::Serving::loaded_grown, crate::proofs::Serving::heads_grown, crate::proofs::Serving::values_grown, crate::proofs::Serving::normals_grown, crate::proofs::Serving::answers_grown))]
    fn build(&mut self, node: NodeOf<TermId>) -> Result<TermId, NoMemory>
        requires own { OwnsParts owned self.old node }
        ensures makes { IfOk result (Makes owned denoted self.new (built denoted self.old node)) }
        ensures keeps { Keeps owned denoted self.old self.new }
        ensures serves { (S : PlainSignature) → Serves S self.old → Serves S self.new }
    {
        self.pool.intern(node)
    }

    #[tactic(auto, using(crate::proofs::Pooling::pool_keeps, crate::proofs::Winding::extends_none))]
    fn copy(&mut self, t: &TermId) -> Result<TermId, NoMemory> {
        Ok(*t)
    }

    #[tactic(auto, using(crate::proofs::Pooling::pool_keeps, crate::proofs::Serving::loaded_grown, crate::proofs::Serving::heads_grown, crate::proofs::Serving::values_grown, crate::proofs::Serving::normals_grown, crate::proofs::Serving::answers_grown))]
    fn put_in(&mut self, body: &TermId, by: &TermId) -> Result<TermId, NoMemory> {
        self.pool.substitute(*body, 0, *by)
    }

    #[tactic(auto, using(crate::proofs::Pooling::terms_owned, crate::proofs::Pooling::pool_keeps, crate::proofs::Serving::loaded_grown, crate::proofs::Serving::heads_grown, crate::proofs::Serving::values_grown, crate::proofs::Serving::normals_grown, crate::proofs::Serving::answers_grown))]
    fn put_all_in(&mut self, body: &TermId, terms: &[TermId]) -> Result<TermId, NoMemory> {
        self.pool.substitute_all(*body, 0, terms)
    }

    #[tactic(auto, using(crate::proofs::Winding::extends_none, crate::proofs::Winding::extends_more, crate::proofs::Pooling::pool_keeps, crate::proofs::Serving::loaded_grown, crate::proofs::Serving::heads_grown, crate::proofs::Serving::values_grown, crate::proofs::Serving::normals_grown, crate::proofs::Serving::answers_grown))]
    fn as_argument(&mut self, t: &TermId, body: &TermId) -> Result<TermId, NoMemory> {
        if self.pool.is_erased(*t) {
            return Ok(*t);
        }
        if self.pool.mentions_others(*body, 1, &[])? {
            self.pool.erased(*t)
        } else {
            Ok(*t)
        }
    }

    fn is_closed(&self, t: &TermId) -> bool {
        self.pool.is_closed(*t)
    }

    #[tactic(auto, using(crate::proofs::Pooling::pool_keeps, crate::proofs::Serving::loaded_grown, crate::proofs::Serving::heads_grown, crate::proofs::Serving::values_grown, crate::proofs::Serving::normals_grown, crate::proofs::Serving::answers_grown))]
    fn shift(&mut self, t: &TermId, by: u64) -> Result<TermId, NoMemory> {
        self.pool.shift(*t, 0, by)
    }

    #[tactic(auto, using(crate::proofs::Pooling::pool_keeps, crate::proofs::Serving::loaded_grown, crate::proofs::Serving::heads_grown, crate::proofs::Serving::values_grown, crate::proofs::Serving::normals_grown, crate::proofs::Serving::answers_grown))]
    fn erase(&mut self, t: &TermId) -> Result<TermId, NoMemory> {
        self.pool.erased(*t)
    }

    #[tactic(auto, using(crate::proofs::Pooling::pool_keeps, crate::proofs::Serving::loaded_grown, crate::proofs::Serving::heads_grown, crate::proofs::Serving::values_grown, crate::proofs::Serving::normals_grown, crate::proofs::Serving::answers_grown))]
    fn mentions_others(
        &mut self,
        t: &TermId,
        depth: u64,
        variables: &[u32],
    ) -> Result<bool, NoMemory> {
        self.pool.mentions_others(*t, depth, variables)
    }

    #[tactic(auto, using(crate::proofs::Pooling::pool_keeps, crate::proofs::Serving::loaded_grown, crate::proofs::Serving::heads_grown, crate::proofs::Serving::values_grown, crate::proofs::Serving::normals_grown, crate::proofs::Serving::answers_grown))]
    fn rename(&mut self, t: &TermId, depth: u64, variables: &[u32]) -> Result<TermId, NoMemory> {
        self.pool.renamed(*t, depth, variables)
    }

    #[tactic(auto, using(crate::proofs::Pooling::somes_captured, crate::proofs::Pooling::somes_denoted, crate::proofs::Pooling::pool_keeps, crate::proofs::Serving::loaded_grown, crate::proofs::Serving::heads_grown, crate::proofs::Serving::values_grown, crate::proofs::Serving::normals_grown, crate::proofs::Serving::answers_grown))]
    fn fill(&mut self, t: &TermId, terms: &[Option<TermId>]) -> Result<TermId, NoMemory> {
        self.pool.filled(*t, terms)
    }

    #[tactic(auto, using(crate::proofs::Winding::extends_more, crate::proofs::Pooling::pool_keeps, crate::proofs::Serving::loaded_grown, crate::proofs::Serving::heads_grown, crate::proofs::Serving::values_grown, crate::proofs::Serving::normals_grown, crate::proofs::Serving::answers_grown))]
    fn may_bind(&mut self, t: &TermId, number: u32) -> Result<bool, NoMemory> {
        may_bind(self.alloc, &mut self.pool, *t, number)
    }

    #[tactic(auto, using(crate::proofs::Pooling::pool_keeps, crate::proofs::Serving::loaded_grown, crate::proofs::Serving::heads_grown, crate::proofs::Serving::values_grown, crate::proofs::Serving::normals_grown, crate::proofs::Serving::answers_grown))]
    fn bring(&mut self, t: &Stored) -> Result<TermId, NoMemory> {
        self.pool.load(t)
    }

    #[tactic(auto, using(crate::proofs::Pooling::pool_keeps, crate::proofs::Serving::loaded_grown, crate::proofs::Serving::heads_grown, crate::proofs::Serving::values_grown, crate::proofs::Serving::normals_grown, crate::proofs::Serving::answers_grown))]
    fn load(&mut self, t: &Term) -> Result<TermId, NoMemory> {
        loaded(self.alloc, &mut self.pool, t)
    }

    fn send(&self, t: &TermId) -> Result<Stored, NoMemory> {
        self.pool.store(*t)
    }
}
