//! Weak head forms that are there at once: those that are remembered, and of terms that take no step.
ghost use Rattle.std.specs.Prelude.{◌≡◌, ◌<◌, None, IsTrue, IfSome, ◌≤◌, length, slice_get};
ghost use Rattle.dk_model.specs.SymbolRules.{rules_of};
ghost use Rattle.dk_model.specs.Evaluation.{whnf_of};
ghost use Rattle.shared_term.specs.Pools.{term};
ghost use Rattle.signature_log.specs.Versions.{entries_of};
ghost use Rattle.conversion.specs.Reducers.{Serves, IsValue};
ghost use Rattle.conversion.specs.Given.{Recalls};

use crate::PoolReducer;
use crate::state::{Head, Value};
use dk_model::{NodeOf, Stop};
use shared_term::TermId;
use signature_log::Version;

impl PoolReducer {
    /// The weak head form of a term and the units that it takes, where it is remembered or the term itself at once.
    pub(crate) fn known(&self, version: &Version, term: TermId) -> Option<Value>
        requires term { term.0 < length self.now.pool }
        requires serves { Serves (entries_of version.now) self.now }
        ensures { IfSome result (λ v. IsValue (entries_of version.now) self.now.pool term.0 v) }
    {
        if self.rests(version, term) {
            return Some(Value { id: term, units: 1 });
        }
        self.values.find(term.number(), 0)
    }

    /// The weak head form of a term where it is there at once, with its units taken. Where they don't suffice, none is left.
    pub(crate) fn recalled(
        &self,
        version: &Version,
        whole: TermId,
        left: &mut u64,
    ) -> Result<Option<TermId>, Stop>
        requires whole { whole.0 < length self.now.pool }
        requires serves { Serves (entries_of version.now) self.now }
        ensures gives { Recalls (whnf_of (entries_of version.now) left.old (term self.now.pool whole))
            self.now.pool left.old result left.new }
        ensures spent { left.new ≤ left.old }
    {
        match self.known(version, whole) {
            None => Ok(None),
            Some(found) => {
                if *left < found.units {
                    *left = 0;
                    return Err(Stop::Ended);
                }
                *left -= found.units;
                Ok(Some(found.id))
            }
        }
    }

    /// Whether the head takes no step whatever its arguments are, so that the term is its own weak head form for a unit.
    #[tactic(auto, using(crate::proofs::Resting::stuck_rests, crate::proofs::Resting::symbol_rests, crate::proofs::Resting::bare_rests))]
    fn rests(&self, version: &Version, whole: TermId) -> bool
        requires whole { whole.0 < length self.now.pool }
        requires serves { Serves (entries_of version.now) self.now }
        ensures { IsTrue result
            → IsValue (entries_of version.now) self.now.pool whole.0
            (record { id = whole; units = 1 }) }
    {
        let _version = version;
        let mut head = whole;
        loop {
            match self.pool.get(head) {
                NodeOf::App(f, _) => head = f,
                NodeOf::Sym(k) => return self.stands(version, k),
                NodeOf::Abs(None, _) => return self.pool.same(head, whole),
                NodeOf::Star => return true,
                NodeOf::Kind => return true,
                NodeOf::Var(_) => return true,
                NodeOf::Rvar(_) => return true,
                NodeOf::Abs(Some(_), _) => return true,
                NodeOf::Prod(..) => return true,
            }
        }
    }

    /// Whether it is remembered that a symbol has no rules.
    fn stands(&self, version: &Version, symbol: u32) -> bool
        requires { Serves (entries_of version.now) self.now }
        ensures { IsTrue result → slice_get (rules_of (entries_of version.now) symbol) 0 ≡ None }
    {
        let _version = version;
        match self.heads.find(symbol, 0) {
            Some(Head::Stands) => true,
            Some(Head::Unfolds(_)) => false,
            None => false,
        }
    }
}
