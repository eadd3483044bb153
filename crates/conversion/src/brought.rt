//! The right sides of rules, each brought into the pool once.
ghost use Rattle.std.specs.Prelude.{◌≡◌, ◌<◌, IfOk, length};
ghost use Rattle.dk_model.specs.SymbolRules.{rules_of};
ghost use Rattle.shared_term.specs.Pools.{Extends};
ghost use Rattle.signature_log.specs.Versions.{entries_of};
ghost use Rattle.conversion.specs.Reducers.{Serves, IsLoaded};

use crate::PoolReducer;
use crate::rules::rule_at;
use dk_model::NoMemory;
use shared_term::TermId;
use signature_log::Version;

impl PoolReducer {
    /// The right side of the rule at a place among those of a symbol.
    #[tactic(auto, using(crate::proofs::Winding::extends_none, crate::proofs::Serving::loaded_grown, crate::proofs::Serving::heads_grown, crate::proofs::Serving::values_grown, crate::proofs::Serving::normals_grown, crate::proofs::Serving::answers_grown))]
    pub(crate) fn brought(
        &mut self,
        version: &Version,
        symbol: u32,
        at: u32,
    ) -> Result<TermId, NoMemory>
        requires place { at < length (rules_of (entries_of version.now) symbol) }
        requires serves { Serves (entries_of version.now) self.old }
        ensures gives { IfOk result (IsLoaded (entries_of version.now) self.new.pool symbol at) }
        ensures keeps { Extends self.old.pool self.new.pool }
        ensures serves { Serves (entries_of version.now) self.new }
    {
        if let Some(found) = self.loaded.find(symbol, at) {
            return Ok(found);
        }
        let rule = rule_at(&version.rules_of(symbol), symbol, at);
        let right = self.pool.load(rule.right())?;
        self.loaded.put(symbol, at, right);
        Ok(right)
    }
}
