//! Which symbol is to have a tree: one whose rules were gone through so often that a tree pays soon.
ghost use Rattle.std.specs.Prelude.{◌≡◌, ◌<◌, true, length};
ghost use Rattle.signature_log.specs.Rows.{row_rules};

use crate::table::Table;
use crate::trees::TreesInUse;
use dk_model::NoMemory;
use signature_log::Rows;
use std::alloc::Global;

/// Of how many symbols it is counted.
const SYMBOLS: usize = 1024;

/// From when on a symbol is to have a matching tree.
#[derive(Clone, Copy)]
pub struct TreeLimits {
    /// How many rules it has at least.
    pub fewest_rules: u32,
    /// How often they are gone through before. At 0 there is a tree at once.
    pub walks: u32,
}

/// The usual limits. So many walks take about as long as to compile the rules.
pub(crate) const USUAL: TreeLimits = TreeLimits {
    fewest_rules: 16,
    walks: 32,
};

/// How often the rules of symbols were gone through in a check.
#[derive(Drop)]
pub(crate) struct Walks {
    counts: Table<u32>,
    limits: TreeLimits,
}

impl Walks {
    pub(crate) fn new(alloc: Global, limits: TreeLimits) -> Result<Walks, NoMemory> {
        let counts = Table::new(alloc, SYMBOLS, 0)?;
        Ok(Walks { counts, limits })
    }

    /// Forgets all counts.
    pub(crate) fn clear(&mut self) {
        self.counts.clear();
    }

    /// Whether a symbol is to have a tree before its rules are gone through once more.
    pub(crate) fn wants_tree(&mut self, rules: &Rows, trees: &TreesInUse, symbol: u32) -> bool
        ensures room { result ≡ true → 0 < trees.now.room }
        ensures rules { result ≡ true → 0 < length (row_rules symbol rules.now) }
    {
        let fewest = self.limits.fewest_rules.max(1);
        if trees.room == 0 || rules.len() < fewest {
            return false;
        }
        if trees.find(symbol).is_some() {
            return false;
        }
        let walks = match self.counts.find(symbol, 0) {
            Some(before) => before.saturating_add(1),
            None => 1,
        };
        self.counts.put(symbol, 0, walks);
        walks > self.limits.walks
    }
}
