//! The matching trees of symbols with many rules, over one version.
ghost use Rattle.std.specs.Prelude.{◌≡◌, ◌≤◌, ◌<◌, IfSome, IfOk, length};
ghost use Rattle.dk_model.specs.Signatures.{PlainSignature};
ghost use Rattle.dk_model.specs.SymbolRules.{rules_of};
ghost use Rattle.rule_match.specs.Trees.{IsTree};

use dk_model::NoMemory;
use rule_match::Tree;
use std::alloc::Global;

/// How many symbols have a tree at most.
pub(crate) const MOST_TREES: usize = 64;

/// A symbol with the tree of its rules.
#[derive(Drop)]
pub(crate) struct SymbolTree {
    pub(crate) symbol: u32,
    pub(crate) tree: Tree,
}

/// The trees of symbols, in the order of their symbols.
#[derive(Drop)]
pub(crate) struct Trees {
    pub(crate) listed: Vec<SymbolTree>,
}

impl Trees {
    ghost use Rattle.conversion.specs.Trees.{AreTrees};

    /// None yet.
    pub(crate) fn new(alloc: Global) -> Trees
        ensures { (S : PlainSignature) → AreTrees S result }
    {
        Trees {
            listed: Vec::new(alloc),
        }
    }

    /// How many there are.
    pub(crate) fn len(&self) -> usize {
        self.listed.len()
    }

    /// The place where the tree of a symbol is, or would be.
    fn place_of(&self, symbol: u32) -> usize
        ensures { result ≤ length self.now.listed.items }
    {
        let mut low = 0;
        let mut high = self.listed.len();
        while low < high {
            let middle = low + (high - low) / 2;
            if self.listed[middle].symbol < symbol {
                low = middle + 1;
            } else {
                high = middle;
            }
        }
        low
    }

    /// The tree of a symbol, if it has one.
    pub(crate) fn find(&self, symbol: u32) -> Option<&Tree>
        ensures { IfSome result (λ tree. (S : PlainSignature) → AreTrees S self.now
            → IsTree (rules_of S symbol) tree.now) }
    {
        match self.listed.as_slice().get(self.place_of(symbol)) {
            Some(found) if found.symbol == symbol => Some(&found.tree),
            _ => None,
        }
    }

    /// Puts in the tree of a symbol.
    #[tactic(auto, using(crate::proofs::Treeing::tree_put))]
    pub(crate) fn put(&mut self, symbol: u32, tree: Tree) -> Result<(), NoMemory>
        ensures { (S : PlainSignature) → AreTrees S self.old → IsTree (rules_of S symbol) tree
            → AreTrees S self.new }
    {
        let place = self.place_of(symbol);
        self.listed.insert(place, SymbolTree { symbol, tree })?;
        Ok(())
    }

    /// Puts in those of another. Where memory ends, the rest of them is dropped.
    pub(crate) fn put_all(&mut self, others: Trees)
        ensures { (S : PlainSignature) → AreTrees S self.old → AreTrees S others
            → AreTrees S self.new }
    {
        let mut others = others.listed;
        while let Some(other) = others.pop() {
            if self.put(other.symbol, other.tree).is_err() {
                return;
            }
        }
    }
}

/// A tree that was compiled while an evaluation was under way.
#[derive(Clone, Copy)]
pub(crate) struct NewTree<'v> {
    pub(crate) symbol: u32,
    pub(crate) tree: &'v Tree,
}

/// The trees that an evaluation selects by: those that the reducer had when it began, and those that were compiled since.
#[derive(Drop)]
pub(crate) struct TreesInUse<'v> {
    pub(crate) kept: &'v Trees,
    pub(crate) new: Vec<NewTree<'v>>,
    /// How many more there may be.
    pub(crate) room: usize,
}

impl<'v> TreesInUse<'v> {
    ghost use Rattle.conversion.specs.Trees.{AreTrees, AreInUse};

    /// Those that the reducer has.
    pub(crate) fn of(alloc: Global, kept: &'v Trees) -> TreesInUse<'v>
        ensures { (S : PlainSignature) → AreTrees S kept.now → AreInUse S result }
    {
        TreesInUse {
            kept,
            new: Vec::new(alloc),
            room: MOST_TREES.saturating_sub(kept.len()),
        }
    }

    /// The tree of a symbol, if it has one.
    pub(crate) fn find(&self, symbol: u32) -> Option<&'v Tree>
        ensures { IfSome result (λ tree. (S : PlainSignature) → AreInUse S self.now
            → IsTree (rules_of S symbol) tree.now) }
    {
        if let Some(tree) = self.kept.find(symbol) {
            return Some(tree);
        }
        for at in 0..self.new.len() {
            let new = self.new[at];
            if new.symbol == symbol {
                return Some(new.tree);
            }
        }
        None
    }

    /// With the tree of one more symbol.
    pub(crate) fn with(self, symbol: u32, tree: &'v Tree) -> Result<TreesInUse<'v>, NoMemory>
        requires room { 0 < self.room }
        ensures trees { IfOk result (λ more. (S : PlainSignature) → AreInUse S self.entry
            → IsTree (rules_of S symbol) tree.now → AreInUse S more) }
        ensures room { IfOk result (λ more. more.room < self.entry.room) }
    {
        let mut new = self.new;
        new.push(NewTree { symbol, tree })?;
        Ok(TreesInUse {
            kept: self.kept,
            new,
            room: self.room - 1,
        })
    }
}
