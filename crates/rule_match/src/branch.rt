//! The tests of a tree: a node tests the head of one column, and goes to the branch of that head.
ghost use Rattle.std.specs.Prelude.{◌≡◌, ◌≤◌, ℕ, List, IfSome, OnOk, length};
ghost use Rattle.dk_model.specs.Signatures.{PlainRule};
ghost use Rattle.dk_model.specs.Matrix.{Row};
ghost use Rattle.rule_match.specs.declared.branch.Node.{Node};
ghost use Rattle.rule_match.specs.Keys.{rows_by};
ghost use Rattle.rule_match.specs.Branches.{AreBranches, HasBranch, HasRows};

use crate::cell::KeptRow;
use crate::key::{Key, is_before, same};
use dk_model::NoMemory;

/// Where a node goes for a head.
#[derive(Clone, Copy)]
pub(crate) struct Branch {
    pub(crate) key: Key,
    /// The place of the next node.
    pub(crate) node: usize,
}

/// The rows that are left at a node, and its test.
#[derive(Drop)]
pub(crate) struct Node {
    pub(crate) rows: Vec<KeptRow>,
    /// How many of the rows come before the one that asks for a head.
    pub(crate) tried: usize,
    /// The column whose head that row asks for.
    pub(crate) column: usize,
    /// In the order of their heads.
    pub(crate) branches: Vec<Branch>,
}

/// The place where the branch of a head is, or would be.
pub(crate) fn place_of(branches: &[Branch], key: Key) -> usize
    ensures { result ≤ length branches.now }
{
    let mut low = 0;
    let mut high = branches.len();
    while low < high {
        let middle = low + (high - low) / 2;
        if is_before(branches[middle].key, key) {
            low = middle + 1;
        } else {
            high = middle;
        }
    }
    low
}

/// Puts in a branch of this head.
#[tactic(auto, using(crate::proofs::Compiling::branches_inserted))]
pub(crate) fn put_branch(branches: &mut Vec<Branch>, key: Key, node: usize) -> Result<(), NoMemory>
    ensures { OnOk result ((rules : List PlainRule) (nodes : List Node) (column : ℕ)
        (rows : List Row)
        → AreBranches rules nodes column rows branches.old.items
        → HasRows rules nodes node (rows_by key column rows)
        → AreBranches rules nodes column rows branches.new.items) }
{
    let place = place_of(branches.as_slice(), key);
    branches.insert(place, Branch { key, node })?;
    Ok(())
}

/// Where the branch of a head goes, if there is one.
pub(crate) fn found(branches: &[Branch], key: Key) -> Option<usize>
    ensures { IfSome result (HasBranch branches.now key) }
{
    match branches.get(place_of(branches, key)) {
        Some(branch) => {
            if same(branch.key, key) {
                Some(branch.node)
            } else {
                None
            }
        }
        None => None,
    }
}
