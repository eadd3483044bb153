//! The tree of a symbol's rules.
ghost use Rattle.std.specs.Prelude.{◌≡◌, ◌≤◌, IfOk, IfSome, List};
ghost use Rattle.dk_model.specs.Signatures.{PlainRule};
ghost use Rattle.dk_model.specs.Matrix.{rows_for};
ghost use Rattle.rule_match.specs.Sides.{AreSides, AreLeftSides};
ghost use Rattle.rule_match.specs.Branches.{AreTests, AddsRows};
ghost use Rattle.rule_match.specs.Trees.{HasNodes, IsTree, IsPlaced};

use crate::branch::Node;
use crate::nodes::compiled;
use crate::side::{Side, rows_for, sides_of, widest};
use crate::walk::LeftSide;
use dk_model::NoMemory;
use std::alloc::Global;

/// How many nodes a tree has at most.
const NODES: u32 = 4096;

/// The rules of one symbol, compiled to tests of heads.
#[derive(Drop)]
pub struct Tree {
    pub(crate) sides: Vec<Side>,
    /// The greatest number of patterns.
    pub(crate) widest: usize,
    /// Each behind those that it goes to.
    pub(crate) nodes: Vec<Node>,
    /// The first node before so many arguments and more; without it the rows are gone through one by one.
    pub(crate) root: Option<usize>,
}

/// Puts the nodes of the rules before at least `widest` arguments.
#[tactic(auto, using(crate::proofs::Siding::root_added))]
fn rooted(
    alloc: Global,
    nodes: &mut Vec<Node>,
    sides: &[Side],
    widest: usize,
) -> Result<Option<usize>, NoMemory>
    ensures { IfOk result (λ root. IfSome root (λ i. (rules : List PlainRule)
        → AreSides rules sides.now → AreTests rules nodes.old.items
        → AddsRows rules nodes.old.items nodes.new.items (rows_for widest widest rules) i)) }
{
    let rows = rows_for(alloc, widest, widest, sides)?;
    let mut budget = NODES;
    compiled(alloc, nodes, rows.as_slice(), &mut budget)
}

/// The nodes of these left sides, and the left sides as copies of them.
fn tree_of(alloc: Global, sides: &[LeftSide]) -> Result<Tree, NoMemory>
    ensures { IfOk result (λ tree. (rules : List PlainRule) → AreLeftSides rules sides.now
        → HasNodes rules tree) }
{
    let sides = sides_of(alloc, sides)?;
    let widest = widest(sides.as_slice());
    let mut nodes = Vec::new(alloc);
    let root = rooted(alloc, &mut nodes, sides.as_slice(), widest)?;
    if root.is_none() {
        nodes = Vec::new(alloc);
    }
    Ok(Tree {
        sides,
        widest,
        nodes,
        root,
    })
}

/// The rules of one symbol, by their left sides, as a tree of tests; past the limit of nodes as rows.

pub fn compile(alloc: Global, sides: &[LeftSide]) -> Result<Tree, NoMemory>
    ensures is { IfOk result (λ tree. (rules : List PlainRule) → AreLeftSides rules sides.now
        → IsTree rules tree) }
    ensures placed { IfOk result IsPlaced }
{
    tree_of(alloc, sides)
}

impl Tree {
    /// How many nodes there are, from 1; 0 where the rows are kept in place of nodes.
    pub fn nodes(&self) -> u32 {
        match self.root {
            Some(place) => match u32::try_from(place) {
                Ok(before) => before.saturating_add(1),
                Err(_) => u32::MAX,
            },
            None => 0,
        }
    }
}
