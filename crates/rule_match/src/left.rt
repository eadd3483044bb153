//! The rows that are left of a selection: those of a node, or rows that were worked out.
ghost use Rattle.std.specs.Prelude.{◌≡◌, ◌≤◌, ◌<◌, ◌+◌, ◌^◌, IfOk, IfSome, List, slice_get, map, drop};
ghost use Rattle.std.specs.Option.{option_copied, option_map};
ghost use Rattle.dk_model.specs.Signatures.{PlainRule};
ghost use Rattle.dk_model.specs.Matrix.{rows_for, width, width as width_of};
ghost use Rattle.rule_match.specs.Rows.{row as row_of};
ghost use Rattle.rule_match.specs.declared.left.Left.TheVariants.{Kept, Whole};
ghost use Rattle.rule_match.specs.Keys.{rows_by};
ghost use Rattle.rule_match.specs.Sides.{AreLeftSides};
ghost use Rattle.rule_match.specs.Branches.{IsNode};
ghost use Rattle.rule_match.specs.Trees.{IsTree};
ghost use Rattle.rule_match.specs.Remaining.{rows_left, IsLeft, Follows, GoesOn, IsRoot, IsSource, IsLeftOf, HasVariables, WalksFrom, rule_count};

use crate::branch::{Node, found};
use crate::cell::{Row, seen_row, seen_rows};
use crate::key::Key;
use crate::refine::{refined_rows, untried};
use crate::side::{rows_for, width};
use crate::tree::Tree;
use crate::walk::{LeftSide, walked_kept, walked_row, walked_rows, walked_width, widest_side};
use dk_model::NoMemory;
use std::alloc::Global;

/// The rows that are left.
#[derive(Drop)]
pub(crate) enum Left<'t> {
    /// Those of a node.
    Kept(&'t Node),
    /// All rules, none of which has more patterns than there are arguments, as rows of so many cells.
    Whole(usize),
    Walked(Vec<Row<'t>>),
}

/// Where the rules of a selection stand.
#[derive(Drop)]
pub(crate) enum Source<'t> {
    Tree(&'t Tree),
    /// Where they were declared: they have no tree.
    Sides(Vec<LeftSide<'t>>),
}

/// The row of the rule at a place.
fn whole_row<'t>(
    alloc: Global,
    source: &Source<'t>,
    width: usize,
    at: usize,
) -> Result<Option<Row<'t>>, NoMemory>
    ensures is { IfOk result (λ o. (rules : List PlainRule) → IsSource rules source.now
        → IsLeftOf rules source.now (Whole width)
        → option_map (row_of rules) o ≡ slice_get (rows_for width width rules) at) }
    ensures counted { IfOk result (λ o. IfSome o (λ _. at + 1 < 2 ^ 64)) }
{
    match source {
        Source::Tree(_) => Ok(None),
        Source::Sides(sides) => match sides.get(at) {
            Some(side) => Ok(Some(walked_row(alloc, width, *side, at)?)),
            None => Ok(None),
        },
    }
}

/// The row at a place.
pub(crate) fn row_at<'t>(
    alloc: Global,
    source: &Source<'t>,
    left: &Left<'t>,
    at: usize,
) -> Result<Option<Row<'t>>, NoMemory>
    ensures is { IfOk result (λ o. (rules : List PlainRule) → IsSource rules source.now
        → IsLeftOf rules source.now left.now
        → option_map (row_of rules) o ≡ slice_get (rows_left rules left.now) at) }
    ensures counted { IfOk result (λ o. IfSome o (λ _. at + 1 < 2 ^ 64)) }
{
    match left {
        Left::Kept(node) => match node.rows.get(at) {
            Some(row) => Ok(Some(seen_row(alloc, row)?)),
            None => Ok(None),
        },
        Left::Whole(width) => whole_row(alloc, source, *width, at),
        Left::Walked(rows) => match rows.get(at) {
            Some(row) => {
                let cells = Vec::from_slice(alloc, row.cells.as_slice())?;
                Ok(Some(Row { cells, at: row.at }))
            }
            None => Ok(None),
        },
    }
}

/// The node at a place.
fn node_at<'t>(tree: &'t Tree, place: usize) -> Option<&'t Node>
    ensures { option_copied result ≡ slice_get tree.now.nodes.items place }
{
    tree.nodes.as_slice().get(place)
}

/// The node that a test at this column goes to.
fn branch_for<'t>(
    tree: &'t Tree,
    node: &'t Node,
    tried: usize,
    key: Key,
    column: usize,
) -> Option<&'t Node>
    ensures { IfSome result (λ child. (rules : List PlainRule) → IsTree rules tree.now
        → IsNode rules tree.now.nodes.items node.now
        → Follows rules tree.now node.now tried key column child.now) }
{
    if node.tried != tried || node.column != column {
        return None;
    }
    match found(node.branches.as_slice(), key) {
        Some(place) => node_at(tree, place),
        None => None,
    }
}

/// The node that the tree goes to from the rows that are left, where it has one for this head.
fn next_node<'t>(
    source: &Source<'t>,
    left: &Left<'t>,
    tried: usize,
    key: Key,
    column: usize,
) -> Option<&'t Node>
    ensures { IfSome result (λ child. (rules : List PlainRule) → IsSource rules source.now
        → IsLeftOf rules source.now left.now
        → GoesOn rules source.now left.now tried key column (Kept child)) }
{
    match source {
        Source::Tree(tree) => match left {
            Left::Kept(node) => branch_for(tree, node, tried, key, column),
            Left::Whole(_) => None,
            Left::Walked(_) => None,
        },
        Source::Sides(_) => None,
    }
}

/// The rows of all rules that are kept where the value of this column has this head.
fn whole_for<'t>(
    alloc: Global,
    source: &Source<'t>,
    width: usize,
    tried: usize,
    key: Key,
    column: usize,
) -> Result<Vec<Row<'t>>, NoMemory>
    ensures { IfOk result (λ kept. (rules : List PlainRule) → IsSource rules source.now
        → IsLeftOf rules source.now (Whole width)
        → map (row_of rules) kept.items ≡ rows_by key column (drop tried (rows_for width width rules))) }
{
    match source {
        Source::Tree(_) => Ok(Vec::new(alloc)),
        Source::Sides(sides) => walked_kept(alloc, sides.as_slice(), width, tried, key, column),
    }
}

/// The rows that are kept where the value of this column has this head, worked out.
fn walked_for<'t>(
    alloc: Global,
    source: &Source<'t>,
    left: &Left<'t>,
    tried: usize,
    key: Key,
    column: usize,
) -> Result<Vec<Row<'t>>, NoMemory>
    ensures { IfOk result (λ kept. (rules : List PlainRule) → IsSource rules source.now
        → IsLeftOf rules source.now left.now
        → map (row_of rules) kept.items ≡ rows_by key column (drop tried (rows_left rules left.now))) }
{
    match left {
        Left::Kept(node) => {
            let rows = seen_rows(alloc, node.rows.as_slice())?;
            refined_rows(alloc, key, column, untried(rows.as_slice(), tried))
        }
        Left::Whole(width) => whole_for(alloc, source, *width, tried, key, column),
        Left::Walked(rows) => refined_rows(alloc, key, column, untried(rows.as_slice(), tried)),
    }
}

/// The rows that are kept where the value of this column has this head.
pub(crate) fn kept_for<'t>(
    alloc: Global,
    source: &Source<'t>,
    left: &Left<'t>,
    tried: usize,
    key: Key,
    column: usize,
) -> Result<Left<'t>, NoMemory>
    ensures { IfOk result (λ next. (rules : List PlainRule) → IsSource rules source.now
        → IsLeftOf rules source.now left.now → GoesOn rules source.now left.now tried key column next) }
{
    if let Some(child) = next_node(source, left, tried, key, column) {
        return Ok(Left::Kept(child));
    }
    let kept = walked_for(alloc, source, left, tried, key, column)?;
    Ok(Left::Walked(kept))
}

/// How many variables a rule has.
pub(crate) fn variable_count(source: &Source, at: usize) -> u32
    requires { at < rule_count source.now }
    ensures { (rules : List PlainRule) → IsSource rules source.now → HasVariables rules at result }
{
    match source {
        Source::Tree(tree) => tree.sides[at].vars,
        Source::Sides(sides) => sides[at].vars,
    }
}

/// How many columns the rules need before so many arguments.
pub(crate) fn width_before(tree: &Tree, count: usize) -> usize
    ensures within { result ≤ count }
    ensures width { (rules : List PlainRule) → IsTree rules tree.now → result ≡ width count rules }
{
    if count >= tree.widest {
        tree.widest
    } else {
        width(count, tree.sides.as_slice()).min(count)
    }
}

/// The rows of the rules before so many arguments.
#[tactic(auto, using(crate::proofs::Following::root_rows))]
pub(crate) fn left_before<'t>(
    alloc: Global,
    tree: &'t Tree,
    count: usize,
    width: usize,
) -> Result<Left<'t>, NoMemory>
    ensures rows { IfOk result (λ left. (rules : List PlainRule) → IsTree rules tree.now
        → width ≡ width_of count rules → rows_left rules left ≡ rows_for count width rules) }
    ensures is { IfOk result (λ left. (rules : List PlainRule) → IsTree rules tree.now
        → IsLeft rules tree.now left) }
{
    if count >= tree.widest {
        if let Some(root) = root_of(tree) {
            return Ok(Left::Kept(root));
        }
    }
    Ok(Left::Walked(rows_for(alloc, count, width, tree.sides.as_slice())?))
}

/// The rows of rules without a tree before so many arguments, and how many columns they have.
pub(crate) fn walked_before<'t>(
    alloc: Global,
    sides: &[LeftSide<'t>],
    count: usize,
) -> Result<(usize, Left<'t>), NoMemory>
    ensures within { IfOk result (λ r. r.0 ≤ count) }
    ensures begins { IfOk result (λ r. (rules : List PlainRule) → AreLeftSides rules sides.now
        → WalksFrom rules count r.0 r.1) }
{
    let widest = widest_side(sides);
    if widest <= count {
        return Ok((widest, Left::Whole(widest)));
    }
    let width = walked_width(count, sides);
    let rows = walked_rows(alloc, count, width, sides)?;
    Ok((width, Left::Walked(rows)))
}

/// The first node.
fn root_of<'t>(tree: &'t Tree) -> Option<&'t Node>
    ensures { IfSome result (λ node. (rules : List PlainRule) → IsTree rules tree.now
        → IsRoot rules tree.now node.now) }
{
    match tree.root {
        Some(place) => node_at(tree, place),
        None => None,
    }
}
