//! Rows compiled to tests.
ghost use Rattle.std.specs.Prelude.{◌≡◌, ◌≤◌, IfOk, IfSome, List, map};
ghost use Rattle.dk_model.specs.Signatures.{PlainRule};
ghost use Rattle.rule_match.specs.Rows.{row as row_of};
ghost use Rattle.rule_match.specs.Branches.{AreTests, AddsRows};

use crate::branch::{Node, put_branch};
use crate::cell::{Row, kept_rows};
use crate::group::grouped;
use crate::refine::{rigid_at, untried};
use dk_model::NoMemory;
use std::alloc::Global;

/// How many rows come before the first one that asks for a head, and the column whose head that one asks for.
fn test_of(rows: &[Row]) -> (usize, usize) {
    for tried in 0..rows.len() {
        if let Some(column) = rigid_at(rows[tried].cells.as_slice()) {
            return (tried, column);
        }
    }
    (rows.len(), 0)
}

/// Puts a node for these rows behind those that it goes to, and answers its place. None where the budget of nodes
/// ends.
pub(crate) fn compiled(
    alloc: Global,
    nodes: &mut Vec<Node>,
    rows: &[Row],
    budget: &mut u32,
) -> Result<Option<usize>, NoMemory>
    ensures adds { IfOk result (λ place. IfSome place (λ i. (rules : List PlainRule)
        → AreTests rules nodes.old.items
        → AddsRows rules nodes.old.items nodes.new.items (map (row_of rules) rows.now) i)) }
    ensures spent { budget.new ≤ budget.old }
{
    if *budget == 0 {
        return Ok(None);
    }
    *budget -= 1;
    let (tried, column) = test_of(rows);
    let groups = grouped(alloc, column, untried(rows, tried))?;
    let mut branches = Vec::new(alloc);
    for group in &groups {
        match compiled(alloc, nodes, group.rows.as_slice(), budget)? {
            None => return Ok(None),
            Some(node) => put_branch(&mut branches, group.key, node)?,
        }
    }
    let place = nodes.len();
    let node = Node {
        rows: kept_rows(alloc, rows)?,
        tried,
        column,
        branches,
    };
    nodes.push(node)?;
    Ok(Some(place))
}
