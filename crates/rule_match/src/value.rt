//! The value of a column: its head, and the columns that it opens.
ghost use Rattle.std.specs.Prelude.{◌≡◌, ◌+◌, ◌≤◌, ◌<◌, [], ◌∷◌, IfOk, Some, List, length, map, take, slice_get, slice_set, vec_len};
ghost use Rattle.dk_model.specs.Trees.{Tree};
ghost use Rattle.dk_model.specs.Spines.{arguments};
ghost use Rattle.dk_model.specs.Matrix.{opened_columns, is_bare};
ghost use Rattle.shared_term.specs.Pools.{term, denoted};
ghost use Rattle.rule_match.specs.Keys.{key_at, key_of};
ghost use Rattle.rule_match.specs.Columns.{value_put, plain, argument_column, behind, from_top, AreWithin, AreColumns, IsHeadOf};

use crate::key::Key;
use dk_model::{NoMemory, NodeOf};
use shared_term::{Node, Pool, TermId, unwind};
use std::alloc::Global;

/// A part of the arguments.
#[derive(Clone, Copy)]
pub(crate) struct Column {
    /// How many variables a pattern binds there.
    pub(crate) depth: u64,
    pub(crate) term: TermId,
}

/// The column at a place.
pub(crate) fn column_of(columns: &[Column], at: usize) -> Column
    requires { at < length columns.now }
    ensures { slice_get columns.now at ≡ Some result }
{
    match columns.get(at) {
        Some(column) => *column,
        None => unreachable!(),
    }
}

/// Columns of the first `width` arguments of a stack.
#[tactic(auto, using(crate::proofs::Opening::column_pushed))]
pub(crate) fn first_columns(
    alloc: Global,
    width: usize,
    stack: &[TermId],
) -> Result<Vec<Column>, NoMemory>
    requires { width ≤ length stack.now }
    ensures { IfOk result (λ columns. columns.items
        ≡ map (argument_column 0) (take width (from_top stack.now))) }
{
    let mut columns = Vec::new(alloc);
    for i in 0..width {
        columns.push(Column {
            depth: 0,
            term: stack[stack.len() - 1 - i],
        })?;
    }
    Ok(columns)
}

fn is_bare(node: Node) -> bool
    ensures { (ts : List Tree) → result ≡ is_bare (denoted ts node) }
{
    match node {
        NodeOf::Abs(None, _) => true,
        _ => false,
    }
}

fn key_at(head: Node, count: usize) -> Key
    ensures { (ts : List Tree) → result ≡ key_at (denoted ts head) count }
{
    match head {
        NodeOf::Sym(k) => Key::Symbol(k, count),
        NodeOf::Var(k) => Key::Variable(k, count),
        _ => Key::Other(count),
    }
}

/// The head of a value, of which the head's node and the number of arguments are known.
#[tactic(auto, using(crate::proofs::Opening::key_bare, crate::proofs::Opening::key_else))]
fn key_of(pool: &Pool, value: TermId, head: TermId, count: usize) -> Key
    requires value { value.0 < length pool.now }
    requires head { head.0 < length pool.now }
    ensures { IsHeadOf (term pool.now head) count (term pool.now value)
        → result ≡ key_of (term pool.now value) }
{
    if is_bare(pool.get(value)) {
        return Key::Abstraction;
    }
    key_at(pool.get(head), count)
}

/// The head of a value and the columns that it opens at this depth.
pub(crate) fn taken_apart(
    alloc: Global,
    pool: &Pool,
    depth: u64,
    value: TermId,
) -> Result<(Key, Vec<Column>), NoMemory>
    requires { value.0 < length pool.now }
    ensures key { IfOk result (λ r. r.0 ≡ key_of (term pool.now value)) }
    ensures opens { IfOk result (λ r. plain pool.now r.1.items
        ≡ opened_columns depth (term pool.now value)) }
    ensures within { IfOk result (λ r. AreColumns (length pool.now) r.1.items) }
{
    let mut arguments = Vec::new(alloc);
    let head = unwind(pool, value, &mut arguments)?;
    let key = key_of(pool, value, head, arguments.len());
    let columns = opened(alloc, pool, depth, value, arguments)?;
    Ok((key, columns))
}

/// The columns that a value opens: its body under one more binder, or its arguments, which lie on the stack.
#[tactic(auto, using(crate::proofs::Opening::arguments_opened, crate::proofs::Opening::arguments_within))]
fn opened(
    alloc: Global,
    pool: &Pool,
    depth: u64,
    value: TermId,
    stack: Vec<TermId>,
) -> Result<Vec<Column>, NoMemory>
    requires value { value.0 < length pool.now }
    requires stack { AreWithin (length pool.now) stack.items }
    requires arguments { arguments (term pool.now value) ≡ from_top (behind pool.now stack.items) }
    ensures opens { IfOk result (λ columns. plain pool.now columns.items
        ≡ opened_columns depth (term pool.now value)) }
    ensures within { IfOk result (λ columns. AreColumns (length pool.now) columns.items) }
{
    match pool.get(value) {
        NodeOf::Abs(None, body) => body_column(alloc, depth, body),
        _ => argument_columns(alloc, depth, stack),
    }
}

/// A column for the body of an abstraction at this depth.
fn body_column(alloc: Global, depth: u64, body: TermId) -> Result<Vec<Column>, NoMemory>
    ensures { IfOk result (λ columns. columns.items ≡ argument_column (depth + 1) body ∷ []) }
{
    let mut columns = Vec::new(alloc);
    match depth.checked_add(1) {
        Some(depth) => columns.push(Column { depth, term: body })?,
        None => return Err(NoMemory),
    }
    Ok(columns)
}

/// A column at this depth for each argument of a stack, the top one first.
#[tactic(auto, using(crate::proofs::Opening::from_top_pushed))]
fn argument_columns(alloc: Global, depth: u64, stack: Vec<TermId>) -> Result<Vec<Column>, NoMemory>
    ensures { IfOk result (λ columns. columns.items
        ≡ map (argument_column depth) (from_top stack.items)) }
{
    let mut stack = stack;
    let mut columns = Vec::new(alloc);
    while let Some(argument) = stack.pop() {
        columns.push(Column {
            depth,
            term: argument,
        })?;
    }
    Ok(columns)
}

/// The columns with a value in the place of the term at `at`, and behind it those of its parts.
pub(crate) fn spliced(
    columns: Vec<Column>,
    at: usize,
    value: TermId,
    parts: Vec<Column>,
) -> Result<Vec<Column>, NoMemory>
    requires { at < vec_len columns }
    ensures { IfOk result (λ new. new.items ≡ value_put columns.items at value parts.items) }
{
    let depth = column_of(columns.as_slice(), at).depth;
    let mut parts = parts;
    let mut columns = columns;
    let mut behind = columns.split_off(at + 1)?;
    columns.truncate(at);
    columns.push(Column { depth, term: value })?;
    columns.append(&mut parts)?;
    columns.append(&mut behind)?;
    Ok(columns)
}

/// Puts a column in the place of another.
pub(crate) fn put_column(columns: &mut Vec<Column>, at: usize, column: Column)
    requires { at < vec_len columns.old }
    ensures { columns.new.items ≡ slice_set columns.old.items at column }
{
    columns[at] = column;
}
