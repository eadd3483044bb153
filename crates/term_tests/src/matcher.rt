//! Selections by asks: which column is asked for, which rule is taken, and its captures.
ghost use Rattle.std.specs.Prelude.{◌<◌, length, IfOk};
ghost use Rattle.rule_match.specs.Columns.{AreWithin};
ghost use Rattle.rule_match.specs.Selecting.{IsMatcher, AwaitsAnswer};
ghost use Rattle.rule_match.specs.Trees.{IsPlaced};
ghost use Rattle.shared_term.specs.Pools.{Extends};

use crate::texts::{Parts, version_of_text};
use dk_model::{Entry, NoMemory, NodeOf, Rule};
use rule_match::{Answer, Ask, LeftSide, Matcher, Tree, compile};
use shared_term::{Pool, Stored, TermId};
use signature_log::Version;
use std::alloc::Global;

/// The rules of the last command of a version.
fn last_rules(version: &Version) -> &[Rule<Stored>] {
    match version.get(version.len().saturating_sub(1)) {
        Some(Entry::Rules(rules)) => rules.as_slice(),
        _ => &[],
    }
}

fn compiled(alloc: Global, rules: &[Rule<Stored>]) -> Result<Tree, NoMemory>
    ensures { IfOk result IsPlaced }
{
    let mut sides = Vec::new(alloc);
    for rule in rules {
        sides.push(LeftSide {
            patterns: rule.pats.as_slice(),
            vars: rule.vars,
        })?;
    }
    compile(alloc, sides.as_slice())
}

/// The tree of the rules that end a text.
fn tree_of(alloc: Global, parts: &[(&str, u32)]) -> Result<Tree, NoMemory>
    ensures { IfOk result IsPlaced }
{
    let version = version_of_text(alloc, parts)?;
    compiled(alloc, last_rules(&version))
}

/// What the selection asks for once it is told whether two terms are alike, or that a term stands; where it asks for
/// neither, want of memory.
fn tell(
    matcher: &mut Matcher,
    pool: &mut Pool,
    ask: &Ask,
    term: TermId,
    alike: bool,
) -> Result<Ask, NoMemory>
    requires within { IsMatcher (length pool.old) matcher.old }
    requires awaits { AwaitsAnswer matcher.old ask.now }
    requires term { term.0 < length pool.old }
{
    match ask {
        Ask::Evaluate(_) => matcher.next(pool, Answer::Value(term)),
        Ask::Same(_, _) if alike => matcher.next(pool, Answer::Yes),
        Ask::Same(_, _) => matcher.next(pool, Answer::No),
        _ => Err(NoMemory),
    }
}

/// A rule, and how many captures it has, each of them this one of the arguments.
type Taken = (usize, usize, usize);

/// Whether this rule is taken with these captures, or none.
fn is_taken(ask: &Ask, arguments: &[TermId], due: Option<Taken>) -> bool {
    match (ask, due) {
        (Ask::Take(at, captures), Some((rule, count, capture))) => {
            *at == rule
                && captures.len() == count
                && captures
                    .iter()
                    .all(|found| *found == arguments.get(capture).copied())
        }
        (Ask::Nothing, None) => true,
        _ => false,
    }
}

/// Whether the selection for two arguments, the first one on top, asks first for column 0, or whether two terms are alike,
/// and, once it is told that the first one stands, or that, takes this rule, or none.
fn selects(
    alloc: Global,
    pool: &mut Pool,
    tree: &Tree,
    arguments: [TermId; 2],
    row: &Row,
) -> Result<bool, NoMemory>
    requires within { AreWithin (length pool.old) arguments }
    requires placed { IsPlaced tree.now }
{
    let mut matcher = Matcher::start(alloc, tree, &arguments)?;
    let ask = matcher.next(pool, Answer::Begin)?;
    let is_asked = match &ask {
        Ask::Evaluate(column) => *column == 0 && row.alike.is_none(),
        Ask::Same(_, _) => row.alike.is_some(),
        _ => false,
    };
    let last = tell(
        &mut matcher,
        pool,
        &ask,
        arguments[1],
        row.alike == Some(true),
    )?;
    Ok(is_asked && is_taken(&last, &arguments, row.taken))
}

/// An argument, which stands.
#[derive(Clone, Copy)]
enum Argument {
    Symbol(u32),
    /// `s z`, of the first two symbols.
    Successor,
    Variable(u32),
}

/// A text whose rules have a tree of so many nodes, where they have one.
struct Row {
    parts: Parts,
    nodes: u32,
    /// The second argument, and the first one.
    arguments: [Argument; 2],
    /// Whether the two are told to be alike, where that is asked.
    alike: Option<bool>,
    taken: Option<Taken>,
}

/// A node for the first cell of each rule, and the first one.
const PLUS: Parts = &[
    ("z : Type. s : Type. def plus : Type. ", 1),
    (
        "[y] plus z y --> y [x, y] plus (s x) y --> s (plus x y).",
        1,
    ),
];

const SAME: Parts = &[("def same : Type. [x] same x x --> Type.", 1)];

const HEADS_100: Parts = &[
    ("c$ : Type. ", 100),
    ("def f : Type. ", 1),
    ("[] f c$ --> c0 ", 100),
    (".", 1),
];

const HEADS_4095: Parts = &[
    ("c$ : Type. ", 4_096),
    ("def f : Type. ", 1),
    ("[] f c$ --> c0 ", 4_095),
    (".", 1),
];

const HEADS_4096: Parts = &[
    ("c$ : Type. ", 4_096),
    ("def f : Type. ", 1),
    ("[] f c$ --> c0 ", 4_096),
    (".", 1),
];

const ROWS: [Row; 9] = [
    Row {
        parts: PLUS,
        nodes: 3,
        arguments: [Argument::Symbol(0), Argument::Symbol(0)],
        alike: None,
        taken: Some((0, 1, 0)),
    },
    Row {
        parts: PLUS,
        nodes: 3,
        arguments: [Argument::Symbol(0), Argument::Successor],
        alike: None,
        taken: Some((1, 2, 0)),
    },
    Row {
        parts: PLUS,
        nodes: 3,
        arguments: [Argument::Symbol(0), Argument::Variable(7)],
        alike: None,
        taken: None,
    },
    Row {
        parts: SAME,
        nodes: 1,
        arguments: [Argument::Variable(8), Argument::Variable(7)],
        alike: Some(true),
        taken: Some((0, 1, 1)),
    },
    Row {
        parts: SAME,
        nodes: 1,
        arguments: [Argument::Variable(8), Argument::Variable(7)],
        alike: Some(false),
        taken: None,
    },
    Row {
        parts: HEADS_100,
        nodes: 101,
        arguments: [Argument::Symbol(0), Argument::Symbol(70)],
        alike: None,
        taken: Some((70, 0, 0)),
    },
    Row {
        parts: HEADS_100,
        nodes: 101,
        arguments: [Argument::Symbol(0), Argument::Symbol(100)],
        alike: None,
        taken: None,
    },
    // A tree has 4,096 nodes at the most.
    Row {
        parts: HEADS_4095,
        nodes: 4_096,
        arguments: [Argument::Symbol(0), Argument::Symbol(4_000)],
        alike: None,
        taken: Some((4_000, 0, 0)),
    },
    Row {
        parts: HEADS_4096,
        nodes: 0,
        arguments: [Argument::Symbol(0), Argument::Symbol(4_000)],
        alike: None,
        taken: Some((4_000, 0, 0)),
    },
];

fn interned(pool: &mut Pool, argument: Argument) -> Result<TermId, NoMemory>
    ensures within { IfOk result (λ id. id.0 < length pool.new) }
    ensures keeps { Extends pool.old pool.new }
{
    match argument {
        Argument::Symbol(symbol) => pool.intern(NodeOf::Sym(symbol)),
        Argument::Variable(variable) => pool.intern(NodeOf::Rvar(variable)),
        Argument::Successor => {
            let zero = pool.intern(NodeOf::Sym(0))?;
            let successor = pool.intern(NodeOf::Sym(1))?;
            pool.intern(NodeOf::App(successor, zero))
        }
    }
}

fn is_selected(alloc: Global, pool: &mut Pool, tree: &Tree, row: &Row) -> Result<bool, NoMemory>
    requires { IsPlaced tree.now }
{
    let second = interned(pool, row.arguments[0])?;
    let first = interned(pool, row.arguments[1])?;
    selects(alloc, pool, tree, [second, first], row)
}

fn has_tree(alloc: Global, tree: &Tree, row: &Row) -> Result<bool, NoMemory>
    requires { IsPlaced tree.now }
{
    let mut pool = Pool::new(alloc)?;
    is_selected(alloc, &mut pool, tree, row)
}

fn is_row(alloc: Global, row: &Row) -> Result<bool, NoMemory> {
    let tree = tree_of(alloc, row.parts)?;
    let is_selected = has_tree(alloc, &tree, row) == Ok(true);
    Ok(is_selected && tree.nodes() == row.nodes)
}

/// The first row that isn't as told, by its number.
fn first_wrong(alloc: Global) -> Result<Option<usize>, NoMemory> {
    let mut number = 0usize;
    for row in &ROWS {
        if !is_row(alloc, row)? {
            return Ok(Some(number));
        }
        number = number.wrapping_add(1);
    }
    Ok(None)
}

/// How many nodes the tree of a symbol's rules has, where it has any.
fn nodes_of(alloc: Global, parts: Parts, symbol: u32) -> Result<Option<u32>, NoMemory> {
    let version = version_of_text(alloc, parts)?;
    match version.rules_of(symbol).tree(alloc)? {
        Some(tree) => Ok(Some(tree.nodes())),
        None => Ok(None),
    }
}

#[test]
fn a_symbol_with_rules_has_a_tree(rt: HostRuntime) {
    for (symbol, nodes) in [(0, None), (1, None), (2, Some(3))] {
        let found = nodes_of(rt.alloc(), PLUS, symbol);
        assert_eq!(rt; found, Ok(nodes), "of symbol {symbol}");
    }
}

#[test]
fn rules_are_taken_by_what_is_asked(rt: HostRuntime) {
    assert_eq!(rt; first_wrong(rt.alloc()), Ok(None), "of the selections");
}
