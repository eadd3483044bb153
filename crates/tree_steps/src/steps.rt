//! Steps at the nodes of a term, and terms that are joined by them.
ghost use Rattle.std.specs.Prelude.{◌≡◌, ◌<◌, Some, IfOk, IfSome, map};
ghost use Rattle.std.specs.Option.{option_map};
ghost use Rattle.dk_model.specs.Trees.{tree};
ghost use Rattle.dk_model.specs.Signatures.{maybe_tree};
ghost use Rattle.signature_log.specs.Versions.{entries_of};
ghost use Rattle.checked_steps.specs.Matching.{to_join, within};
ghost use Rattle.checked_steps.specs.Taken.{both_same, contracted, fired, step_taken, steps_taken, all_joined};
ghost use Rattle.certificate_items.specs.Views.{plain_step, plain_steps, plain_joins};
ghost use Rattle.tree_steps.specs.Counts.{IsCounted};
ghost use Rattle.tree_steps.specs.Firing.{firing_of};
ghost use Rattle.tree_steps.specs.Places.{with_node};
ghost use Rattle.tree_steps.specs.Views.{firing, pair, term_of};

use crate::conditions::to_join;
use crate::counted::Counted;
use crate::matching::all_matched;
use crate::pairs::Pair;
use crate::parts::{Part, instantiated};
use crate::places::node_at;
use certificate_items::{Join, Step};
use dk_model::{NoMemory, Term};
use signature_log::Version;
use std::alloc::Global;
use std::collections::LinkedList;
use tree_terms::{SymbolRule, arguments, body_of, head_symbol, rule_of};

/// How deep joins may nest in the rules of joins.
const DEEPEST: u32 = 2_000;

/// The rule of a step, and what the node's arguments have at the loose places of its patterns.
#[derive(Drop)]
pub struct Firing<'v> {
    pub rule: SymbolRule<'v>,
    pub parts: Vec<Part>,
}

/// Beta, where the term is an abstraction that is applied.
#[tactic(auto, using(crate::proofs::Firings::contracted_some, crate::proofs::Firings::contracted_none))]
fn contracted(alloc: Global, term: &Term) -> Result<Option<Term>, NoMemory>
    ensures { IfOk result (λ t. maybe_tree t ≡ contracted (tree term.now)) }
{
    let Term::App(f, a) = term else {
        return Ok(None);
    };
    match body_of(f) {
        Some(body) => Ok(Some(body.substitute(alloc, 0, a)?)),
        None => Ok(None),
    }
}

/// The rule of this number of the symbol at the head, where its patterns match all arguments.
fn firing_of<'v>(
    alloc: Global,
    version: &'v Version,
    number: u64,
    term: &Term,
) -> Result<Option<Firing<'v>>, NoMemory>
    ensures { IfOk result (λ f. option_map firing f
        ≡ firing_of (entries_of version.now) number (tree term.now)) }
{
    let Some(symbol) = head_symbol(term) else {
        return Ok(None);
    };
    let Some(rule) = rule_of(version, symbol, number) else {
        return Ok(None);
    };
    let arguments = arguments(alloc, term)?;
    match all_matched(alloc, 0, rule.patterns(), arguments.as_slice())? {
        Some(parts) => Ok(Some(Firing { rule, parts })),
        None => Ok(None),
    }
}

/// How many calls further may nest that is a call further in. It wants memory where none may.
fn deeper(depth: u32) -> Result<u32, NoMemory>
    ensures { IfOk result (λ d. d < depth) }
{
    match depth.checked_sub(1) {
        Some(depth) => Ok(depth),
        None => Err(NoMemory),
    }
}

/// A term with another one in the place of a node, where there is another one.
fn placed(
    alloc: Global,
    place: u64,
    counted: Counted,
    node: Option<Term>,
) -> Result<Option<Counted>, NoMemory>
    requires counted { IsCounted counted }
    ensures placed { IfOk result (λ t. option_map term_of t
        ≡ within (with_node place (tree counted.term)) (maybe_tree node)) }
    ensures counted { IfOk result (λ t. IfSome t IsCounted) }
{
    match node {
        Some(node) => Ok(Some(counted.with_node(alloc, place, node)?)),
        None => Ok(None),
    }
}

/// The steps over a version.
#[derive(Clone, Copy)]
pub(crate) struct Steps<'v> {
    pub(crate) alloc: Global,
    pub(crate) version: &'v Version,
    /// How much further joins may nest.
    pub(crate) depth: u32,
}

impl<'v> Steps<'v> {
    pub(crate) fn new(alloc: Global, version: &'v Version) -> Steps<'v>
        ensures { result.version.now ≡ version.now }
    {
        Steps {
            alloc,
            version,
            depth: DEEPEST,
        }
    }

    /// The term after these steps, one after the other.
    #[cycle(steps)]
    pub(crate) fn steps_taken(self, steps: &[Step], term: Term) -> Result<Option<Term>, NoMemory>
        ensures { IfOk result (λ t. maybe_tree t
            ≡ steps_taken (entries_of self.entry.version.now) (plain_steps steps.now)
            (tree term)) }
    {
        if steps.is_empty() {
            return Ok(Some(term));
        }
        let mut counted = Counted::new(self.alloc, term)?;
        for step in steps {
            match self.step_taken(step, counted)? {
                Some(next) => counted = next,
                None => return Ok(None),
            }
        }
        Ok(Some(counted.term))
    }

    /// The term after a step, where the step can be taken.
    #[cycle(steps)]
    fn step_taken(self, step: &Step, counted: Counted) -> Result<Option<Counted>, NoMemory>
        requires counted { IsCounted counted }
        ensures taken { IfOk result (λ t. option_map term_of t
            ≡ step_taken (entries_of self.entry.version.now) (plain_step step.now)
            (tree counted.term)) }
        ensures counted { IfOk result (λ t. IfSome t IsCounted) }
    {
        match step {
            Step::Beta(place) => match node_at(*place, &counted.term, &counted.counts) {
                Some(node) => {
                    let node = contracted(self.alloc, node)?;
                    placed(self.alloc, *place, counted, node)
                }
                None => Ok(None),
            },
            Step::Rule {
                place,
                number,
                joins,
            } => match node_at(*place, &counted.term, &counted.counts) {
                Some(node) => {
                    let node = self.fired(*number, joins.as_slice(), node)?;
                    placed(self.alloc, *place, counted, node)
                }
                None => Ok(None),
            },
        }
    }

    /// What the rule of this number makes of a term, where its conditions are joined.
    #[cycle(steps)]
    #[tactic(auto, using(crate::proofs::Firings::fires_not, crate::proofs::Firings::fires_unmet, crate::proofs::Firings::fires))]
    fn fired(self, number: u64, joins: &[Join], term: &Term) -> Result<Option<Term>, NoMemory>
        ensures { IfOk result (λ t. maybe_tree t
            ≡ fired (entries_of self.entry.version.now) number
            (all_joined (entries_of self.entry.version.now) (plain_joins joins.now))
            (tree term.now)) }
    {
        let Some(firing) = firing_of(self.alloc, self.version, number, term)? else {
            return Ok(None);
        };
        let parts = firing.parts.as_slice();
        let conditions = to_join(self.alloc, parts)?;
        if !self.all_joined(joins, conditions)? {
            return Ok(None);
        }
        let right = firing.rule.right().to_term(self.alloc)?;
        Ok(Some(instantiated(self.alloc, parts, 0, &right)?))
    }

    /// Whether each of these pairs is joined by its steps, in order.
    #[cycle(steps)]
    fn all_joined(self, joins: &[Join], pairs: LinkedList<Pair>) -> Result<bool, NoMemory>
        ensures { IfOk result (λ yes. yes
            ≡ all_joined (entries_of self.entry.version.now) (plain_joins joins.now)
            (map pair pairs)) }
    {
        let mut pairs = pairs;
        for join in joins {
            let Some(pair) = pairs.pop_front() else {
                return Ok(false);
            };
            if !self.joined(join, &pair.first, &pair.second)? {
                return Ok(false);
            }
        }
        Ok(pairs.is_empty())
    }

    /// Whether the steps of two terms lead to one term, letter by letter.
    #[cycle(steps)]
    pub(crate) fn joined(self, join: &Join, first: &Term, second: &Term) -> Result<bool, NoMemory>
        ensures { IfOk result (λ yes. yes ≡ both_same
            (steps_taken (entries_of self.entry.version.now) (plain_steps join.now.first)
            (tree first.now))
            (steps_taken (entries_of self.entry.version.now) (plain_steps join.now.second)
            (tree second.now))) }
    {
        let inner = Steps {
            depth: deeper(self.depth)?,
            ..self
        };
        let steps = join.first.as_slice();
        if steps.is_empty() {
            return inner.is_reached(first, join.second.as_slice(), second);
        }
        let Some(first) = inner.steps_taken(steps, first.copy(self.alloc)?)? else {
            return Ok(false);
        };
        inner.is_reached(&first, join.second.as_slice(), second)
    }

    /// Whether the steps of a term lead to this one, letter by letter.
    #[cycle(steps)]
    fn is_reached(self, reached: &Term, steps: &[Step], term: &Term) -> Result<bool, NoMemory>
        ensures { IfOk result (λ yes. yes ≡ both_same (Some (tree reached.now))
            (steps_taken (entries_of self.entry.version.now) (plain_steps steps.now)
            (tree term.now))) }
    {
        if steps.is_empty() {
            return Ok(reached.equal(term));
        }
        match self.steps_taken(steps, term.copy(self.alloc)?)? {
            Some(term) => Ok(reached.equal(&term)),
            None => Ok(false),
        }
    }
}

/// The term after these steps, one after the other; nothing where one of them can't be taken.
pub fn take_steps(
    alloc: Global,
    version: &Version,
    steps: &[Step],
    term: &Term,
) -> Result<Option<Term>, NoMemory>
    ensures { IfOk result (λ t. maybe_tree t
        ≡ steps_taken (entries_of version.now) (plain_steps steps.now) (tree term.now)) }
{
    Steps::new(alloc, version).steps_taken(steps, term.copy(alloc)?)
}

/// Whether the steps of two terms lead to one term, letter by letter.
pub fn joins(
    alloc: Global,
    version: &Version,
    join: &Join,
    first: &Term,
    second: &Term,
) -> Result<bool, NoMemory>
    ensures { IfOk result (λ yes. yes ≡ both_same
        (steps_taken (entries_of version.now) (plain_steps join.now.first) (tree first.now))
        (steps_taken (entries_of version.now) (plain_steps join.now.second) (tree second.now))) }
{
    Steps::new(alloc, version).joined(join, first, second)
}
