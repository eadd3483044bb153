//! A selection that goes on with an answer.
ghost use Rattle.std.specs.Prelude.{◌≡◌, ℕ, IfOk, IfSome, if◌then◌else◌};
ghost use Rattle.signature_log.specs.Rows.{row_rules};
ghost use Rattle.rule_match.specs.Selecting.{IsMatcher};
ghost use Rattle.rule_match.specs.Trees.{IsTree};
ghost use Rattle.conversion.specs.Machine.{AreWithin};
ghost use Rattle.conversion.specs.Pausing.{StartsOver};
ghost use Rattle.rule_match.specs.declared.matcher.Answer.TheVariants.{Yes, No};

use dk_model::NoMemory;
use rule_match::{Answer, Matcher, Tree};
use shared_term::TermId;
use signature_log::Rows;
use std::alloc::Global;

/// A selection from the rules of a symbol, and the answer to what it asked for last.
#[derive(Drop)]
pub(crate) struct Selection<'v> {
    pub(crate) symbol: u32,
    pub(crate) matcher: Matcher<'v>,
    pub(crate) answer: Answer,
}

/// The selection for a symbol before the arguments of a stack, at its start: by the symbol's tree, where it has one that has
/// nodes.
pub(crate) fn selection_before<'v>(
    alloc: Global,
    rules: &Rows<'v>,
    tree: Option<&'v Tree>,
    symbol: u32,
    stack: &[TermId],
) -> Result<Selection<'v>, NoMemory>
    requires tree { IfSome tree (λ t. IsTree (row_rules symbol rules.now) t.now) }
    ensures starts { IfOk result (λ s. StartsOver (row_rules symbol rules.now) symbol stack.now s) }
    ensures within { IfOk result (λ s. (n : ℕ) → AreWithin n stack.now → IsMatcher n s.matcher) }
{
    let matcher = match tree {
        Some(tree) if tree.nodes() > 0 => Matcher::start(alloc, tree, stack)?,
        _ => Matcher::walk(alloc, rules.sides(alloc)?, stack)?,
    };
    Ok(Selection {
        symbol,
        matcher,
        answer: Answer::Begin,
    })
}

/// The answer to a comparison.
pub(crate) fn told(alike: bool) -> Answer
    ensures { result ≡ (if alike then Yes else No) }
{
    if alike { Answer::Yes } else { Answer::No }
}
