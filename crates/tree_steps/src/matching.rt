//! Instances of patterns.
ghost use Rattle.std.specs.Prelude.{◌≡◌, [], ◌∷◌, IfOk, map};
ghost use Rattle.std.specs.Option.{option_map};
ghost use Rattle.dk_model.specs.Trees.{tree};
ghost use Rattle.dk_model.specs.Signatures.{rule_variable_pattern};
ghost use Rattle.dk_model.specs.RuleTypingOver.{patterns_of};
ghost use Rattle.checked_steps.specs.Matching.{matched, all_matched};
ghost use Rattle.tree_terms.specs.Rules.{stored_pattern};
ghost use Rattle.tree_steps.specs.Views.{part, parts};

use crate::parts::{Part, next};
use dk_model::{NoMemory, Pat, Term};
use shared_term::Stored;
use std::alloc::Global;
use tree_terms::{arguments, body_of, captured, has_head, mentions_others};

/// What a term, below `depth` variables that the pattern binds, has at its loose places, or nothing where it is no instance.
#[cycle(matching)]
#[tactic(auto, using(crate::proofs::Matched::body_matched, crate::proofs::Matched::no_body))]
fn matched(
    alloc: Global,
    depth: u64,
    pattern: &Pat<Stored>,
    term: &Term,
) -> Result<Option<Vec<Part>>, NoMemory>
    ensures { IfOk result (λ ps. option_map parts ps
        ≡ matched depth (stored_pattern pattern.now) (tree term.now)) }
{
    match pattern {
        Pat::Rvar(number, variables) => {
            variable_matched(alloc, depth, *number, variables.as_slice(), term)
        }
        Pat::Any => Ok(Some(Vec::new(alloc))),
        Pat::Guard(guard) => {
            let guard = guard.to_term(alloc)?;
            let term = term.copy(alloc)?;
            Ok(Some(one(alloc, Part::Guard { depth, guard, term })?))
        }
        Pat::Sym(number, patterns) => {
            if has_head(term, &Term::Sym(*number)) {
                let arguments = arguments(alloc, term)?;
                all_matched(alloc, depth, patterns.as_slice(), arguments.as_slice())
            } else {
                Ok(None)
            }
        }
        Pat::Var(number, patterns) => {
            if has_head(term, &Term::Var(u64::from(*number))) {
                let arguments = arguments(alloc, term)?;
                all_matched(alloc, depth, patterns.as_slice(), arguments.as_slice())
            } else {
                Ok(None)
            }
        }
        Pat::Abs(pattern) => match body_of(term) {
            Some(body) => matched(alloc, next(depth)?, pattern, body),
            None => Ok(None),
        },
    }
}

/// A part alone.
fn one(alloc: Global, part: Part) -> Result<Vec<Part>, NoMemory>
    ensures { IfOk result (λ ps. ps.items ≡ part ∷ []) }
{
    let mut parts = Vec::new(alloc);
    parts.push(part)?;
    Ok(parts)
}

/// The same of a rule variable applied to these variables: what it captures, where it may.
fn variable_matched(
    alloc: Global,
    depth: u64,
    number: u32,
    variables: &[u32],
    term: &Term,
) -> Result<Option<Vec<Part>>, NoMemory>
    ensures { IfOk result (λ ps. option_map parts ps
        ≡ matched depth (rule_variable_pattern number variables.now) (tree term.now)) }
{
    if mentions_others(0, depth, variables, term)? {
        return Ok(None);
    }
    let capture = captured(alloc, depth, variables, term)?;
    Ok(Some(one(alloc, Part::Variable(number, capture))?))
}

/// The same of as many terms as patterns, one after the other.
#[cycle(matching)]
pub(crate) fn all_matched(
    alloc: Global,
    depth: u64,
    patterns: &[Pat<Stored>],
    terms: &[Term],
) -> Result<Option<Vec<Part>>, NoMemory>
    ensures { IfOk result (λ ps. option_map parts ps
        ≡ all_matched depth (patterns_of (map stored_pattern patterns.now)) (map tree terms.now)) }
{
    let mut parts = Vec::new(alloc);
    let mut rest = terms;
    for pattern in patterns {
        let [term, behind @ ..] = rest else {
            return Ok(None);
        };
        let Some(mut found) = matched(alloc, depth, pattern, term)? else {
            return Ok(None);
        };
        parts.append(&mut found)?;
        rest = behind;
    }
    if rest.is_empty() {
        Ok(Some(parts))
    } else {
        Ok(None)
    }
}
