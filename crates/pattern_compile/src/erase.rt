//! Rules without the annotations of their abstractions.
ghost use Rattle.std.specs.Prelude.{◌≡◌, IfOk, map};
ghost use Rattle.dk_model.specs.Signatures.{pattern as plain, plain_rule};
ghost use Rattle.dk_model.specs.Shapes.{erased_pattern, erased_rule};

use crate::copies::erased;
use dk_model::{Listed, NoMemory, Pat, Rule};
use std::alloc::Global;

/// The pattern whose guards have no annotations.
#[cycle(erasing)]
fn erased_pattern(alloc: Global, pattern: &Pat) -> Result<Pat, NoMemory>
    ensures { IfOk result (λ p. plain p ≡ erased_pattern (plain pattern.now)) }
{
    match pattern {
        Pat::Rvar(variable, arguments) => Ok(Pat::Rvar(
            *variable,
            Listed::from_slice(alloc, arguments.as_slice())?,
        )),
        Pat::Any => Ok(Pat::Any),
        Pat::Guard(term) => Ok(Pat::Guard(erased(alloc, term)?)),
        Pat::Sym(symbol, arguments) => Ok(Pat::Sym(
            *symbol,
            erased_patterns(alloc, arguments.as_slice())?,
        )),
        Pat::Var(variable, arguments) => Ok(Pat::Var(
            *variable,
            erased_patterns(alloc, arguments.as_slice())?,
        )),
        Pat::Abs(body) => Ok(Pat::Abs(Box::new(alloc, erased_pattern(alloc, body)?)?)),
    }
}

#[cycle(erasing)]
fn erased_patterns(alloc: Global, patterns: &[Pat]) -> Result<Listed<Pat>, NoMemory>
    ensures { IfOk result (λ ps. map plain ps ≡ map erased_pattern (map plain patterns.now)) }
{
    let mut erased = Listed::from_vec(Vec::with_capacity(alloc, patterns.len())?);
    for pattern in patterns {
        erased.push(erased_pattern(alloc, pattern)?)?;
    }
    Ok(erased)
}

fn erased_rule(alloc: Global, rule: Rule) -> Result<Rule, NoMemory>
    ensures { IfOk result (λ r. plain_rule r ≡ erased_rule (plain_rule rule)) }
{
    let Rule {
        head,
        vars,
        pats,
        notes,
        right,
    } = rule;
    Ok(Rule {
        head,
        vars,
        pats: erased_patterns(alloc, pats.as_slice())?,
        notes,
        right: erased(alloc, &right)?,
    })
}

/// The rules as an accepted command adds them to the signature: their guards and right sides have
/// no annotations. The annotations of their contexts stay.
pub fn erase_all(alloc: Global, rules: Listed<Rule>) -> Result<Listed<Rule>, NoMemory>
    ensures { IfOk result (λ rs. map plain_rule rs ≡ map erased_rule (map plain_rule rules)) }
{
    let mut erased = Listed::from_vec(Vec::with_capacity(alloc, rules.len())?);
    for rule in rules.into_vec() {
        erased.push(erased_rule(alloc, rule)?)?;
    }
    Ok(erased)
}
