//! The patterns that a left side stands for.
ghost use Rattle.std.specs.Prelude.{◌≡◌, IfOk, false};
ghost use Rattle.std.specs.Option.{option_map};
ghost use Rattle.dk_model.specs.Signatures.{no_patterns, pattern as plain_pattern};
ghost use Rattle.dk_model.specs.Scoping.{plain_left};
ghost use Rattle.dk_model.specs.Shapes.{
  applied_variable,
  are_distinct,
  bare_variables,
  left_patterns,
  pattern_of,
  unapplied,
};
ghost use Rattle.pattern_compile.specs.Patterns.{plain_patterns, bare_variable, head_of, is_application};

use crate::copies::copied;
use dk_model::{Left, Listed, NoMemory, Pat};
use std::alloc::Global;

/// What is applied in a left side, without its arguments.
pub(crate) fn head(left: &Left) -> &Left
    ensures value { plain_left result.now ≡ head_of (plain_left left.now) }
    ensures alone { is_application (plain_left result.now) ≡ false }
{
    let mut rest = left;
    while let Left::App(function, _) = rest {
        rest = function;
    }
    rest
}

/// The number of a pattern that is a bound variable without arguments.
fn as_variable(pattern: &Pat) -> Option<u32>
    ensures { result ≡ bare_variable (plain_pattern pattern.now) }
{
    match pattern {
        Pat::Var(variable, arguments) => if arguments.is_empty() {
            Some(*variable)
        } else {
            None
        },
        Pat::Rvar(_, _) => None,
        Pat::Any => None,
        Pat::Guard(_) => None,
        Pat::Sym(_, _) => None,
        Pat::Abs(_) => None,
    }
}

/// The numbers of these patterns where each is a bound variable without arguments.
fn bare_variables(alloc: Global, patterns: &[Pat]) -> Result<Option<Listed<u32>>, NoMemory>
    ensures { IfOk result (λ xs. bare_variables (plain_patterns patterns.now) ≡ xs) }
{
    let mut variables = Listed::new(alloc);
    for pattern in patterns {
        match as_variable(pattern) {
            Some(variable) => variables.push(variable)?,
            None => return Ok(None),
        }
    }
    Ok(Some(variables))
}

/// Whether no variable stands behind an equal one. Distinct variables are at most as many as binders,
/// so each is looked for among few.
fn are_distinct(variables: &[u32]) -> bool
    ensures { result ≡ are_distinct variables.now }
{
    for (place, variable) in variables.iter().enumerate() {
        if variables[..place].contains(variable) {
            return false;
        }
    }
    true
}

/// A rule variable, one of `vars`, applied to distinct bound variables.
fn applied_variable(
    alloc: Global,
    vars: u32,
    variable: u32,
    arguments: &[Pat],
) -> Result<Option<Pat>, NoMemory>
    ensures { IfOk result (λ p.
        applied_variable vars variable (bare_variables (plain_patterns arguments.now))
        ≡ option_map plain_pattern p) }
{
    match bare_variables(alloc, arguments)? {
        Some(variables) => if variable < vars && are_distinct(variables.as_slice()) {
            Ok(Some(Pat::Rvar(variable, variables)))
        } else {
            Ok(None)
        },
        None => Ok(None),
    }
}

/// A pattern that takes no arguments.
fn unapplied(pattern: Pat, arguments: &[Pat]) -> Option<Pat>
    ensures { unapplied (plain_pattern pattern) (plain_patterns arguments.now)
        ≡ option_map plain_pattern result }
{
    if arguments.is_empty() {
        Some(pattern)
    } else {
        None
    }
}

/// The pattern that a head is with these arguments, in a rule with `vars` rule variables.
#[cycle(patterns)]
fn applied(
    alloc: Global,
    vars: u32,
    head: &Left,
    arguments: Listed<Pat>,
) -> Result<Option<Pat>, NoMemory>
    requires { is_application (plain_left head.now) ≡ false }
    ensures { IfOk result (λ p. pattern_of vars (plain_left head.now) (plain_patterns arguments)
        ≡ option_map plain_pattern p) }
{
    match head {
        Left::Sym(symbol) => Ok(Some(Pat::Sym(*symbol, arguments))),
        Left::Var(variable) => Ok(Some(Pat::Var(*variable, arguments))),
        Left::Rvar(variable) => applied_variable(alloc, vars, *variable, arguments.as_slice()),
        Left::Any => Ok(unapplied(Pat::Any, arguments.as_slice())),
        Left::Guard(term) => {
            let guard = Pat::Guard(copied(alloc, term)?);
            Ok(unapplied(guard, arguments.as_slice()))
        }
        Left::Abs(body) => match pattern(alloc, vars, body)? {
            Some(body) => {
                let abstraction = Pat::Abs(Box::new(alloc, body)?);
                Ok(unapplied(abstraction, arguments.as_slice()))
            }
            None => Ok(None),
        },
        Left::App(_, _) => unreachable!(),
    }
}

/// The pattern that a left side stands for in a rule with `vars` rule variables, where it is one.
#[cycle(patterns)]
fn pattern(alloc: Global, vars: u32, left: &Left) -> Result<Option<Pat>, NoMemory>
    ensures { IfOk result (λ p. pattern_of vars (plain_left left.now) no_patterns
        ≡ option_map plain_pattern p) }
{
    match patterns(alloc, vars, left)? {
        Some(arguments) => applied(alloc, vars, head(left), arguments),
        None => Ok(None),
    }
}

/// The patterns that the head of a left side is applied to.
#[cycle(patterns)]
pub(crate) fn patterns(
    alloc: Global,
    vars: u32,
    left: &Left,
) -> Result<Option<Listed<Pat>>, NoMemory>
    ensures { IfOk result (λ ps. left_patterns vars (plain_left left.now) no_patterns
        ≡ option_map plain_patterns ps) }
{
    let mut found = Vec::new(alloc);
    let mut rest = left;
    while let Left::App(function, argument) = rest {
        match pattern(alloc, vars, argument)? {
            Some(argument) => found.push(argument)?,
            None => return Ok(None),
        }
        rest = function;
    }
    found.reverse();
    Ok(Some(Listed::from_vec(found)))
}
