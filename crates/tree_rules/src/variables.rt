//! A rule variable applied to variables.
ghost use Rattle.std.specs.Prelude.{◌≡◌, ◌++◌, IfOk, OnOk, map};
ghost use Rattle.dk_model.specs.Trees.{tree, variable};
ghost use Rattle.dk_model.specs.Spines.{applied};
ghost use Rattle.dk_model.specs.RuleTypingOver.{occurrence, outermost_first};

use dk_model::{Listed, NoMemory, Term, make_app};
use std::alloc::Global;

/// A rule variable and the variables that it is applied to.
#[derive(Clone, Copy)]
pub(crate) struct RuleVariable<'a> {
    pub number: u32,
    pub arguments: &'a [u32],
}

/// A rule variable applied to variables, as a term.
pub(crate) fn occurrence(alloc: Global, variable: RuleVariable) -> Result<Term, NoMemory>
    ensures { IfOk result (λ t. tree t
        ≡ occurrence variable.entry.number variable.entry.arguments.now) }
{
    applied(alloc, Term::Rvar(variable.number), variable.arguments)
}

/// A term applied to these variables.
fn applied(alloc: Global, term: Term, variables: &[u32]) -> Result<Term, NoMemory>
    ensures { IfOk result (λ t. tree t ≡ applied (tree term) (map variable variables.now)) }
{
    match variables {
        [] => Ok(term),
        [first, rest @ ..] => {
            let term = make_app(alloc, term, Term::Var(u64::from(*first)))?;
            applied(alloc, term, rest)
        }
    }
}

/// The variables bound by a pattern at a place of this depth, outermost first.
pub(crate) fn outermost_first(alloc: Global, depth: u64) -> Result<Listed<u32>, NoMemory>
    ensures { IfOk result (λ xs. xs ≡ outermost_first depth) }
{
    let mut variables = Listed::new(alloc);
    let mut left = depth;
    while left > 0 {
        left -= 1;
        match u32::try_from(left) {
            Ok(variable) => variables.push(variable)?,
            Err(_) => return Err(NoMemory),
        }
    }
    Ok(variables)
}
