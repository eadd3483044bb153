//! The types of symbols and variables.
ghost use Rattle.std.specs.Prelude.{◌≡◌, ◌≤◌, ◌+◌, IfOk, map, length};
ghost use Rattle.dk_model.specs.Trees.{tree};
ghost use Rattle.dk_model.specs.Substitution.{shift};
ghost use Rattle.dk_model.specs.TypingOver.{symbol_type, variable_type, rule_variable_type};
ghost use Rattle.signature_log.specs.Versions.{entries_of};
ghost use Rattle.tree_typing.specs.Contexts.{bound_types};

use crate::Context;
use crate::context::{bound_type, next};
use dk_model::{Entry, NoMemory, Term};
use signature_log::Version;
use std::alloc::Global;

/// The type of a symbol; `Kind` for one that nothing declares.
pub fn symbol_type(alloc: Global, version: &Version, symbol: u32) -> Result<Term, NoMemory>
    ensures { IfOk result (λ t. tree t ≡ symbol_type (entries_of version.now) symbol) }
{
    match version.get(symbol) {
        Some(Entry::Symbol { typ, .. }) => typ.to_term(alloc),
        _ => Ok(Term::Kind),
    }
}

/// The type of a variable, over all variables that are bound in the context; `Kind` for one that nothing binds.
pub fn variable_type(alloc: Global, context: &Context, variable: u64) -> Result<Term, NoMemory>
    ensures { IfOk result (λ t. tree t ≡ variable_type (bound_types context.now) variable) }
{
    match bound_type(context, variable) {
        Some(typ) => typ.shift(alloc, 0, next(variable)?),
        None => Ok(Term::Kind),
    }
}

/// The type of a rule variable, over so many bound variables; `Kind` for one that has none.
pub fn rule_variable_type(
    alloc: Global,
    rule_types: &[Term],
    depth: u64,
    variable: u32,
) -> Result<Term, NoMemory>
    ensures { IfOk result (λ t. tree t
        ≡ shift 0 depth (rule_variable_type (map tree rule_types.now) variable)) }
{
    match rule_types.get(variable as usize) {
        Some(typ) => typ.shift(alloc, 0, depth),
        None => Ok(Term::Kind),
    }
}
