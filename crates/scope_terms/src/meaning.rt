//! What a name means at a place of a command.
ghost use Rattle.std.specs.Prelude.{◌≡◌, IfOk, Some};
ghost use Rattle.std.specs.Map.{lookup};
ghost use Rattle.scope_terms.specs.Scopes.{numbers_in, same_spelling};
ghost use Rattle.scope_terms.specs.Binding.{IsTold};
ghost use Rattle.scope_terms.specs.Names.{reading};
ghost use Rattle.scope_terms.specs.Meanings.{meaning, sense, free_sense, symbol_sense, symbols_of};

use crate::Names;
use crate::binders::{Binders, variable};
use crate::variables::Variables;
use dk_model::NoMemory;

/// What names may mean beside binders: the symbols, and in a rule its variables.
#[derive(Clone, Copy)]
pub(crate) enum Scope<'a> {
    Command(&'a Names),
    Rule {
        symbols: &'a Names,
        variables: &'a Variables,
    },
}

/// What a name means.
#[derive(Clone, Copy)]
pub(crate) enum Named {
    Variable(u64),
    RuleVariable(u32),
    Symbol(u32),
    Unknown,
}

/// What the name means under these binders.
pub(crate) fn look_up<'a>(
    scope: &Scope,
    bound: &'a Binders<'a>,
    name: &[u8],
) -> Result<Named, NoMemory>
    requires { IsTold bound.now }
    ensures { IfOk result (λ m. meaning m ≡ sense scope.now bound.now name.now) }
{
    if let Some(number) = variable(bound, name)? {
        return Ok(Named::Variable(number));
    }
    Ok(free(scope, name))
}

/// What a name that no binder has means.
fn free(scope: &Scope, name: &[u8]) -> Named
    ensures { meaning result ≡ free_sense scope.now name.now }
{
    match scope {
        Scope::Command(symbols) => symbol(*symbols, name),
        Scope::Rule { symbols, variables } => match variables.number(name) {
            Some(number) => Named::RuleVariable(number),
            None => symbol(*symbols, name),
        },
    }
}

/// What a name means that no rule variable has either.
fn symbol(symbols: &Names, name: &[u8]) -> Named
    ensures { meaning result ≡ symbol_sense (reading symbols.now) name.now }
{
    match symbols.own_number(name) {
        Some(number) => Named::Symbol(number),
        None => Named::Unknown,
    }
}

/// The number of the symbol that a qualified name means.
pub(crate) fn qualified(scope: &Scope, module_name: &[u8], name: &[u8]) -> Option<u32>
    ensures { result ≡ lookup (same_spelling name.now)
        (numbers_in (symbols_of scope.now) (Some module_name.now)) }
{
    match scope {
        Scope::Command(symbols) => symbols.number_in(module_name, name),
        Scope::Rule { symbols, .. } => symbols.number_in(module_name, name),
    }
}
