//! The types of symbols and variables.
ghost use Rattle.std.specs.Prelude.{◌≡◌, IfOk, length};
ghost use Rattle.dk_model.specs.Signatures.{PlainSignature};
ghost use Rattle.dk_model.specs.Substitution.{shift};
ghost use Rattle.dk_model.specs.Typing.{symbol_type, variable_type, rule_variable_type, not_kind};
ghost use Rattle.signature_log.specs.Versions.{entries_of};
ghost use Rattle.signature_log.specs.Reducers.{Keeps, Makes};
ghost use Rattle.infer_check.specs.Contexts.{rule_types, bound_types, OwnsContext};
ghost use Rattle.infer_check.specs.Given.{GivesType};

use crate::Context;
use dk_model::{Entry, NoMemory, NodeOf};
use signature_log::{Reducer, Version};

/// The type of a symbol; `Kind` for one that nothing declares.
pub fn symbol_type<R: Reducer>(r: &mut R, version: &Version, symbol: u32) -> Result<R::T, NoMemory>
    ensures makes { IfOk result (Makes R.owns R.denotes r.new (symbol_type (entries_of version.now) symbol)) }
    ensures keeps { Keeps R.owns R.denotes r.old r.new }
    ensures serves { (S : PlainSignature) → R.serves S r.old → R.serves S r.new }
{
    match version.get(symbol) {
        Some(Entry::Symbol { typ, .. }) => r.bring(typ),
        _ => r.build(NodeOf::Kind),
    }
}

/// The type of a variable, over all variables that are bound in the context.
#[tactic(auto, using(crate::proofs::Contexts::variable_found, crate::proofs::Contexts::variable_missing, crate::proofs::Contexts::owned_at))]
pub fn variable_type<R: Reducer>(
    r: &mut R,
    context: &Context<R::T>,
    variable: u64,
) -> Result<R::T, NoMemory>
    requires { OwnsContext R.owns r.old context.now }
    ensures makes { IfOk result (Makes R.owns R.denotes r.new
        (variable_type (bound_types R.denotes r.old context.now) variable)) }
    ensures keeps { Keeps R.owns R.denotes r.old r.new }
    ensures serves { (S : PlainSignature) → R.serves S r.old → R.serves S r.new }
{
    let types = context.bound.as_slice();
    let length = types.len() as u64;
    if variable < length {
        let by = variable + 1;
        r.shift(&types[(length - by) as usize], by)
    } else {
        r.build(NodeOf::Kind)
    }
}

/// The type of a rule variable, over all variables that are bound in the context.
#[tactic(auto, using(crate::proofs::Contexts::rule_variable_found, crate::proofs::Contexts::rule_variable_missing, crate::proofs::Contexts::owned_at, crate::proofs::Contexts::length_bound_types))]
pub fn rule_variable_type<R: Reducer>(
    r: &mut R,
    context: &Context<R::T>,
    variable: u32,
) -> Result<R::T, NoMemory>
    requires { OwnsContext R.owns r.old context.now }
    ensures makes { IfOk result (Makes R.owns R.denotes r.new
        (shift 0 (length (bound_types R.denotes r.old context.now))
        (rule_variable_type (rule_types R.denotes r.old context.now) variable))) }
    ensures keeps { Keeps R.owns R.denotes r.old r.new }
    ensures serves { (S : PlainSignature) → R.serves S r.old → R.serves S r.new }
{
    let types = context.rule_vars.as_slice();
    let by = context.bound.len() as u64;
    let at = variable as usize;
    if at < types.len() {
        r.shift(&types[at], by)
    } else {
        r.build(NodeOf::Kind)
    }
}
