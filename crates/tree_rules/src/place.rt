//! Where a pattern stands: the entries before its command, and the variables that are bound around it.
ghost use Rattle.std.specs.Prelude.{◌≡◌, ◌++◌, IfOk, OnOk, map};
ghost use Rattle.dk_model.specs.Trees.{tree};
ghost use Rattle.dk_model.specs.Signatures.{maybe_tree};
ghost use Rattle.dk_model.specs.Bindings.{under};
ghost use Rattle.tree_typing.specs.Contexts.{bound_types};
ghost use Rattle.tree_typing.specs.Given.{bindings as bindings_of};

use dk_model::{Listed, NoMemory, Term};
use signature_log::Version;
use std::alloc::Global;
use tree_terms::under;
use tree_typing::{Bindings, Context};

/// Where a pattern stands: the entries before its command, and the types of the variables that are bound around it.
#[derive(Clone, Copy)]
pub(crate) struct Place<'p> {
    pub version: &'p Version,
    pub context: &'p Context<'p>,
}

/// The types of a context under the bindings, the innermost first.
pub(crate) fn context_under(
    alloc: Global,
    bindings: &Bindings,
    context: &Context,
) -> Result<Listed<Term>, NoMemory>
    ensures { IfOk result (λ types. map tree types
        ≡ map (under (bindings_of bindings.now)) (bound_types context.now)) }
{
    let mut types = Listed::new(alloc);
    push_context(&mut types, alloc, bindings, context)?;
    Ok(types)
}

/// Puts the types of a context under the bindings behind others.
fn push_context(
    types: &mut Listed<Term>,
    alloc: Global,
    bindings: &Bindings,
    context: &Context,
) -> Result<(), NoMemory>
    ensures { OnOk result (map tree types.new ≡ map tree types.old
        ++ map (under (bindings_of bindings.now)) (bound_types context.now)) }
{
    match context {
        Context::Outer(outer) => push_types(types, alloc, bindings, outer),
        Context::Bound(typ, around) => {
            types.push(under(alloc, bindings.terms.as_slice(), typ)?)?;
            push_context(types, alloc, bindings, around)
        }
    }
}

/// Puts types under the bindings behind others.
fn push_types(
    types: &mut Listed<Term>,
    alloc: Global,
    bindings: &Bindings,
    others: &[Term],
) -> Result<(), NoMemory>
    ensures { OnOk result (map tree types.new ≡ map tree types.old
        ++ map (under (bindings_of bindings.now)) (map tree others.now)) }
{
    for typ in others {
        types.push(under(alloc, bindings.terms.as_slice(), typ)?)?;
    }
    Ok(())
}

/// The types of a context in memory of their own, the innermost first.
pub(crate) fn copied_context(alloc: Global, context: &Context) -> Result<Listed<Term>, NoMemory>
    ensures { IfOk result (λ types. map tree types ≡ bound_types context.now) }
{
    let mut types = Listed::new(alloc);
    push_copies(&mut types, alloc, context)?;
    Ok(types)
}

/// Puts the types of a context behind others.
fn push_copies(types: &mut Listed<Term>, alloc: Global, context: &Context) -> Result<(), NoMemory>
    ensures { OnOk result (map tree types.new
        ≡ map tree types.old ++ bound_types context.now) }
{
    match context {
        Context::Outer(outer) => push_all(types, alloc, outer),
        Context::Bound(typ, around) => {
            types.push(typ.copy(alloc)?)?;
            push_copies(types, alloc, around)
        }
    }
}

/// Puts types behind others.
fn push_all(types: &mut Listed<Term>, alloc: Global, others: &[Term]) -> Result<(), NoMemory>
    ensures { OnOk result (map tree types.new
        ≡ map tree types.old ++ map tree others.now) }
{
    for typ in others {
        types.push(typ.copy(alloc)?)?;
    }
    Ok(())
}
