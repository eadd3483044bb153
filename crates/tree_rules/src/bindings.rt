//! The types of rule variables under the bindings.
ghost use Rattle.std.specs.Prelude.{◌≡◌, IfOk, map};
ghost use Rattle.dk_model.specs.Trees.{tree};
ghost use Rattle.dk_model.specs.Signatures.{maybe_tree};
ghost use Rattle.dk_model.specs.Bindings.{under};
ghost use Rattle.dk_model.specs.RuleTypingOver.{type_or_kind, types_under};

use dk_model::{Listed, NoMemory, Term};
use std::alloc::Global;
use tree_terms::under;

/// The type of a rule variable under the bindings; `Kind` for one that the left side doesn't have.
fn type_under(
    alloc: Global,
    bindings: &[Option<Term>],
    typ: &Option<Term>,
) -> Result<Term, NoMemory>
    ensures { IfOk result (λ t. tree t
        ≡ under (map maybe_tree bindings.now) (type_or_kind (maybe_tree typ.now))) }
{
    match typ {
        Some(typ) => under(alloc, bindings, typ),
        None => Ok(Term::Kind),
    }
}

/// The types of all rule variables under the bindings.
pub(crate) fn types_under(
    alloc: Global,
    bindings: &[Option<Term>],
    types: &[Option<Term>],
) -> Result<Listed<Term>, NoMemory>
    ensures { IfOk result (λ all. map tree all
        ≡ types_under (map maybe_tree bindings.now) (map maybe_tree types.now)) }
{
    let mut all = Listed::new(alloc);
    for typ in types {
        all.push(type_under(alloc, bindings, typ)?)?;
    }
    Ok(all)
}
