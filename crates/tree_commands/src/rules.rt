//! The rules of a command (docs/typing.md).
ghost use Rattle.std.specs.Prelude.{map};
ghost use Rattle.dk_model.specs.Scoping.{plain_scoped_rule};
ghost use Rattle.dk_model.specs.Shapes.{shapes_of};
ghost use Rattle.dk_model.specs.CommandTypingOver.{rules_checked};
ghost use Rattle.signature_log.specs.Versions.{entries_of};
ghost use Rattle.tree_typing.specs.Given.{Judges};

use crate::shapes::shapes_of;
use dk_model::{Fault, ScopedRule, TypeFault};
use signature_log::Version;
use tree_rules::rules_typed;
use tree_typing::Evaluates;

/// That the rules of a command have their shapes, which spends nothing, and then that each is typed, in file order.
pub fn check_rules<E: Evaluates>(
    evaluation: &mut E,
    version: &Version,
    rules: &[ScopedRule],
) -> Result<(), TypeFault>
    ensures gives { Judges (λ u. u) (rules_checked (E.evaluator (entries_of version.now))
        (entries_of version.now) (shapes_of (entries_of version.now)
        (map plain_scoped_rule rules.now)) (E.left evaluation.old))
        result (E.left evaluation.new) }
{
    match shapes_of(evaluation.alloc(), version, rules) {
        Ok(rules) => rules_typed(evaluation, version, rules.as_slice()),
        Err(Fault::Refused(code)) => Err(TypeFault::Refused(code)),
        Err(Fault::NoMemory) => Err(TypeFault::NoMemory),
    }
}
