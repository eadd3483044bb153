//! The rules of a command over a version: each has its shape, and its head is definable.
ghost use Rattle.std.specs.Prelude.{◌≡◌, [], IfOk};
ghost use Rattle.signature_log.specs.Versions.{entries_of};
ghost use Rattle.command_check.specs.Given.{command_shapes, GivesShapes};

use dk_model::{Code, Fault, Listed, NoMemory, Rule, ScopedRule, TypeFault};
use pattern_compile::shape;
use rule_check::is_definable;
use signature_log::Version;
use std::alloc::Global;

/// No rules, with room for so many.
fn room_for(alloc: Global, count: usize) -> Result<Listed<Rule>, NoMemory>
    ensures { IfOk result (λ rules. rules ≡ []) }
{
    Ok(Listed::from_vec(Vec::with_capacity(alloc, count)?))
}

/// The rules of a command, or the first code of the first rule that has one (E31, E32, E33, then E30).
pub fn shapes_of(
    alloc: Global,
    version: &Version,
    rules: &Listed<ScopedRule>,
) -> Result<Listed<Rule>, TypeFault>
    ensures { GivesShapes (command_shapes (entries_of version.now) rules.now) result }
{
    let mut shapes = room_for(alloc, rules.len())?;
    for rule in rules.as_slice() {
        let rule = match shape(alloc, rule) {
            Ok(rule) => rule,
            Err(Fault::Refused(code)) => return Err(TypeFault::Refused(code)),
            Err(Fault::NoMemory) => return Err(TypeFault::NoMemory),
        };
        if !is_definable(version, rule.head) {
            return Err(TypeFault::Refused(Code::E30));
        }
        shapes.push(rule)?;
    }
    Ok(shapes)
}
