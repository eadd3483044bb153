//! The rules of a command over a version: each has its shape, and its head is definable (docs/rules.md).
ghost use Rattle.std.specs.Prelude.{◌≡◌, map};
ghost use Rattle.dk_model.specs.Scoping.{plain_scoped_rule};
ghost use Rattle.dk_model.specs.Shapes.{defined_shape, is_definable, shape_of, shapes_of};
ghost use Rattle.signature_log.specs.Versions.{entries_of};
ghost use Rattle.tree_commands.specs.Shapes.{GivesShape, GivesShapes};

use dk_model::{Code, Entry, Fault, Listed, Rule, ScopedRule, SymSort};
use pattern_compile::shape;
use signature_log::Version;
use std::alloc::Global;

/// Whether a symbol was declared by `def`.
fn is_definable(version: &Version, symbol: u32) -> bool
    ensures { result ≡ is_definable (entries_of version.now) symbol }
{
    match version.get(symbol) {
        Some(Entry::Symbol { sort, .. }) => match sort {
            SymSort::Definable => true,
            SymSort::Static => false,
            SymSort::Theorem => false,
        },
        _ => false,
    }
}

/// The rule of a scoped rule, whose head must take rules; else the first of the codes E31, E32, E33 and E30.
fn defined_shape(alloc: Global, version: &Version, rule: &ScopedRule) -> Result<Rule, Fault>
    ensures { GivesShape (defined_shape (entries_of version.now)
        (shape_of (plain_scoped_rule rule.now))) result }
{
    let rule = shape(alloc, rule)?;
    if is_definable(version, rule.head) {
        Ok(rule)
    } else {
        Err(Fault::Refused(Code::E30))
    }
}

/// The rules of a command, or the first code of the first rule that has one.
pub fn shapes_of(
    alloc: Global,
    version: &Version,
    rules: &[ScopedRule],
) -> Result<Listed<Rule>, Fault>
    ensures { GivesShapes (shapes_of (entries_of version.now)
        (map plain_scoped_rule rules.now)) result }
{
    let mut shapes = Listed::new(alloc);
    for rule in rules {
        shapes.push(defined_shape(alloc, version, rule)?)?;
    }
    Ok(shapes)
}
