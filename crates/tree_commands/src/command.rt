//! Commands (docs/typing.md).
ghost use Rattle.dk_model.specs.Scoping.{plain_command};
ghost use Rattle.dk_model.specs.Signatures.{maybe_tree};
ghost use Rattle.signature_log.specs.Versions.{entries_of};
ghost use Rattle.tree_typing.specs.Given.{Judges};
ghost use Rattle.tree_commands.specs.Commands.{command_type};

use crate::declaration::check_declaration;
use crate::rules::check_rules;
use dk_model::{Scoped, Term, TypeFault};
use signature_log::Version;
use tree_typing::Evaluates;

/// The check of a command; the type of a definition without a declared one, which its entry takes.
///
/// A query asks for nothing here.
pub fn check_command<E: Evaluates>(
    evaluation: &mut E,
    version: &Version,
    command: &Scoped,
) -> Result<Option<Term>, TypeFault>
    ensures gives { Judges maybe_tree (command_type (E.evaluator (entries_of version.now))
        (entries_of version.now) (plain_command command.now)
        (E.left evaluation.old)) result (E.left evaluation.new) }
{
    match command {
        Scoped::Declare { typ, body, .. } => check_declaration(evaluation, version, typ, body),
        Scoped::Rules(rules) => {
            check_rules(evaluation, version, rules.as_slice())?;
            Ok(None)
        }
        Scoped::Query { .. } => Ok(None),
    }
}
