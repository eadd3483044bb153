//! The rules of a command.
ghost use Rattle.std.specs.Prelude.{map};
ghost use Rattle.dk_model.specs.Signatures.{plain_rule};
ghost use Rattle.dk_model.specs.RuleTypingOver.{left_walked, rule_checked, rules_typed};
ghost use Rattle.signature_log.specs.Versions.{entries_of};
ghost use Rattle.tree_typing.specs.Given.{Judges};
ghost use Rattle.tree_rules.specs.Founds.{walked_of};

use crate::found::{Found, Walked};
use crate::place::Place;
use crate::sides::sides_fit;
use crate::walk::spine_walked;
use dk_model::{Rule, Term, TypeFault};
use signature_log::Version;
use tree_typing::{Context, Evaluates, symbol_type};

/// The left side of a rule: its term, its type, and what its walk finds.
pub fn left_walked<E: Evaluates>(
    evaluation: &mut E,
    version: &Version,
    rule: &Rule,
) -> Result<Walked, TypeFault>
    ensures gives { Judges walked_of (left_walked (E.evaluator (entries_of version.now))
        (entries_of version.now) (plain_rule rule.now) (E.left evaluation.old))
        result (E.left evaluation.new) }
{
    let alloc = evaluation.alloc();
    let head = Walked {
        term: Term::Sym(rule.head),
        typ: symbol_type(alloc, version, rule.head)?,
        found: Found::nothing(alloc, rule.vars)?,
    };
    let context = Context::Outer(&[]);
    let place = Place {
        version,
        context: &context,
    };
    spine_walked(evaluation, place, head, rule.pats.as_slice())
}

/// That both sides of a rule have one type, that its annotations agree with the types of its variables, and that its
/// guards fit the types at their places, over the entries of the commands before it.
pub fn rule_checked<E: Evaluates>(
    evaluation: &mut E,
    version: &Version,
    rule: &Rule,
) -> Result<(), TypeFault>
    ensures gives { Judges (λ u. u) (rule_checked (E.evaluator (entries_of version.now))
        (entries_of version.now) (plain_rule rule.now) (E.left evaluation.old))
        result (E.left evaluation.new) }
{
    let side = left_walked(evaluation, version, rule)?;
    sides_fit(
        evaluation,
        version,
        rule.notes.as_slice(),
        &rule.right,
        &side,
    )
}

/// The same for each of these, in file order.
#[tactic(auto, using(crate::proofs::Looping::rule_fails, crate::proofs::Looping::rule_given))]
pub fn rules_typed<E: Evaluates>(
    evaluation: &mut E,
    version: &Version,
    rules: &[Rule],
) -> Result<(), TypeFault>
    ensures gives { Judges (λ u. u) (rules_typed (E.evaluator (entries_of version.now))
        (entries_of version.now) (map plain_rule rules.now) (E.left evaluation.old))
        result (E.left evaluation.new) }
{
    let mut rest = rules;
    while let [rule, behind @ ..] = rest {
        rule_checked(evaluation, version, rule)?;
        rest = behind;
    }
    Ok(())
}
