//! Declarations, definitions and theorems (docs/typing.md).
ghost use Rattle.std.specs.Prelude.{◌≡◌, [], Some};
ghost use Rattle.dk_model.specs.Trees.{tree};
ghost use Rattle.dk_model.specs.Signatures.{maybe_tree};
ghost use Rattle.dk_model.specs.CommandTypingOver.{body_checked, body_type, declaration_checked};
ghost use Rattle.signature_log.specs.Versions.{entries_of};
ghost use Rattle.tree_typing.specs.Given.{Judges};
ghost use Rattle.tree_commands.specs.Commands.{declaration_type};

use dk_model::{Term, TypeFault};
use signature_log::Version;
use tree_typing::{Context, Evaluates, Setting, check, infer, not_kind, sort_of};

/// What closed terms of commands are typed over: no rule variable has a type.
fn closed<'v>(version: &'v Version) -> Setting<'v>
    ensures version { result.version.now ≡ version.now }
    ensures rule_types { result.rule_types.now ≡ [] }
{
    Setting {
        version,
        rule_types: &[],
    }
}

/// That a body fits its declared type, where there is a body.
pub fn check_body<E: Evaluates>(
    evaluation: &mut E,
    version: &Version,
    declared: &Term,
    body: &Option<Term>,
) -> Result<(), TypeFault>
    ensures gives { Judges (λ u. u) (body_checked (E.evaluator (entries_of version.now))
        (entries_of version.now) (tree declared.now) (maybe_tree body.now)
        (E.left evaluation.old)) result (E.left evaluation.new) }
{
    match body {
        None => Ok(()),
        Some(body) => {
            let expected = declared.erased(evaluation.alloc())?;
            check(
                evaluation,
                &closed(version),
                &Context::Outer(&[]),
                body,
                &expected,
            )
        }
    }
}

/// The type of a body without a declared type, which isn't `Kind`.
pub fn infer_body<E: Evaluates>(
    evaluation: &mut E,
    version: &Version,
    body: &Term,
) -> Result<Term, TypeFault>
    ensures gives { Judges tree (body_type (E.evaluator (entries_of version.now))
        (entries_of version.now) (tree body.now)
        (E.left evaluation.old)) result (E.left evaluation.new) }
{
    let found = infer(evaluation, &closed(version), &Context::Outer(&[]), body)?;
    not_kind::<E>(found)
}

/// That a declared type has a sort, and then that the body fits it, where there is a body.
pub fn check_declared<E: Evaluates>(
    evaluation: &mut E,
    version: &Version,
    declared: &Term,
    body: &Option<Term>,
) -> Result<(), TypeFault>
    ensures gives { Judges (λ u. u) (declaration_checked (E.evaluator (entries_of version.now))
        (entries_of version.now) (Some (tree declared.now)) (maybe_tree body.now)
        (E.left evaluation.old)) result (E.left evaluation.new) }
{
    let _sort = sort_of(evaluation, &closed(version), &Context::Outer(&[]), declared)?;
    check_body(evaluation, version, declared, body)
}

/// The check of a declaration; the type of a body without a declared one.
pub fn check_declaration<E: Evaluates>(
    evaluation: &mut E,
    version: &Version,
    declared: &Option<Term>,
    body: &Option<Term>,
) -> Result<Option<Term>, TypeFault>
    ensures gives { Judges maybe_tree (declaration_type (E.evaluator (entries_of version.now))
        (entries_of version.now) (maybe_tree declared.now) (maybe_tree body.now)
        (E.left evaluation.old)) result (E.left evaluation.new) }
{
    match declared {
        Some(declared) => {
            check_declared(evaluation, version, declared, body)?;
            Ok(None)
        }
        None => match body {
            Some(body) => Ok(Some(infer_body(evaluation, version, body)?)),
            None => Ok(None),
        },
    }
}
