//! The verdict on a command, and the type of a definition without one.
ghost use Rattle.std.specs.Prelude.{◌≡◌, IfErr, IfOk, IsTrue, Some};
ghost use Rattle.dk_model.specs.Trees.{tree};
ghost use Rattle.dk_model.specs.Signatures.{plain_signature};
ghost use Rattle.dk_model.specs.Scoping.{plain_command};
ghost use Rattle.dk_model.specs.Answering.{is_untyped};
ghost use Rattle.dk_model.specs.WellFormed.{IsSignature};
ghost use Rattle.typing_model.specs.Conditions.{HasNoAnnotations, IsNumbered};
ghost use Rattle.typing_model.specs.Derivations.{HasDerivation};
ghost use Rattle.plain_check.specs.Clauses.{due, inferred_for, IsDue};

use command_check::{check_command, infer_type};
use dk_model::{Scoped, Signature, Term, Verdict};
use signature_log::version_of;
use std::alloc::Global;
use tree_evaluation::Trees;

/// The verdict on a command over the signature of the commands before it (docs/typing.md).
///
/// The check may take `budget` units; `Ended` says that it needs more. `Memory` says nothing of the command; it comes too
/// where the signature has more entries than a version holds. What is accepted has a derivation, where the signature is
/// well formed, as that of accepted commands is, or where it numbers the rule variables of its rules as shapes do and has
/// no annotations.
pub fn check_plain(alloc: Global, signature: &Signature, command: &Scoped, budget: u64) -> Verdict
    ensures due { IsDue signature.now command.now budget result }
    ensures derivation { result ≡ Verdict.Accepted → IsSignature (plain_signature signature.now)
        → HasDerivation (plain_signature signature.now) (plain_command command.now) }
    ensures numbered { result ≡ Verdict.Accepted → IsNumbered (plain_signature signature.now)
        → HasNoAnnotations (plain_signature signature.now)
        → HasDerivation (plain_signature signature.now) (plain_command command.now) }
{
    match version_of(alloc, signature) {
        Ok(version) => check_command(&mut Trees::new(alloc), &version, command, budget),
        Err(_) => Verdict::Memory,
    }
}

/// The type of the body of a definition without a declared type, where the command is accepted; else its verdict.
pub fn infer_plain(
    alloc: Global,
    signature: &Signature,
    command: &Scoped,
    budget: u64,
) -> Result<Term, Verdict>
    requires { IsTrue (is_untyped (plain_command command.now)) }
    ensures ok { IfOk result (λ t. inferred_for signature.now command.now budget ≡ Some (tree t)) }
    ensures accepted { IfOk result (λ _. due signature.now command.now budget ≡ Verdict.Accepted) }
    ensures err { IfErr result (λ v. IsDue signature.now command.now budget v) }
    ensures refused { IfErr result (λ v. ¬ (v ≡ Verdict.Accepted)) }
{
    let version = match version_of(alloc, signature) {
        Ok(version) => version,
        Err(_) => return Err(Verdict::Memory),
    };
    let typ = infer_type(&mut Trees::new(alloc), &version, command, budget)?;
    match typ.to_term(alloc) {
        Ok(typ) => Ok(typ),
        Err(_) => Err(Verdict::Memory),
    }
}
