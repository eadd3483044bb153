//! The verdict on a command, and the type of a definition without one.
ghost use Rattle.std.specs.Prelude.{◌≡◌, ◌≤◌, IfErr, IfOk, IsTrue, Some, map};
ghost use Rattle.dk_model.specs.Trees.{tree};
ghost use Rattle.dk_model.specs.Signatures.{maybe_by, plain_rule};
ghost use Rattle.dk_model.specs.RuleTyping.{rules_typed};
ghost use Rattle.dk_model.specs.Scoping.{plain_command};
ghost use Rattle.dk_model.specs.Verdicts.{body_type, command_checked, entry_of, inferred_type, rules_checked, verdict, verdict_of};
ghost use Rattle.dk_model.specs.Answering.{is_untyped, IsVerdictOrMemory};
ghost use Rattle.shared_term.specs.Storage.{stored_term};
ghost use Rattle.signature_log.specs.Versions.{entries_of, stored_entry};
ghost use Rattle.signature_log.specs.Reducers.{Keeps};
ghost use Rattle.infer_check.specs.Given.{GivesFit};
ghost use Rattle.infer_check.specs.Walks.{Follows};
ghost use Rattle.dk_model.specs.WellFormed.{IsSignature};
ghost use Rattle.typing_model.specs.Conditions.{HasNoAnnotations, IsNumbered};
ghost use Rattle.typing_model.specs.Derivations.{HasDerivation};
ghost use Rattle.command_check.specs.Commands.{stored_command};
ghost use Rattle.command_check.specs.Given.{command_shapes, fault_verdict, HasBodyType};

use crate::declaration::{check_declaration, infer_body};
use crate::entry::entry_of;
use crate::kept::{Boxed, InLists, Kept};
use crate::queries::judge_query;
use crate::shapes::shapes_of;
use command_kinds::is_untyped;
use dk_model::{Entry, Listed, Rule, Scoped, ScopedRule, TypeFault, Verdict};
use rule_check::check_rule;
use shared_term::{Stored, StoredCommand};
use signature_log::{Reducer, Version};
use typing_model::laws::accepted_has_derivation;

/// The verdict of a fault, which is never `Accepted`.
pub(crate) fn fault_verdict(fault: TypeFault) -> Verdict
    ensures { result ≡ fault_verdict fault }
{
    match fault {
        TypeFault::Refused(code) => Verdict::Refused(code),
        TypeFault::Ended => Verdict::Ended,
        TypeFault::NoMemory => Verdict::Memory,
    }
}

/// That the rules of a command have their shapes, which takes no unit, and that each is typed.
#[tactic(auto, using(crate::proofs::Verdicts::shapes_fail, signature_log::proofs::Keeping::keeps_none, signature_log::proofs::Keeping::keeps_further, infer_check::proofs::Walks::follows))]
fn check_rules<R: Reducer>(
    r: &mut R,
    version: &Version,
    rules: &Listed<ScopedRule>,
    left: &mut u64,
) -> Result<(), TypeFault>
    requires { R.serves (entries_of version.now) r.old }
    ensures gives { GivesFit (rules_checked (entries_of version.now)
        (command_shapes (entries_of version.now) rules.now) left.old) result left.new }
    ensures follows { Follows R.owns R.denotes R.serves (entries_of version.now) r.old r.new }
    ensures spent { left.new ≤ left.old }
{
    let shapes = shapes_of(r.alloc(), version, rules)?;
    type_rules(r, version, shapes.as_slice(), left)
}

/// That each rule is typed, in file order, over the commands before: none is used in its own command.
#[tactic(auto, using(signature_log::proofs::Keeping::keeps_none, signature_log::proofs::Keeping::keeps_further, infer_check::proofs::Walks::follows))]
fn type_rules<R: Reducer>(
    r: &mut R,
    version: &Version,
    rules: &[Rule],
    left: &mut u64,
) -> Result<(), TypeFault>
    requires { R.serves (entries_of version.now) r.old }
    ensures gives { GivesFit
        (rules_typed (entries_of version.now) (map plain_rule rules.now) left.old) result left.new }
    ensures follows { Follows R.owns R.denotes R.serves (entries_of version.now) r.old r.new }
    ensures spent { left.new ≤ left.old }
{
    let mut rest = rules;
    while let Some((rule, others)) = rest.split_first() {
        check_rule(r, version, rule, left)?;
        rest = others;
    }
    Ok(())
}

/// The check of a command with the units that are left.
#[tactic(auto, using(signature_log::proofs::Keeping::keeps_none, signature_log::proofs::Keeping::keeps_further, infer_check::proofs::Walks::follows))]
fn judge<R: Reducer>(
    r: &mut R,
    version: &Version,
    command: &Scoped,
    left: &mut u64,
) -> Result<(), TypeFault>
    requires { R.serves (entries_of version.now) r.old }
    ensures gives { GivesFit
        (command_checked (entries_of version.now) (plain_command command.now) left.old)
        result left.new }
    ensures follows { Follows R.owns R.denotes R.serves (entries_of version.now) r.old r.new }
    ensures spent { left.new ≤ left.old }
{
    match command {
        Scoped::Declare { typ, body, .. } => {
            check_declaration::<R, Boxed>(r, version, typ, body, left)
        }
        Scoped::Rules(rules) => check_rules(r, version, rules, left),
        Scoped::Query { demand, asked } => judge_query(r, version, *demand, asked, left),
    }
}

/// The same of a command whose terms are stored.
#[tactic(auto, using(signature_log::proofs::Keeping::keeps_none, signature_log::proofs::Keeping::keeps_further, infer_check::proofs::Walks::follows))]
fn judge_stored<R: Reducer>(
    r: &mut R,
    version: &Version,
    command: &StoredCommand,
    left: &mut u64,
) -> Result<(), TypeFault>
    requires { R.serves (entries_of version.now) r.old }
    ensures gives { GivesFit
        (command_checked (entries_of version.now) (stored_command command.now) left.old)
        result left.new }
    ensures follows { Follows R.owns R.denotes R.serves (entries_of version.now) r.old r.new }
    ensures spent { left.new ≤ left.old }
{
    match command {
        StoredCommand::Declare { typ, body, .. } => {
            check_declaration::<R, InLists>(r, version, typ, body, left)
        }
        StoredCommand::Rules(rules) => check_rules(r, version, rules, left),
        StoredCommand::Query { demand, asked } => judge_query(r, version, *demand, asked, left),
    }
}

/// The verdict on a command over the version of the commands before it (docs/typing.md).
///
/// The check may take `budget` units; `Ended` says that it needs more. `Memory` says nothing of the command. What is
/// accepted has a derivation, where the version is a well-formed signature, as that of accepted commands is, or where it
/// numbers the rule variables of its rules as shapes do and has no annotations.
#[tactic(auto, using(crate::proofs::Verdicts::fit_verdict, crate::proofs::Verdicts::fault_due, crate::proofs::Verdicts::fault_refuses, crate::proofs::Verdicts::derived))]
pub fn check_command<R: Reducer>(
    reducer: &mut R,
    version: &Version,
    c: &Scoped,
    budget: u64,
) -> Verdict
    requires { R.serves (entries_of version.now) reducer.old }
    ensures due { IsVerdictOrMemory
        (verdict_of (entries_of version.now) (plain_command c.now) budget) result }
    ensures derivation { result ≡ Verdict.Accepted → IsSignature (entries_of version.now)
        → HasDerivation (entries_of version.now) (plain_command c.now) }
    ensures numbered { result ≡ Verdict.Accepted → IsNumbered (entries_of version.now)
        → HasNoAnnotations (entries_of version.now)
        → HasDerivation (entries_of version.now) (plain_command c.now) }
    ensures keeps { Keeps R.owns R.denotes reducer.old reducer.new }
    ensures serves { R.serves (entries_of version.now) reducer.new }
{
    accepted_has_derivation();
    let mut left = budget;
    match judge(reducer, version, c, &mut left) {
        Ok(()) => Verdict::Accepted,
        Err(fault) => fault_verdict(fault),
    }
}

/// The same verdict on a command whose terms are stored.
#[tactic(auto, using(crate::proofs::Verdicts::fit_verdict, crate::proofs::Verdicts::fault_due, crate::proofs::Verdicts::fault_refuses, crate::proofs::Verdicts::derived))]
pub fn check_stored<R: Reducer>(
    reducer: &mut R,
    version: &Version,
    c: &StoredCommand,
    budget: u64,
) -> Verdict
    requires { R.serves (entries_of version.now) reducer.old }
    ensures due { IsVerdictOrMemory
        (verdict_of (entries_of version.now) (stored_command c.now) budget) result }
    ensures derivation { result ≡ Verdict.Accepted → IsSignature (entries_of version.now)
        → HasDerivation (entries_of version.now) (stored_command c.now) }
    ensures keeps { Keeps R.owns R.denotes reducer.old reducer.new }
    ensures serves { R.serves (entries_of version.now) reducer.new }
{
    accepted_has_derivation();
    let mut left = budget;
    match judge_stored(reducer, version, c, &mut left) {
        Ok(()) => Verdict::Accepted,
        Err(refusal) => fault_verdict(refusal),
    }
}

/// The type of a body without a declared type, where it has one; else the verdict.
#[tactic(auto, using(crate::proofs::Verdicts::fault_due, crate::proofs::Verdicts::fault_refuses, signature_log::proofs::Keeping::keeps_further))]
fn infer_untyped<R: Reducer, K: Kept>(
    reducer: &mut R,
    version: &Version,
    body: &K::Term,
    budget: u64,
) -> Result<Stored, Verdict>
    requires { R.serves (entries_of version.now) reducer.old }
    ensures ok { IfOk result (λ t.
        HasBodyType (entries_of version.now) (K.kept_tree body.now) budget (stored_term t)) }
    ensures err { IfErr result (IsVerdictOrMemory
        (verdict (body_type (entries_of version.now) (K.kept_tree body.now) budget))) }
    ensures refused { IfErr result (λ v. ¬ (v ≡ Verdict.Accepted)) }
    ensures keeps { Keeps R.owns R.denotes reducer.old reducer.new }
    ensures serves { R.serves (entries_of version.now) reducer.new }
{
    let mut left = budget;
    match infer_body::<R, K>(reducer, version, body, &mut left) {
        Ok(typ) => match reducer.send(&typ) {
            Ok(typ) => Ok(typ),
            Err(_) => Err(Verdict::Memory),
        },
        Err(fault) => Err(fault_verdict(fault)),
    }
}

/// The type of the body of a definition without a declared type, where the command is accepted; else its verdict.
#[tactic(auto, using(crate::proofs::Verdicts::body_verdict, crate::proofs::Verdicts::body_due, crate::proofs::Verdicts::body_inferred, crate::proofs::Verdicts::derived))]
pub fn infer_type<R: Reducer>(
    reducer: &mut R,
    version: &Version,
    c: &Scoped,
    budget: u64,
) -> Result<Stored, Verdict>
    requires untyped { IsTrue (is_untyped (plain_command c.now)) }
    requires serves { R.serves (entries_of version.now) reducer.old }
    ensures ok { IfOk result (λ t. inferred_type (entries_of version.now) (plain_command c.now)
        budget ≡ Some (stored_term t)) }
    ensures accepted { IfOk result (λ _. verdict_of (entries_of version.now) (plain_command c.now)
        budget ≡ Verdict.Accepted) }
    ensures derivation { IfOk result (λ _. IsNumbered (entries_of version.now)
        → HasDerivation (entries_of version.now) (plain_command c.now)) }
    ensures err { IfErr result (IsVerdictOrMemory
        (verdict_of (entries_of version.now) (plain_command c.now) budget)) }
    ensures refused { IfErr result (λ v. ¬ (v ≡ Verdict.Accepted)) }
    ensures keeps { Keeps R.owns R.denotes reducer.old reducer.new }
    ensures serves { R.serves (entries_of version.now) reducer.new }
{
    accepted_has_derivation();
    match c {
        Scoped::Declare { typ, body, .. } => match typ {
            Some(_) => unreachable!(),
            None => match body {
                Some(body) => infer_untyped::<R, Boxed>(reducer, version, body, budget),
                None => unreachable!(),
            },
        },
        Scoped::Rules(_) => unreachable!(),
        Scoped::Query { .. } => unreachable!(),
    }
}

/// The same of a command whose terms are stored.
#[tactic(auto, using(crate::proofs::Verdicts::body_verdict, crate::proofs::Verdicts::body_due, crate::proofs::Verdicts::body_inferred, crate::proofs::Verdicts::derived))]
pub fn infer_stored<R: Reducer>(
    reducer: &mut R,
    version: &Version,
    c: &StoredCommand,
    budget: u64,
) -> Result<Stored, Verdict>
    requires untyped { IsTrue (is_untyped (stored_command c.now)) }
    requires serves { R.serves (entries_of version.now) reducer.old }
    ensures ok { IfOk result (λ t. inferred_type (entries_of version.now) (stored_command c.now)
        budget ≡ Some (stored_term t)) }
    ensures accepted { IfOk result (λ _. verdict_of (entries_of version.now) (stored_command c.now)
        budget ≡ Verdict.Accepted) }
    ensures derivation { IfOk result (λ _. IsNumbered (entries_of version.now)
        → HasDerivation (entries_of version.now) (stored_command c.now)) }
    ensures err { IfErr result (IsVerdictOrMemory
        (verdict_of (entries_of version.now) (stored_command c.now) budget)) }
    ensures refused { IfErr result (λ v. ¬ (v ≡ Verdict.Accepted)) }
    ensures keeps { Keeps R.owns R.denotes reducer.old reducer.new }
    ensures serves { R.serves (entries_of version.now) reducer.new }
{
    accepted_has_derivation();
    match c {
        StoredCommand::Declare { typ, body, .. } => match typ {
            Some(_) => unreachable!(),
            None => match body {
                Some(body) => infer_untyped::<R, InLists>(reducer, version, body, budget),
                None => unreachable!(),
            },
        },
        StoredCommand::Rules(_) => unreachable!(),
        StoredCommand::Query { .. } => unreachable!(),
    }
}

/// The entry that a command adds, where it is accepted; else its verdict.
#[tactic(auto, using(crate::proofs::Verdicts::no_type_inferred))]
pub fn enter_command<R: Reducer>(
    reducer: &mut R,
    version: &Version,
    c: &Scoped,
    budget: u64,
) -> Result<Entry<Stored>, Verdict>
    requires { R.serves (entries_of version.now) reducer.old }
    ensures ok { IfOk result (λ e. stored_entry e
        ≡ entry_of (entries_of version.now) (plain_command c.now)
        (inferred_type (entries_of version.now) (plain_command c.now) budget)) }
    ensures accepted { IfOk result (λ _. verdict_of (entries_of version.now) (plain_command c.now)
        budget ≡ Verdict.Accepted) }
    ensures err { IfErr result (IsVerdictOrMemory
        (verdict_of (entries_of version.now) (plain_command c.now) budget)) }
    ensures refused { IfErr result (λ v. ¬ (v ≡ Verdict.Accepted)) }
    ensures keeps { Keeps R.owns R.denotes reducer.old reducer.new }
    ensures serves { R.serves (entries_of version.now) reducer.new }
{
    let inferred = accepted_type(reducer, version, c, budget)?;
    match entry_of(reducer.alloc(), version, c, inferred) {
        Ok(entry) => Ok(entry),
        Err(_) => Err(Verdict::Memory),
    }
}

// The type that is inferred for a definition without a declared one, none for another command, where it is accepted;
// else its verdict.
#[tactic(auto, using(crate::proofs::Verdicts::no_type_inferred))]
fn accepted_type<R: Reducer>(
    reducer: &mut R,
    version: &Version,
    c: &Scoped,
    budget: u64,
) -> Result<Option<Stored>, Verdict>
    requires { R.serves (entries_of version.now) reducer.old }
    ensures ok { IfOk result (λ t. maybe_by stored_term t
        ≡ inferred_type (entries_of version.now) (plain_command c.now) budget) }
    ensures accepted { IfOk result (λ _. verdict_of (entries_of version.now) (plain_command c.now)
        budget ≡ Verdict.Accepted) }
    ensures err { IfErr result (IsVerdictOrMemory
        (verdict_of (entries_of version.now) (plain_command c.now) budget)) }
    ensures refused { IfErr result (λ v. ¬ (v ≡ Verdict.Accepted)) }
    ensures keeps { Keeps R.owns R.denotes reducer.old reducer.new }
    ensures serves { R.serves (entries_of version.now) reducer.new }
{
    if is_untyped(c) {
        Ok(Some(infer_type(reducer, version, c, budget)?))
    } else {
        match check_command(reducer, version, c, budget) {
            Verdict::Accepted => Ok(None),
            verdict => Err(verdict),
        }
    }
}
