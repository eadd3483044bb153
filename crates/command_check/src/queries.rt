//! Queries: whether a term has a type, whether two terms are the same, the type of a term, its normal form.
ghost use Rattle.std.specs.Prelude.{◌≡◌, ◌≤◌, [], IfErr, IfOk, IsTrue, Some};
ghost use Rattle.dk_model.specs.Trees.{tree};
ghost use Rattle.dk_model.specs.Erasure.{erased};
ghost use Rattle.dk_model.specs.Typing.{inferred};
ghost use Rattle.dk_model.specs.Scoping.{plain_asked, plain_command, query};
ghost use Rattle.dk_model.specs.Verdicts.{asked_found, command_checked, compared, evaluated, found_of, query_found, verdict_of};
ghost use Rattle.dk_model.specs.Answering.{is_answered, IsVerdictOrMemory};
ghost use Rattle.shared_term.specs.Commands.{stored_command};
ghost use Rattle.shared_term.specs.Finding.{plain_found};
ghost use Rattle.signature_log.specs.Versions.{entries_of};
ghost use Rattle.signature_log.specs.Reducers.{Keeps};
ghost use Rattle.infer_check.specs.Given.{GivesFit, GivesType};
ghost use Rattle.infer_check.specs.Walks.{Follows};
ghost use Rattle.command_check.specs.Given.{GivesTerm};
ghost use Rattle.command_check.specs.Finding.{found_in, says_no, GivesFound, OwnsFound};

use crate::declaration::{check_typed, infer_kept};
use crate::found::FoundOf;
use crate::kept::Boxed;
use crate::verdict::fault_verdict;
use dk_model::{Asked, Code, NoMemory, Scoped, Term, TypeFault, Verdict};
use infer_check::{Compared, Walk, as_convertible, infer};
use shared_term::{Found, StoredCommand};
use signature_log::{Reducer, Version};

/// A term that has a type, without its annotations.
#[tactic(auto, using(infer_check::proofs::Contexts::context_empty, infer_check::proofs::Contexts::rule_types_empty, infer_check::proofs::Contexts::bound_types_empty, signature_log::proofs::Keeping::keeps_further, infer_check::proofs::Walks::follows))]
fn typed_term<R: Reducer>(
    r: &mut R,
    version: &Version,
    term: &Term,
    left: &mut u64,
) -> Result<R::T, TypeFault>
    requires { R.serves (entries_of version.now) r.old }
    ensures gives { GivesTerm R.owns R.denotes
        (inferred (entries_of version.now) [] [] (tree term.now) left.old) (erased (tree term.now))
        r.new result left.new }
    ensures follows { Follows R.owns R.denotes R.serves (entries_of version.now) r.old r.new }
    ensures spent { left.new ≤ left.old }
{
    let mut walk = Walk::new(r.alloc(), *left);
    let term = r.load(term)?;
    let typ = infer(r, version, &mut walk, &term);
    *left = walk.left;
    let _typ = typ?;
    Ok(r.erase(&term)?)
}

/// That two terms have types and are convertible (E21); their types need not be the same.
#[tactic(auto, using(crate::proofs::Querying::compared_first_fails, crate::proofs::Querying::compared_other_fails, crate::proofs::Querying::compared_same, signature_log::proofs::Keeping::keeps_further, infer_check::proofs::Walks::follows))]
fn compare<R: Reducer>(
    r: &mut R,
    version: &Version,
    t: &Term,
    u: &Term,
    left: &mut u64,
) -> Result<(), TypeFault>
    requires { R.serves (entries_of version.now) r.old }
    ensures gives { GivesFit (compared (entries_of version.now) (tree t.now) (tree u.now) left.old)
        result left.new }
    ensures follows { Follows R.owns R.denotes R.serves (entries_of version.now) r.old r.new }
    ensures spent { left.new ≤ left.old }
{
    let t = typed_term(r, version, t, left)?;
    let u = typed_term(r, version, u, left)?;
    let compared = Compared {
        code: Code::E21,
        found: &t,
        expected: &u,
    };
    as_convertible(r, version, compared, left)
}

/// The normal form of a term that has a type.
#[tactic(auto, using(crate::proofs::Querying::evaluated_fails, crate::proofs::Querying::evaluated_normal, signature_log::proofs::Keeping::keeps_further, infer_check::proofs::Walks::follows))]
fn evaluate<R: Reducer>(
    r: &mut R,
    version: &Version,
    term: &Term,
    left: &mut u64,
) -> Result<R::T, TypeFault>
    requires { R.serves (entries_of version.now) r.old }
    ensures gives { GivesType R.owns R.denotes
        (evaluated (entries_of version.now) (tree term.now) left.old) r.new result left.new }
    ensures follows { Follows R.owns R.denotes R.serves (entries_of version.now) r.old r.new }
    ensures spent { left.new ≤ left.old }
{
    let term = typed_term(r, version, term, left)?;
    Ok(r.normal(version, &term, left)?)
}

/// The check of a query.
#[tactic(auto, using(crate::proofs::Querying::goes, infer_check::proofs::Judging::fails_next))]
fn find<R: Reducer>(
    r: &mut R,
    version: &Version,
    asked: &Asked,
    left: &mut u64,
) -> Result<FoundOf<R::T>, TypeFault>
    requires { R.serves (entries_of version.now) r.old }
    ensures gives { GivesFound R.owns R.denotes
        (asked_found (entries_of version.now) (plain_asked asked.now) left.old)
        r.new result left.new }
    ensures follows { Follows R.owns R.denotes R.serves (entries_of version.now) r.old r.new }
    ensures spent { left.new ≤ left.old }
{
    match asked {
        Asked::Typed(term, typ) => {
            check_typed::<R, Boxed>(r, version, term, typ, left)?;
            Ok(FoundOf::Yes)
        }
        Asked::Equal(t, u) => {
            compare(r, version, t, u, left)?;
            Ok(FoundOf::Yes)
        }
        Asked::Infer(term) => Ok(FoundOf::Of(infer_kept::<R, Boxed>(r, version, term, left)?)),
        Asked::Eval(term) => Ok(FoundOf::Value(evaluate(r, version, term, left)?)),
    }
}

/// Whether a refusal of the query's check is the answer no: it asks for yes or no, and doesn't demand yes.
fn says_no(demand: bool, asked: &Asked) -> bool
    ensures { result ≡ says_no demand (plain_asked asked.now) }
{
    match asked {
        Asked::Typed(_, _) => !demand,
        Asked::Equal(_, _) => !demand,
        Asked::Infer(_) => false,
        Asked::Eval(_) => false,
    }
}

/// What a query finds.
#[tactic(auto, using(crate::proofs::Querying::answers_no, crate::proofs::Querying::answers_found, crate::proofs::Querying::answers_refusal, crate::proofs::Querying::answers_end))]
fn find_by<R: Reducer>(
    r: &mut R,
    version: &Version,
    demand: bool,
    asked: &Asked,
    left: &mut u64,
) -> Result<FoundOf<R::T>, TypeFault>
    requires { R.serves (entries_of version.now) r.old }
    ensures gives { GivesFound R.owns R.denotes
        (query_found (entries_of version.now) demand (plain_asked asked.now) left.old)
        r.new result left.new }
    ensures follows { Follows R.owns R.denotes R.serves (entries_of version.now) r.old r.new }
    ensures spent { left.new ≤ left.old }
{
    match find(r, version, asked, left) {
        Ok(found) => Ok(found),
        Err(TypeFault::Refused(code)) => {
            if says_no(demand, asked) {
                Ok(FoundOf::No)
            } else {
                Err(TypeFault::Refused(code))
            }
        }
        Err(TypeFault::Ended) => Err(TypeFault::Ended),
        Err(TypeFault::NoMemory) => Err(TypeFault::NoMemory),
    }
}

/// That a query is accepted.
#[tactic(auto, using(crate::proofs::Querying::checked_query, crate::proofs::Querying::checked_fails))]
pub fn judge_query<R: Reducer>(
    r: &mut R,
    version: &Version,
    demand: bool,
    asked: &Asked,
    left: &mut u64,
) -> Result<(), TypeFault>
    requires { R.serves (entries_of version.now) r.old }
    ensures gives { GivesFit
        (command_checked (entries_of version.now) (query demand (plain_asked asked.now)) left.old)
        result left.new }
    ensures follows { Follows R.owns R.denotes R.serves (entries_of version.now) r.old r.new }
    ensures spent { left.new ≤ left.old }
{
    let _found = find_by(r, version, demand, asked, left)?;
    Ok(())
}

/// What was found, with its term in a list of its own.
fn send_found<R: Reducer>(r: &R, found: FoundOf<R::T>) -> Result<Found, NoMemory>
    requires { OwnsFound R.owns r.now found }
    ensures { IfOk result (λ f. plain_found f ≡ found_in R.denotes r.now found) }
{
    match found {
        FoundOf::Yes => Ok(Found::Yes),
        FoundOf::No => Ok(Found::No),
        FoundOf::Of(typ) => Ok(Found::Of(r.send(&typ)?)),
        FoundOf::Value(value) => Ok(Found::Value(r.send(&value)?)),
    }
}

/// What a query finds that isn't to be checked as a demand (`#ASSERT`): yes or no, the type, or the normal form of its term;
/// else its verdict, which is never `Accepted` (docs/typing.md).
#[tactic(auto, using(crate::proofs::Querying::query_verdict, crate::proofs::Querying::query_finds, crate::proofs::Querying::checked_fails, crate::proofs::Verdicts::fault_due, crate::proofs::Verdicts::fault_refuses))]
pub fn query<R: Reducer>(
    reducer: &mut R,
    version: &Version,
    c: &Scoped,
    budget: u64,
) -> Result<Found, Verdict>
    requires answered { IsTrue (is_answered (plain_command c.now)) }
    requires serves { R.serves (entries_of version.now) reducer.old }
    ensures ok { IfOk result (λ f. found_of (entries_of version.now) (plain_command c.now)
        budget ≡ Some (plain_found f)) }
    ensures accepted { IfOk result (λ _. verdict_of (entries_of version.now) (plain_command c.now)
        budget ≡ Verdict.Accepted) }
    ensures err { IfErr result (IsVerdictOrMemory
        (verdict_of (entries_of version.now) (plain_command c.now) budget)) }
    ensures refused { IfErr result (λ v. ¬ (v ≡ Verdict.Accepted)) }
    ensures keeps { Keeps R.owns R.denotes reducer.old reducer.new }
    ensures serves { R.serves (entries_of version.now) reducer.new }
{
    let mut left = budget;
    match c {
        Scoped::Query { demand, asked } => {
            match find_by(reducer, version, *demand, asked, &mut left) {
                Ok(found) => match send_found(reducer, found) {
                    Ok(found) => Ok(found),
                    Err(_) => Err(Verdict::Memory),
                },
                Err(fault) => Err(fault_verdict(fault)),
            }
        }
        Scoped::Declare { .. } => unreachable!(),
        Scoped::Rules(_) => unreachable!(),
    }
}

/// The same of a command whose terms are stored.
#[tactic(auto, using(crate::proofs::Querying::query_verdict, crate::proofs::Querying::query_finds, crate::proofs::Querying::checked_fails, crate::proofs::Verdicts::fault_due, crate::proofs::Verdicts::fault_refuses))]
pub fn query_stored<R: Reducer>(
    reducer: &mut R,
    version: &Version,
    c: &StoredCommand,
    budget: u64,
) -> Result<Found, Verdict>
    requires answered { IsTrue (is_answered (stored_command c.now)) }
    requires serves { R.serves (entries_of version.now) reducer.old }
    ensures ok { IfOk result (λ f. found_of (entries_of version.now) (stored_command c.now)
        budget ≡ Some (plain_found f)) }
    ensures accepted { IfOk result (λ _. verdict_of (entries_of version.now) (stored_command c.now)
        budget ≡ Verdict.Accepted) }
    ensures err { IfErr result (IsVerdictOrMemory
        (verdict_of (entries_of version.now) (stored_command c.now) budget)) }
    ensures refused { IfErr result (λ v. ¬ (v ≡ Verdict.Accepted)) }
    ensures keeps { Keeps R.owns R.denotes reducer.old reducer.new }
    ensures serves { R.serves (entries_of version.now) reducer.new }
{
    let mut left = budget;
    match c {
        StoredCommand::Query { demand, asked } => {
            match find_by(reducer, version, *demand, asked, &mut left) {
                Ok(found) => match send_found(reducer, found) {
                    Ok(found) => Ok(found),
                    Err(_) => Err(Verdict::Memory),
                },
                Err(fault) => Err(fault_verdict(fault)),
            }
        }
        StoredCommand::Declare { .. } => unreachable!(),
        StoredCommand::Rules(_) => unreachable!(),
    }
}
