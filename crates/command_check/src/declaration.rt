//! The typing of a declaration, definition or theorem.
ghost use Rattle.std.specs.Prelude.{◌≤◌, [], Some};
ghost use Rattle.dk_model.specs.Signatures.{maybe_by};
ghost use Rattle.dk_model.specs.Typing.{inferred, sort_of};
ghost use Rattle.dk_model.specs.Verdicts.{body_checked, body_type, declaration_checked};
ghost use Rattle.signature_log.specs.Versions.{entries_of};
ghost use Rattle.infer_check.specs.Given.{GivesFit, GivesType};
ghost use Rattle.infer_check.specs.Walks.{Follows};
ghost use Rattle.command_check.specs.Given.{GivesTerm};

use crate::kept::Kept;
use dk_model::TypeFault;
use infer_check::{Walk, check, infer, not_kind, sort_of};
use signature_log::{Reducer, Version};

/// The type of a term.
#[tactic(auto, using(infer_check::proofs::Contexts::context_empty, infer_check::proofs::Contexts::rule_types_empty, infer_check::proofs::Contexts::bound_types_empty, signature_log::proofs::Keeping::keeps_further, infer_check::proofs::Walks::follows))]
pub fn infer_kept<R: Reducer, K: Kept>(
    r: &mut R,
    version: &Version,
    term: &K::Term,
    left: &mut u64,
) -> Result<R::T, TypeFault>
    requires { R.serves (entries_of version.now) r.old }
    ensures gives { GivesType R.owns R.denotes
        (inferred (entries_of version.now) [] [] (K.kept_tree term.now) left.old)
        r.new result left.new }
    ensures follows { Follows R.owns R.denotes R.serves (entries_of version.now) r.old r.new }
    ensures spent { left.new ≤ left.old }
{
    let mut walk = Walk::new(r.alloc(), *left);
    let term = K::bring(r, term)?;
    let found = infer(r, version, &mut walk, &term);
    *left = walk.left;
    found
}

/// The type of a body without a declared type, which isn't `Kind`.
#[tactic(auto, using(crate::proofs::Declaring::body_fails, crate::proofs::Declaring::body_kind, signature_log::proofs::Keeping::keeps_further, infer_check::proofs::Walks::follows))]
pub fn infer_body<R: Reducer, K: Kept>(
    r: &mut R,
    version: &Version,
    body: &K::Term,
    left: &mut u64,
) -> Result<R::T, TypeFault>
    requires { R.serves (entries_of version.now) r.old }
    ensures gives { GivesType R.owns R.denotes
        (body_type (entries_of version.now) (K.kept_tree body.now) left.old) r.new result left.new }
    ensures follows { Follows R.owns R.denotes R.serves (entries_of version.now) r.old r.new }
    ensures spent { left.new ≤ left.old }
{
    let found = infer_kept::<R, K>(r, version, body, left)?;
    not_kind(r, found)
}

/// A type that has a sort.
#[tactic(auto, using(infer_check::proofs::Contexts::context_empty, infer_check::proofs::Contexts::rule_types_empty, infer_check::proofs::Contexts::bound_types_empty, signature_log::proofs::Keeping::keeps_further, infer_check::proofs::Walks::follows))]
fn sorted_type<R: Reducer, K: Kept>(
    r: &mut R,
    version: &Version,
    typ: &K::Term,
    left: &mut u64,
) -> Result<R::T, TypeFault>
    requires { R.serves (entries_of version.now) r.old }
    ensures gives { GivesTerm R.owns R.denotes
        (sort_of (entries_of version.now) [] [] (K.kept_tree typ.now) left.old)
        (K.kept_tree typ.now) r.new result left.new }
    ensures follows { Follows R.owns R.denotes R.serves (entries_of version.now) r.old r.new }
    ensures spent { left.new ≤ left.old }
{
    let mut walk = Walk::new(r.alloc(), *left);
    let typ = K::bring(r, typ)?;
    let sort = sort_of(r, version, &mut walk, &typ);
    *left = walk.left;
    let _sort = sort?;
    Ok(typ)
}

/// That a type has a sort, and a term fits it.
#[tactic(auto, using(crate::proofs::Declaring::declared_fails, crate::proofs::Declaring::declared_body, signature_log::proofs::Keeping::keeps_further, infer_check::proofs::Walks::follows))]
pub fn check_typed<R: Reducer, K: Kept>(
    r: &mut R,
    version: &Version,
    term: &K::Term,
    typ: &K::Term,
    left: &mut u64,
) -> Result<(), TypeFault>
    requires { R.serves (entries_of version.now) r.old }
    ensures gives { GivesFit (declaration_checked (entries_of version.now)
        (Some (K.kept_tree typ.now)) (Some (K.kept_tree term.now)) left.old) result left.new }
    ensures follows { Follows R.owns R.denotes R.serves (entries_of version.now) r.old r.new }
    ensures spent { left.new ≤ left.old }
{
    let typ = sorted_type::<R, K>(r, version, typ, left)?;
    check_body::<R, K>(r, version, &typ, term, left)
}

/// That a declared type has a sort, and a body fits it.
#[tactic(auto, using(crate::proofs::Declaring::declared_fails, crate::proofs::Declaring::declared_body, infer_check::proofs::Walks::follows))]
fn check_declared<R: Reducer, K: Kept>(
    r: &mut R,
    version: &Version,
    typ: &K::Term,
    body: &Option<K::Term>,
    left: &mut u64,
) -> Result<(), TypeFault>
    requires { R.serves (entries_of version.now) r.old }
    ensures gives { GivesFit (declaration_checked (entries_of version.now)
        (Some (K.kept_tree typ.now)) (maybe_by K.kept_tree body.now) left.old) result left.new }
    ensures follows { Follows R.owns R.denotes R.serves (entries_of version.now) r.old r.new }
    ensures spent { left.new ≤ left.old }
{
    match body {
        Some(body) => check_typed::<R, K>(r, version, body, typ, left),
        None => {
            let _typ = sorted_type::<R, K>(r, version, typ, left)?;
            Ok(())
        }
    }
}

/// That a body fits the declared type.
#[tactic(auto, using(infer_check::proofs::Contexts::context_empty, infer_check::proofs::Contexts::rule_types_empty, infer_check::proofs::Contexts::bound_types_empty, signature_log::proofs::Keeping::keeps_further, infer_check::proofs::Walks::follows))]
fn check_body<R: Reducer, K: Kept>(
    r: &mut R,
    version: &Version,
    typ: &R::T,
    body: &K::Term,
    left: &mut u64,
) -> Result<(), TypeFault>
    requires own { R.owns r.old typ.now }
    requires serves { R.serves (entries_of version.now) r.old }
    ensures gives { GivesFit (body_checked (entries_of version.now)
        (R.denotes r.old typ.now) (Some (K.kept_tree body.now)) left.old) result left.new }
    ensures follows { Follows R.owns R.denotes R.serves (entries_of version.now) r.old r.new }
    ensures spent { left.new ≤ left.old }
{
    let mut walk = Walk::new(r.alloc(), *left);
    let body = K::bring(r, body)?;
    let expected = r.erase(typ)?;
    let fits = check(r, version, &mut walk, &body, &expected);
    *left = walk.left;
    fits
}

/// The same; without a declared type, that the body has a type.
#[tactic(auto, using(crate::proofs::Declaring::untyped_fails, crate::proofs::Declaring::untyped_given, signature_log::proofs::Keeping::keeps_none, infer_check::proofs::Walks::follows))]
pub fn check_declaration<R: Reducer, K: Kept>(
    r: &mut R,
    version: &Version,
    typ: &Option<K::Term>,
    body: &Option<K::Term>,
    left: &mut u64,
) -> Result<(), TypeFault>
    requires { R.serves (entries_of version.now) r.old }
    ensures gives { GivesFit (declaration_checked (entries_of version.now)
        (maybe_by K.kept_tree typ.now) (maybe_by K.kept_tree body.now) left.old) result left.new }
    ensures follows { Follows R.owns R.denotes R.serves (entries_of version.now) r.old r.new }
    ensures spent { left.new ≤ left.old }
{
    match typ {
        Some(typ) => check_declared::<R, K>(r, version, typ, body, left),
        None => match body {
            Some(body) => {
                let _typ = infer_body::<R, K>(r, version, body, left)?;
                Ok(())
            }
            None => Ok(()),
        },
    }
}
