//! What the walk of a left side asks of two types, and of the variables that a type mentions.
ghost use Rattle.std.specs.Prelude.{◌≤◌, length};
ghost use Rattle.dk_model.specs.RuleTyping.{confined};
ghost use Rattle.signature_log.specs.Versions.{entries_of};
ghost use Rattle.infer_check.specs.Given.{GivesType, GivesFit};
ghost use Rattle.infer_check.specs.Walks.{Follows, Continues};
ghost use Rattle.rule_check.specs.Clauses.{Binds};

use dk_model::{Code, TypeFault};
use infer_check::Walk;
use signature_log::{Reducer, Version};

/// A type that may mention, of the variables that the pattern binds there, only these: its normal form where it mentions
/// another, which then must not (E35).
#[tactic(auto, using(signature_log::proofs::Keeping::keeps_further, infer_check::proofs::Walks::continues))]
pub(crate) fn confined<R: Reducer>(
    r: &mut R,
    version: &Version,
    walk: &mut Walk<R::T>,
    arguments: &[u32],
    typ: R::T,
) -> Result<R::T, TypeFault>
    requires own { R.owns r.old typ }
    requires serves { R.serves (entries_of version.now) r.old }
    ensures gives { GivesType R.owns R.denotes
        (confined (entries_of version.now) (length walk.old.context.bound) arguments.now
        (R.denotes r.old typ) walk.old.left)
        r.new result walk.new.left }
    ensures continues { Continues R.owns R.denotes R.serves (entries_of version.now)
        r.old walk.old r.new walk.new }
{
    let depth = walk.context.bound.len() as u64;
    if !r.mentions_others(&typ, depth, arguments)? {
        return Ok(typ);
    }
    let normal = r.normal(version, &typ, &mut walk.left)?;
    if r.mentions_others(&normal, depth, arguments)? {
        Err(TypeFault::Refused(Code::E35))
    } else {
        Ok(normal)
    }
}

/// A confined type, as it stands behind the binders of these variables.
#[tactic(auto, using(crate::proofs::Judging::bound_fails, crate::proofs::Judging::bound_given, infer_check::proofs::Contexts::length_bound_types, signature_log::proofs::Keeping::keeps_further, infer_check::proofs::Walks::continues))]
pub(crate) fn bound_type<R: Reducer>(
    r: &mut R,
    version: &Version,
    walk: &mut Walk<R::T>,
    arguments: &[u32],
    typ: R::T,
) -> Result<R::T, TypeFault>
    requires own { R.owns r.old typ }
    requires serves { R.serves (entries_of version.now) r.old }
    ensures gives { Binds R.owns R.denotes (entries_of version.now) r.old walk.old.context
        arguments.now
        (R.denotes r.old typ) walk.old.left r.new result walk.new.left }
    ensures continues { Continues R.owns R.denotes R.serves (entries_of version.now)
        r.old walk.old r.new walk.new }
{
    let depth = walk.context.bound.len() as u64;
    let typ = confined(r, version, walk, arguments, typ)?;
    Ok(r.rename(&typ, depth, arguments)?)
}
