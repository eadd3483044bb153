//! Which rule variables may stand in what others are bound to, so that a binding that changes none of them goes through none.
ghost use Rattle.std.specs.Prelude.{◌≡◌, ℕ, Bool, true, IfOk, OnOk, IsTrue};
ghost use Rattle.dk_model.specs.Signatures.{PlainSignature};
ghost use Rattle.dk_model.specs.Bindings.{mentions_rule_variable};
ghost use Rattle.signature_log.specs.Reducers.{Keeps, OwnsSome};
ghost use Rattle.rule_check.specs.Mentioned.{is_marked, with_mark, may_mention, IsKept, IsNoted};

use crate::found::Mentioned;
use dk_model::{NoMemory, NodeOf};
use signature_log::Reducer;

/// A term that is deeper than this isn't looked through as a tree.
const SHALLOW: u32 = 8;

fn is_marked(marks: &[bool], number: u32) -> bool
    ensures { result ≡ is_marked marks.now number }
{
    match marks.get(number as usize) {
        Some(mark) => *mark,
        None => false,
    }
}

/// Whether the rule variable may stand in a term that another is bound to.
pub(crate) fn is_mentioned<R: Reducer>(
    r: &mut R,
    mentioned: &Mentioned<R::T>,
    number: u32,
) -> Result<bool, NoMemory>
    requires { OwnsSome R.owns r.old mentioned.now.term }
    ensures tells { may_mention R.denotes r.old mentioned.now number ≡ true → IfOk result IsTrue }
    ensures keeps { Keeps R.owns R.denotes r.old r.new }
    ensures serves { (S : PlainSignature) → R.serves S r.old → R.serves S r.new }
{
    if is_marked(mentioned.marks.as_slice(), number) {
        return Ok(true);
    }
    match &mentioned.term {
        Some(term) => Ok(!r.may_bind(term, number)?),
        None => Ok(false),
    }
}

/// Marks a place.
fn mark(marks: &mut Vec<bool>, number: u32) -> Result<(), NoMemory>
    ensures { OnOk result (marks.new.items ≡ with_mark marks.old.items number) }
{
    let place = number as usize;
    while marks.len() <= place {
        marks.push(false)?;
    }
    marks[place] = true;
    Ok(())
}

/// Marks the rule variables of a term, unless it is deeper or has an annotation. Answers whether these are all.
fn mark_all<R: Reducer>(
    r: &mut R,
    marks: &mut Vec<bool>,
    term: R::T,
    depth: u32,
) -> Result<bool, NoMemory>
    requires { R.owns r.old term }
    ensures all { (j : ℕ) → mentions_rule_variable j (R.denotes r.old term) ≡ true
        → IfOk result (λ b. IsTrue b → is_marked marks.new.items j ≡ true) }
    ensures kept { (j : ℕ) → is_marked marks.old.items j ≡ true
        → IfOk result (λ b. is_marked marks.new.items j ≡ true) }
    ensures keeps { Keeps R.owns R.denotes r.old r.new }
    ensures serves { (S : PlainSignature) → R.serves S r.old → R.serves S r.new }
{
    if depth == 0 {
        return Ok(false);
    }
    match r.open(term)? {
        NodeOf::Rvar(number) => {
            mark(marks, number)?;
            Ok(true)
        }
        NodeOf::App(one, other) | NodeOf::Prod(one, other) => {
            if mark_all(r, marks, one, depth - 1)? {
                mark_all(r, marks, other, depth - 1)
            } else {
                Ok(false)
            }
        }
        NodeOf::Abs(None, body) => mark_all(r, marks, body, depth - 1),
        NodeOf::Abs(Some(_), _) => Ok(false),
        _ => Ok(true),
    }
}

/// Keeps a term beside those that are kept.
fn keep<R: Reducer>(r: &mut R, kept: Option<R::T>, term: R::T) -> Result<Option<R::T>, NoMemory>
    requires kept { OwnsSome R.owns r.old kept }
    requires own { R.owns r.old term }
    ensures keeps_both { IfOk result
        (IsKept R.owns R.denotes r.old kept term r.new) }
    ensures keeps { Keeps R.owns R.denotes r.old r.new }
    ensures serves { (S : PlainSignature) → R.serves S r.old → R.serves S r.new }
{
    match kept {
        Some(kept) => Ok(Some(r.build(NodeOf::App(kept, term))?)),
        None => Ok(Some(term)),
    }
}

/// Notes that the rule variables of a term may stand in what others are bound to.
pub(crate) fn note<R: Reducer>(
    r: &mut R,
    mentioned: &mut Mentioned<R::T>,
    term: &R::T,
) -> Result<(), NoMemory>
    requires mentioned { OwnsSome R.owns r.old mentioned.old.term }
    requires own { R.owns r.old term.now }
    ensures noted { OnOk result (IsNoted R.owns R.denotes r.old mentioned.old
        (R.denotes r.old term.now) r.new mentioned.new) }
    ensures keeps { Keeps R.owns R.denotes r.old r.new }
    ensures serves { (S : PlainSignature) → R.serves S r.old → R.serves S r.new }
{
    let copy = r.copy(term)?;
    if mark_all(r, &mut mentioned.marks, copy, SHALLOW)? {
        return Ok(());
    }
    let copy = r.copy(term)?;
    mentioned.term = keep(r, mentioned.term.take(), copy)?;
    Ok(())
}
