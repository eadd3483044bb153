//! A rule: its left side, then its annotations, its guards and its right side.
ghost use Rattle.std.specs.Prelude.{◌≤◌, IfOk, map};
ghost use Rattle.dk_model.specs.Trees.{Tree, tree};
ghost use Rattle.dk_model.specs.Signatures.{PlainSignature, maybe_by, maybe_tree, plain_rule};
ghost use Rattle.dk_model.specs.Erasure.{erased};
ghost use Rattle.dk_model.specs.Bindings.{under};
ghost use Rattle.dk_model.specs.RuleTyping.{type_or_kind, rule_checked};
ghost use Rattle.signature_log.specs.Versions.{entries_of};
ghost use Rattle.signature_log.specs.Reducers.{Keeps, Makes, AreOwned, OwnsSome};
ghost use Rattle.infer_check.specs.Given.{GivesFit};
ghost use Rattle.infer_check.specs.Walks.{Follows};
ghost use Rattle.rule_check.specs.Founds.{terms_of, OwnsBindings, OwnsFound, AreAllTypes};
ghost use Rattle.rule_check.specs.Steps.{note_agrees};
ghost use Rattle.rule_check.specs.Given.{GivesLeft};
ghost use Rattle.rule_check.specs.Clauses.{notes_due, terms_due, right_due, left_due, sides_due};

use crate::bindings::{copy_under, under};
use crate::found::{Bindings, Found, Left, LeftWalk};
use crate::guards::check_guards;
use crate::walk::{Application, symbol_head, walk_spine};
use dk_model::{Code, Listed, NoMemory, NodeOf, Rule, Term, TypeFault};
use infer_check::{Compared, Context, Walk, as_convertible, check};
use signature_log::{Reducer, Version};

/// That both sides of a rule have one type, that its annotations agree with the types of its variables, and that its
/// guards fit the types at their places, over the signature of the commands before it.
///
/// `left` has the units that may be spent, and then those that are left.
#[tactic(auto, using(signature_log::proofs::Keeping::keeps_none, signature_log::proofs::Keeping::keeps_further, infer_check::proofs::Walks::follows))]
pub fn check_rule<R: Reducer>(
    r: &mut R,
    version: &Version,
    rule: &Rule,
    left: &mut u64,
) -> Result<(), TypeFault>
    requires { R.serves (entries_of version.now) r.old }
    ensures gives { GivesFit
        (rule_checked (entries_of version.now) (plain_rule rule.now) left.old) result left.new }
    ensures follows { Follows R.owns R.denotes R.serves (entries_of version.now) r.old r.new }
    ensures spent { left.new ≤ left.old }
{
    let side = walk_left(r, version, rule, left)?;
    check_sides(r, version, rule, side, left)
}

/// The left side: its type, and what its walk finds.
#[tactic(auto, using(signature_log::proofs::Keeping::keeps_none, signature_log::proofs::Keeping::keeps_further, infer_check::proofs::Walks::follows))]
fn walk_left<R: Reducer>(
    r: &mut R,
    version: &Version,
    rule: &Rule,
    left: &mut u64,
) -> Result<Left<R::T>, TypeFault>
    requires { R.serves (entries_of version.now) r.old }
    ensures gives { GivesLeft R.owns R.denotes
        (left_due (entries_of version.now) (plain_rule rule.now) left.old) r.new result left.new }
    ensures follows { Follows R.owns R.denotes R.serves (entries_of version.now) r.old r.new }
    ensures spent { left.new ≤ left.old }
{
    let context = Context::new(r.alloc());
    let found = Found::new(r.alloc(), rule.vars)?;
    let head = symbol_head(r, version, rule.head)?;
    let arguments = rule.pats.as_slice();
    let walk = Walk {
        context,
        left: *left,
    };
    let mut side = LeftWalk { walk, found };
    let walked = walk_spine(r, version, &mut side, Application { head, arguments });
    *left = side.walk.left;
    Ok(Left {
        typ: walked?.typ,
        found: side.found,
    })
}

/// What comes behind the walk of the left side.
#[tactic(auto, using(signature_log::proofs::Keeping::keeps_none, signature_log::proofs::Keeping::keeps_further, infer_check::proofs::Walks::follows))]
fn check_sides<R: Reducer>(
    r: &mut R,
    version: &Version,
    rule: &Rule,
    side: Left<R::T>,
    left: &mut u64,
) -> Result<(), TypeFault>
    requires typ { R.owns r.old side.typ }
    requires found { OwnsFound R.owns R.denotes r.old side.found }
    requires serves { R.serves (entries_of version.now) r.old }
    ensures gives { (t : Tree) → GivesFit
        (sides_due R.denotes (entries_of version.now) r.old (plain_rule rule.now) side t left.old)
        result left.new }
    ensures follows { Follows R.owns R.denotes R.serves (entries_of version.now) r.old r.new }
    ensures spent { left.new ≤ left.old }
{
    check_notes(r, version, rule.notes.as_slice(), &side.found, left)?;
    check_terms(r, version, &rule.right, side, left)
}

/// That each annotation of a rule variable that has a type is convertible with it, both under the bindings (E34).
#[tactic(auto, using(signature_log::proofs::Keeping::keeps_none, signature_log::proofs::Keeping::keeps_further, infer_check::proofs::Walks::follows))]
fn check_notes<R: Reducer>(
    r: &mut R,
    version: &Version,
    notes: &[Option<Term>],
    found: &Found<R::T>,
    left: &mut u64,
) -> Result<(), TypeFault>
    requires found { OwnsFound R.owns R.denotes r.old found.now }
    requires serves { R.serves (entries_of version.now) r.old }
    ensures gives { GivesFit (notes_due R.denotes (entries_of version.now) r.old
        (map maybe_tree notes.now) found.now left.old) result left.new }
    ensures follows { Follows R.owns R.denotes R.serves (entries_of version.now) r.old r.new }
    ensures spent { left.new ≤ left.old }
{
    let mut rest = notes;
    let mut known = found.types.as_slice();
    while let Some((note, others)) = rest.split_first() {
        match known.split_first() {
            Some((typ, further)) => {
                let noted = Noted {
                    note,
                    typ,
                    bindings: &found.bindings,
                };
                check_note(r, version, noted, left)?;
                known = further;
            }
            None => return Ok(()),
        }
        rest = others;
    }
    Ok(())
}

/// The annotation of a rule variable and its type, where there are any, and the bindings.
#[derive(Drop)]
struct Noted<'a, T> {
    note: &'a Option<Term>,
    typ: &'a Option<T>,
    bindings: &'a Bindings<T>,
}

/// The same for one rule variable.
#[tactic(auto, using(signature_log::proofs::Keeping::keeps_none, signature_log::proofs::Keeping::keeps_further, infer_check::proofs::Walks::follows))]
fn check_note<R: Reducer>(
    r: &mut R,
    version: &Version,
    noted: Noted<R::T>,
    left: &mut u64,
) -> Result<(), TypeFault>
    requires typ { OwnsSome R.owns r.old noted.typ.now }
    requires bindings { OwnsBindings R.owns R.denotes r.old noted.bindings.now }
    requires serves { R.serves (entries_of version.now) r.old }
    ensures gives { GivesFit (note_agrees (entries_of version.now)
        (terms_of R.denotes r.old noted.entry.bindings.now) (maybe_tree noted.entry.note.now)
        (maybe_by (R.denotes r.old) noted.entry.typ.now) left.old) result left.new }
    ensures follows { Follows R.owns R.denotes R.serves (entries_of version.now) r.old r.new }
    ensures spent { left.new ≤ left.old }
{
    match (noted.note, noted.typ) {
        (Some(note), Some(typ)) => {
            let note = note_under(r, noted.bindings, note)?;
            let typ = copy_under(r, noted.bindings, typ)?;
            let compared = Compared {
                code: Code::E34,
                found: &note,
                expected: &typ,
            };
            as_convertible(r, version, compared, left)
        }
        _ => Ok(()),
    }
}

/// An annotation without annotations of its own, under the bindings.
#[tactic(auto, using(signature_log::proofs::Keeping::keeps_further))]
fn note_under<R: Reducer>(
    r: &mut R,
    bindings: &Bindings<R::T>,
    note: &Term,
) -> Result<R::T, NoMemory>
    requires { OwnsBindings R.owns R.denotes r.old bindings.now }
    ensures makes { IfOk result (Makes R.owns R.denotes r.new
        (under (terms_of R.denotes r.old bindings.now) (erased (tree note.now)))) }
    ensures keeps { Keeps R.owns R.denotes r.old r.new }
    ensures serves { (S : PlainSignature) → R.serves S r.old → R.serves S r.new }
{
    let loaded = r.load(note)?;
    let erased = r.erase(&loaded)?;
    under(r, bindings, erased)
}

/// The guards, and the right side against the type of the left one.
#[tactic(auto, using(signature_log::proofs::Keeping::keeps_none, signature_log::proofs::Keeping::keeps_further, infer_check::proofs::Walks::follows))]
fn check_terms<R: Reducer>(
    r: &mut R,
    version: &Version,
    right: &Term,
    side: Left<R::T>,
    left: &mut u64,
) -> Result<(), TypeFault>
    requires typ { R.owns r.old side.typ }
    requires found { OwnsFound R.owns R.denotes r.old side.found }
    requires serves { R.serves (entries_of version.now) r.old }
    ensures gives { GivesFit
        (terms_due R.denotes (entries_of version.now) r.old (tree right.now) side left.old)
        result left.new }
    ensures follows { Follows R.owns R.denotes R.serves (entries_of version.now) r.old r.new }
    ensures spent { left.new ≤ left.old }
{
    let types = all_types(r, &side.found)?;
    let types = check_guards(r, version, types, &side.found, left)?;
    let ends = Ends { right, side: &side };
    check_right(r, version, types, ends, left)
}

/// The right side of a rule, and its left one.
#[derive(Drop)]
struct Ends<'a, T> {
    right: &'a Term,
    side: &'a Left<T>,
}

/// That the right side fits the type of the left one, both under the bindings, where the rule variables have these types.
#[tactic(auto, using(signature_log::proofs::Keeping::keeps_none, signature_log::proofs::Keeping::keeps_further, infer_check::proofs::Walks::follows))]
fn check_right<R: Reducer>(
    r: &mut R,
    version: &Version,
    types: Listed<R::T>,
    ends: Ends<R::T>,
    left: &mut u64,
) -> Result<(), TypeFault>
    requires types { AreOwned R.owns r.old types }
    requires typ { R.owns r.old ends.side.now.typ }
    requires found { OwnsFound R.owns R.denotes r.old ends.side.now.found }
    requires serves { R.serves (entries_of version.now) r.old }
    ensures gives { GivesFit (right_due R.denotes (entries_of version.now) r.old types
        (tree ends.entry.right.now) ends.entry.side.now left.old) result left.new }
    ensures follows { Follows R.owns R.denotes R.serves (entries_of version.now) r.old r.new }
    ensures spent { left.new ≤ left.old }
{
    let right = right_under(r, &ends.side.found.bindings, ends.right)?;
    let typ = copy_under(r, &ends.side.found.bindings, &ends.side.typ)?;
    let context = Context {
        rule_vars: types,
        bound: Listed::new(r.alloc()),
    };
    let mut walk = Walk {
        context,
        left: *left,
    };
    let fits = check(r, version, &mut walk, &right, &typ);
    *left = walk.left;
    fits
}

/// The right side under the bindings.
#[tactic(auto, using(signature_log::proofs::Keeping::keeps_further))]
fn right_under<R: Reducer>(
    r: &mut R,
    bindings: &Bindings<R::T>,
    right: &Term,
) -> Result<R::T, NoMemory>
    requires { OwnsBindings R.owns R.denotes r.old bindings.now }
    ensures makes { IfOk result (Makes R.owns R.denotes r.new
        (under (terms_of R.denotes r.old bindings.now) (tree right.now))) }
    ensures keeps { Keeps R.owns R.denotes r.old r.new }
    ensures serves { (S : PlainSignature) → R.serves S r.old → R.serves S r.new }
{
    let loaded = r.load(right)?;
    under(r, bindings, loaded)
}

/// The types of all rule variables under the bindings; `Kind` for one that the left side doesn't have.
#[tactic(auto, using(signature_log::proofs::Keeping::keeps_none))]
fn all_types<R: Reducer>(r: &mut R, found: &Found<R::T>) -> Result<Listed<R::T>, NoMemory>
    requires { OwnsFound R.owns R.denotes r.old found.now }
    ensures all { IfOk result (AreAllTypes R.owns R.denotes r.old found.now r.new) }
    ensures keeps { Keeps R.owns R.denotes r.old r.new }
    ensures serves { (S : PlainSignature) → R.serves S r.old → R.serves S r.new }
{
    let mut all = Listed::new(r.alloc());
    let mut rest = found.types.as_slice();
    while let Some((typ, others)) = rest.split_first() {
        let typ = type_or_kind(r, &found.bindings, typ)?;
        all.push(typ)?;
        rest = others;
    }
    Ok(all)
}

fn type_or_kind<R: Reducer>(
    r: &mut R,
    bindings: &Bindings<R::T>,
    typ: &Option<R::T>,
) -> Result<R::T, NoMemory>
    requires typ { OwnsSome R.owns r.old typ.now }
    requires bindings { OwnsBindings R.owns R.denotes r.old bindings.now }
    ensures makes { IfOk result (Makes R.owns R.denotes r.new
        (under (terms_of R.denotes r.old bindings.now)
        (type_or_kind (maybe_by (R.denotes r.old) typ.now)))) }
    ensures keeps { Keeps R.owns R.denotes r.old r.new }
    ensures serves { (S : PlainSignature) → R.serves S r.old → R.serves S r.new }
{
    match typ {
        Some(typ) => copy_under(r, bindings, typ),
        None => r.build(NodeOf::Kind),
    }
}
