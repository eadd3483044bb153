//! What comes behind the walk of a left side: annotations, guards and the right side.
ghost use Rattle.std.specs.Prelude.{map};
ghost use Rattle.dk_model.specs.Trees.{tree};
ghost use Rattle.dk_model.specs.Signatures.{maybe_tree};
ghost use Rattle.dk_model.specs.RuleTypingOver.{notes_agree, guards_fit, sides_fit};
ghost use Rattle.signature_log.specs.Versions.{entries_of};
ghost use Rattle.tree_typing.specs.Clauses.{entries, rule_types};
ghost use Rattle.tree_typing.specs.Given.{Judges, bindings as bindings_of};
ghost use Rattle.tree_rules.specs.Founds.{guard_of, walked_of};
ghost use Rattle.tree_rules.specs.Sides.{note_agrees, guard_fits, terms_fit};

use crate::bindings::types_under;
use crate::found::{Guard, Walked};
use crate::place::context_under;
use dk_model::{Code, Term, TypeFault};
use signature_log::Version;
use tree_terms::under;
use tree_typing::{Bindings, Context, Evaluates, Setting, as_convertible, check};

/// That each annotation of a rule variable that has a type is convertible with it, both under the bindings.
#[tactic(auto, using(crate::proofs::Noting::notes_end, crate::proofs::Looping::note_fails, crate::proofs::Looping::note_given))]
pub(crate) fn notes_agree<E: Evaluates>(
    evaluation: &mut E,
    version: &Version,
    bindings: &Bindings,
    notes: &[Option<Term>],
    types: &[Option<Term>],
) -> Result<(), TypeFault>
    ensures gives { Judges (λ u. u) (notes_agree (E.evaluator (entries_of version.now))
        (bindings_of bindings.now) (map maybe_tree notes.now) (map maybe_tree types.now)
        (E.left evaluation.old)) result (E.left evaluation.new) }
{
    let mut notes = notes;
    let mut types = types;
    while let [note, notes_behind @ ..] = notes {
        let [typ, types_behind @ ..] = types else {
            return Ok(());
        };
        note_agrees(evaluation, version, bindings, note, typ)?;
        notes = notes_behind;
        types = types_behind;
    }
    Ok(())
}

/// The same of one annotation, where there is one and the rule variable has a type.
fn note_agrees<E: Evaluates>(
    evaluation: &mut E,
    version: &Version,
    bindings: &Bindings,
    note: &Option<Term>,
    typ: &Option<Term>,
) -> Result<(), TypeFault>
    ensures gives { Judges (λ u. u) (note_agrees (E.evaluator (entries_of version.now))
        (bindings_of bindings.now) (maybe_tree note.now) (maybe_tree typ.now)
        (E.left evaluation.old)) result (E.left evaluation.new) }
{
    match (note, typ) {
        (Some(note), Some(typ)) => {
            let alloc = evaluation.alloc();
            let note = note.erased(alloc)?;
            let note = under(alloc, bindings.terms.as_slice(), &note)?;
            let typ = under(alloc, bindings.terms.as_slice(), typ)?;
            as_convertible(evaluation, version, Code::E34, &note, &typ)
        }
        _ => Ok(()),
    }
}

/// That each guard fits the type at its place, both under the bindings, where the rule variables have these types.
#[tactic(auto, using(crate::proofs::Looping::guard_fails, crate::proofs::Looping::guard_given))]
pub(crate) fn guards_fit<E: Evaluates>(
    evaluation: &mut E,
    setting: &Setting,
    bindings: &Bindings,
    guards: &[Guard],
) -> Result<(), TypeFault>
    ensures gives { Judges (λ u. u) (guards_fit (E.evaluator (entries setting.now))
        (entries setting.now) (bindings_of bindings.now) (rule_types setting.now)
        (map guard_of guards.now) (E.left evaluation.old)) result (E.left evaluation.new) }
{
    let mut rest = guards;
    while let [guard, behind @ ..] = rest {
        guard_fits(evaluation, setting, bindings, guard)?;
        rest = behind;
    }
    Ok(())
}

/// The same of one guard.
fn guard_fits<E: Evaluates>(
    evaluation: &mut E,
    setting: &Setting,
    bindings: &Bindings,
    guard: &Guard,
) -> Result<(), TypeFault>
    ensures gives { Judges (λ u. u) (guard_fits (E.evaluator (entries setting.now))
        (entries setting.now) (bindings_of bindings.now) (rule_types setting.now)
        (guard_of guard.now) (E.left evaluation.old)) result (E.left evaluation.new) }
{
    let alloc = evaluation.alloc();
    let outer = Context::Outer(guard.context.as_slice());
    let types = context_under(alloc, bindings, &outer)?;
    let context = Context::Outer(types.as_slice());
    let term = under(alloc, bindings.terms.as_slice(), &guard.term)?;
    let typ = under(alloc, bindings.terms.as_slice(), &guard.typ)?;
    check(evaluation, setting, &context, &term, &typ)
}

/// The guards, then the right side, which must have the type of the left one, where the rule variables have these
/// types.
fn terms_fit<E: Evaluates>(
    evaluation: &mut E,
    setting: &Setting,
    right: &Term,
    side: &Walked,
) -> Result<(), TypeFault>
    ensures gives { Judges (λ u. u) (terms_fit (E.evaluator (entries setting.now))
        (entries setting.now) (rule_types setting.now) (tree right.now) (walked_of side.now)
        (E.left evaluation.old)) result (E.left evaluation.new) }
{
    let bindings = &side.found.bindings;
    guards_fit(evaluation, setting, bindings, side.found.guards.as_slice())?;
    let alloc = evaluation.alloc();
    let right = under(alloc, bindings.terms.as_slice(), right)?;
    let typ = under(alloc, bindings.terms.as_slice(), &side.typ)?;
    let context = Context::Outer(&[]);
    check(evaluation, setting, &context, &right, &typ)
}

/// What comes behind the walk of the left side: the annotations, then the guards and the right side.
pub(crate) fn sides_fit<E: Evaluates>(
    evaluation: &mut E,
    version: &Version,
    notes: &[Option<Term>],
    right: &Term,
    side: &Walked,
) -> Result<(), TypeFault>
    ensures gives { Judges (λ u. u) (sides_fit (E.evaluator (entries_of version.now))
        (entries_of version.now) (map maybe_tree notes.now) (tree right.now) (walked_of side.now)
        (E.left evaluation.old)) result (E.left evaluation.new) }
{
    let bindings = &side.found.bindings;
    let types = side.found.types.as_slice();
    notes_agree(evaluation, version, bindings, notes, types)?;
    let types = types_under(evaluation.alloc(), bindings.terms.as_slice(), types)?;
    let setting = Setting {
        version,
        rule_types: types.as_slice(),
    };
    terms_fit(evaluation, &setting, right, side)
}
