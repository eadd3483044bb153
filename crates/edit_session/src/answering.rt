//! The answer on a command: the one that is kept, where the command rests on the same texts; else it is made, and kept.
ghost use Rattle.std.specs.Prelude.{◌≡◌, ◌≤◌, Some, OnErr, IfOk, OnOk};
ghost use Rattle.edit_session.specs.Answering.{AnswersRightly, IsKeptAnswer, answer_to, kept_of, list_of, question_of};
ghost use Rattle.edit_session.specs.Held.{plain_answer};
ghost use Rattle.edit_session.specs.Sessions.{checks_for};

use crate::Judge;
use crate::both::both;
use crate::finding::{Findings, find};
use crate::grounds::{Ground, same_texts};
use crate::renumber::Renumbering;
use crate::slot::{Kept, Slot};
use dk_model::{NoMemory, Scoped};
use signature_log::Version;
use std::alloc::Global;

/// A command over the version of those before it, and the units that its check may take.
#[derive(Clone, Copy)]
pub struct Asked<'a> {
    pub version: &'a Version,
    pub command: &'a Scoped,
    pub budget: u64,
}

/// An answer, and how many checks were made for it.
#[derive(Drop)]
pub struct Answered {
    pub findings: Findings,
    pub checks: u32,
}

// The answer that is kept for these texts, if one is, over the present numbers.
fn kept_answer(
    alloc: Global,
    kept: &Option<Kept>,
    basis: &Ground,
) -> Result<Option<Findings>, NoMemory>
    ensures { IfOk result (IsKeptAnswer kept.now basis.now) }
{
    let Some(kept) = kept else {
        return Ok(None);
    };
    if !same_texts(kept.texts.as_slice(), basis.texts.as_slice()) {
        return Ok(None);
    }
    let numbers = Renumbering {
        old: kept.places.as_slice(),
        new: basis.places.as_slice(),
    };
    Ok(Some(numbers.answer(alloc, &kept.findings)?))
}

// What is found now, twice: one is to be kept.
fn find_twice<J: Judge>(
    alloc: Global,
    judge: &mut J,
    asked: &Asked<'_>,
) -> Result<(Findings, Findings), NoMemory>
    ensures found { IfOk result (λ both.
        plain_answer both.0 ≡ answer_to (question_of asked.now)) }
    ensures same { IfOk result (λ both. plain_answer both.1 ≡ plain_answer both.0) }
{
    let findings = find(judge, asked.version, asked.command, asked.budget)?;
    let copy = findings.copy(alloc);
    both(Ok(findings), copy)
}

// An answer that is made now, and kept.
fn answer_anew<J: Judge>(
    alloc: Global,
    judge: &mut J,
    slot: &mut Slot,
    basis: Ground,
    asked: &Asked<'_>,
) -> Result<Answered, NoMemory>
    ensures right { IfOk result (AnswersRightly slot.old slot.new basis (question_of asked.now)) }
    ensures list { OnOk result (kept_of slot.new ≡ Some (list_of slot.old basis)) }
    ensures one { IfOk result (λ a. a.checks ≡ 1) }
    ensures text { slot.new.text ≡ slot.old.text }
    ensures raw { slot.new.raw ≡ slot.old.raw }
    ensures err { OnErr result (slot.new ≡ slot.old) }
{
    let (basis, (findings, copy)) = both(Ok(basis), find_twice(alloc, judge, asked))?;
    drop(
        slot.kept.replace(Kept {
            texts: basis.texts,
            places: basis.places,
            findings: copy,
        }),
    );
    Ok(Answered {
        findings,
        checks: 1,
    })
}

/// The answer on the command of a slot that rests on this.
pub fn answer<J: Judge>(
    alloc: Global,
    judge: &mut J,
    slot: &mut Slot,
    basis: Ground,
    asked: &Asked<'_>,
) -> Result<Answered, NoMemory>
    ensures right { IfOk result (AnswersRightly slot.old slot.new basis (question_of asked.now)) }
    ensures list { OnOk result (kept_of slot.new ≡ Some (list_of slot.old basis)) }
    ensures checks { IfOk result (λ a.
        a.checks ≡ checks_for (kept_of slot.old) (Some (list_of slot.old basis))) }
    ensures few { IfOk result (λ a. a.checks ≤ 1) }
    ensures text { slot.new.text ≡ slot.old.text }
    ensures raw { slot.new.raw ≡ slot.old.raw }
    ensures err { OnErr result (slot.new ≡ slot.old) }
{
    match kept_answer(alloc, &slot.kept, &basis) {
        Ok(Some(findings)) => {
            drop(basis);
            Ok(Answered {
                findings,
                checks: 0,
            })
        }
        Ok(None) => answer_anew(alloc, judge, slot, basis, asked),
        Err(NoMemory) => {
            drop(basis);
            Err(NoMemory)
        }
    }
}
