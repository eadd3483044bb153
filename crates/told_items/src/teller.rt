//! An evaluation that tells the items of what typing asks of it (docs/certificates.md).
ghost use Rattle.std.specs.Prelude.{◌≡◌, [], ◌∷◌, ◌++◌, IfOk, OnOk};
ghost use Rattle.certificate_items.specs.Views.{plain_items};
ghost use Rattle.told_items.specs.Views.{plain_call};
ghost use Rattle.told_items.specs.Logs.{calls_of, items_of};

use crate::answered::Answered;
use crate::call::Call;
use crate::equations::{Solution, solve};
use certificate_items::Item;
use dk_model::{Listed, NoMemory, Stop, Term, TypeFault};
use signature_log::Version;
use std::alloc::Global;
use std::collections::LinkedList;
use std::snapshot::Snapshot;
use told_steps::{Tells, Told};
use tree_typing::{Bindings, Evaluates};

/// An evaluation that keeps what it was asked, in order, with the items.
#[derive(Drop)]
pub(crate) struct Teller<'t, T> {
    pub evaluation: &'t mut T,
    pub told: LinkedList<Answered>,
}

/// Puts a call behind the others.
#[tactic(auto, using(crate::proofs::Answers::calls_append))]
fn keep(told: &mut LinkedList<Answered>, answered: Answered) -> Result<(), NoMemory>
    ensures { OnOk result (calls_of told.new ≡ calls_of told.old ++ plain_call answered.call ∷ []) }
{
    told.push_back(answered)?;
    Ok(())
}

/// The items of all calls, in order.
pub(crate) fn all_items(alloc: Global, told: LinkedList<Answered>) -> Result<Vec<Item>, NoMemory>
    ensures { IfOk result (λ items. plain_items items.items ≡ items_of told) }
{
    let mut told = told;
    let mut all = Vec::new(alloc);
    while let Some(answered) = told.pop_front() {
        let mut items = answered.items;
        all.append(&mut items)?;
    }
    Ok(all)
}

impl<'t, T: Tells> Evaluates for Teller<'t, T> {
    ghost use Rattle.told_items.specs.Calls.{Log, by_calls};

    ghost Spent = { Log };

    ghost evaluator = { by_calls };

    ghost left = { λ teller. (T.units teller.evaluation.now, calls_of teller.told) };

    fn alloc(&self) -> Global {
        self.evaluation.alloc()
    }

    fn whnf(&mut self, version: &Version, term: &Term) -> Result<Term, Stop> {
        let Told { form, steps } = self.evaluation.whnf(version, term)?;
        let alloc = self.evaluation.alloc();
        let answered = Answered::reduced(alloc, version, term, &form, steps)?;
        keep(&mut self.told, answered)?;
        Ok(form)
    }

    fn same(&mut self, version: &Version, term: &Term, other: &Term) -> Result<bool, Stop> {
        let Some(join) = self.evaluation.same(version, term, other)? else {
            return Ok(false);
        };
        let alloc = self.evaluation.alloc();
        let answered = Answered::joined(alloc, version, term, other, join)?;
        keep(&mut self.told, answered)?;
        Ok(true)
    }

    fn normal(&mut self, version: &Version, term: &Term) -> Result<Term, Stop> {
        let Told { form, steps } = self.evaluation.normal(version, term)?;
        let alloc = self.evaluation.alloc();
        let answered = Answered::reduced(alloc, version, term, &form, steps)?;
        keep(&mut self.told, answered)?;
        Ok(form)
    }

    #[tactic(auto, using(crate::proofs::Answers::solves, crate::proofs::Telling::fails_resolved))]
    fn solve(
        &mut self,
        version: &Version,
        bound: &Bindings,
        term: &Term,
        other: &Term,
    ) -> Result<Bindings, TypeFault> {
        let Solution { bindings, items } = solve(
            &mut *self.evaluation,
            version,
            bound,
            term,
            other,
        )?;
        let bindings = Bindings {
            terms: Listed::from_vec(bindings),
        };
        let call = Call::Resolved(
            Snapshot::of(version),
            Snapshot::of(bound),
            Snapshot::of(term),
            Snapshot::of(other),
            Snapshot::of(&bindings),
        );
        keep(&mut self.told, Answered { call, items })?;
        Ok(bindings)
    }
}
