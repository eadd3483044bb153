//! Evaluation that tells its steps, as a value, for what is written over any such evaluation.
#![tactic(auto, using(crate::proofs::Reducing::terms_told, crate::proofs::Reducing::none_told, crate::proofs::Reducing::joined_told))]

ghost use Rattle.std.specs.Prelude.{◌≡◌};
ghost use Rattle.tree_evaluation.specs.Views.{units_left};

use crate::evaluation::Evaluation;
use certificate_items::Join;
use dk_model::{Stop, Term};
use signature_log::Version;
use std::alloc::Global;
use told_steps::{Tells, Told};

/// Evaluation over boxed trees with the units that are left to it and the steps to each answer. It
/// remembers nothing else. One that would nest too deep answers `NoMemory` (docs/evaluation.md).
#[derive(Drop)]
pub struct Telling {
    alloc: Global,
    left: u64,
}

impl Telling {
    /// Without a unit, until it begins.
    pub fn new(alloc: Global) -> Telling
        ensures { units_left result ≡ 0 }
    {
        Telling { alloc, left: 0 }
    }
}

impl Tells for Telling {
    ghost use Rattle.tree_evaluation.specs.Views.{units_left};

    ghost units = { units_left };

    fn begin(&mut self, left: u64) {
        self.left = left;
    }

    fn alloc(&self) -> Global {
        self.alloc
    }

    fn whnf(&mut self, version: &Version, term: &Term) -> Result<Told, Stop> {
        Evaluation::new(self.alloc, version).whnf(term, &mut self.left)
    }

    fn same(&mut self, version: &Version, term: &Term, other: &Term) -> Result<Option<Join>, Stop> {
        match Evaluation::new(self.alloc, version).same(term, other, &mut self.left)? {
            Some(met) => Ok(Some(met.into_join())),
            None => Ok(None),
        }
    }

    fn normal(&mut self, version: &Version, term: &Term) -> Result<Told, Stop> {
        Evaluation::new(self.alloc, version).normal(term, &mut self.left)
    }
}
