//! Evaluation that tells its steps.
ghost use Rattle.std.specs.Prelude.{◌≡◌, ℕ, IfOk, IfSome, is_some};
ghost use Rattle.dk_model.specs.Trees.{tree};
ghost use Rattle.dk_model.specs.Evaluation.{comparison_of, normal_of, whnf_of};
ghost use Rattle.signature_log.specs.Versions.{entries_of};
ghost use Rattle.tree_typing.specs.Given.{Gives};
ghost use Rattle.certificate_items.specs.Views.{plain_steps};
ghost use Rattle.told_steps.specs.Told.{Leads, Meet};

use crate::Told;
use certificate_items::Join;
use dk_model::{Stop, Term};
use signature_log::Version;
use std::alloc::Global;

/// Evaluation with units that tells by which single steps it came to its answers (docs/certificates.md).
///
/// `Ended` says that the units that are left do not suffice; want of memory says nothing.
pub trait Tells {
    // The units that are left.
    ghost units: { Self → ℕ };

    /// Begins anew with so many units.
    fn begin(&mut self, left: u64)
        ensures { units self.new ≡ left };

    /// Where lists and terms grow.
    fn alloc(&self) -> Global;

    /// The weak head form, with the steps to it.
    fn whnf(&mut self, version: &Version, term: &Term) -> Result<Told, Stop>
        ensures gives { Gives (λ told. tree told.form)
            (whnf_of (entries_of version.now) (units self.old) (tree term.now))
            result (units self.new) }
        ensures told { IfOk result (λ told. Leads (entries_of version.now)
            (tree term.now) (plain_steps told.steps) (tree told.form)) };

    /// Whether two terms are convertible: if so, the steps of both to one term.
    fn same(&mut self, version: &Version, term: &Term, other: &Term) -> Result<Option<Join>, Stop>
        ensures gives { Gives is_some
            (comparison_of (entries_of version.now) (units self.old) (tree term.now) (tree other.now))
            result (units self.new) }
        ensures told { IfOk result (λ join. IfSome join (λ both. Meet (entries_of version.now)
            (tree term.now) (plain_steps both.first) (tree other.now) (plain_steps both.second))) };

    /// The normal form, with the steps to it.
    fn normal(&mut self, version: &Version, term: &Term) -> Result<Told, Stop>
        ensures gives { Gives (λ told. tree told.form)
            (normal_of (entries_of version.now) (units self.old) (tree term.now))
            result (units self.new) }
        ensures told { IfOk result (λ told. Leads (entries_of version.now)
            (tree term.now) (plain_steps told.steps) (tree told.form)) };
}
