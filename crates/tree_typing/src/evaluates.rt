//! Evaluation as typing asks for it, whatever it spends.
ghost use Rattle.dk_model.specs.Trees.{tree};
ghost use Rattle.dk_model.specs.Signatures.{PlainSignature};
ghost use Rattle.dk_model.specs.TypingOver.{Evaluator};
ghost use Rattle.signature_log.specs.Versions.{entries_of};
ghost use Rattle.tree_typing.specs.Given.{Gives, Judges, bindings};

use crate::Bindings;
use dk_model::{Stop, Term, TypeFault};
use signature_log::Version;
use std::alloc::Global;

/// What typing asks of an evaluation (docs/typing.md): four calls, each of which spends what is in the evaluation itself.
///
/// `Ended` says that what is left does not suffice; want of memory says nothing.
pub trait Evaluates {
    // What is spent: units, or what stands for them.
    ghost Spent: { Type 0 };

    // The evaluation over these entries.
    ghost evaluator: { PlainSignature → Evaluator Spent };

    // What is left to spend.
    ghost left: { Self → Spent };

    /// Where lists and terms grow.
    fn alloc(&self) -> Global;

    /// The weak head form.
    fn whnf(&mut self, version: &Version, term: &Term) -> Result<Term, Stop>
        ensures { Gives tree
            ((evaluator (entries_of version.now)).whnf (left self.old) (tree term.now))
            result (left self.new) };

    /// Whether two terms are convertible.
    fn same(&mut self, version: &Version, term: &Term, other: &Term) -> Result<bool, Stop>
        ensures { Gives (λ yes. yes)
            ((evaluator (entries_of version.now)).same (left self.old) (tree term.now) (tree other.now))
            result (left self.new) };

    /// The normal form.
    fn normal(&mut self, version: &Version, term: &Term) -> Result<Term, Stop>
        ensures { Gives tree
            ((evaluator (entries_of version.now)).normal (left self.old) (tree term.now))
            result (left self.new) };

    /// What rule variables are bound to once the equation of two types is solved.
    fn solve(
        &mut self,
        version: &Version,
        bound: &Bindings,
        term: &Term,
        other: &Term,
    ) -> Result<Bindings, TypeFault>
        ensures { Judges bindings ((evaluator (entries_of version.now)).solve
            (left self.old) (bindings bound.now) (tree term.now) (tree other.now))
            result (left self.new) };
}
