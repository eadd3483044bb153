//! Evaluation over whatever stands for terms: boxed trees, or numbers of shared nodes.
//!
//! Typing and commands are written once over this trait. The meanings are those of plain trees (docs/evaluation.md).
ghost use Rattle.std.specs.Prelude.{◌≡◌, ◌≤◌, ℕ, [], map, true, IfOk, IsTrue};
ghost use Rattle.dk_model.specs.Trees.{Tree, tree};
ghost use Rattle.dk_model.specs.Substitution.{shift, substitute};
ghost use Rattle.dk_model.specs.Erasure.{erased};
ghost use Rattle.dk_model.specs.Signatures.{PlainSignature, maybe_by};
ghost use Rattle.dk_model.specs.Captures.{mentions_others, renamed, filled};
ghost use Rattle.dk_model.specs.Bindings.{may_bind};
ghost use Rattle.dk_model.specs.Bounds.{IsClosedAt};
ghost use Rattle.shared_term.specs.Changes.{substitute_all};
ghost use Rattle.dk_model.specs.Evaluation.{whnf_of, comparison_of, normal_of};
ghost use Rattle.shared_term.specs.Storage.{stored_term};
ghost use Rattle.signature_log.specs.Versions.{entries_of};
ghost use Rattle.signature_log.specs.Reducers.{Keeps, Gives, GivesAnswer, Makes, Shows, OwnsParts, AreOwned, OwnsSomes, built};

use crate::Version;
use dk_model::{NoMemory, NodeOf, Stop, Term};
use shared_term::Stored;
use std::alloc::Global;

/// Evaluation over a version, with the answers and units of plain trees, and what typing makes of terms besides.
///
/// A call needs values of the reducer's own and answers such values. Whatever it answers, also want of memory, each older
/// value stays the reducer's and stands for the same term.
pub trait Reducer {
    /// What stands for a term.
    type T: Drop;

    // Whether a value stands for a term of this reducer's.
    ghost owns: { Self → Self.T → Type 0 };

    // The term that it stands for.
    ghost denotes: { Self → Self.T → Tree };

    // Whether what is remembered is so over these entries.
    ghost serves: { PlainSignature → Self → Type 0 };

    /// Where lists grow.
    fn alloc(&self) -> Global;

    /// The weak head form. `left` has the units that may be spent, and then those that are left.
    fn whnf(&mut self, v: &Version, t: &Self::T, left: &mut u64) -> Result<Self::T, Stop>
        requires own { owns self.old t.now }
        requires serves { serves (entries_of v.now) self.old }
        ensures gives { Gives owns denotes
            (whnf_of (entries_of v.now) left.old (denotes self.old t.now)) self.new result left.new }
        ensures keeps { Keeps owns denotes self.old self.new }
        ensures serves { serves (entries_of v.now) self.new }
        ensures spent { left.new ≤ left.old };

    /// Whether two terms are convertible.
    fn same(&mut self, v: &Version, t: &Self::T, u: &Self::T, left: &mut u64) -> Result<bool, Stop>
        requires own { owns self.old t.now }
        requires other { owns self.old u.now }
        requires serves { serves (entries_of v.now) self.old }
        ensures gives { GivesAnswer
            (comparison_of (entries_of v.now) left.old (denotes self.old t.now) (denotes self.old u.now))
            result left.new }
        ensures keeps { Keeps owns denotes self.old self.new }
        ensures serves { serves (entries_of v.now) self.new }
        ensures spent { left.new ≤ left.old };

    /// The normal form.
    fn normal(&mut self, v: &Version, t: &Self::T, left: &mut u64) -> Result<Self::T, Stop>
        requires own { owns self.old t.now }
        requires serves { serves (entries_of v.now) self.old }
        ensures gives { Gives owns denotes
            (normal_of (entries_of v.now) left.old (denotes self.old t.now)) self.new result left.new }
        ensures keeps { Keeps owns denotes self.old self.new }
        ensures serves { serves (entries_of v.now) self.new }
        ensures spent { left.new ≤ left.old };

    /// The outermost node of a term that isn't needed any more: it is taken apart and not copied.
    fn open(&mut self, t: Self::T) -> Result<NodeOf<Self::T>, NoMemory>
        requires own { owns self.old t }
        ensures node { IfOk result (λ n. Shows owns denotes self.new (denotes self.old t) n) }
        ensures keeps { Keeps owns denotes self.old self.new }
        ensures serves { (S : PlainSignature) → serves S self.old → serves S self.new };

    /// The outermost node of a term.
    fn look(&mut self, t: &Self::T) -> Result<NodeOf<Self::T>, NoMemory>
        requires own { owns self.old t.now }
        ensures node { IfOk result (λ n. Shows owns denotes self.new (denotes self.old t.now) n) }
        ensures keeps { Keeps owns denotes self.old self.new }
        ensures serves { (S : PlainSignature) → serves S self.old → serves S self.new };

    /// The term with this outermost node.
    fn build(&mut self, node: NodeOf<Self::T>) -> Result<Self::T, NoMemory>
        requires own { OwnsParts owns self.old node }
        ensures makes { IfOk result (Makes owns denotes self.new (built denotes self.old node)) }
        ensures keeps { Keeps owns denotes self.old self.new }
        ensures serves { (S : PlainSignature) → serves S self.old → serves S self.new };

    /// A second value for the same term.
    fn copy(&mut self, t: &Self::T) -> Result<Self::T, NoMemory>
        requires own { owns self.old t.now }
        ensures makes { IfOk result (Makes owns denotes self.new (denotes self.old t.now)) }
        ensures keeps { Keeps owns denotes self.old self.new }
        ensures serves { (S : PlainSignature) → serves S self.old → serves S self.new };

    /// Puts `by` in the place of variable 0.
    fn put_in(&mut self, body: &Self::T, by: &Self::T) -> Result<Self::T, NoMemory>
        requires own { owns self.old body.now }
        requires other { owns self.old by.now }
        ensures makes { IfOk result (Makes owns denotes self.new
            (substitute 0 (denotes self.old by.now) (denotes self.old body.now))) }
        ensures keeps { Keeps owns denotes self.old self.new }
        ensures serves { (S : PlainSignature) → serves S self.old → serves S self.new };

    /// Puts these in the place of its innermost variables, all at once, the last one in that of variable 0.
    fn put_all_in(&mut self, body: &Self::T, terms: &[Self::T]) -> Result<Self::T, NoMemory>
        requires own { owns self.old body.now }
        requires others { AreOwned owns self.old terms.now }
        ensures makes { IfOk result (Makes owns denotes self.new
            (substitute_all 0 (map (denotes self.old) terms.now) (denotes self.old body.now))) }
        ensures keeps { Keeps owns denotes self.old self.new }
        ensures serves { (S : PlainSignature) → serves S self.old → serves S self.new };

    /// A term without annotations, to be put in the place of variable 0 of a body. It is looked at only where the body
    /// mentions the variable.
    fn as_argument(&mut self, t: &Self::T, body: &Self::T) -> Result<Self::T, NoMemory>
        requires own { owns self.old t.now }
        requires other { owns self.old body.now }
        ensures own { IfOk result (λ u. owns self.new u) }
        ensures erased { mentions_others 0 1 [] (denotes self.old body.now) ≡ true
            → IfOk result (λ u. denotes self.new u ≡ erased (denotes self.old t.now)) }
        ensures keeps { Keeps owns denotes self.old self.new }
        ensures serves { (S : PlainSignature) → serves S self.old → serves S self.new };

    /// Whether it is known that the term mentions no variable but those that are bound in it.
    fn is_closed(&self, t: &Self::T) -> bool
        requires { owns self.now t.now }
        ensures { IsTrue result → IsClosedAt 0 (denotes self.now t.now) };

    /// Adds `by` to each free variable.
    fn shift(&mut self, t: &Self::T, by: u64) -> Result<Self::T, NoMemory>
        requires own { owns self.old t.now }
        ensures makes { IfOk result (Makes owns denotes self.new
            (shift 0 by (denotes self.old t.now))) }
        ensures keeps { Keeps owns denotes self.old self.new }
        ensures serves { (S : PlainSignature) → serves S self.old → serves S self.new };

    /// The term with every annotation of an abstraction removed.
    fn erase(&mut self, t: &Self::T) -> Result<Self::T, NoMemory>
        requires own { owns self.old t.now }
        ensures makes { IfOk result (Makes owns denotes self.new (erased (denotes self.old t.now))) }
        ensures keeps { Keeps owns denotes self.old self.new }
        ensures serves { (S : PlainSignature) → serves S self.old → serves S self.new };

    /// Whether the term mentions one of the `depth` innermost variables that isn't among these.
    fn mentions_others(
        &mut self,
        t: &Self::T,
        depth: u64,
        variables: &[u32],
    ) -> Result<bool, NoMemory>
        requires own { owns self.old t.now }
        ensures tells { IfOk result (λ b. b
            ≡ mentions_others 0 depth variables.now (denotes self.old t.now)) }
        ensures keeps { Keeps owns denotes self.old self.new }
        ensures serves { (S : PlainSignature) → serves S self.old → serves S self.new };

    /// The term over a binder for each of these in place of the `depth` innermost variables.
    fn rename(&mut self, t: &Self::T, depth: u64, variables: &[u32]) -> Result<Self::T, NoMemory>
        requires own { owns self.old t.now }
        ensures makes { IfOk result (Makes owns denotes self.new
            (renamed 0 depth variables.now (denotes self.old t.now))) }
        ensures keeps { Keeps owns denotes self.old self.new }
        ensures serves { (S : PlainSignature) → serves S self.old → serves S self.new };

    /// The term with each of its rule variables for which there is a term in the place of that number replaced by it.
    fn fill(&mut self, t: &Self::T, terms: &[Option<Self::T>]) -> Result<Self::T, NoMemory>
        requires own { owns self.old t.now }
        requires others { OwnsSomes owns self.old terms.now }
        ensures makes { IfOk result (Makes owns denotes self.new
            (filled (map (maybe_by (denotes self.old)) terms.now) 0 (denotes self.old t.now))) }
        ensures keeps { Keeps owns denotes self.old self.new }
        ensures serves { (S : PlainSignature) → serves S self.old → serves S self.new };

    /// Whether the rule variable stands nowhere in the term, and no variable but those that are bound in it.
    fn may_bind(&mut self, t: &Self::T, number: u32) -> Result<bool, NoMemory>
        requires own { owns self.old t.now }
        ensures tells { IfOk result (λ b. b ≡ may_bind number (denotes self.old t.now)) }
        ensures keeps { Keeps owns denotes self.old self.new }
        ensures serves { (S : PlainSignature) → serves S self.old → serves S self.new };

    /// A term of an entry.
    fn bring(&mut self, t: &Stored) -> Result<Self::T, NoMemory>
        ensures makes { IfOk result (Makes owns denotes self.new (stored_term t.now)) }
        ensures keeps { Keeps owns denotes self.old self.new }
        ensures serves { (S : PlainSignature) → serves S self.old → serves S self.new };

    /// A term of a command.
    fn load(&mut self, t: &Term) -> Result<Self::T, NoMemory>
        ensures makes { IfOk result (Makes owns denotes self.new (tree t.now)) }
        ensures keeps { Keeps owns denotes self.old self.new }
        ensures serves { (S : PlainSignature) → serves S self.old → serves S self.new };

    /// The term as an entry keeps it.
    fn send(&self, t: &Self::T) -> Result<Stored, NoMemory>
        requires own { owns self.now t.now }
        ensures sends { IfOk result (λ s. stored_term s ≡ denotes self.now t.now) };
}
