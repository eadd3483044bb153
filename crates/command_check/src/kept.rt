//! The terms of a command as its check finds them: boxed, or stored.
ghost use Rattle.dk_model.specs.Trees.{tree};
ghost use Rattle.shared_term.specs.Storage.{stored_term};

use dk_model::{NoMemory, Term};
use shared_term::Stored;
use signature_log::Reducer;

/// How the terms of a command are kept, and how a reducer gets at them.
pub trait Kept {
    ghost use Rattle.std.specs.Prelude.{IfOk};
    ghost use Rattle.dk_model.specs.Trees.{Tree};
    ghost use Rattle.dk_model.specs.Signatures.{PlainSignature};
    ghost use Rattle.signature_log.specs.Reducers.{Keeps, Makes};

    type Term;

    ghost kept_tree: { Self.Term → Tree };

    /// The term as the reducer's own.
    fn bring<R: Reducer>(r: &mut R, t: &Self::Term) -> Result<R::T, NoMemory>
        ensures makes { IfOk result (Makes R.owns R.denotes r.new (kept_tree t.now)) }
        ensures keeps { Keeps R.owns R.denotes r.old r.new }
        ensures serves { (S : PlainSignature) → R.serves S r.old → R.serves S r.new };
}

/// Terms of boxes.
pub struct Boxed;

impl Kept for Boxed {
    type Term = Term;

    ghost kept_tree = { tree };

    fn bring<R: Reducer>(r: &mut R, t: &Term) -> Result<R::T, NoMemory> {
        r.load(t)
    }
}

/// Terms in lists of their own.
pub struct InLists;

impl Kept for InLists {
    type Term = Stored;

    ghost kept_tree = { stored_term };

    fn bring<R: Reducer>(r: &mut R, t: &Stored) -> Result<R::T, NoMemory> {
        r.bring(t)
    }
}
