//! The law of parts, on a function that does nothing.
//!
//! A caller that needs it calls the function, whose clauses then stand among what is known.
ghost use Rattle.std.specs.Prelude.{◌≡◌, ◌≤◌, ℕ, List};
ghost use Rattle.dk_model.specs.PlainTerms.{Tree};
ghost use Rattle.dk_model.specs.PlainEntries.{PlainSignature};
ghost use Rattle.dk_model.specs.Typing.{answer, inferred};
ghost use Rattle.split_parts.specs.Parts.{combined, part};
ghost use Rattle.split_parts.specs.Splitting.{application_steps, application_typ, applied};

/// An application typed by parts, each with all of a budget, comes to what typing it from left to right with no more units
/// comes to, and takes the same units; where it has a type, the parts give it.
pub fn parts_are_the_whole()
    ensures parts { (S : PlainSignature) (V G : List Tree) (head : Tree) (arguments : List Tree)
        (budget n : ℕ) → n ≤ budget →
        combined (application_steps S V G budget head arguments) n
        ≡ part n (inferred S V G (applied head arguments) n) }
    ensures typ { (S : PlainSignature) (V G : List Tree) (head : Tree) (arguments : List Tree)
        (budget n : ℕ) → n ≤ budget → (T : Tree) (m : ℕ) →
        inferred S V G (applied head arguments) n ≡ answer T m →
        T ≡ application_typ S V G budget head arguments }
{
    // Proved part by part: each takes the same units whatever it is given.
}
