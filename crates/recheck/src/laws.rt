//! What parts that are right are worth, each on a function that does nothing.

ghost use Rattle.std.specs.Prelude.{List, Option, ℕ, []};
ghost use Rattle.dk_model.specs.PlainTerms.{Tree};
ghost use Rattle.dk_model.specs.PlainEntries.{PlainSignature};
ghost use Rattle.dk_model.specs.PlainCommands.{PlainCommand};
ghost use Rattle.dk_model.specs.WellFormed.{IsSignature};
ghost use Rattle.typing_model.specs.Derivations.{HasDerivation};
ghost use Rattle.checked_steps.specs.Theories.{HaveDerivations};
ghost use Rattle.recheck.specs.Parts.{HaveParts, IsPart};

use checked_steps::laws::{certified_have_derivations, checked_has_derivation};

/// A command whose part is right has a derivation over the entries before it.
pub fn part_has_derivation()
    ensures { (S : PlainSignature) (command : PlainCommand) (bytes : List ℕ) (typ : Option Tree) →
        IsSignature S → IsPart S command bytes typ → HasDerivation S command }
{
    checked_has_derivation();
}

/// Where the commands of a theory have parts that are right, each has a derivation over the entries of those before it,
/// and the type that a part gives is one that the body of its definition has.
#[tactic(auto, using(crate::proofs::Certified::parts_derive))]
pub fn parts_have_derivations()
    ensures { (commands : List PlainCommand) (parts : List (List ℕ)) →
        HaveParts [] commands parts → HaveDerivations [] commands }
{
    certified_have_derivations();
}
