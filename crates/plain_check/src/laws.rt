//! Facts of the definitions that no single call shows.
ghost use Rattle.std.specs.Prelude.{◌≡◌, ◌≤◌, ℕ};
ghost use Rattle.dk_model.specs.Signatures.{PlainSignature};
ghost use Rattle.dk_model.specs.Scoping.{PlainCommand};
ghost use Rattle.dk_model.specs.Verdicts.{verdict_of};
ghost use Rattle.dk_model.specs.declared.code.Verdict.{Verdict};

/// A verdict other than `Ended` is the same for every larger budget.
pub fn larger_budget()
    ensures { (S : PlainSignature) (c : PlainCommand) (n m : ℕ) → n ≤ m →
        ¬ (verdict_of S c n ≡ Verdict.Ended) → verdict_of S c m ≡ verdict_of S c n }
{}
