//! Laws of theories of several files. They are called for their clauses; the bodies do nothing.
ghost use Rattle.std.specs.Prelude.{◌≡◌, ℕ, List, Option};
ghost use Rattle.theory_walk.specs.declared.needs.ModuleLimits.{ModuleLimits};
ghost use Rattle.file_report.specs.Folds.{fold_of};
ghost use Rattle.file_report.specs.Reports.{Checking};
ghost use Rattle.theory_walk.specs.Libraries.{Library};
ghost use Rattle.file_report.specs.TheoryReports.{report_from};
ghost use Rattle.theory_walk.specs.Walks.{walk_of};

/// The fold of a file and of the modules that it needs, each command checked where it stands, is the report of the commands in
/// the order of first need, taken one after the other; which commands these are is told by the books alone.
#[tactic(auto, using(crate::proofs::Folding::fold_is_report))]
pub fn fold_of_books<T>()
    ensures { (checks : Checking T) (limits : ModuleLimits) (own : Option (List ℕ)) (lib : Library)
        (none : T) →
        fold_of checks limits own lib none
        ≡ report_from checks none 0 (walk_of limits own lib).commands
        (walk_of limits own lib).reached }
{}
