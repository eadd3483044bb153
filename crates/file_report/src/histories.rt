//! What every finished legal history of a theory's jobs reports. The laws are called for their clauses; the bodies do
//! nothing.
ghost use Rattle.std.specs.Prelude.{◌≡◌, ◌<◌, ℕ, Bool, true, false, List, [], ◌∷◌, length, Option};
ghost use Rattle.std.specs.List.{list_any};
ghost use Rattle.dk_model.specs.declared.limits.Limits.{Limits};
ghost use Rattle.dk_model.specs.declared.code.Verdict.TheVariants.{Memory};
ghost use Rattle.theory_walk.specs.Walks.{Placed, Walk};
ghost use Rattle.board_core.specs.declared.event.End.TheVariants.{Stopped};
ghost use Rattle.board_core.specs.declared.event.Event.{Event};
ghost use Rattle.board_core.specs.declared.event.Event.TheVariants.{Put, Claim, Answer, Seal};
ghost use Rattle.board_core.specs.Events.{end_of, is_fault};
ghost use Rattle.verdict_book.specs.Report.{FileReport};
ghost use Rattle.verdict_book.specs.Books.{IsReportOf};
ghost use Rattle.file_report.specs.Outcomes.{no_theory};
ghost use Rattle.file_report.specs.Jobs.{IsJobAt, TheoryJob, job_titles};
ghost use Rattle.file_report.specs.Histories.{ChecksJobsIn, ChecksTheory, ReportsTheory};

/// The report of a history in which a theory is checked is the theory's own, or memory ended.
pub fn report_of_theory<J>()
    ensures { (limits : Limits) (budget : ℕ) (own : Option (List ℕ)) (job_of : J → TheoryJob)
        (w : Walk) (jobs : List (J × Bool)) (events : List Event)
        (report : FileReport) →
        ChecksTheory limits budget own job_of w jobs events →
        IsReportOf (job_titles job_of jobs) events report →
        ReportsTheory limits budget own w (end_of events) (length jobs)
        report.lines report.outcome }
{}

/// Where some job is at fault, this is so whatever the end.
pub fn fault_of_theory<J>()
    ensures { (limits : Limits) (budget : ℕ) (own : Option (List ℕ)) (job_of : J → TheoryJob)
        (w : Walk) (jobs : List (J × Bool)) (events : List Event)
        (report : FileReport) →
        ChecksJobsIn limits budget own job_of w jobs events →
        list_any is_fault events ≡ true → IsReportOf (job_titles job_of jobs) events report →
        ReportsTheory limits budget own w (end_of events) (length jobs)
        report.lines report.outcome }
{}

/// The laws speak of some histories: here memory ends at the first job.
pub fn memory_theory_checks()
    ensures { (limits : Limits) (budget : ℕ) (own : Option (List ℕ)) (w : Walk) (c : Placed)
        (later : List Placed) (job : TheoryJob) →
        w.commands ≡ c ∷ later → IsJobAt limits budget own no_theory c job →
        0 < limits.commands →
        ChecksTheory limits budget own (λ j. j) w ((job, false) ∷ [])
        (Put 1 ∷ Claim 1 1 ∷ Answer 1 1 Memory ∷ Seal Stopped ∷ []) }
{}
