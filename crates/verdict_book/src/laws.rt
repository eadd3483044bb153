//! That a history has one report. The laws are called for their clauses; the bodies do nothing.
ghost use Rattle.std.specs.Prelude.{◌≡◌, Bool, List};
ghost use Rattle.board_core.specs.declared.event.Event.{Event};
ghost use Rattle.board_core.specs.Machine.{IsLawful};
ghost use Rattle.verdict_book.specs.Report.{FileReport};
ghost use Rattle.verdict_book.specs.Books.{IsReportOf};
ghost use Rattle.verdict_book.specs.declared.title.Title.{Title};

/// Every lawful history has a report.
pub fn history_has_report()
    ensures { (marks : List Bool) (titles : List Title) (events : List Event) →
        IsLawful marks events → (report : FileReport) × IsReportOf titles events report }
{}

/// And it has one only.
pub fn history_has_one_report()
    ensures { (titles : List Title) (events : List Event) (one other : FileReport) →
        IsReportOf titles events one → IsReportOf titles events other → one ≡ other }
{}
