//! The laws of kept answers and of texts, each on a function that does nothing.

ghost use Rattle.edit_session.specs.Forms.{ReportsComeFromForms, TextsAreCommands};
ghost use Rattle.edit_session.specs.Laws.{KeptAnswersServe};

/// An answer that was made once on a text is the present one wherever its command rests on the same texts, but for the
/// numbers of symbols.
pub fn kept_answers_serve()
    ensures { KeptAnswersServe }
{
    // Proved from the law of kept answers of prune_theory.
}

/// The texts of a session, each with a newline, are read as just their commands, that of text K on line K, where they have
/// together no more bytes than an input may.
pub fn texts_are_commands()
    ensures { TextsAreCommands }
{
    // Proved text by text: the tokens of a text stand on its line.
}

/// So the report of the texts is that of their commands, taken one after the other; none of them needs a module.
pub fn reports_come_from_commands()
    ensures { ReportsComeFromForms }
{
    // Proved from the law above and from that of folds of file_report.
}
