//! The laws of pruned theories and kept verdicts, each on a function that does nothing.

ghost use Rattle.prune_theory.specs.Laws.{AcceptedMentionBefore, AnswersAreKept, PrunedAreAccepted, ReadHaveTypeOrBody};

/// Each accepted command mentions only what stands before it, as `rests` asks of its commands.
pub fn accepted_mention_before()
    ensures { AcceptedMentionBefore }
{
    // Proved by the numbers that names have while one command is scoped after the other.
}

/// Each form that bytes are read as is no declaration, or one with a type or a body, as the laws below ask.
pub fn read_have_type_or_body()
    ensures { ReadHaveTypeOrBody }
{
    // Proved by the grammar's productions.
}

/// Of accepted commands those on which one rests are accepted by themselves, each with the units that it had.
pub fn pruned_are_accepted()
    ensures { PrunedAreAccepted }
{
    // Proved by a simulation between the whole signature and the cut one.
}

/// A command has the same verdict, units, type and finding wherever it rests on the same commands.
pub fn answers_are_kept()
    ensures { AnswersAreKept }
{
    // Proved by cutting both down.
}
