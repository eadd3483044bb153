//! The laws of accepted files and of what one is pruned to, each on a function that does nothing.

ghost use Rattle.prune_file.specs.Laws.{AcceptedIsReported, PrunedStandsAlone, ReportedIsAccepted};
ghost use Rattle.prune_file.specs.Needs.{NeedsAreTold};

use prune_theory::laws::pruned_are_accepted;
use text_law::laws::chosen_texts_are_read;

/// A file that is reported as accepted, where it is read alone, has commands that are accepted one after the other.
pub fn reported_is_accepted()
    ensures { ReportedIsAccepted }
{
    // Proved command by command.
}

/// A file whose commands are so accepted, and that needs no other, is reported as accepted.
pub fn accepted_is_reported()
    ensures { AcceptedIsReported }
{
    // Proved command by command.
}

/// What a file is pruned to is a file of just the commands that are kept, accepted with the units that each had.
pub fn pruned_stands_alone()
    ensures { PrunedStandsAlone }
{
    pruned_are_accepted();
    chosen_texts_are_read();
}

/// A file that is read alone ends at its first directive `#REQUIRE` or command with a qualified name of another module, which
/// is told as E17.
pub fn needs_are_told()
    ensures { NeedsAreTold }
{
    // Proved item by item.
}
