//! The laws of theories that are reported as accepted, each on a function that does nothing.
//!
//! A caller that needs a law calls its function, whose clauses then stand among what is known.

ghost use Rattle.accepted_theory.specs.Laws.{
  AcceptedAreRead,
  ReportedAreAccepted,
  ReportedAreRead,
  ToldAreRead,
};

use theory_reading::check_ends_as_read;

/// A theory that is reported as accepted has commands that are accepted one after the other, each over the entries of those
/// before it, as many as were reported. They are those that are read of the same books where nothing is typed.
pub fn reported_are_accepted()
    ensures { ReportedAreAccepted }
{
    // Proved command by command, with the names and the signature of the one theory beside the commands of the other.
}

/// Where the books of a shelf are reported as accepted, reading them again gives just such commands, or a call of the shelf
/// fails, or memory ends: no command is refused then.
pub fn accepted_are_read()
    ensures outcome { ReportedAreRead }
    ensures reported { AcceptedAreRead }
    ensures told { ToldAreRead }
{
    check_ends_as_read();
    reported_are_accepted();
}
