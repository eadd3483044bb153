//! The kinds of commands whose terms are stored.
ghost use Rattle.std.specs.Prelude.{◌≡◌};
ghost use Rattle.dk_model.specs.Answering.{is_answered, is_untyped};
ghost use Rattle.shared_term.specs.Commands.{stored_command};

use shared_term::StoredCommand;

/// Whether a command is a definition without a declared type.
pub fn is_untyped_stored(command: &StoredCommand) -> bool
    ensures { result ≡ is_untyped (stored_command command.now) }
{
    match command {
        StoredCommand::Declare { typ, body, .. } => typ.is_none() && body.is_some(),
        StoredCommand::Rules(_) => false,
        StoredCommand::Query { .. } => false,
    }
}

/// Whether a command is a query that only asks, so that its answer is shown.
pub fn is_answered_stored(command: &StoredCommand) -> bool
    ensures { result ≡ is_answered (stored_command command.now) }
{
    match command {
        StoredCommand::Declare { .. } => false,
        StoredCommand::Rules(_) => false,
        StoredCommand::Query { demand, .. } => !*demand,
    }
}
