//! The kinds of commands whose terms are boxed.
ghost use Rattle.std.specs.Prelude.{◌≡◌};
ghost use Rattle.dk_model.specs.Answering.{is_answered, is_untyped};
ghost use Rattle.dk_model.specs.Scoping.{plain_command};

use dk_model::Scoped;

/// Whether a command is a definition without a declared type.
pub fn is_untyped(command: &Scoped) -> bool
    ensures { result ≡ is_untyped (plain_command command.now) }
{
    match command {
        Scoped::Declare { typ, body, .. } => typ.is_none() && body.is_some(),
        Scoped::Rules(_) => false,
        Scoped::Query { .. } => false,
    }
}

/// Whether a command is a query that only asks, so that its answer is shown.
pub fn is_answered(command: &Scoped) -> bool
    ensures { result ≡ is_answered (plain_command command.now) }
{
    match command {
        Scoped::Declare { .. } => false,
        Scoped::Rules(_) => false,
        Scoped::Query { demand, .. } => !*demand,
    }
}
