//! Why an evaluation or a typing gave no answer.
use crate::{Code, NoMemory};

/// Why an evaluation gave no answer.
#[derive(Clone, Copy, Debug, PartialEq, Eq)]
pub enum Stop {
    /// It needs more units than were left.
    Ended,
    /// A growth was refused. It says nothing of the term.
    NoMemory,
}

impl From<NoMemory> for Stop {
    ghost use Rattle.std.specs.Prelude.{◌≡◌};
    ghost use Rattle.dk_model.specs.declared.stop.Stop.{Stop};

    ghost from_gives = { λ _ e. e ≡ Stop.NoMemory };

    fn from(_error: NoMemory) -> Stop {
        Stop::NoMemory
    }
}

/// Why a typing gave no answer.
#[derive(Clone, Copy, Debug, PartialEq, Eq)]
pub enum TypeFault {
    /// The first fault.
    Refused(Code),
    /// It needs more units than were left.
    Ended,
    NoMemory,
}

impl From<NoMemory> for TypeFault {
    ghost use Rattle.std.specs.Prelude.{◌≡◌};
    ghost use Rattle.dk_model.specs.declared.stop.TypeFault.{TypeFault};

    ghost from_gives = { λ _ e. e ≡ TypeFault.NoMemory };

    fn from(_error: NoMemory) -> TypeFault {
        TypeFault::NoMemory
    }
}

impl From<Stop> for TypeFault {
    ghost use Rattle.std.specs.Prelude.{◌≡◌};
    ghost use Rattle.dk_model.specs.Stops.{fault_of};

    ghost from_gives = { λ s e. e ≡ fault_of s };

    fn from(stop: Stop) -> TypeFault {
        match stop {
            Stop::Ended => TypeFault::Ended,
            Stop::NoMemory => TypeFault::NoMemory,
        }
    }
}
