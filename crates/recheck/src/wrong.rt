//! Why a part isn't right.
use certificate_items::ReadFault;
use dk_model::TypeFault;

/// Why a part isn't right.
#[derive(Clone, Copy, Debug, PartialEq, Eq)]
pub enum Wrong {
    /// It is no checked derivation of its command.
    Rejected,
    /// A growth was refused, or joins nest deeper than is read and taken (README). It says nothing of the part.
    NoMemory,
}

impl From<ReadFault> for Wrong {
    ghost use Rattle.std.specs.Prelude.{◌≡◌};
    ghost use Rattle.recheck.specs.Wrongs.{read_wrong};

    ghost from_gives = { λ fault wrong. wrong ≡ read_wrong fault };

    fn from(fault: ReadFault) -> Wrong {
        match fault {
            ReadFault::NoItems => Wrong::Rejected,
            ReadFault::NoMemory => Wrong::NoMemory,
        }
    }
}

impl From<TypeFault> for Wrong {
    ghost use Rattle.std.specs.Prelude.{◌≡◌};
    ghost use Rattle.recheck.specs.Wrongs.{type_wrong};

    ghost from_gives = { λ fault wrong. wrong ≡ type_wrong fault };

    fn from(fault: TypeFault) -> Wrong {
        match fault {
            TypeFault::Refused(_) | TypeFault::Ended => Wrong::Rejected,
            TypeFault::NoMemory => Wrong::NoMemory,
        }
    }
}
