//! Why a version takes no further entry.
use dk_model::NoMemory;

/// Why a version takes no further entry.
#[derive(Clone, Copy, Debug, PartialEq, Eq)]
pub enum Grow {
    /// It has as many as there can be.
    Full,
    /// A growth was refused.
    NoMemory,
}

impl From<NoMemory> for Grow {
    ghost use Rattle.std.specs.Prelude.{◌≡◌};
    ghost use Rattle.signature_log.specs.declared.grow.Grow.{Grow};

    ghost from_gives = { λ _ e. e ≡ Grow.NoMemory };

    fn from(_error: NoMemory) -> Grow {
        Grow::NoMemory
    }
}
