//! The limits that reading keeps to (docs/syntax.md).
ghost use Rattle.std.specs.Prelude.{◌≡◌};
ghost use Rattle.dk_model.specs.Limits.{standard};

/// The limits of reading. The last value that a field allows is allowed; one more is a fault.
#[derive(Clone, Copy, Debug, PartialEq, Eq)]
pub struct Limits {
    /// Bytes of a command, from its first token's first byte to its dot. Past it: E05.
    pub command_bytes: u32,
    /// Levels of a term, and arguments of one application. Past it: E04.
    pub levels: u32,
    /// Bytes of a name, of each part of a qualified one, of a quoted one without its signs. Past it: E05.
    pub name_bytes: u32,
    /// Bytes of the input. Past it: E07.
    pub input_bytes: u32,
    /// Commands of the input. Past it: E08.
    pub commands: u32,
}

impl Limits {
    /// The limits of the program.
    pub fn standard() -> Limits
        ensures { result ≡ standard }
    {
        Limits {
            command_bytes: 16_777_216,
            levels: 1_000,
            name_bytes: 255,
            input_bytes: 1_073_741_824,
            commands: 1_048_576,
        }
    }
}
