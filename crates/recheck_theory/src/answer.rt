//! How a recheck ends.

/// How a recheck ends (docs/certificates.md).
#[derive(Clone, Copy, Debug, PartialEq, Eq)]
pub enum Answer {
    /// So many commands are rechecked: all of them.
    Rechecked(u64),
    /// The part of the command of this number isn't as it must be: 0 is the first line, and one
    /// more than there are commands is the end.
    Rejected(u64),
}
