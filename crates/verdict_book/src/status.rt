//! The statuses that the program ends with (docs/report.md).

/// All commands are accepted.
pub const ACCEPTED: u8 = 0;

/// A command is refused.
pub const REFUSED: u8 = 1;

/// The words ask for nothing.
pub const USAGE: u8 = 2;

/// The opening of a file failed, or a read.
pub const UNREAD: u8 = 3;

/// Memory ended.
pub const MEMORY: u8 = 4;

/// A write failed.
pub const SINK_FAILED: u8 = 5;

/// A command needs more units than its budget has.
pub const BUDGET: u8 = 6;
