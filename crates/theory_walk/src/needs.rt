//! How a needed module stands, and how many may be needed.

/// How many files may be open, and how many modules may be opened besides the file.
#[derive(Clone, Copy)]
pub struct ModuleLimits {
    pub files: u32,
    pub modules: u32,
}

/// How a module stands that is needed.
#[derive(Clone, Copy, Debug, PartialEq, Eq)]
pub enum Standing {
    /// It is the one being read.
    Current,
    /// It is open below that.
    Below,
    /// It was read to its end.
    WasRead,
    New,
}
