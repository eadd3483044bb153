//! What a line of a script asks.

/// An edit of a session's texts, at a number from 1.
#[derive(Clone, Copy, Debug, PartialEq, Eq)]
pub enum Edit<'a> {
    /// Puts a text before the one of this number, or behind all.
    Insert(u32, &'a [u8]),
    /// Puts a text in the place of the one of this number.
    Replace(u32, &'a [u8]),
    /// Takes the text of this number away.
    Delete(u32),
}

/// A line, without the LF that ends it.
#[derive(Clone, Copy, Debug, PartialEq, Eq)]
pub enum Line<'a> {
    Edit(Edit<'a>),
    /// Writes the report.
    Report,
    /// No line of a script, or an edit at a number that no session has.
    Unreadable,
}
