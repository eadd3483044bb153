//! The tokens of a file (docs/syntax.md).
use dk_model::Listed;

/// A token: what it is, how it is spelt, and where it begins.
#[derive(Drop)]
pub struct Token {
    pub kind: TokenKind,
    /// The bytes of the token as they stand in the file, a quoted name with its signs; empty for a sign.
    pub spelling: Listed<u8>,
    /// The bytes before its first byte.
    pub offset: u32,
    /// The line of its first byte, from 1.
    pub line: u32,
}

/// What a token is.
#[derive(Clone, Copy, Debug, PartialEq, Eq)]
pub enum TokenKind {
    /// A plain name.
    Plain,
    /// A quoted name.
    Quoted,
    /// A qualified name: two names with a dot between them.
    Qualified,
    /// The wildcard `_`.
    Wildcard,
    /// The word `Type`.
    Star,
    /// The word `def`.
    Def,
    /// The word `thm`.
    Thm,
    /// A word outside the profile.
    Profile,
    /// A sign.
    Sign(Sign),
}

/// The signs.
#[derive(Clone, Copy, Debug, PartialEq, Eq)]
pub enum Sign {
    /// `:`
    Colon,
    /// `:=`
    Defined,
    /// `->`
    Arrow,
    /// `=>`
    DoubleArrow,
    /// `-->`
    LongArrow,
    /// `.`
    Dot,
    /// `,`
    Comma,
    /// `(`
    OpenBracket,
    /// `)`
    CloseBracket,
    /// `[`
    OpenSquare,
    /// `]`
    CloseSquare,
    /// `{`
    OpenBrace,
    /// `}`
    CloseBrace,
    /// `==`
    Equal,
}
