//! What a byte is for the lexer (docs/syntax.md).
ghost use Rattle.std.specs.Prelude.{◌≡◌};
ghost use Rattle.dk_lexer.specs.Classes.{class_of, in_name};

/// The classes of bytes; bytes of one class are treated alike.
#[derive(Clone, Copy, Debug, PartialEq, Eq)]
pub enum Class {
    /// An ASCII letter.
    Letter,
    /// A digit, `!` or `?`: in a name like a letter.
    Digit,
    /// `_`
    Underscore,
    /// `'`, which may not begin a name.
    Quote,
    /// Space, tab or CR.
    Blank,
    /// LF, the one byte that ends a line.
    Newline,
    /// `:`
    Colon,
    /// `=`
    Equals,
    /// `-`
    Minus,
    /// `>`
    Greater,
    /// `.`
    Dot,
    /// `,`
    Comma,
    /// `(`
    OpenBracket,
    /// `)`
    CloseBracket,
    /// `[`
    OpenSquare,
    /// `]`
    CloseSquare,
    /// `{`
    OpenBrace,
    /// `}`
    CloseBrace,
    /// `|`
    Bar,
    /// `;`
    Semicolon,
    /// `#`
    Hash,
    /// Any other byte.
    Other,
}

/// The class of a byte.
#[inline(always)]
#[tactic(auto, unfolding(crate::specs::Classes::class_of))]
pub fn classify(byte: u8) -> Class
    ensures { result ≡ class_of byte }
{
    match byte {
        b'a'..=b'z' | b'A'..=b'Z' => Class::Letter,
        b'0'..=b'9' | b'!' | b'?' => Class::Digit,
        b'_' => Class::Underscore,
        b'\'' => Class::Quote,
        b' ' | b'\t' | b'\r' => Class::Blank,
        b'\n' => Class::Newline,
        b':' => Class::Colon,
        b'=' => Class::Equals,
        b'-' => Class::Minus,
        b'>' => Class::Greater,
        b'.' => Class::Dot,
        b',' => Class::Comma,
        b'(' => Class::OpenBracket,
        b')' => Class::CloseBracket,
        b'[' => Class::OpenSquare,
        b']' => Class::CloseSquare,
        b'{' => Class::OpenBrace,
        b'}' => Class::CloseBrace,
        b'|' => Class::Bar,
        b';' => Class::Semicolon,
        b'#' => Class::Hash,
        _ => Class::Other,
    }
}

/// May it stand in a name.
#[inline(always)]
#[tactic(auto, unfolding(crate::specs::Classes::class_of))]
pub fn is_in_name(byte: u8) -> bool
    ensures { result ≡ in_name (class_of byte) }
{
    matches!(
        byte,
        b'a'..=b'z' | b'A'..=b'Z' | b'0'..=b'9' | b'_' | b'\'' | b'!' | b'?'
    )
}
