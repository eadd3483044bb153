//! Comments, from a place inside one on.
ghost use Rattle.std.specs.Prelude.{◌≡◌, ◌≤◌, ◌<◌, ◌+◌, ◌++◌, ◌^◌, List, ℕ, length};
ghost use Rattle.dk_lexer.specs.Spelling.{comment};
ghost use Rattle.one_lexer.specs.Comments.{EndsWithin, ended};

use dk_lexer::{Class, classify};

/// How a comment goes on over some bytes.
#[derive(Clone, Copy)]
pub enum CommentEnd {
    /// The outermost one ends; so many bytes are left behind it.
    Closed(usize),
    /// So many are open, and the class of the last byte, `Other` where it is part of a sign.
    Open(usize, Class),
}

/// The bytes of a comment, up to its end: so many are open, and the class of the byte before.
pub fn inside(depth: usize, last: Class, bytes: &[u8]) -> CommentEnd
    requires { depth + length bytes.now < 2 ^ 64 }
    ensures goes_on { (more : List ℕ) → ended result more ≡ comment depth last (bytes.now ++ more) }
    ensures within { EndsWithin depth (length bytes.now) result }
{
    let mut open = depth;
    let mut before = last;
    let mut rest = bytes;
    while let Some((byte, more)) = rest.split_first() {
        let class = classify(*byte);
        rest = more;
        match (before, class) {
            (Class::OpenBracket, Class::Semicolon) => {
                open += 1;
                before = Class::Other;
            }
            (Class::Semicolon, Class::CloseBracket) => {
                if open <= 1 {
                    return CommentEnd::Closed(rest.len());
                }
                open -= 1;
                before = Class::Other;
            }
            _ => before = class,
        }
    }
    CommentEnd::Open(open, before)
}
