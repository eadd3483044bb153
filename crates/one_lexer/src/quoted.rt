//! Quoted names, behind their opening sign.
ghost use Rattle.std.specs.Prelude.{◌≡◌, ◌++◌, ◌∷◌, IfNone, IfSome, List, ℕ, length, suc};
ghost use Rattle.dk_lexer.specs.Spelling.{quoted, quoted_spelled};
ghost use Rattle.one_lexer.specs.Views.{spelling};
ghost use Rattle.one_lexer.specs.Quotes.{Ends, GoesOn, EndsWith};

use crate::found::{Found, Front, settled, unsettled};
use dk_lexer::{Class, TokenKind, classify};
use dk_model::Code;

// How what is left of a quoted name ends. A number counts the bytes that are left.
#[derive(Clone, Copy)]
pub(crate) enum End {
    // Behind the closing sign.
    Closed(usize),
    // At the byte at fault.
    Faulty(Code, usize),
    Open,
}

// How a quoted name that may have so many bytes more ends at this byte, if it does.
#[inline(always)]
fn ends_at(room: usize, byte: u8, more: &[u8], left: usize) -> Option<End>
    requires { left ≡ suc (length more.now) }
    ensures some { IfSome result (λ end. Ends room (byte ∷ more.now) end) }
    ensures none { IfNone result (GoesOn room byte more.now) }
{
    match classify(byte) {
        Class::Bar => {
            let Some((next, behind)) = more.split_first() else {
                return Some(End::Open);
            };
            match classify(*next) {
                Class::CloseBrace => Some(End::Closed(behind.len())),
                Class::Newline if room == 0 => Some(End::Faulty(Code::E01, more.len())),
                _ if room == 0 => Some(End::Faulty(Code::E05, more.len())),
                _ => None,
            }
        }
        Class::Newline => Some(End::Faulty(Code::E01, left)),
        _ if room == 0 => Some(End::Faulty(Code::E05, left)),
        _ => None,
    }
}

// How a quoted name ends that may have so many bytes more.
fn end_of(limit: usize, bytes: &[u8]) -> End
    ensures { Ends limit bytes.now result }
{
    let mut room = limit;
    let mut rest = bytes;
    while let Some((byte, more)) = rest.split_first() {
        if let Some(end) = ends_at(room, *byte, more, rest.len()) {
            return end;
        }
        room -= 1;
        rest = more;
    }
    End::Open
}

// A quoted name, or a qualified one whose second part is quoted: all bytes from its first on, and
// those behind the bar that opens it.
pub(crate) fn quoted<'a>(
    limit: usize,
    kind: TokenKind,
    bytes: &'a [u8],
    body: &'a [u8],
) -> Front<'a>
    requires { EndsWith bytes.now body.now }
    ensures early { result.late ≡ None }
    ensures value { (text : List ℕ) → bytes.now ≡ text ++ body.now →
        spelling result ≡ quoted_spelled kind text (quoted limit body.now) }
{
    match end_of(limit, body) {
        End::Closed(left) => {
            let (text, _) = bytes.split_at(bytes.len() - left);
            settled(Found::Token(kind, text, left))
        }
        End::Faulty(code, left) => settled(Found::Wrong(code, left)),
        End::Open => unsettled(Found::Wrong(Code::E03, 0)),
    }
}
