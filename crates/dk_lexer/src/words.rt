//! What a plain run is.
ghost use Rattle.std.specs.Prelude.{◌≡◌, Some, slice_get, if◌then◌else◌};
ghost use Rattle.std.specs.List.{list_all};
ghost use Rattle.std.specs.Str.{bytes_eq};
ghost use Rattle.dk_lexer.specs.Spelling.{is_name_byte, is_plain_name, is_wildcard, kind_of};
ghost use Rattle.dk_lexer.specs.Tokens.{command_after};

use crate::class::is_in_name;
use crate::{Sign, TokenKind};

/// Is it the wildcard.
pub fn is_wildcard(text: &[u8]) -> bool
    ensures { result ≡ is_wildcard text.now }
{
    match text {
        [byte] => *byte == b'_',
        _ => false,
    }
}

/// Whether a text is a plain name as a whole: bytes of names, of which the first isn't `'`, but not `_` alone
/// (docs/syntax.md). A keyword is one here.
pub fn is_plain_name(text: &[u8]) -> bool
    ensures { result ≡ is_plain_name text.now }
{
    match text {
        [] => false,
        [first, ..] => !is_wildcard(text) && *first != b'\'' && is_run(text),
    }
}

// Whether all bytes are of names.
fn is_run(text: &[u8]) -> bool
    ensures { result ≡ list_all is_name_byte text.now }
{
    text.iter().all(|byte| is_in_name(*byte))
}

/// The kind of a plain run that stands alone.
pub fn kind_of(text: &[u8]) -> TokenKind
    ensures { result ≡ kind_of text.now }
{
    match text.first() {
        Some(first) => kind_by(*first, text),
        None => TokenKind::Plain,
    }
}

// The kind of a plain run that begins with this byte: most begin as no word does.
fn kind_by(first: u8, text: &[u8]) -> TokenKind
    requires { Some first ≡ slice_get text.now 0 }
    ensures { result ≡ kind_of text.now }
{
    match first {
        b'_' => {
            if is_wildcard(text) {
                TokenKind::Wildcard
            } else {
                TokenKind::Plain
            }
        }
        b'T' => kind_if(TokenKind::Star, text, b"Type".as_slice()),
        b'd' => kind_by_d(text),
        b't' => kind_if(TokenKind::Thm, text, b"thm".as_slice()),
        b'i' => kind_if(TokenKind::Profile, text, b"injective".as_slice()),
        b'p' => kind_if(TokenKind::Profile, text, b"private".as_slice()),
        _ => TokenKind::Plain,
    }
}

// The kind of a plain run that begins with `d`.
fn kind_by_d(text: &[u8]) -> TokenKind
    requires { Some 100 ≡ slice_get text.now 0 }
    ensures { result ≡ kind_of text.now }
{
    if text == b"def".as_slice() {
        TokenKind::Def
    } else if text == b"defac".as_slice() {
        TokenKind::Profile
    } else {
        kind_if(TokenKind::Profile, text, b"defacu".as_slice())
    }
}

// The kind of a plain run that can be this word alone, which is of that kind.
fn kind_if(kind: TokenKind, text: &[u8], word: &[u8]) -> TokenKind
    ensures { result ≡ (if bytes_eq text.now word.now then kind else TokenKind.Plain) }
{
    if text == word { kind } else { TokenKind::Plain }
}

/// Where the command begins that is open behind a token, if one is: a dot ends it.
pub fn command_after(kind: TokenKind, begin: u32) -> Option<u32>
    ensures { result ≡ command_after kind begin }
{
    match kind {
        TokenKind::Sign(Sign::Dot) => None,
        _ => Some(begin),
    }
}
