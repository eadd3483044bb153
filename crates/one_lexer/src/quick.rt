//! The short way to most tokens: the blanks before it, and a plain run or a sign that the next byte
//! or two settle and that is within its bound. What isn't one of these is left to `read_next`.
//! Begin at `quick_token`.
ghost use Rattle.std.specs.Prelude.{◌≡◌, ◌≤◌, ◌<◌, ◌+◌, IfSome, false, length};
ghost use Rattle.dk_lexer.specs.Spelling.{behind_bracket, behind_colon, behind_equals, behind_minus, behind_open, behind_two_minus, is_wildcard, kind_of, run_and_dot, run_of, sign_spelled, token};
ghost use Rattle.one_lexer.specs.Quick.{BeginsRun, ComesNext, EndsWithDot, IsSecond, IsSpelt, KeepsBound, begins_word, may_be_word};
ghost use Rattle.one_lexer.specs.Views.{spelled_front};

use crate::blank::{is_blank, over_blanks};
use crate::bounds::{bound_of, command_begin};
use crate::name::{begins_name, name_length};
use crate::next::{Spelt, Standing, offset_at};
use dk_lexer::{Class, Place, Sign, TokenKind, classify, command_after, is_wildcard, kind_of};
use dk_model::Limits;

/// A token, where reading goes on, and how many bytes are left there.
#[derive(Clone, Copy)]
pub(crate) struct Short<'a> {
    pub spelt: Spelt<'a>,
    pub behind: Standing,
    pub left: usize,
}

// Where a token starts, and how far it may reach.
#[derive(Clone, Copy)]
struct TokenStart {
    limits: Limits,
    at: Standing,
    // The bytes of the input before its end are at most so many.
    last: u64,
}

// The token that stands here, if it is within the bound.
#[inline(always)]
fn token<'a>(
    start: TokenStart,
    bytes: &'a [u8],
    kind: TokenKind,
    text: &'a [u8],
    left: usize,
) -> Option<Short<'a>>
    requires near { KeepsBound start.limits start.at start.last }
    requires within { start.last ≤ 4294967294 }
    requires is { IsSpelt start.limits.name_bytes bytes.now (token kind text.now left) left }
    ensures { IfSome result (ComesNext start.limits start.at bytes.now) }
{
    let TokenStart { at, last, .. } = start;
    let end = offset_at(at.here, bytes, left);
    if end > last {
        return None;
    }
    let behind = Standing {
        here: Place {
            offset: end as u32,
            line: at.here.line,
        },
        command: command_after(kind, command_begin(at.command, at.here.offset)),
    };
    let spelt = Spelt {
        kind,
        text,
        here: at.here,
    };
    Some(Short {
        spelt,
        behind,
        left,
    })
}

// The run that stands here with the dot behind it, if both are within the bound; so many bytes are
// left behind the dot.
#[inline(always)]
fn run_before_dot<'a>(
    start: TokenStart,
    bytes: &'a [u8],
    run: &'a [u8],
    left: usize,
) -> Option<Short<'a>>
    requires near { KeepsBound start.limits start.at start.last }
    requires within { start.last ≤ 4294967294 }
    requires is { IsSpelt start.limits.name_bytes bytes.now (run_and_dot run.now left) (left + 1) }
    ensures { IfSome result (ComesNext start.limits start.at bytes.now) }
{
    let TokenStart { at, last, .. } = start;
    if offset_at(at.here, bytes, left) > last {
        return None;
    }
    let behind = Standing {
        here: Place {
            offset: offset_at(at.here, bytes, left + 1) as u32,
            line: at.here.line,
        },
        command: Some(command_begin(at.command, at.here.offset)),
    };
    let spelt = Spelt {
        kind: kind_of(run),
        text: run,
        here: at.here,
    };
    Some(Short {
        spelt,
        behind,
        left: left + 1,
    })
}

// Whether a word of the language begins with these two bytes.
#[inline(always)]
fn begins_word(first: u8, second: u8) -> bool
    ensures { result ≡ begins_word first second }
{
    match first {
        b'T' => second == b'y',
        b'd' => second == b'e',
        b't' => second == b'h',
        b'i' => second == b'n',
        b'p' => second == b'r',
        _ => false,
    }
}

// Whether it may be the wildcard or a word of the language.
#[inline(always)]
fn may_be_word(text: &[u8]) -> bool
    ensures { result ≡ may_be_word text.now }
{
    match text {
        [] => false,
        [first] => *first == b'_',
        [first, second, ..] => begins_word(*first, *second),
    }
}

// The kind of a plain run that stands alone.
#[inline(always)]
fn run_kind(text: &[u8]) -> TokenKind
    ensures { result ≡ kind_of text.now }
{
    if may_be_word(text) {
        kind_of(text)
    } else {
        TokenKind::Plain
    }
}

// How many bytes are left behind the second part of a qualified name, which begins here, if they
// settle it; else 0.
#[inline(never)]
fn behind_second(limit: usize, rest: &[u8]) -> usize
    ensures within { result ≤ length rest.now }
    ensures second { 0 < result → IsSecond limit rest.now result }
{
    let count = name_length(rest);
    if count > limit {
        return 0;
    }
    let (second, behind) = rest.split_at(count);
    if is_wildcard(second) { 0 } else { behind.len() }
}

// The qualified name that stands here: a run, a dot, and what is behind them.
#[inline(always)]
fn qualified<'a>(start: TokenStart, bytes: &'a [u8], rest: &'a [u8]) -> Option<Short<'a>>
    requires near { KeepsBound start.limits start.at start.last }
    requires within { start.last ≤ 4294967294 }
    requires dot { EndsWithDot start.limits.name_bytes bytes.now rest.now }
    requires begins { BeginsRun rest.now }
    ensures { IfSome result (ComesNext start.limits start.at bytes.now) }
{
    let left = behind_second(start.limits.name_bytes as usize, rest);
    if left == 0 {
        return None;
    }
    let (text, _) = bytes.split_at(bytes.len() - left);
    token(start, bytes, TokenKind::Qualified, text, left)
}

// The token that stands here, a run with a dot and this rest behind it.
#[inline(always)]
fn dotted<'a>(
    start: TokenStart,
    bytes: &'a [u8],
    run: &'a [u8],
    rest: &'a [u8],
) -> Option<Short<'a>>
    requires near { KeepsBound start.limits start.at start.last }
    requires within { start.last ≤ 4294967294 }
    requires run { run.now ≡ run_of bytes.now }
    requires dot { is_wildcard run.now ≡ false →
        EndsWithDot start.limits.name_bytes bytes.now rest.now }
    ensures { IfSome result (ComesNext start.limits start.at bytes.now) }
{
    if is_wildcard(run) {
        return None;
    }
    let first = rest.first()?;
    if is_blank(*first) {
        run_before_dot(start, bytes, run, rest.len())
    } else if begins_name(*first) {
        qualified(start, bytes, rest)
    } else {
        None
    }
}

// The run that stands here, if the bytes behind it settle it.
#[inline(always)]
fn run<'a>(start: TokenStart, bytes: &'a [u8]) -> Option<Short<'a>>
    requires near { KeepsBound start.limits start.at start.last }
    requires within { start.last ≤ 4294967294 }
    requires begins { BeginsRun bytes.now }
    ensures { IfSome result (ComesNext start.limits start.at bytes.now) }
{
    let count = name_length(bytes);
    if count > start.limits.name_bytes as usize {
        return None;
    }
    let (text, rest) = bytes.split_at(count);
    let (next, more) = rest.split_first()?;
    if *next == b'.' {
        dotted(start, bytes, text, more)
    } else {
        token(start, bytes, run_kind(text), text, rest.len())
    }
}

// The sign behind `:`, and how many bytes are left.
#[inline(always)]
fn colon(rest: &[u8]) -> Option<(Sign, usize)>
    ensures { IfSome result (λ found. behind_colon rest.now ≡ sign_spelled found.0 found.1) }
{
    let (next, more) = rest.split_first()?;
    match classify(*next) {
        Class::Equals => Some((Sign::Defined, more.len())),
        _ => Some((Sign::Colon, rest.len())),
    }
}

// The sign behind `=`
#[inline(always)]
fn equals(rest: &[u8]) -> Option<(Sign, usize)>
    ensures { IfSome result (λ found. behind_equals rest.now ≡ sign_spelled found.0 found.1) }
{
    let (next, more) = rest.split_first()?;
    match classify(*next) {
        Class::Greater => Some((Sign::DoubleArrow, more.len())),
        Class::Equals => Some((Sign::Equal, more.len())),
        _ => None,
    }
}

// The long arrow behind `--`
fn two_minus(rest: &[u8]) -> Option<(Sign, usize)>
    ensures { IfSome result (λ found. behind_two_minus rest.now ≡ sign_spelled found.0 found.1) }
{
    let (next, more) = rest.split_first()?;
    match classify(*next) {
        Class::Greater => Some((Sign::LongArrow, more.len())),
        _ => None,
    }
}

// The sign behind `-`
#[inline(always)]
fn minus(rest: &[u8]) -> Option<(Sign, usize)>
    ensures { IfSome result (λ found. behind_minus rest.now ≡ sign_spelled found.0 found.1) }
{
    let (next, more) = rest.split_first()?;
    match classify(*next) {
        Class::Greater => Some((Sign::Arrow, more.len())),
        Class::Minus => two_minus(more),
        _ => None,
    }
}

// The sign behind `(`, if no comment begins.
#[inline(always)]
fn bracket(rest: &[u8]) -> Option<(Sign, usize)>
    ensures { IfSome result (λ found. behind_bracket rest.now ≡ sign_spelled found.0 found.1) }
{
    let next = rest.first()?;
    match classify(*next) {
        Class::Semicolon => None,
        _ => Some((Sign::OpenBracket, rest.len())),
    }
}

// The sign behind `{`, if no quoted name begins.
#[inline(always)]
fn brace(limit: usize, rest: &[u8]) -> Option<(Sign, usize)>
    ensures { IfSome result (λ found. behind_open limit rest.now ≡ sign_spelled found.0 found.1) }
{
    let next = rest.first()?;
    match classify(*next) {
        Class::Bar => None,
        _ => Some((Sign::OpenBrace, rest.len())),
    }
}

// The sign that stands first, if the byte behind it settles it, and how many bytes are left.
#[inline(always)]
fn sign(limit: usize, bytes: &[u8]) -> Option<(Sign, usize)>
    ensures { IfSome result
        (λ found. spelled_front limit bytes.now ≡ sign_spelled found.0 found.1) }
{
    let (first, rest) = bytes.split_first()?;
    let left = rest.len();
    match classify(*first) {
        Class::Dot => Some((Sign::Dot, left)),
        Class::Comma => Some((Sign::Comma, left)),
        Class::CloseBracket => Some((Sign::CloseBracket, left)),
        Class::OpenSquare => Some((Sign::OpenSquare, left)),
        Class::CloseSquare => Some((Sign::CloseSquare, left)),
        Class::CloseBrace => Some((Sign::CloseBrace, left)),
        Class::OpenBracket => bracket(rest),
        Class::OpenBrace => brace(limit, rest),
        Class::Colon => colon(rest),
        Class::Equals => equals(rest),
        Class::Minus => minus(rest),
        _ => None,
    }
}

// The token that stands here, if the byte behind it settles it, and it is within the bound.
#[inline(always)]
fn next_token<'a>(start: TokenStart, bytes: &'a [u8]) -> Option<Short<'a>>
    requires near { KeepsBound start.limits start.at start.last }
    requires within { start.last ≤ 4294967294 }
    ensures { IfSome result (ComesNext start.limits start.at bytes.now) }
{
    let first = bytes.first()?;
    if begins_name(*first) {
        return run(start, bytes);
    }
    let (own, left) = sign(start.limits.name_bytes as usize, bytes)?;
    token(start, bytes, TokenKind::Sign(own), &[], left)
}

/// The token that stands next, behind blanks, if it is one of those that are read so.
#[inline(always)]
pub(crate) fn quick_token<'a>(limits: Limits, at: Standing, bytes: &'a [u8]) -> Option<Short<'a>>
    ensures { IfSome result (ComesNext limits at bytes.now) }
{
    let (last, _) = bound_of(limits, Some(command_begin(at.command, at.here.offset)));
    let (here, left) = over_blanks(last, at.here, bytes);
    let (_, rest) = bytes.split_at(bytes.len() - left);
    let behind = Standing {
        here,
        command: at.command,
    };
    let start = TokenStart {
        limits,
        at: behind,
        last,
    };
    next_token(start, rest)
}
