//! One spelling after the other, within the bounds. Begin at `read_next`.
ghost use Rattle.std.specs.Prelude.{◌≡◌, ◌≤◌, ◌<◌, ◌+◌, ◌-◌, ℕ, Bool, List, IfSome, false, length, take};
ghost use Rattle.dk_lexer.specs.declared.token.Token.{Token};
ghost use Rattle.one_lexer.specs.Places.{place_behind};
ghost use Rattle.dk_lexer.specs.Spelling.{blank, comment_open};
ghost use Rattle.dk_lexer.specs.Tokens.{begin_of};
ghost use Rattle.one_lexer.specs.Bounds.{LateFits};
ghost use Rattle.one_lexer.specs.Lexers.{BeginsWord};
ghost use Rattle.one_lexer.specs.Reading.{ReadsComment};
ghost use Rattle.one_lexer.specs.Steps.{Comes, ComesFrom, IsToken, LeavesFewer, Shape};
ghost use Rattle.one_lexer.specs.Views.{spelled_front, spelling};

use crate::bounds::{bound_of, brace_fault, command_begin, front_bound};
use crate::comment::{CommentEnd, inside};
use crate::found::{Found, Front};
use crate::spelled::stands_at;
use crate::word::goes_on;
use dk_lexer::{Class, Place, TokenKind, command_after, kind_of};
use dk_model::{Code, Limits};

/// Where reading stands: the place of the next byte, and where the command begins that is open.
#[derive(Clone, Copy)]
pub struct Standing {
    pub here: Place,
    pub command: Option<u32>,
}

/// Within a comment: the place of the next byte, how many comments are open, and the class of the
/// byte before, which is `Other` where that byte is part of a sign already.
#[derive(Clone, Copy)]
pub struct Inside {
    pub next: Place,
    pub depth: u32,
    pub last: Class,
}

/// A token as the bytes spell it.
#[derive(Clone, Copy)]
pub struct Spelt<'a> {
    pub kind: TokenKind,
    /// The bytes of the token, a quoted name with its signs; empty for a sign.
    pub text: &'a [u8],
    /// The place of its first byte.
    pub here: Place,
}

/// What stands next. A number counts the bytes that are left behind it.
#[derive(Clone, Copy)]
pub enum Next<'a> {
    /// A token, and where reading goes on.
    Token(Spelt<'a>, Standing, usize),
    /// A blank or a closed comment, and where reading goes on.
    Blank(Standing, usize),
    /// A comment that all bytes are part of, and that is open behind them.
    Comment(Inside),
    /// A token that is begun and that the bytes don't settle.
    More,
    /// A fault.
    Failed(Code),
}

// ---- places

// The bytes of the input before the last so many of these.
#[inline(always)]
pub(crate) fn offset_at(here: Place, bytes: &[u8], left: usize) -> u64
    requires { left ≤ length bytes.now }
    ensures { result + left ≡ here.offset + length bytes.now }
{
    u64::from(here.offset) + (bytes.len() - left) as u64
}

// The place behind some bytes.
fn advance(here: Place, passed: &[u8]) -> Place
    requires { here.offset + length passed.now ≤ 4294967294 }
    ensures { result ≡ place_behind here passed.now }
{
    let mut place = here;
    for byte in passed {
        place = place.behind(*byte);
    }
    place
}

// The place of the last so many of some bytes.
fn place_at(here: Place, bytes: &[u8], left: usize) -> Place
    requires leaves { left ≤ length bytes.now }
    requires within { here.offset + length bytes.now ≤ 4294967294 + left }
    ensures { result ≡ place_behind here (take (length bytes.now - left) bytes.now) }
{
    let (passed, _) = bytes.split_at(bytes.len() - left);
    advance(here, passed)
}

// ---- spellings

// A blank stands here, or a closed comment.
fn read_blank(limits: Limits, at: Standing, bytes: &[u8], left: usize) -> Next<'static>
    requires is { spelled_front limits.name_bytes bytes.now ≡ blank left }
    requires leaves { left < length bytes.now }
    ensures comes { (over : Bool) → ComesFrom over limits at bytes.now result }
    ensures fewer { (over : Bool) → LeavesFewer over (length bytes.now) result }
{
    let (last, code) = bound_of(limits, at.command);
    if offset_at(at.here, bytes, left) > last {
        return Next::Failed(code);
    }
    let behind = Standing {
        here: place_at(at.here, bytes, left),
        command: at.command,
    };
    Next::Blank(behind, left)
}

/// What stands next within a comment that began where reading stands.
pub fn read_inside(limits: Limits, at: Standing, comment: Inside, bytes: &[u8]) -> Next<'static>
    ensures comes { (over : Bool) (before : List ℕ) (ts : List Token) →
        ReadsComment over limits before ts at.here at.command
        comment.next comment.depth comment.last bytes.now →
        Comes over limits before ts at bytes.now result }
    ensures fewer { (over : Bool) → LeavesFewer over (length bytes.now) result }
{
    let (last, code) = bound_of(limits, at.command);
    match inside(comment.depth as usize, comment.last, bytes) {
        CommentEnd::Closed(left) => {
            if offset_at(comment.next, bytes, left) > last {
                return Next::Failed(code);
            }
            let behind = Standing {
                here: place_at(comment.next, bytes, left),
                command: at.command,
            };
            Next::Blank(behind, left)
        }
        CommentEnd::Open(depth, class) => {
            if offset_at(comment.next, bytes, 0) > last {
                return Next::Failed(code);
            }
            Next::Comment(Inside {
                next: place_at(comment.next, bytes, 0),
                depth: depth.min(4_294_967_295) as u32,
                last: class,
            })
        }
    }
}

// A comment stands here that is open at the end of the bytes.
fn read_comment(limits: Limits, at: Standing, bytes: &[u8]) -> Next<'static>
    requires { spelled_front limits.name_bytes bytes.now ≡ comment_open }
    ensures comes { (over : Bool) → ComesFrom over limits at bytes.now result }
    ensures fewer { (over : Bool) → LeavesFewer over (length bytes.now) result }
{
    let (last, code) = bound_of(limits, at.command);
    if u64::from(at.here.offset) + 2 > last {
        return Next::Failed(code);
    }
    let (sign, rest) = bytes.split_at(2);
    let comment = Inside {
        next: advance(at.here, sign),
        depth: 1,
        last: Class::Other,
    };
    read_inside(limits, at, comment, rest)
}

// What stands at the first of these bytes, and that it is within them.
fn front_of(limit: usize, bytes: &[u8]) -> Front<'_>
    requires { 0 < length bytes.now }
    ensures is { spelling result ≡ spelled_front limit bytes.now }
    ensures shape { Shape (length bytes.now) result }
{
    stands_at(limit, bytes)
}

// A token or a fault stands here, and no fault of a brace.
fn read_found<'a>(
    limits: Limits,
    at: Standing,
    over: bool,
    bytes: &'a [u8],
    front: Front<'a>,
) -> Next<'a>
    requires is { spelling front ≡ spelled_front limits.name_bytes bytes.now }
    requires token { IsToken (length bytes.now) front }
    requires late { LateFits limits (begin_of at.command at.here.offset)
        (at.here.offset + length bytes.now) front.late }
    ensures comes { ComesFrom over limits at bytes.now result }
    ensures fewer { LeavesFewer over (length bytes.now) result }
{
    let begin = command_begin(at.command, at.here.offset);
    let total = offset_at(at.here, bytes, 0);
    let (last, code) = front_bound(limits, begin, total, front.late);
    if !front.settled && !over {
        return if total > last {
            Next::Failed(code)
        } else {
            Next::More
        };
    }
    match front.found {
        Found::Token(kind, text, left) => {
            if offset_at(at.here, bytes, left) > last {
                return Next::Failed(code);
            }
            let behind = Standing {
                here: place_at(at.here, bytes, left),
                command: command_after(kind, begin),
            };
            Next::Token(
                Spelt {
                    kind,
                    text,
                    here: at.here,
                },
                behind,
                left,
            )
        }
        Found::RunAndDot(text, left) => {
            if offset_at(at.here, bytes, left) > last {
                return Next::Failed(code);
            }
            let behind = Standing {
                here: place_at(at.here, bytes, left + 1),
                command: Some(begin),
            };
            Next::Token(
                Spelt {
                    kind: kind_of(text),
                    text,
                    here: at.here,
                },
                behind,
                left + 1,
            )
        }
        Found::Wrong(wrong, left) => {
            if offset_at(at.here, bytes, left) > last {
                return Next::Failed(code);
            }
            Next::Failed(wrong)
        }
        Found::Blank(_) | Found::CommentOpen => Next::More,
    }
}

// A token or a fault stands here.
fn read_token<'a>(
    limits: Limits,
    at: Standing,
    over: bool,
    bytes: &'a [u8],
    front: Front<'a>,
) -> Next<'a>
    requires is { spelling front ≡ spelled_front limits.name_bytes bytes.now }
    requires token { IsToken (length bytes.now) front }
    ensures comes { ComesFrom over limits at bytes.now result }
    ensures fewer { LeavesFewer over (length bytes.now) result }
{
    let begin = command_begin(at.command, at.here.offset);
    let total = offset_at(at.here, bytes, 0);
    match brace_fault(limits, begin, total, front.late) {
        Some(code) => Next::Failed(code),
        None => read_found(limits, at, over, bytes, front),
    }
}

/// What stands next, where the end of the input was met behind these bytes, or not yet.
pub fn read_next<'a>(limits: Limits, at: Standing, over: bool, bytes: &'a [u8]) -> Next<'a>
    requires { 0 < length bytes.now }
    ensures comes { ComesFrom over limits at bytes.now result }
    ensures fewer { LeavesFewer over (length bytes.now) result }
{
    let front = front_of(limits.name_bytes as usize, bytes);
    match front.found {
        Found::Blank(left) => read_blank(limits, at, bytes, left),
        Found::CommentOpen => read_comment(limits, at, bytes),
        _ => read_token(limits, at, over, bytes, front),
    }
}

// What stands next where `#` and so many letters wait and only letters came behind them.
pub(crate) fn read_letters(
    limits: Limits,
    at: Standing,
    known: usize,
    bytes: &[u8],
) -> Option<Next<'static>>
    ensures comes { IfSome result (λ next. BeginsWord known bytes.now →
        ComesFrom false limits at bytes.now next) }
    ensures fewer { IfSome result (LeavesFewer false (length bytes.now)) }
{
    if !goes_on(known, bytes) {
        return None;
    }
    let total = offset_at(at.here, bytes, 0);
    let (last, code) = bound_of(limits, Some(command_begin(at.command, at.here.offset)));
    if total > last {
        Some(Next::Failed(code))
    } else {
        Some(Next::More)
    }
}
