//! Signs, by the bytes behind their first one.
ghost use Rattle.std.specs.Prelude.{◌≡◌};
ghost use Rattle.dk_lexer.specs.Spelling.{behind_colon, behind_equals, behind_minus, behind_two_minus};
ghost use Rattle.one_lexer.specs.Views.{spelling};

use crate::found::{Found, Front, settled, sign, unsettled};
use dk_lexer::{Class, Sign, classify};
use dk_model::Code;

// Behind `:`
#[inline(always)]
pub(crate) fn colon(rest: &[u8]) -> Front<'static>
    ensures { spelling result ≡ behind_colon rest.now }
{
    let Some((next, more)) = rest.split_first() else {
        return unsettled(sign(Sign::Colon, 0));
    };
    match classify(*next) {
        Class::Equals => settled(sign(Sign::Defined, more.len())),
        _ => settled(sign(Sign::Colon, rest.len())),
    }
}

// Behind `=`
#[inline(always)]
pub(crate) fn equals(rest: &[u8]) -> Front<'static>
    ensures { spelling result ≡ behind_equals rest.now }
{
    let Some((next, more)) = rest.split_first() else {
        return unsettled(Found::Wrong(Code::E03, 0));
    };
    match classify(*next) {
        Class::Greater => settled(sign(Sign::DoubleArrow, more.len())),
        Class::Equals => settled(sign(Sign::Equal, more.len())),
        _ => settled(Found::Wrong(Code::E01, rest.len())),
    }
}

// Behind `-`
#[inline(always)]
pub(crate) fn minus(rest: &[u8]) -> Front<'static>
    ensures { spelling result ≡ behind_minus rest.now }
{
    let Some((next, more)) = rest.split_first() else {
        return unsettled(Found::Wrong(Code::E03, 0));
    };
    match classify(*next) {
        Class::Greater => settled(sign(Sign::Arrow, more.len())),
        Class::Minus => two_minus(more),
        _ => settled(Found::Wrong(Code::E01, rest.len())),
    }
}

// Behind `--`
fn two_minus(rest: &[u8]) -> Front<'static>
    ensures { spelling result ≡ behind_two_minus rest.now }
{
    let Some((next, more)) = rest.split_first() else {
        return unsettled(Found::Wrong(Code::E03, 0));
    };
    match classify(*next) {
        Class::Greater => settled(sign(Sign::LongArrow, more.len())),
        _ => settled(Found::Wrong(Code::E01, rest.len())),
    }
}
