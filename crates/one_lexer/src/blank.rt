//! Blanks, one after the other.
ghost use Rattle.std.specs.Prelude.{◌≡◌, ◌≤◌, ◌<◌, IfSome, length};
ghost use Rattle.dk_lexer.specs.Classes.{class_of};
ghost use Rattle.dk_lexer.specs.Tokens.{bound};
ghost use Rattle.one_lexer.specs.Blanks.{GoesOver, is_blank_class};
ghost use Rattle.one_lexer.specs.Reading.{last_of};

use crate::bounds::bound_of;
use crate::next::Standing;
use dk_lexer::Place;
use dk_model::Limits;

// Does it stand between tokens.
#[inline(always)]
#[tactic(auto, unfolding(dk_lexer::specs::Classes::class_of))]
pub(crate) fn is_blank(byte: u8) -> bool
    ensures { result ≡ is_blank_class (class_of byte) }
{
    byte == b' ' || (byte < b' ' && matches!(byte, b'\t' | b'\r' | b'\n'))
}

// The place behind the blanks at the front of some bytes, as far as the bound goes, and how many
// bytes are left.
#[inline(always)]
pub(crate) fn over_blanks(last: u64, here: Place, bytes: &[u8]) -> (Place, usize)
    requires { last ≤ 4294967294 }
    ensures within { result.1 ≤ length bytes.now }
    ensures onward { here.offset ≤ result.0.offset }
    ensures goes_over { GoesOver last here bytes.now result.0 (last_of result.1 bytes.now) }
{
    let mut place = here;
    let mut rest = bytes;
    while let Some((byte, more)) = rest.split_first() {
        if !is_blank(*byte) || u64::from(place.offset) >= last {
            return (place, rest.len());
        }
        place = place.behind(*byte);
        rest = more;
    }
    (place, 0)
}

// Where reading goes on behind the blanks that stand here, if some do within the bound; so many
// bytes are left.
pub(crate) fn pass_blanks(limits: Limits, at: Standing, bytes: &[u8]) -> Option<(Place, usize)>
    ensures fewer { IfSome result (λ passed. passed.1 < length bytes.now) }
    ensures goes_over { IfSome result (λ passed.
        GoesOver (bound limits at.command).last at.here bytes.now
        passed.0 (last_of passed.1 bytes.now)) }
{
    let Some(first) = bytes.first() else {
        return None;
    };
    if !is_blank(*first) {
        return None;
    }
    let (last, _) = bound_of(limits, at.command);
    let (here, left) = over_blanks(last, at.here, bytes);
    if left < bytes.len() {
        Some((here, left))
    } else {
        None
    }
}
