//! A line from its bytes, from left to right.
ghost use Rattle.std.specs.Prelude.{◌≡◌, None, Some, IfSome, MatchOption};
ghost use Rattle.certificate_lines.specs.Texts.{IsLine, SpellsNoLine};
ghost use Rattle.certificate_lines.specs.Reading.{
  is_digit,
  begins_with_digit,
  read_digits,
  read_number,
  read_spaced,
  read_one,
  read_two,
  read_rule,
  read_word,
  read_equation,
  read_numbers,
  read_numbered,
  read_all,
};

use crate::line::{Line, Word};

fn is_digit(byte: u8) -> bool
    ensures { result ≡ is_digit byte }
{
    b'0' <= byte && byte <= b'9'
}

fn begins_with_digit(bytes: &[u8]) -> bool
    ensures { result ≡ begins_with_digit bytes.now }
{
    match bytes {
        [] => false,
        [first, ..] => is_digit(*first),
    }
}

/// The number that the digits at the front write when they follow those of `value`, and the bytes
/// behind them.
fn digits(value: u64, bytes: &[u8]) -> Option<(u64, &[u8])>
    ensures { MatchOption result (read_digits value bytes.now ≡ None)
        (λ p. read_digits value bytes.now ≡ Some (p.0, p.1.now)) }
{
    match bytes {
        [] => Some((value, bytes)),
        [first, rest @ ..] => {
            if !is_digit(*first) {
                return Some((value, bytes));
            }
            let tens = value.checked_mul(10)?;
            let next = tens.checked_add(u64::from(*first - b'0'))?;
            digits(next, rest)
        }
    }
}

/// The number at the front, written without leading zeros, and the bytes behind it.
fn number(bytes: &[u8]) -> Option<(u64, &[u8])>
    ensures { MatchOption result (read_number bytes.now ≡ None)
        (λ p. read_number bytes.now ≡ Some (p.0, p.1.now)) }
{
    match bytes {
        [] => None,
        [first, rest @ ..] => {
            if *first == b'0' {
                if begins_with_digit(rest) {
                    None
                } else {
                    Some((0, rest))
                }
            } else if is_digit(*first) {
                digits(0, bytes)
            } else {
                None
            }
        }
    }
}

/// The same behind a blank.
fn spaced(bytes: &[u8]) -> Option<(u64, &[u8])>
    ensures { MatchOption result (read_spaced bytes.now ≡ None)
        (λ p. read_spaced bytes.now ≡ Some (p.0, p.1.now)) }
{
    match bytes {
        [] => None,
        [first, rest @ ..] => if *first == b' ' { number(rest) } else { None },
    }
}

fn one(bytes: &[u8]) -> Option<u64>
    ensures { result ≡ read_one bytes.now }
{
    let (n, behind) = spaced(bytes)?;
    match behind {
        [] => Some(n),
        _ => None,
    }
}

fn two(bytes: &[u8]) -> Option<(u64, u64)>
    ensures { result ≡ read_two bytes.now }
{
    let (n, behind) = spaced(bytes)?;
    let m = one(behind)?;
    Some((n, m))
}

fn rule(bytes: &[u8]) -> Option<Line>
    ensures { result ≡ read_rule bytes.now }
{
    let (place, behind) = spaced(bytes)?;
    let (number, conditions) = two(behind)?;
    Some(Line::Rule(place, number, conditions))
}

fn word(bytes: &[u8]) -> Option<Word>
    ensures { result ≡ read_word bytes.now }
{
    match bytes {
        [b' ', b'='] => Some(Word::Same),
        [b' ', b'l'] => Some(Word::LeftBound),
        [b' ', b'r'] => Some(Word::RightBound),
        [b' ', b't'] => Some(Word::InParts),
        [b' ', b'x'] => Some(Word::LetGo),
        _ => None,
    }
}

fn equation(bytes: &[u8]) -> Option<Line>
    ensures { result ≡ read_equation bytes.now }
{
    let (n, behind) = spaced(bytes)?;
    let (m, behind) = spaced(behind)?;
    let word = word(behind)?;
    Some(Line::Equation(n, m, word))
}

/// The line that these bytes spell, without the LF that ends it; nothing where they spell none.
///
/// Numbers are decimal, without leading zeros, below 2^64.
#[tactic(auto, using(crate::proofs::Lines::all_is_line))]
pub fn read_line(bytes: &[u8]) -> Option<Line>
    ensures some { IfSome result (λ l. IsLine bytes.now l) }
    ensures none { result ≡ None → SpellsNoLine bytes.now }
{
    line(bytes)
}

fn line(bytes: &[u8]) -> Option<Line>
    ensures { result ≡ read_all bytes.now }
{
    if bytes == b"dk certificate 1".as_slice() {
        Some(Line::First)
    } else if bytes == b"end".as_slice() {
        Some(Line::Last)
    } else {
        numbered(bytes)
    }
}

/// A line that has numbers.
fn numbered(bytes: &[u8]) -> Option<Line>
    ensures { result ≡ read_numbered bytes.now }
{
    match bytes {
        [] => None,
        [first, rest @ ..] => behind_letter(*first, rest),
    }
}

/// What stands behind this letter.
fn behind_letter(letter: u8, rest: &[u8]) -> Option<Line>
    ensures { result ≡ read_numbers letter rest.now }
{
    match letter {
        b'c' => Some(Line::Part(one(rest)?)),
        b'r' => Some(Line::Reduction(one(rest)?)),
        b'j' => {
            let (n, m) = two(rest)?;
            Some(Line::Joining(n, m))
        }
        b'e' => equation(rest),
        b'b' => Some(Line::Beta(one(rest)?)),
        b'f' => rule(rest),
        _ => None,
    }
}
