//! A number as a script writes it.
ghost use Rattle.std.specs.Prelude.{◌≡◌, ◌≤◌, ◌^◌, None, Some, IfSome, IsTrue};
ghost use Rattle.std.specs.Str.{all_ascii_digits};
ghost use Rattle.std.specs.Str.Parse.{digits_value_after};
ghost use Rattle.script_lines.specs.Reading.{IsFarNumber};
ghost use Rattle.script_lines.specs.Scripts.{leads_with_zero, number_of};

fn are_digits(word: &[u8]) -> bool
    ensures { result ≡ all_ascii_digits word.now }
{
    let mut rest = word;
    while let Some((byte, others)) = rest.split_first() {
        if !byte.is_ascii_digit() {
            return false;
        }
        rest = others;
    }
    true
}

fn leads_with_zero(word: &[u8]) -> bool
    ensures { result ≡ leads_with_zero word.now }
{
    match word {
        [first, _, ..] => *first == b'0',
        _ => false,
    }
}

// The number that digits write behind those of `value`, where it is below 2^32.
#[tactic(auto, using(crate::proofs::Numbers::value_grows))]
fn value_after(value: u32, digits: &[u8]) -> Option<u32>
    requires { IsTrue (all_ascii_digits digits.now) }
    ensures some { IfSome result (λ k. k ≡ digits_value_after 10 value digits.now) }
    ensures none { result ≡ None → 2 ^ 32 ≤ digits_value_after 10 value digits.now }
{
    match digits {
        [] => Some(value),
        [first, rest @ ..] => {
            let next = u64::from(value) * 10 + u64::from(*first - b'0');
            if next >= 4_294_967_296 {
                return None;
            }
            value_after(next as u32, rest)
        }
    }
}

/// The number that is written in decimal, without leading zeros; None where it is none, or 2^32 and more.
pub fn number_of(word: &[u8]) -> Option<u32>
    ensures some { IfSome result (λ k. number_of word.now ≡ Some k) }
    ensures none { result ≡ None → IsFarNumber (number_of word.now) }
{
    if word.is_empty() || !are_digits(word) || leads_with_zero(word) {
        return None;
    }
    value_after(0, word)
}
