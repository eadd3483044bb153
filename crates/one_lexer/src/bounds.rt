//! How far a command and an input may go.
ghost use Rattle.std.specs.Prelude.{◌≡◌, ◌≤◌, ◌<◌, ◌+◌, ◌==◌, IfNone, IfSome};
ghost use Rattle.dk_lexer.specs.Tokens.{begin_of, bound, command_limit, input_limit, nearer};
ghost use Rattle.one_lexer.specs.Bounds.{LateFails, LateFits, brace_last, front_bound};

use dk_model::{Code, Limits};

// The bytes that an input may have.
#[inline(always)]
fn input_of(limits: Limits) -> u64
    ensures value { result ≡ input_limit limits }
    ensures within { result ≤ 4294967294 }
{
    u64::from(limits.input_bytes.min(4_294_967_294))
}

// The last byte of a command that begins so.
#[inline(always)]
fn command_last(limits: Limits, begin: u32) -> u64
    ensures value { result ≡ begin + command_limit limits }
    ensures within { result < 8589934592 }
{
    u64::from(begin) + u64::from(limits.command_bytes.max(1))
}

// The nearer one of two bounds, with its fault.
#[inline(always)]
fn nearer(command: u64, input: u64) -> (u64, Code)
    requires { input ≤ 4294967294 }
    ensures last { result.0 ≡ (nearer command input).last }
    ensures code { result.1 ≡ (nearer command input).code }
    ensures within { result.0 ≤ 4294967294 }
{
    if command <= input {
        (command, Code::E05)
    } else {
        (input, Code::E07)
    }
}

// The last byte that may stand in a command that begins so, or in the input, and the fault behind
// it.
#[inline(always)]
#[tactic(auto, unfolding(dk_lexer::specs::Tokens::bound))]
pub(crate) fn bound_of(limits: Limits, command: Option<u32>) -> (u64, Code)
    ensures last { result.0 ≡ (bound limits command).last }
    ensures code { result.1 ≡ (bound limits command).code }
    ensures within { result.0 ≤ 4294967294 }
{
    match command {
        Some(begin) => nearer(command_last(limits, begin), input_of(limits)),
        None => (input_of(limits), Code::E07),
    }
}

// The bound behind a brace that stands behind so many bytes, behind a run and a dot.
fn brace_bound(limits: Limits, begin: u32, before: u64) -> (u64, Code)
    ensures last { result.0 ≡ (nearer
        (brace_last (begin + command_limit limits == before) (begin + command_limit limits))
        (input_limit limits)).last }
    ensures code { result.1 ≡ (nearer
        (brace_last (begin + command_limit limits == before) (begin + command_limit limits))
        (input_limit limits)).code }
    ensures within { result.0 ≤ 4294967294 }
{
    let last = command_last(limits, begin);
    if last == before {
        nearer(last + 1, input_of(limits))
    } else {
        nearer(last, input_of(limits))
    }
}

// The bound of what stands at the last of so many bytes, of which so many are left at a brace
// behind a run and a dot.
pub(crate) fn front_bound(
    limits: Limits,
    begin: u32,
    total: u64,
    late: Option<usize>,
) -> (u64, Code)
    requires { IfSome late (λ left. left ≤ total) }
    ensures last { result.0 ≡ (front_bound limits begin total late).last }
    ensures code { result.1 ≡ (front_bound limits begin total late).code }
    ensures within { result.0 ≤ 4294967294 }
{
    match late {
        Some(left) => brace_bound(limits, begin, total - left as u64),
        None => bound_of(limits, Some(begin)),
    }
}

// The fault of a brace behind a run and a dot: the bytes before it are past the bound, or it is
// past that of the input.
pub(crate) fn brace_fault(
    limits: Limits,
    begin: u32,
    total: u64,
    late: Option<usize>,
) -> Option<Code>
    requires { IfSome late (λ left. left ≤ total) }
    ensures some { IfSome result (λ code. LateFails limits begin total late code) }
    ensures none { IfNone result (LateFits limits begin total late) }
{
    let Some(left) = late else {
        return None;
    };
    let before = total - left as u64;
    let (last, code) = bound_of(limits, Some(begin));
    if before > last {
        return Some(code);
    }
    if before >= input_of(limits) {
        return Some(Code::E07);
    }
    None
}

// Where the command begins of what stands at this offset.
#[inline(always)]
pub(crate) fn command_begin(command: Option<u32>, offset: u32) -> u32
    ensures { result ≡ begin_of command offset }
{
    match command {
        Some(begin) => begin,
        None => offset,
    }
}
