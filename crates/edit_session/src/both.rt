//! Two values, where there are both.
ghost use Rattle.std.specs.Prelude.{◌≡◌, Ok, IfOk};

use dk_model::NoMemory;

/// Both, where there are both. One that stands alone is let go here, and not where it was made.
pub fn both<A: Drop, B: Drop>(
    first: Result<A, NoMemory>,
    second: Result<B, NoMemory>,
) -> Result<(A, B), NoMemory>
    ensures first { IfOk result (λ both. first ≡ Ok both.0) }
    ensures second { IfOk result (λ both. second ≡ Ok both.1) }
{
    match (first, second) {
        (Ok(first), Ok(second)) => Ok((first, second)),
        _ => Err(NoMemory),
    }
}
