//! What a part came to, and what parts come to together.
ghost use Rattle.std.specs.Prelude.{◌≡◌};
ghost use Rattle.split_parts.specs.Parts.{combined, units_of};

use dk_model::Code;

/// What a part came to.
#[derive(Clone, Copy, Debug, PartialEq, Eq)]
pub enum PartOut {
    Fine,
    Refused(Code),
    Ended,
    Memory,
}

/// What a part came to, with the units that it took.
#[derive(Clone, Copy, Debug, PartialEq, Eq)]
pub struct PartResult {
    pub out: PartOut,
    pub units: u64,
}

// The budget is used up.
fn ended(budget: u64) -> PartResult
    ensures { result ≡ record { out = PartOut.Ended; units = budget } }
{
    PartResult {
        out: PartOut::Ended,
        units: budget,
    }
}

// The units that a part adds: want of memory adds none.
fn added(part: &PartResult) -> u64
    ensures { result ≡ units_of part.now }
{
    match part.out {
        PartOut::Memory => 0,
        _ => part.units,
    }
}

/// What the parts come to, one after the other, with one budget for all.
///
/// They are gone through up to the first that isn't fine. It takes any units: it stops adding where the sum would pass the
/// budget.
#[tactic(auto, using(crate::proofs::Combining::behind_none, crate::proofs::Combining::behind_over, crate::proofs::Combining::behind_fine, crate::proofs::Combining::behind_fault, crate::proofs::Combining::behind_ended))]
pub fn combine(steps: &[PartResult], budget: u64) -> PartResult
    ensures { result ≡ combined steps.now budget }
{
    let mut units = 0;
    let mut rest = steps;
    'steps: while let Some((step, others)) = rest.split_first() {
        let more = added(step);
        if budget - units < more {
            return ended(budget);
        }
        units += more;
        match step.out {
            PartOut::Fine => rest = others,
            PartOut::Ended => return ended(budget),
            out => return PartResult { out, units },
        }
    }
    PartResult {
        out: PartOut::Fine,
        units,
    }
}
