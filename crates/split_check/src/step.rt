//! The steps of a typing, in order: evaluations and checks, each with all units.
ghost use Rattle.std.specs.Prelude.{◌≡◌, ◌≤◌};
ghost use Rattle.dk_model.specs.Typing.{Judged};
ghost use Rattle.infer_check.specs.Given.{GivesFit};
ghost use Rattle.split_parts.specs.Parts.{part};
ghost use Rattle.split_check.specs.Due.{IsDue};
ghost use Rattle.split_check.specs.Steps.{fault_with};

use dk_model::TypeFault;
use infer_check::Context;
use shared_term::Stored;
use split_parts::{PartOut, PartResult};

/// The check of an argument, as another thread takes it.
#[derive(Drop)]
pub(crate) struct Part {
    /// Among the arguments, from 0.
    pub(crate) place: u32,
    pub(crate) context: Context<Stored>,
    pub(crate) argument: Stored,
    pub(crate) domain: Stored,
}

/// A step of a typing.
#[derive(Drop)]
pub(crate) enum Step {
    /// What it came to.
    Done(PartResult),
    Check(Part),
}

/// What a fault came to, with the units that were left of so many.
pub(crate) fn fault_result(fault: TypeFault, whole: u64, left: u64) -> PartResult
    requires { left ≤ whole }
    ensures { result ≡ fault_with whole fault left }
{
    match fault {
        TypeFault::Refused(code) => PartResult {
            out: PartOut::Refused(code),
            units: whole - left,
        },
        TypeFault::Ended => PartResult {
            out: PartOut::Ended,
            units: whole,
        },
        TypeFault::NoMemory => PartResult {
            out: PartOut::Memory,
            units: 0,
        },
    }
}

/// What a check came to, with the units that were left of so many.
#[tactic(auto, using(crate::proofs::Faults::fault_due))]
pub(crate) fn fit_result(fits: Result<(), TypeFault>, whole: u64, left: u64) -> PartResult
    requires { left ≤ whole }
    ensures { (due : Judged (Unit {0})) → GivesFit due fits left → IsDue (part whole due) result }
{
    match fits {
        Ok(()) => PartResult {
            out: PartOut::Fine,
            units: whole - left,
        },
        Err(fault) => fault_result(fault, whole, left),
    }
}
