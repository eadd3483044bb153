//! Why no certificate is written.
ghost use Rattle.std.specs.Prelude.{◌≡◌};
ghost use Rattle.certify_theory.specs.Faults.{fault_at};

use dk_model::TypeFault;

/// Why no certificate is written. Commands are numbered from 1.
#[derive(Clone, Copy, Debug, PartialEq, Eq)]
pub enum CertifyFault {
    /// The command of this number isn't accepted with so many units.
    NotAccepted(u64),
    /// The sink failed.
    Failed,
    /// Memory ended at the command of this number, which says nothing of it.
    NoMemory(u64),
}

/// The fault of the command of this number.
pub(crate) fn fault_at(number: u64, fault: TypeFault) -> CertifyFault
    ensures { result ≡ fault_at number fault }
{
    match fault {
        TypeFault::Refused(_) | TypeFault::Ended => CertifyFault::NotAccepted(number),
        TypeFault::NoMemory => CertifyFault::NoMemory(number),
    }
}
