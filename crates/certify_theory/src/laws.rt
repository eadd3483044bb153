//! The law of what is certified, on a function that does nothing.
//!
//! A caller that needs it calls the function, whose clause then stands among what is known.

ghost use Rattle.certify_theory.specs.Laws.{CertifiedIsRechecked};

use recheck_theory::laws::certificates_are_rechecked;

/// The text that is written where all commands are certified is rechecked.
pub fn certified_is_rechecked()
    ensures { CertifiedIsRechecked }
{
    certificates_are_rechecked();
}
