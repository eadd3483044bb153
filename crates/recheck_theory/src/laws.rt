//! The laws of what a recheck answers, each on a function that does nothing.
//!
//! A caller that needs a law calls its function, whose clauses then stand among what is known.

ghost use Rattle.recheck_theory.specs.Laws.{CertificatesAreRechecked, RecheckedHaveDerivations};

use checked_steps::laws::certified_have_derivations;

/// Where it is answered that all commands are rechecked, each has a derivation over the entries of those before it.
pub fn rechecked_have_derivations()
    ensures { RecheckedHaveDerivations }
{
    // Proved part by part: the parts are a certificate.
    certified_have_derivations();
}

/// The text of a certificate is rechecked.
pub fn certificates_are_rechecked()
    ensures { CertificatesAreRechecked }
{
    // Proved part by part: behind the items of a part stands the line of the next one, or the last line.
}
