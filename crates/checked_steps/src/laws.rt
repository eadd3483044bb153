//! The laws of certificates, each on a function that does nothing.
//!
//! A caller that needs a law calls its function, whose clauses then stand among what is known.

ghost use Rattle.dk_model.specs.WellFormed.{IsSignature};
ghost use Rattle.typing_model.specs.Conditions.{HasNoAnnotations, IsNumbered};
ghost use Rattle.checked_steps.specs.Laws.{
  AcceptedHaveCertificate,
  AcceptedIsChecked,
  CertifiedHaveDerivations,
  CheckedHasDerivation,
  TypeIsChecked,
};

/// A command with a checked derivation has a derivation, so that whoever rechecks needs neither strategy nor selection.
///
/// It asks of the signature only that types, bodies and right sides have no annotations, as in a well-formed one.
pub fn checked_has_derivation()
    ensures signature { (S : _) → IsSignature S → CheckedHasDerivation S }
    ensures plain { (S : _) → HasNoAnnotations S → CheckedHasDerivation S }
{
    // Proved by the structure of steps, and item by item.
}

/// An accepted command has a checked derivation: it can be certified. The type that is inferred for a body is the type of it
/// by the items too, letter by letter, so that the entry of a rechecked definition can be that of the check.
///
/// Items exist; this doesn't say which ones are written.
pub fn accepted_is_checked()
    ensures command { (S : _) → IsNumbered S → AcceptedIsChecked S }
    ensures typ { (S : _) → IsNumbered S → TypeIsChecked S }
{
    // Proved with an item for each evaluation, made of the steps by which a term reduces to its answer.
}

/// Where the commands of a theory have a certificate, each has a derivation over the entries of those before it. The type of a
/// definition without a declared one is that of the certificate, one that its body has.
pub fn certified_have_derivations()
    ensures { CertifiedHaveDerivations }
{
    // Proved command by command: no entry has annotations.
}

/// Where the commands of a theory are accepted one after the other, they have a certificate.
pub fn accepted_have_certificate()
    ensures { AcceptedHaveCertificate }
{
    // Proved command by command: each part gives the type that was inferred.
}
