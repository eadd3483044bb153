//! A part of a certificate.
ghost use Rattle.std.specs.Prelude.{◌≡◌, Err, IfOk};
ghost use Rattle.dk_model.specs.Scoping.{plain_command};
ghost use Rattle.dk_model.specs.Signatures.{maybe_tree};
ghost use Rattle.signature_log.specs.Versions.{entries_of};
ghost use Rattle.checked_steps.specs.Checked.{IsChecked};
ghost use Rattle.checked_steps.specs.Certificates.{type_by_items};
ghost use Rattle.certificate_items.specs.Views.{plain_items};
ghost use Rattle.recheck.specs.Parts.{IsNoPart, IsPart};

use crate::{ByItems, Wrong};
use certificate_items::{Item, read_items};
use dk_model::{Scoped, Term};
use signature_log::Version;
use std::alloc::Global;
use tree_commands::check_command;

/// Checks the bytes of one part against its command; the type of a definition without a declared one, which its entry
/// takes.
pub fn recheck_part(
    alloc: Global,
    version: &Version,
    command: &Scoped,
    part: &[u8],
) -> Result<Option<Term>, Wrong>
    ensures ok { IfOk result (λ typ. IsPart (entries_of version.now) (plain_command command.now)
        part.now (maybe_tree typ)) }
    ensures rejected { result ≡ Err Wrong.Rejected →
        IsNoPart (entries_of version.now) (plain_command command.now) part.now }
{
    let items = read_items(alloc, part)?;
    recheck_items(alloc, version, command, items.as_slice())
}

/// The same of items.
#[tactic(auto, using(crate::proofs::Judged::answer_checked, crate::proofs::Judged::answer_given, crate::proofs::Judged::answer_over, crate::proofs::Judged::fault_not))]
pub fn recheck_items(
    alloc: Global,
    version: &Version,
    command: &Scoped,
    items: &[Item],
) -> Result<Option<Term>, Wrong>
    ensures ok { IfOk result (λ _. IsChecked (entries_of version.now)
        (plain_command command.now) (plain_items items.now)) }
    ensures typ { IfOk result (λ typ. maybe_tree typ ≡ type_by_items (entries_of version.now)
        (plain_command command.now) (plain_items items.now)) }
    ensures rejected { result ≡ Err Wrong.Rejected → ¬ IsChecked (entries_of version.now)
        (plain_command command.now) (plain_items items.now) }
{
    let mut evaluation = ByItems::new(alloc, items);
    let typ = check_command(&mut evaluation, version, command)?;
    if evaluation.is_over() {
        Ok(typ)
    } else {
        Err(Wrong::Rejected)
    }
}
