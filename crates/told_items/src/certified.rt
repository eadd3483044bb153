//! A command with what says that it was found right.
ghost use Rattle.std.specs.Prelude.{◌≡◌, IfErr, IfOk};
ghost use Rattle.dk_model.specs.Scoping.{plain_command};
ghost use Rattle.dk_model.specs.Signatures.{maybe_tree};
ghost use Rattle.dk_model.specs.Verdicts.{inferred_type, verdict_of};
ghost use Rattle.signature_log.specs.Versions.{entries_of};
ghost use Rattle.checked_steps.specs.Checked.{IsChecked};
ghost use Rattle.checked_steps.specs.Certificates.{type_by_items};
ghost use Rattle.certificate_items.specs.Views.{plain_items};
ghost use Rattle.told_items.specs.Faults.{IsFaultOf};

use crate::teller::{Teller, all_items};
use certificate_items::Item;
use dk_model::{Listed, Scoped, Term, TypeFault};
use signature_log::Version;
use std::collections::LinkedList;
use told_steps::Tells;
use tree_commands::check_command;

/// What says that a command was found right: the items of its part of a certificate, and the type of a definition without a
/// declared one, which its entry takes.
#[derive(Drop)]
pub struct Certified {
    pub items: Listed<Item>,
    pub typ: Option<Term>,
}

/// Checks a command with so many units and tells its items. A query has none, and isn't answered here.
///
/// A fault is the check's very verdict; want of memory says nothing.
#[tactic(auto, using(crate::proofs::Commands::told_checked, crate::proofs::Commands::told_type, crate::proofs::Commands::told_inferred, crate::proofs::Commands::told_fault))]
pub fn certify_command<T: Tells>(
    evaluation: &mut T,
    budget: u64,
    version: &Version,
    command: &Scoped,
) -> Result<Certified, TypeFault>
    ensures checked { IfOk result (λ found. IsChecked (entries_of version.now)
        (plain_command command.now) (plain_items found.items)) }
    ensures typ { IfOk result (λ found. maybe_tree found.typ ≡ type_by_items
        (entries_of version.now) (plain_command command.now) (plain_items found.items)) }
    ensures inferred { IfOk result (λ found. maybe_tree found.typ
        ≡ inferred_type (entries_of version.now) (plain_command command.now) budget) }
    ensures err { IfErr result (λ fault. IsFaultOf
        (verdict_of (entries_of version.now) (plain_command command.now) budget) fault) }
{
    evaluation.begin(budget);
    let alloc = evaluation.alloc();
    let mut teller = Teller {
        evaluation,
        told: LinkedList::new(alloc),
    };
    let typ = check_command(&mut teller, version, command)?;
    let items = Listed::from_vec(all_items(alloc, teller.told)?);
    Ok(Certified { items, typ })
}
