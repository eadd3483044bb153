//! Rules and entries as a version keeps them.
ghost use Rattle.std.specs.Prelude.{◌≡◌, IfOk, map};
ghost use Rattle.std.specs.Arc.{arc_value};
ghost use Rattle.dk_model.specs.Trees.{tree};
ghost use Rattle.dk_model.specs.Signatures.{plain_entry, plain_rule, plain_signature, rule_by};
ghost use Rattle.shared_term.specs.Storage.{stored_term};
ghost use Rattle.signature_log.specs.Versions.{entries_of, stored_entry};

use crate::{Grow, Version};
use dk_model::{Carry, Entry, Listed, NoMemory, Rule, Signature, Term, carry_entry, carry_rules};
use shared_term::Stored;
use std::alloc::Global;
use std::sync::Arc;

/// Terms as a version keeps them.
struct Storing;

impl Carry for Storing {
    type Source = Term;

    type Target = Stored;

    ghost read_tree = { tree };

    ghost made_tree = { stored_term };

    fn carry(alloc: Global, term: &Term) -> Result<Stored, NoMemory> {
        Stored::from_term(alloc, term)
    }
}

/// The same rules over stored terms.
pub fn store_rules(alloc: Global, rules: &[Rule]) -> Result<Listed<Rule<Stored>>, NoMemory>
    ensures { IfOk result (λ rs. map (rule_by stored_term) rs ≡ map plain_rule rules.now) }
{
    carry_rules::<Storing>(alloc, rules)
}

/// The same entry over stored terms.
pub fn store_entry(alloc: Global, entry: &Entry) -> Result<Entry<Stored>, NoMemory>
    ensures { IfOk result (λ e. stored_entry e ≡ plain_entry entry.now) }
{
    carry_entry::<Storing>(alloc, entry)
}

fn shared_entry(alloc: Global, entry: &Entry) -> Result<Arc<Entry<Stored>>, NoMemory>
    ensures { IfOk result (λ e. stored_entry (arc_value e) ≡ plain_entry entry.now) }
{
    Ok(Arc::new(alloc, store_entry(alloc, entry)?)?)
}

/// The version of a plain signature. `Full` where it has more entries than a version holds.
#[tactic(auto, using(crate::proofs::StoredRules::entry_appended))]
pub fn version_of(alloc: Global, signature: &Signature) -> Result<Version, Grow>
    ensures { IfOk result (λ v. entries_of v ≡ plain_signature signature.now) }
{
    let mut version = Version::empty(alloc)?;
    for entry in signature.entries.as_slice() {
        version = version.append(shared_entry(alloc, entry)?)?;
    }
    Ok(version)
}
