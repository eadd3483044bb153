//! Calls with the items that answer them.
ghost use Rattle.std.specs.Prelude.{◌≡◌, [], ◌∷◌, true, IfOk};
ghost use Rattle.dk_model.specs.Trees.{tree};
ghost use Rattle.signature_log.specs.Versions.{entries_of};
ghost use Rattle.certificate_items.specs.Views.{plain_items, plain_steps};
ghost use Rattle.told_steps.specs.Told.{Leads, Meet};
ghost use Rattle.told_items.specs.Calls.{is_answered, joined, reduced};
ghost use Rattle.told_items.specs.Views.{plain_call};

use crate::call::Call;
use certificate_items::{Item, Join, Step};
use dk_model::{Listed, NoMemory, Term};
use signature_log::Version;
use std::alloc::Global;
use std::snapshot::Snapshot;

/// A call with the items that answer it.
#[derive(Drop)]
pub(crate) struct Answered {
    pub call: Call,
    pub items: Vec<Item>,
    pub ghost told: { is_answered (plain_call call) (plain_items items.items) ≡ true },
}

/// An item alone.
fn alone(alloc: Global, item: Item) -> Result<Vec<Item>, NoMemory>
    ensures { IfOk result (λ items. items.items ≡ item ∷ []) }
{
    let mut items = Vec::new(alloc);
    items.push(item)?;
    Ok(items)
}

impl Answered {
    /// A term that was reduced to a form.
    #[tactic(auto, using(crate::proofs::Answers::led))]
    pub fn reduced(
        alloc: Global,
        version: &Version,
        term: &Term,
        form: &Term,
        steps: Listed<Step>,
    ) -> Result<Answered, NoMemory>
        requires { Leads (entries_of version.now) (tree term.now) (plain_steps steps)
            (tree form.now) }
        ensures { IfOk result (λ a. plain_call a.call
            ≡ reduced (entries_of version.now) (tree term.now) (tree form.now)) }
    {
        let items = alone(alloc, Item::Reduction(steps))?;
        let call = Call::Reduced(
            Snapshot::of(version),
            Snapshot::of(term),
            Snapshot::of(form),
        );
        Ok(Answered { call, items })
    }

    /// Two terms that are convertible.
    pub fn joined(
        alloc: Global,
        version: &Version,
        term: &Term,
        other: &Term,
        join: Join,
    ) -> Result<Answered, NoMemory>
        requires { Meet (entries_of version.now) (tree term.now) (plain_steps join.first)
            (tree other.now) (plain_steps join.second) }
        ensures { IfOk result (λ a. plain_call a.call
            ≡ joined (entries_of version.now) (tree term.now) (tree other.now)) }
    {
        let items = alone(alloc, Item::Joining(join))?;
        let call = Call::Joined(
            Snapshot::of(version),
            Snapshot::of(term),
            Snapshot::of(other),
        );
        Ok(Answered { call, items })
    }
}
