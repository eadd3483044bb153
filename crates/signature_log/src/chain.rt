//! Values in order, in links that the chains made of one share.
ghost use Rattle.std.specs.Prelude.{◌≡◌, ℕ, ◌+◌, ◌≤◌, [], ◌∷◌, ◌++◌, length, slice_get, IfOk};
ghost use Rattle.std.specs.Option.{option_copied};

use crate::Steps;
use crate::blocks::Share;
use dk_model::NoMemory;
use std::alloc::Global;
use std::marker::Model;
use std::sync::Arc;
use std::sync::ledger::Ledger;

/// Values in order, found from the last one back. One made of another shares all links of it.
#[cycle(chain)]
#[derive(Drop)]
pub struct Chain<T> {
    last: Option<Arc<Link<T>>>,
}

/// A value and those before it.
#[cycle(chain)]
#[derive(Drop)]
struct Link<T> {
    before: Chain<T>,
    value: T,
}

impl<T> Model for Chain<T> {
    ghost use Rattle.std.specs.Prelude.{List, length};
    ghost use Rattle.std.specs.Coded.{coded_list};

    ghost Value = { List T };

    ghost coded = { coded_list T.code };

    ghost use Rattle.signature_log.specs.Chains.{linked};

    ghost view = { λ chain. linked chain.last };

    ghost size = { length };

    ghost use Rattle.std.proofs.Common.{arith, length-append};

    ghost size_decreases = { λ a h. Prim.grind (arith, length-append) };
}

impl<T: Share> Chain<T> {
    /// No values.
    pub fn empty() -> Chain<T>
        ensures { result ≡ [] }
    {
        Chain { last: None }
    }

    /// The values with one more, in one new link.
    pub fn append<L: Ledger>(
        &self,
        alloc: Global,
        value: T,
        steps: &mut Steps<L>,
    ) -> Result<Chain<T>, NoMemory>
        ensures values { IfOk result (λ chain. chain ≡ self.now ++ value ∷ []) }
        ensures cost { steps.new ≤ steps.old + 1 }
    {
        let before = self.share()?;
        steps.tick();
        Ok(Chain {
            last: Some(Arc::new(alloc, Link { before, value })?),
        })
    }

    /// The value that so many others stand behind, from 0 for the last one.
    pub fn get_back(&self, behind: u64) -> Option<&T>
        ensures { (at : ℕ) → at + behind + 1 ≡ length self.now
            → option_copied result ≡ slice_get self.now at }
    {
        match &self.last {
            Some(link) => {
                if behind == 0 {
                    Some(&link.value)
                } else {
                    link.before.get_back(behind - 1)
                }
            }
            None => None,
        }
    }

    /// Puts the values at the end of a list, in order. After a refusal the list may have some of them.
    pub fn list<L: Ledger>(&self, all: &mut Vec<T>, steps: &mut Steps<L>) -> Result<(), NoMemory>
        ensures values { IfOk result (λ _. all.new.items ≡ all.old.items ++ self.now) }
        ensures cost { steps.new ≤ steps.old + length self.now }
    {
        match &self.last {
            Some(link) => {
                link.before.list(all, steps)?;
                steps.tick();
                all.push(link.value.share()?)?;
                Ok(())
            }
            None => Ok(()),
        }
    }
}

impl<T: Share> Share for Chain<T> {
    fn share(&self) -> Result<Chain<T>, NoMemory> {
        let last = match &self.last {
            Some(link) => Some(Arc::try_clone(link)?),
            None => None,
        };
        Ok(Chain { last })
    }
}
