//! The rules of a symbol for a selection: their left sides, and a matching tree of them.
ghost use Rattle.std.specs.Prelude.{◌≡◌, ◌↔◌, ℕ, [], IfOk, IfSome, IsNone};
ghost use Rattle.rule_match.specs.Sides.{IsLeftSide, AreLeftSides};
ghost use Rattle.rule_match.specs.Trees.{IsTree, IsPlaced};
ghost use Rattle.signature_log.specs.Versions.{row_rule};
ghost use Rattle.signature_log.specs.Rows.{row_rules};

use crate::rows::{Row, Rows};
use dk_model::NoMemory;
use rule_match::{LeftSide, Tree, compile};
use std::alloc::Global;

/// The left side of a row: a body takes no arguments.
fn side_of<'a>(row: Row<'a>) -> LeftSide<'a>
    ensures { (k : ℕ) → IsLeftSide (row_rule k row.entry) result }
{
    match row {
        Row::Body(_) => LeftSide {
            patterns: &[],
            vars: 0,
        },
        Row::Rule(rule) => LeftSide {
            patterns: rule.pats.as_slice(),
            vars: rule.vars,
        },
    }
}

impl<'a> Rows<'a> {
    /// The left sides of the rules, as they stand, in their order.
    pub fn sides(&self, alloc: Global) -> Result<Vec<LeftSide<'a>>, NoMemory>
        ensures value { IfOk result (λ sides. (k : ℕ)
            → AreLeftSides (row_rules k self.now) sides.items) }
    {
        let mut sides = Vec::new(alloc);
        for at in 0..self.len() {
            match self.at(at) {
                Some(row) => sides.push(side_of(row))?,
                None => unreachable!(),
            }
        }
        Ok(sides)
    }

    /// The rules compiled to a matching tree. Each call compiles anew: whoever selects often keeps it.
    pub fn tree(&self, alloc: Global) -> Result<Option<Tree>, NoMemory>
        ensures none { IfOk result (λ o. (k : ℕ) → IsNone o ↔ (row_rules k self.now ≡ [])) }
        ensures tree { IfOk result (λ o. IfSome o (λ tree. (k : ℕ)
            → IsTree (row_rules k self.now) tree)) }
        ensures placed { IfOk result (λ o. IfSome o IsPlaced) }
    {
        if self.len() == 0 {
            return Ok(None);
        }
        let sides = self.sides(alloc)?;
        Ok(Some(compile(alloc, sides.as_slice())?))
    }
}
