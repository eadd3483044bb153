//! Whether commands stand behind what they mention.
ghost use Rattle.std.specs.Prelude.{◌≡◌, ◌↔◌, map, true, IfOk};
ghost use Rattle.dk_model.specs.Scoping.{plain_command};
ghost use Rattle.prune_theory.specs.Before.{all_below};
ghost use Rattle.prune_theory.specs.Mentions.{MentionBefore};

use crate::symbols::mentions;
use dk_model::{NoMemory, Scoped};
use std::alloc::Global;

/// Whether each of these symbols is below the place.
fn all_below(symbols: &[u32], place: usize) -> bool
    ensures { result ≡ all_below place symbols.now }
{
    let mut rest = symbols;
    while let Some((symbol, others)) = rest.split_first() {
        if *symbol as usize >= place {
            return false;
        }
        rest = others;
    }
    true
}

/// Whether each command mentions only what stands before it, as `rests` asks. Accepted ones do
/// (`laws::accepted_mention_before`).
pub fn mention_before(alloc: Global, commands: &[Scoped]) -> Result<bool, NoMemory>
    ensures { IfOk result (λ yes.
        (yes ≡ true) ↔ MentionBefore (map plain_command commands.now)) }
{
    let mut place = 0usize;
    let mut rest = commands;
    while let Some((command, others)) = rest.split_first() {
        let mentioned = mentions(alloc, command)?;
        if !all_below(mentioned.as_slice(), place) {
            return Ok(false);
        }
        place += 1;
        rest = others;
    }
    Ok(true)
}
