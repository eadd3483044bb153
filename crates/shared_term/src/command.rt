//! A scoped command whose terms are stored.

use crate::Stored;
use dk_model::{Asked, Listed, ScopedRule, SymSort};

/// A scoped command that waits for its check: its type and its body each in one block, which one thread makes and another
/// reads. Rules and queries wait as they are.
#[derive(Drop)]
pub enum StoredCommand {
    Declare {
        sort: SymSort,
        /// The declared type; a definition may have none.
        typ: Option<Stored>,
        /// The body of a definition or theorem.
        body: Option<Stored>,
    },
    Rules(Listed<ScopedRule>),
    Query {
        /// Whether the command is accepted only where the answer is yes.
        demand: bool,
        asked: Asked,
    },
}
