//! What is printed, and how its symbols are spelt.
ghost use Rattle.std.specs.Prelude.{◌≡◌, ℕ};
ghost use Rattle.std.specs.Option.{option_map};
ghost use Rattle.dk_model.specs.PlainTerms.{Tree};
ghost use Rattle.term_print.specs.Nodes.{node_tree};
ghost use Rattle.term_print.specs.Named.{Word};

use dk_model::NodeOf;

/// Terms, node by node; each part of a term is a number.
pub trait Source {
    // The term of a number.
    ghost denotes: { Self → ℕ → Tree };

    /// The outermost node of a term.
    fn node(&self, term: u64) -> NodeOf<u64>
        ensures { denotes self.now term ≡ node_tree (denotes self.now) result };
}

/// The words of symbols.
pub trait Words {
    // The word of a symbol.
    ghost word: { Self → ℕ → Word };

    /// The module that the symbol is qualified with, if any.
    fn module_name(&self, symbol: u32) -> Option<&[u8]>
        ensures { option_map (λ m. m.now) result ≡ (word self.now symbol).module_name };

    /// The spelling of the symbol, without its module.
    fn spelling(&self, symbol: u32) -> &[u8]
        ensures { result.now ≡ (word self.now symbol).spelling };
}
