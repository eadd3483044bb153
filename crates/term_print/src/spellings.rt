//! The spellings of the symbols of a term.
ghost use Rattle.std.specs.Prelude.{◌≡◌, ◌++◌, ◌∷◌, ◌+◌, ◌<◌, ◌||◌, [], ℕ, IfOk, OnOk};
ghost use Rattle.dk_model.specs.PlainTerms.{Tree};
ghost use Rattle.scope_terms.specs.Scopes.{Spelling, same_spelling};
ghost use Rattle.term_print.specs.Named.{has, spellings};
ghost use Rattle.term_print.specs.Products.{size};
ghost use Rattle.term_print.specs.Walks.{Finds, SameSpellings, sizes};

use crate::source::{Source, Words};
use dk_model::{NoMemory, NodeOf};
use indexmap::IndexSet;
use std::alloc::Global;
use std::marker::Model;

/// Spellings, each once.
#[derive(Drop)]
pub(crate) struct Spellings {
    set: IndexSet<Vec<u8>>,
}

impl Model for Spellings {
    ghost use Rattle.std.specs.Prelude.{List, map};
    ghost use Rattle.scope_terms.specs.Scopes.{Spelling as Name};

    ghost Value = { List Name };

    ghost view = { λ s. map (λ k. k.items) s.set.keys };
}

impl Spellings {
    pub(crate) fn new(alloc: Global) -> Spellings
        ensures { result ≡ [] }
    {
        Spellings {
            set: IndexSet::new(alloc),
        }
    }

    /// Whether this is one of them.
    pub(crate) fn has(&self, name: &[u8]) -> bool
        ensures { result ≡ has self.now name.now }
    {
        self.set.contains(name)
    }

    /// One more, unless it is one of them.
    #[tactic(auto, using(crate::proofs::Spelt::spelling_added))]
    pub(crate) fn add(&mut self, alloc: Global, spelling: &[u8]) -> Result<(), NoMemory>
        ensures { OnOk result ((x : Spelling) → has self.new x
            ≡ (same_spelling x spelling.now || has self.old x)) }
    {
        let mut key = Vec::new(alloc);
        key.extend_from_slice(spelling)?;
        self.set.insert(key)?;
        Ok(())
    }
}

// What is found of a term, and the parts that are left to go through, the last one next.
#[derive(Drop)]
struct Search {
    alloc: Global,
    found: Spellings,
    left: Vec<u64>,
}

/// The spellings of the symbols of a term.
#[tactic(auto, using(crate::proofs::Walked::whole_left, crate::proofs::Walked::part_popped, crate::proofs::Walked::nothing_left, crate::proofs::Walked::sizes_pushed))]
pub(crate) fn spellings_of<S: Source, W: Words>(
    alloc: Global,
    source: &S,
    words: &W,
    whole: u64,
) -> Result<Spellings, NoMemory>
    ensures { IfOk result (λ s. SameSpellings s
        (spellings (W.word words.now) (S.denotes source.now whole))) }
{
    let mut search = Search {
        alloc,
        found: Spellings::new(alloc),
        left: Vec::new(alloc),
    };
    search.left.push(whole)?;
    'parts: while let Some(term) = search.left.pop() {
        find_in(source, words, term, &mut search)?;
    }
    Ok(search.found)
}

// What a term adds, and its parts, which are left to go through.
#[tactic(auto, using(crate::proofs::Walked::part_symbol, crate::proofs::Walked::part_apply, crate::proofs::Walked::part_product, crate::proofs::Walked::part_annotated, crate::proofs::Walked::part_bare, crate::proofs::Walked::part_leaf, crate::proofs::Walked::less_apply, crate::proofs::Walked::less_product, crate::proofs::Walked::less_annotated, crate::proofs::Walked::less_one, crate::proofs::Walked::less_none))]
fn find_in<S: Source, W: Words>(
    source: &S,
    words: &W,
    term: u64,
    search: &mut Search,
) -> Result<(), NoMemory>
    ensures spelt { OnOk result (Finds (S.denotes source.now) (W.word words.now)
        search.old.found term search.old.left.items search.new.found search.new.left.items) }
    ensures less { OnOk result (sizes (S.denotes source.now) search.new.left.items
        < sizes (S.denotes source.now) search.old.left.items + size (S.denotes source.now term)) }
{
    match source.node(term) {
        NodeOf::Sym(k) => {
            search.found.add(search.alloc, words.spelling(k))?;
            Ok(())
        }
        NodeOf::App(f, a) => {
            push_both(&mut search.left, f, a)?;
            Ok(())
        }
        NodeOf::Prod(a, b) => {
            push_both(&mut search.left, a, b)?;
            Ok(())
        }
        NodeOf::Abs(annotation, b) => match annotation {
            Some(d) => {
                push_both(&mut search.left, d, b)?;
                Ok(())
            }
            None => {
                search.left.push(b)?;
                Ok(())
            }
        },
        NodeOf::Star => Ok(()),
        NodeOf::Kind => Ok(()),
        NodeOf::Var(_) => Ok(()),
        NodeOf::Rvar(_) => Ok(()),
    }
}

// The first one on top.
fn push_both(left: &mut Vec<u64>, first: u64, second: u64) -> Result<(), NoMemory>
    ensures { OnOk result (left.new.items ≡ (left.old.items ++ second ∷ []) ++ first ∷ []) }
{
    left.push(second)?;
    left.push(first)?;
    Ok(())
}
