//! What evaluation works on: a pool, the right sides that were brought into it, and what was worked out lately.
ghost use Rattle.std.specs.Prelude.{◌≡◌, IfOk};

use crate::table::Table;
use crate::trees::Trees;
use crate::walks::{TreeLimits, USUAL, Walks};
use dk_model::NoMemory;
use shared_term::{Pool, TermId};
use std::alloc::Global;

/// A form of a term, and the units that it takes.
#[derive(Clone, Copy)]
pub(crate) struct Value {
    pub(crate) id: TermId,
    pub(crate) units: u64,
}

/// Whether two terms are convertible, and the units that this takes.
#[derive(Clone, Copy)]
pub(crate) struct Answer {
    pub(crate) alike: bool,
    pub(crate) units: u64,
}

/// What the rules of a symbol do with it before any arguments.
#[derive(Clone, Copy)]
pub(crate) enum Head {
    /// It has none.
    Stands,
    /// Its body takes its place.
    Unfolds(TermId),
}

/// Evaluation over the terms of a pool, with what it found over one version remembered.
#[derive(Drop)]
pub struct PoolReducer {
    pub(crate) alloc: Global,
    pub(crate) pool: Pool,
    /// The right sides of rules, by the symbol and the rule's place among those of the symbol.
    pub(crate) loaded: Table<TermId>,
    /// What symbols without declared rules do, each by its symbol.
    pub(crate) heads: Table<Head>,
    /// The weak head forms of terms, each by its term.
    pub(crate) values: Table<Value>,
    /// The normal forms of terms, each by its term.
    pub(crate) normals: Table<Value>,
    /// The answers of comparisons, each by its two terms.
    pub(crate) answers: Table<Answer>,
    /// The trees of symbols whose rules were gone through often. An evaluation takes them out while it runs.
    pub(crate) trees: Trees,
    pub(crate) walks: Walks,
}

/// How many forms and answers of each kind are remembered at most.
const SLOTS: usize = 4096;

/// How many right sides stay at hand.
const RIGHT_SIDES: usize = 1024;

/// Of how many symbols it is remembered what they do.
const HEADS: usize = 1024;

/// A pool of more nodes than this is dropped, not cleared.
const MOST_KEPT: usize = 1 << 16;

impl PoolReducer {
    ghost use Rattle.std.specs.Prelude.{[]};
    ghost use Rattle.dk_model.specs.Signatures.{PlainSignature};
    ghost use Rattle.conversion.specs.Reducers.{Serves};

    /// An empty pool. It serves whichever version is used first.
    pub fn new(alloc: Global) -> Result<PoolReducer, NoMemory>
        ensures empty { IfOk result (λ r. r.pool ≡ []) }
        ensures serves { IfOk result (λ r. (S : PlainSignature) → Serves S r) }
    {
        PoolReducer::with_limits(alloc, USUAL)
    }

    /// The same with limits of its own for trees. They change the time that an answer takes, and nothing else.
    pub fn with_limits(alloc: Global, limits: TreeLimits) -> Result<PoolReducer, NoMemory>
        ensures empty { IfOk result (λ r. r.pool ≡ []) }
        ensures serves { IfOk result (λ r. (S : PlainSignature) → Serves S r) }
    {
        let nothing = Value {
            id: TermId::first(),
            units: 0,
        };
        let pool = Pool::new(alloc)?;
        let loaded = Table::new(alloc, RIGHT_SIDES, TermId::first())?;
        let heads = Table::new(alloc, HEADS, Head::Stands)?;
        let values = Table::new(alloc, SLOTS, nothing)?;
        let normals = Table::new(alloc, SLOTS, nothing)?;
        let answers = Table::new(
            alloc,
            SLOTS,
            Answer {
                alike: false,
                units: 0,
            },
        )?;
        let walks = Walks::new(alloc, limits)?;
        Ok(PoolReducer {
            alloc,
            pool,
            loaded,
            heads,
            values,
            normals,
            answers,
            trees: Trees::new(alloc),
            walks,
        })
    }

    /// Forgets every term and all that was worked out, so that another version may be used. The memory is kept, but for
    /// that of a very large pool.
    pub fn clear(&mut self)
        ensures empty { self.new.pool ≡ [] }
        ensures serves { (S : PlainSignature) → Serves S self.new }
    {
        if self.pool.len() > MOST_KEPT {
            if let Ok(pool) = Pool::new(self.alloc) {
                self.pool = pool;
            }
        }
        self.pool.clear();
        self.loaded.clear();
        self.heads.clear();
        self.values.clear();
        self.normals.clear();
        self.answers.clear();
        self.trees = Trees::new(self.alloc);
        self.walks.clear();
    }
}
