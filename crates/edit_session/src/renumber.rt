//! An answer with other numbers for its symbols.
ghost use Rattle.std.specs.Prelude.{◌≡◌, ◌<◌, IfOk, get_or, length};
ghost use Rattle.std.specs.Option.{option_map};
ghost use Rattle.dk_model.specs.Signatures.{maybe_by};
ghost use Rattle.prune_theory.specs.Renamed.{found_with_symbols, with_symbols};
ghost use Rattle.shared_term.specs.Finding.{plain_found};
ghost use Rattle.shared_term.specs.Pools.{IsWithin};
ghost use Rattle.shared_term.specs.Storage.{stored_term};
ghost use Rattle.edit_session.specs.Answers.{answer_with, renumbered};
ghost use Rattle.edit_session.specs.Held.{plain_answer};
ghost use Rattle.edit_session.specs.Renumbering.{renumbered_node};

use crate::both::both;
use crate::finding::Findings;
use dk_model::{NoMemory, NodeOf};
use shared_term::{Found, Node, Pool, Stored, TermId};
use std::alloc::Global;

/// The places that an answer's symbols had, and those that they have, in the same order.
#[derive(Clone, Copy)]
pub struct Renumbering<'a> {
    pub old: &'a [u32],
    pub new: &'a [u32],
}

impl<'a> Renumbering<'a> {
    /// The number that stands among the new ones where this one stands among the old ones.
    #[tactic(auto, using(crate::proofs::Nodes::number_here, crate::proofs::Nodes::number_past))]
    fn number(&self, symbol: u32) -> u32
        ensures { result ≡ renumbered self.now.old.now self.now.new.now symbol }
    {
        let mut old = self.old;
        let mut new = self.new;
        while let Some((first, olds)) = old.split_first() {
            let Some((other, news)) = new.split_first() else {
                return symbol;
            };
            if *first == symbol {
                return *other;
            }
            old = olds;
            new = news;
        }
        symbol
    }

    /// A node with its parts at their places in the pool.
    fn node(&self, places: &[TermId], node: Node) -> Node
        requires { IsWithin (length places.now) node }
        ensures { result
            ≡ renumbered_node (renumbered self.now.old.now self.now.new.now) places.now node }
    {
        match node {
            NodeOf::Star => NodeOf::Star,
            NodeOf::Kind => NodeOf::Kind,
            NodeOf::Sym(k) => NodeOf::Sym(self.number(k)),
            NodeOf::Var(k) => NodeOf::Var(k),
            NodeOf::Rvar(k) => NodeOf::Rvar(k),
            NodeOf::App(f, a) => NodeOf::App(part(places, f), part(places, a)),
            NodeOf::Abs(None, b) => NodeOf::Abs(None, part(places, b)),
            NodeOf::Abs(Some(n), b) => NodeOf::Abs(Some(part(places, n)), part(places, b)),
            NodeOf::Prod(a, b) => NodeOf::Prod(part(places, a), part(places, b)),
        }
    }

    /// A term, by a pool of its own.
    fn term(&self, alloc: Global, term: &Stored) -> Result<Stored, NoMemory>
        ensures { IfOk result (λ t. stored_term t
            ≡ with_symbols (renumbered self.now.old.now self.now.new.now) (stored_term term.now)) }
    {
        let mut pool = Pool::new(alloc)?;
        let moved = self.term_by(alloc, &mut pool, term);
        drop(pool);
        moved
    }

    // A term, node by node.
    #[tactic(auto, using(crate::proofs::Nodes::none_renumbered, crate::proofs::Nodes::root_denotes))]
    fn term_by(&self, alloc: Global, pool: &mut Pool, term: &Stored) -> Result<Stored, NoMemory>
        ensures { IfOk result (λ t. stored_term t
            ≡ with_symbols (renumbered self.now.old.now self.now.new.now) (stored_term term.now)) }
    {
        let mut places = Vec::with_capacity(alloc, term.len())?;
        for at in 0..term.len() {
            let node = term.get(at);
            let moved = self.node(places.as_slice(), node);
            let id = pool.intern(moved)?;
            places.push(id)?;
        }
        let root = part(places.as_slice(), term.root());
        pool.store(root)
    }

    fn maybe_term(&self, alloc: Global, term: &Option<Stored>) -> Result<Option<Stored>, NoMemory>
        ensures { IfOk result (λ t. maybe_by stored_term t
            ≡ option_map (with_symbols (renumbered self.now.old.now self.now.new.now))
            (maybe_by stored_term term.now)) }
    {
        match term {
            Some(term) => Ok(Some(self.term(alloc, term)?)),
            None => Ok(None),
        }
    }

    fn found(&self, alloc: Global, found: &Option<Found>) -> Result<Option<Found>, NoMemory>
        ensures { IfOk result (λ f. option_map plain_found f
            ≡ option_map (found_with_symbols (renumbered self.now.old.now self.now.new.now))
            (option_map plain_found found.now)) }
    {
        match found {
            None => Ok(None),
            Some(Found::Yes) => Ok(Some(Found::Yes)),
            Some(Found::No) => Ok(Some(Found::No)),
            Some(Found::Of(typ)) => Ok(Some(Found::Of(self.term(alloc, typ)?))),
            Some(Found::Value(value)) => Ok(Some(Found::Value(self.term(alloc, value)?))),
        }
    }

    /// An answer with the new numbers.
    pub fn answer(&self, alloc: Global, findings: &Findings) -> Result<Findings, NoMemory>
        ensures { IfOk result (λ f. plain_answer f
            ≡ answer_with (renumbered self.now.old.now self.now.new.now)
            (plain_answer findings.now)) }
    {
        let typ = self.maybe_term(alloc, &findings.typ);
        let (typ, found) = both(typ, self.found(alloc, &findings.found))?;
        Ok(Findings {
            verdict: findings.verdict,
            typ,
            found,
        })
    }
}

/// The place of a part.
fn part(places: &[TermId], id: TermId) -> TermId
    requires { id.0 < length places.now }
    ensures { result ≡ get_or places.now id.0 id }
{
    places[id.number() as usize]
}
