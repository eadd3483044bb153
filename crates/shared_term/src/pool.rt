//! A pool of shared terms.
ghost use Rattle.std.specs.Prelude.{◌≡◌, ◌<◌, ◌↔◌, [], length, map, slice_get, Some, IfOk, IsTrue};
ghost use Rattle.dk_model.specs.Substitution.{shift, substitute};
ghost use Rattle.dk_model.specs.Erasure.{erased};
ghost use Rattle.dk_model.specs.Captures.{filled, renamed, captured, mentions_others};
ghost use Rattle.dk_model.specs.Bounds.{IsClosedAt};
ghost use Rattle.shared_term.specs.Storage.{stored_term};
ghost use Rattle.shared_term.specs.Pools.{term, terms, denoted, Extends, IsWithin, Moves};
ghost use Rattle.shared_term.specs.Changes.{AreCaptures, captured_terms, AreTerms, substitute_all};

use crate::change::{Change, Frame, Given, Goal};
use crate::entering::stays;
use crate::loading::loaded;
use crate::memos::Memos;
use crate::storing::stored;
use crate::walk::walked;
use crate::{Node, Nodes, Stored, TermId};
use dk_model::{NoMemory, NodeOf};
use std::alloc::Global;
use std::marker::Model;

/// Nodes, each once. A contract sees their list, and by it the term at each place.
#[derive(Drop)]
pub struct Pool {
    alloc: Global,
    nodes: Nodes,
    memos: Memos,
    frames: Vec<Frame>,
}

impl Model for Pool {
    ghost use Rattle.std.specs.Prelude.{List};
    ghost use Rattle.dk_model.specs.declared.NodeOf.{NodeOf};
    ghost use Rattle.shared_term.specs.declared.id.TermId.{TermId};
    ghost use Rattle.shared_term.specs.Memos.{AreLasting};

    ghost Value = { List (NodeOf TermId) };

    ghost view = { λ p. p.nodes };

    ghost invariant = { λ p. AreLasting p.nodes p.memos.lasting };
}

const NOTHING: Given<'static> = Given {
    captures: &[],
    terms: &[],
    bound: 0,
    arguments: &[],
};

impl Pool {
    /// An empty pool.
    #[tactic(auto, using(crate::proofs::Remembering::lasting_blank))]
    pub fn new(alloc: Global) -> Result<Pool, NoMemory>
        ensures { IfOk result (λ p. p ≡ []) }
    {
        let memos = Memos::new(alloc)?;
        Ok(Pool {
            alloc,
            nodes: Nodes::new(alloc),
            memos,
            frames: Vec::new(alloc),
        })
    }

    pub(crate) fn alloc(&self) -> Global {
        self.alloc
    }

    /// How many nodes there are.
    pub fn len(&self) -> usize
        ensures { result ≡ length self.now }
    {
        self.nodes.len()
    }

    /// Takes all nodes out, and keeps the memory.
    #[tactic(auto, using(crate::proofs::Remembering::lasting_blank))]
    pub fn clear(&mut self)
        ensures { self.new ≡ [] }
    {
        self.nodes.clear();
        self.memos.lasting.clear();
    }

    /// The outermost node of a term.
    pub fn get(&self, id: TermId) -> Node
        requires { id.0 < length self.now }
        ensures node { slice_get self.now id.0 ≡ Some result }
        ensures denoted { term self.now id ≡ denoted (terms self.now) result }
        ensures within { IsWithin id.0 result }
    {
        self.nodes.get(id)
    }

    /// Whether two places are one, as they are exactly where their terms are.
    pub fn same(&self, a: TermId, b: TermId) -> bool
        requires a { a.0 < length self.now }
        requires b { b.0 < length self.now }
        ensures ids { IsTrue result ↔ (a ≡ b) }
        ensures terms { IsTrue result ↔ (term self.now a ≡ term self.now b) }
    {
        self.nodes.same(a, b)
    }

    /// Whether no abstraction of the term has an annotation.
    pub fn is_erased(&self, id: TermId) -> bool
        requires { id.0 < length self.now }
        ensures { IsTrue result → erased (term self.now id) ≡ term self.now id }
    {
        let goal = Goal {
            change: Change::Erase,
            id,
            depth: 0,
        };
        stays(&self.nodes, &NOTHING, goal)
    }

    /// Whether the term mentions no variable that isn't bound in it.
    pub fn is_closed(&self, id: TermId) -> bool
        requires { id.0 < length self.now }
        ensures { IsTrue result → IsClosedAt 0 (term self.now id) }
    {
        self.nodes.summary(id).bound == 0
    }

    /// The place of a node, which goes last where it isn't there.
    #[tactic(auto, using(crate::proofs::Remembering::lasting_grown))]
    pub fn intern(&mut self, node: Node) -> Result<TermId, NoMemory>
        requires { IsWithin (length self.old) node }
        ensures within { IfOk result (λ id. id.0 < length self.new) }
        ensures denotes { IfOk result (λ id. term self.new id ≡ denoted (terms self.old) node) }
        ensures keeps { Extends self.old self.new }
    {
        self.nodes.intern(node)
    }

    /// Puts `by` in the place of variable `depth`.
    pub fn substitute(&mut self, id: TermId, depth: u64, by: TermId) -> Result<TermId, NoMemory>
        requires id { id.0 < length self.old }
        requires by { by.0 < length self.old }
        ensures moves { IfOk result
            (λ r. Moves (substitute depth (term self.old by)) self.old self.new id r) }
        ensures keeps { Extends self.old self.new }
    {
        let goal = Goal {
            change: Change::Substitute(by),
            id,
            depth,
        };
        walked(
            &mut self.nodes,
            &mut self.memos,
            &mut self.frames,
            &NOTHING,
            goal,
        )
    }

    /// Puts these in the place of as many variables from `depth` on, the last one in that of variable `depth`, all at once.
    pub fn substitute_all(
        &mut self,
        id: TermId,
        depth: u64,
        by: &[TermId],
    ) -> Result<TermId, NoMemory>
        requires id { id.0 < length self.old }
        requires by { AreTerms (length self.old) by.now }
        ensures moves { IfOk result
            (λ r. Moves (substitute_all depth (map (term self.old) by.now)) self.old self.new id r) }
        ensures keeps { Extends self.old self.new }
    {
        let given = Given {
            captures: &[],
            terms: by,
            bound: 0,
            arguments: &[],
        };
        let goal = Goal {
            change: Change::SubstituteAll,
            id,
            depth,
        };
        walked(
            &mut self.nodes,
            &mut self.memos,
            &mut self.frames,
            &given,
            goal,
        )
    }

    /// Adds `by` to each free variable from `cut` on.
    pub fn shift(&mut self, id: TermId, cut: u64, by: u64) -> Result<TermId, NoMemory>
        requires { id.0 < length self.old }
        ensures moves { IfOk result (λ r. Moves (shift cut by) self.old self.new id r) }
        ensures keeps { Extends self.old self.new }
    {
        let goal = Goal {
            change: Change::Shift(by),
            id,
            depth: cut,
        };
        walked(
            &mut self.nodes,
            &mut self.memos,
            &mut self.frames,
            &NOTHING,
            goal,
        )
    }

    /// Removes every annotation of an abstraction.
    pub fn erased(&mut self, id: TermId) -> Result<TermId, NoMemory>
        requires { id.0 < length self.old }
        ensures moves { IfOk result (λ r. Moves erased self.old self.new id r) }
        ensures keeps { Extends self.old self.new }
    {
        let goal = Goal {
            change: Change::Erase,
            id,
            depth: 0,
        };
        walked(
            &mut self.nodes,
            &mut self.memos,
            &mut self.frames,
            &NOTHING,
            goal,
        )
    }

    /// The term under the captures of its rule variables; a rule variable without one stays.
    pub fn filled(&mut self, id: TermId, captures: &[Option<TermId>]) -> Result<TermId, NoMemory>
        requires id { id.0 < length self.old }
        requires captures { AreCaptures (length self.old) captures.now }
        ensures moves { IfOk result
            (λ r. Moves (filled (captured_terms self.old captures.now) 0) self.old self.new id r) }
        ensures keeps { Extends self.old self.new }
    {
        let given = Given {
            captures,
            terms: &[],
            bound: 0,
            arguments: &[],
        };
        let goal = Goal {
            change: Change::Fill,
            id,
            depth: 0,
        };
        walked(
            &mut self.nodes,
            &mut self.memos,
            &mut self.frames,
            &given,
            goal,
        )
    }

    /// The term over the arguments of a capture, in place of the `bound` variables that the pattern
    /// binds where it stands.
    pub fn renamed(&mut self, id: TermId, bound: u64, arguments: &[u32]) -> Result<TermId, NoMemory>
        requires { id.0 < length self.old }
        ensures moves { IfOk result
            (λ r. Moves (renamed 0 bound arguments.now) self.old self.new id r) }
        ensures keeps { Extends self.old self.new }
    {
        let given = Given {
            captures: &[],
            terms: &[],
            bound,
            arguments,
        };
        let goal = Goal {
            change: Change::Rename,
            id,
            depth: 0,
        };
        walked(
            &mut self.nodes,
            &mut self.memos,
            &mut self.frames,
            &given,
            goal,
        )
    }

    /// A part at a rule variable as the variable captures it: over its arguments, and abstracted
    /// over them, the first
    /// one outermost.
    pub fn captured(
        &mut self,
        id: TermId,
        bound: u64,
        arguments: &[u32],
    ) -> Result<TermId, NoMemory>
        requires { id.0 < length self.old }
        ensures moves { IfOk result
            (λ r. Moves (captured bound arguments.now) self.old self.new id r) }
        ensures keeps { Extends self.old self.new }
    {
        let mut part = self.renamed(id, bound, arguments)?;
        for _binder in 0..arguments.len() {
            part = self.intern(NodeOf::Abs(None, part))?;
        }
        Ok(part)
    }

    /// Whether the term mentions one of the `bound` variables that the pattern binds where it
    /// stands that is no argument.
    pub fn mentions_others(
        &mut self,
        id: TermId,
        bound: u64,
        arguments: &[u32],
    ) -> Result<bool, NoMemory>
        requires { id.0 < length self.old }
        ensures mentions { IfOk result
            (λ b. b ≡ mentions_others 0 bound arguments.now (term self.old id)) }
        ensures keeps { Extends self.old self.new }
    {
        let given = Given {
            captures: &[],
            terms: &[],
            bound,
            arguments,
        };
        let goal = Goal {
            change: Change::Raise,
            id,
            depth: 0,
        };
        // Raised by one, the others make another term exactly where there are any.
        let raised = walked(
            &mut self.nodes,
            &mut self.memos,
            &mut self.frames,
            &given,
            goal,
        )?;
        Ok(!self.nodes.same(raised, id))
    }

    /// A term in a list of its own, which has each node once.
    pub fn store(&self, id: TermId) -> Result<Stored, NoMemory>
        requires { id.0 < length self.now }
        ensures { IfOk result (λ s. stored_term s ≡ term self.now id) }
    {
        stored(self, id)
    }

    /// Brings a stored term into the pool.
    pub fn load(&mut self, stored: &Stored) -> Result<TermId, NoMemory>
        ensures within { IfOk result (λ id. id.0 < length self.new) }
        ensures denotes { IfOk result (λ id. term self.new id ≡ stored_term stored.now) }
        ensures keeps { Extends self.old self.new }
    {
        loaded(self, stored)
    }
}
