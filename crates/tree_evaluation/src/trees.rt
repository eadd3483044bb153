//! The evaluator over boxed trees as a value, for what is written over any reducer.
#![tactic(auto, using(crate::proofs::Reducing::trees_keep, crate::proofs::Reducing::form_given, crate::proofs::Reducing::no_form_given, crate::proofs::Reducing::no_answer_given, crate::proofs::Reducing::same_trees))]

ghost use Rattle.std.specs.Prelude.{IfOk};
ghost use Rattle.dk_model.specs.Signatures.{PlainSignature};
ghost use Rattle.signature_log.specs.Reducers.{Keeps, Makes, OwnsParts, built};
ghost use Rattle.tree_evaluation.specs.Views.{owned, denoted};

use crate::evaluation::Evaluation;
use dk_model::{NoMemory, NodeOf, Stop, Term, make_annotated, make_app, make_bare, make_product};
use shared_term::Stored;
use signature_log::{Reducer, Version};
use std::alloc::Global;
use tree_terms::{all_put, filled, may_bind, mentions_others, renamed};

/// Evaluation over boxed trees. It remembers nothing, and every term is one of its own. One that would nest too deep
/// answers `NoMemory` (docs/evaluation.md).
#[derive(Clone, Copy)]
pub struct Trees {
    alloc: Global,
}

impl Trees {
    pub fn new(alloc: Global) -> Trees {
        Trees { alloc }
    }
}

impl Reducer for Trees {
    ghost use Rattle.tree_evaluation.specs.Views.{owned, denoted};

    type T = Term;

    ghost owns = { owned };

    ghost denotes = { denoted };

    ghost serves = { λ s r. Unit {0} };

    fn alloc(&self) -> Global {
        self.alloc
    }

    fn whnf(&mut self, v: &Version, t: &Term, left: &mut u64) -> Result<Term, Stop> {
        Ok(Evaluation::new(self.alloc, v).whnf(t, left)?.form)
    }

    fn same(&mut self, v: &Version, t: &Term, u: &Term, left: &mut u64) -> Result<bool, Stop> {
        Ok(Evaluation::new(self.alloc, v).same(t, u, left)?.is_some())
    }

    fn normal(&mut self, v: &Version, t: &Term, left: &mut u64) -> Result<Term, Stop> {
        Ok(Evaluation::new(self.alloc, v).normal(t, left)?.form)
    }

    fn open(&mut self, t: Term) -> Result<NodeOf<Term>, NoMemory> {
        Ok(match t {
            Term::Star => NodeOf::Star,
            Term::Kind => NodeOf::Kind,
            Term::Sym(k) => NodeOf::Sym(k),
            Term::Var(k) => NodeOf::Var(k),
            Term::Rvar(k) => NodeOf::Rvar(k),
            Term::App(f, a) => NodeOf::App(Box::into_inner(f), Box::into_inner(a)),
            Term::Abs(annotation, b) => match annotation {
                None => NodeOf::Abs(None, Box::into_inner(b)),
                Some(n) => NodeOf::Abs(Some(Box::into_inner(n)), Box::into_inner(b)),
            },
            Term::Prod(a, b) => NodeOf::Prod(Box::into_inner(a), Box::into_inner(b)),
        })
    }

    fn look(&mut self, t: &Term) -> Result<NodeOf<Term>, NoMemory> {
        let copy = t.copy(self.alloc)?;
        self.open(copy)
    }

    fn build(&mut self, node: NodeOf<Term>) -> Result<Term, NoMemory>
        requires own { OwnsParts owned self.old node }
        ensures makes { IfOk result (Makes owned denoted self.new (built denoted self.old node)) }
        ensures keeps { Keeps owned denoted self.old self.new }
        ensures serves { (S : PlainSignature) → Unit {0} → Unit {0} }
    {
        match node {
            NodeOf::Star => Ok(Term::Star),
            NodeOf::Kind => Ok(Term::Kind),
            NodeOf::Sym(k) => Ok(Term::Sym(k)),
            NodeOf::Var(k) => Ok(Term::Var(k)),
            NodeOf::Rvar(k) => Ok(Term::Rvar(k)),
            NodeOf::App(f, a) => make_app(self.alloc, f, a),
            NodeOf::Abs(annotation, b) => match annotation {
                None => make_bare(self.alloc, b),
                Some(n) => make_annotated(self.alloc, n, b),
            },
            NodeOf::Prod(a, b) => make_product(self.alloc, a, b),
        }
    }

    fn copy(&mut self, t: &Term) -> Result<Term, NoMemory> {
        t.copy(self.alloc)
    }

    fn put_in(&mut self, body: &Term, by: &Term) -> Result<Term, NoMemory> {
        body.substitute(self.alloc, 0, by)
    }

    fn put_all_in(&mut self, body: &Term, terms: &[Term]) -> Result<Term, NoMemory> {
        all_put(self.alloc, 0, terms, body)
    }

    fn as_argument(&mut self, t: &Term, body: &Term) -> Result<Term, NoMemory> {
        if mentions_others(0, 1, &[], body)? {
            t.erased(self.alloc)
        } else {
            Ok(Term::Star)
        }
    }

    fn is_closed(&self, t: &Term) -> bool {
        let _term = t;
        false
    }

    fn shift(&mut self, t: &Term, by: u64) -> Result<Term, NoMemory> {
        t.shift(self.alloc, 0, by)
    }

    fn erase(&mut self, t: &Term) -> Result<Term, NoMemory> {
        t.erased(self.alloc)
    }

    fn mentions_others(
        &mut self,
        t: &Term,
        depth: u64,
        variables: &[u32],
    ) -> Result<bool, NoMemory> {
        mentions_others(0, depth, variables, t)
    }

    fn rename(&mut self, t: &Term, depth: u64, variables: &[u32]) -> Result<Term, NoMemory> {
        renamed(self.alloc, 0, depth, variables, t)
    }

    fn fill(&mut self, t: &Term, terms: &[Option<Term>]) -> Result<Term, NoMemory> {
        filled(self.alloc, terms, 0, t)
    }

    fn may_bind(&mut self, t: &Term, number: u32) -> Result<bool, NoMemory> {
        may_bind(number, t)
    }

    fn bring(&mut self, t: &Stored) -> Result<Term, NoMemory> {
        t.to_term(self.alloc)
    }

    fn load(&mut self, t: &Term) -> Result<Term, NoMemory> {
        t.copy(self.alloc)
    }

    fn send(&self, t: &Term) -> Result<Stored, NoMemory> {
        Stored::from_term(self.alloc, t)
    }
}
