//! The comparison of two terms, by a stack of steps.
ghost use Rattle.std.specs.Prelude.{◌≡◌, ◌≤◌, ◌<◌, ◌+◌, [], ◌∷◌, ◌++◌, false, length, OnOk, IfOk, if◌then◌else◌};
ghost use Rattle.dk_model.specs.Spines.{pairs_of};
ghost use Rattle.shared_term.specs.Pools.{term, terms, denoted, IsWithin, Extends};
ghost use Rattle.signature_log.specs.Versions.{entries_of};
ghost use Rattle.conversion.specs.Machine.{is_application};
ghost use Rattle.conversion.specs.declared.compare.HeadPairs.TheVariants.{Alike, Differ};
ghost use Rattle.conversion.specs.Pending.{AreHeads, head_pairs, TakesApart, IsLook, look_made, look_due, look_rank, IsUnderWay, Meets, GivesCompared, asks_rank};
ghost use Rattle.conversion.specs.declared.compare.Step.TheVariants.{Conclude};
ghost use Rattle.conversion.specs.Reducers.{Serves};
ghost use Rattle.conversion.specs.Clauses.{Compares};

use crate::PoolReducer;
use crate::state::Answer;
use dk_model::{NoMemory, NodeOf, Stop};
use shared_term::{Node, Pool, TermId};
use signature_log::Version;

/// What a comparison has still to do.
#[derive(Clone, Copy)]
pub(crate) enum Step {
    /// To compare two terms.
    Pair(TermId, TermId),
    /// To conclude that two terms are alike where the parts above them were, or that they aren't. There were so many
    /// units before.
    Conclude(TermId, TermId, u64),
}

/// The parts of two weak head forms that are no applications.
#[derive(Clone, Copy)]
pub(crate) enum HeadPairs {
    /// They are not alike.
    Differ,
    /// They are alike, and have no parts.
    Alike,
    /// The bodies of two abstractions.
    Bodies(TermId, TermId),
    /// The domain and the codomain of a product, then those of another.
    Products(TermId, TermId, TermId, TermId),
}

/// Two terms that are compared by their weak head forms.
#[derive(Clone, Copy)]
pub(crate) struct OpenPair {
    pub(crate) first: TermId,
    pub(crate) second: TermId,
    /// The units that there were before.
    pub(crate) before: u64,
}

/// What a comparison does next.
#[derive(Clone, Copy)]
pub(crate) enum Look {
    /// It compares two terms.
    At(TermId, TermId),
    /// It goes on behind a pair that is alike, or isn't.
    Behind(bool),
}

/// How far a pair was compared.
#[derive(Clone, Copy)]
enum Met {
    /// It is told, for the units that are taken.
    AtOnce(bool),
    /// Its weak head forms are to be compared.
    Opens,
}

/// What a comparison comes to, or waits for.
#[derive(Clone, Copy)]
pub(crate) enum Compared {
    Told(bool),
    /// The weak head forms of a pair.
    Asks(OpenPair),
}

impl PoolReducer {
    /// Whether the two are convertible, as evaluation over the version finds it (docs/evaluation.md).
    ///
    /// Each pair that is compared takes a unit, and each weak head form those that it takes. `Ended` comes only where they
    /// don't suffice, and leaves none. The answer for each pair is remembered.
    #[tactic(auto, using(crate::proofs::Winding::extends_none, crate::proofs::Winding::extends_more))]
    pub(crate) fn compare(
        &mut self,
        version: &Version,
        t: TermId,
        u: TermId,
        left: &mut u64,
    ) -> Result<bool, Stop>
        requires t { t.0 < length self.old.pool }
        requires u { u.0 < length self.old.pool }
        requires serves { Serves (entries_of version.now) self.old }
        ensures gives { Compares version.now self.old t u left.old result left.new }
        ensures keeps { Extends self.old.pool self.new.pool }
        ensures serves { Serves (entries_of version.now) self.new }
        ensures spent { left.new ≤ left.old }
    {
        let mut work = Vec::new(self.alloc);
        let mut look = Look::At(t, u);
        loop {
            match self.compare_on(version, look, &mut work, left)? {
                Compared::Told(alike) => return Ok(alike),
                Compared::Asks(pair) => {
                    let x = self.evaluate(version, pair.first, left)?;
                    let y = self.evaluate(version, pair.second, left)?;
                    let alike = pair_parts(&self.pool, pair, x, y, &mut work)?;
                    look = Look::Behind(alike);
                }
            }
        }
    }

    /// Goes on with a comparison, up to the weak head forms that it asks for.
    #[tactic(auto, using(crate::proofs::Winding::extends_none, crate::proofs::Winding::extends_more))]
    pub(crate) fn compare_on(
        &mut self,
        version: &Version,
        look: Look,
        work: &mut Vec<Step>,
        left: &mut u64,
    ) -> Result<Compared, Stop>
        requires look { IsLook (length self.old.pool) look }
        requires open { IsUnderWay (entries_of version.now) self.old.pool
            (look_due (entries_of version.now) self.old.pool look left.old work.old.items)
            (look_made (entries_of version.now) self.old.pool look left.old) left.old
            work.old.items }
        requires serves { Serves (entries_of version.now) self.old }
        ensures gives { GivesCompared (entries_of version.now)
            (look_due (entries_of version.now) self.old.pool look left.old work.old.items)
            self.new.pool result work.new.items left.new }
        ensures keeps { Extends self.old.pool self.new.pool }
        ensures serves { Serves (entries_of version.now) self.new }
        ensures spent { left.new ≤ left.old }
        ensures turned { OnOk result (left.new < left.old + look_rank look) }
        ensures asked { IfOk result (λ c. left.new + asks_rank c ≤ left.old) }
    {
        let mut look = look;
        loop {
            match look {
                Look::At(first, second) => {
                    let before = *left;
                    match self.meet(version, first, second, left)? {
                        Met::AtOnce(alike) => look = Look::Behind(alike),
                        Met::Opens => return Ok(Compared::Asks(OpenPair {
                            first,
                            second,
                            before,
                        })),
                    }
                }
                Look::Behind(alike) => match work.pop() {
                    None => return Ok(Compared::Told(alike)),
                    Some(Step::Pair(first, second)) => {
                        if alike {
                            look = Look::At(first, second);
                        }
                    }
                    Some(Step::Conclude(first, second, before)) => {
                        let units = before - *left;
                        let answer = Answer { alike, units };
                        self.answers.put(first.number(), second.number(), answer);
                    }
                },
            }
        }
    }

    /// The comparison of a pair, where it is told at once: equal terms, and those that are remembered. It takes a unit at least.
    fn meet(&mut self, version: &Version, t: TermId, u: TermId, left: &mut u64) -> Result<Met, Stop>
        requires t { t.0 < length self.old.pool }
        requires u { u.0 < length self.old.pool }
        requires serves { Serves (entries_of version.now) self.old }
        ensures gives { Meets (entries_of version.now) self.old.pool t u left.old result left.new }
        ensures same { self.new ≡ self.old }
        ensures spent { left.new ≤ left.old }
        ensures turned { OnOk result (left.new < left.old) }
    {
        let _version = version;
        if *left == 0 {
            return Err(Stop::Ended);
        }
        if self.pool.same(t, u) {
            *left -= 1;
            return Ok(Met::AtOnce(true));
        }
        match self.answers.find(t.number(), u.number()) {
            Some(found) => {
                if *left < found.units {
                    *left = 0;
                    return Err(Stop::Ended);
                }
                *left -= found.units;
                Ok(Met::AtOnce(found.alike))
            }
            None => {
                *left -= 1;
                Ok(Met::Opens)
            }
        }
    }
}

/// The parts of a pair's weak head forms go onto the stack, on what is to be concluded of the pair; false where their heads
/// differ.
pub(crate) fn pair_parts(
    pool: &Pool,
    pair: OpenPair,
    x: TermId,
    y: TermId,
    work: &mut Vec<Step>,
) -> Result<bool, NoMemory>
    requires x { x.0 < length pool.now }
    requires y { y.0 < length pool.now }
    ensures { IfOk result (λ alike. TakesApart pool.now (term pool.now x) (term pool.now y)
        (work.old.items ++ Conclude pair.first pair.second pair.before ∷ []) alike work.new.items) }
{
    push_step(work, Step::Conclude(pair.first, pair.second, pair.before))?;
    parts(pool, x, y, work)
}

/// Puts a step on the stack.
fn push_step(work: &mut Vec<Step>, step: Step) -> Result<(), NoMemory>
    ensures { OnOk result (work.new.items ≡ work.old.items ++ step ∷ []) }
{
    work.push(step)?;
    Ok(())
}

/// Puts the parts of two weak head forms on the stack, the first one on top; false where their heads differ.
fn parts(pool: &Pool, t: TermId, u: TermId, work: &mut Vec<Step>) -> Result<bool, NoMemory>
    requires t { t.0 < length pool.now }
    requires u { u.0 < length pool.now }
    ensures { IfOk result
        (λ alike. TakesApart pool.now (term pool.now t) (term pool.now u) work.old.items alike
        work.new.items) }
{
    let mut t = t;
    let mut u = u;
    loop {
        match pool.get(t) {
            NodeOf::App(f, a) => match pool.get(u) {
                NodeOf::App(g, b) => {
                    work.push(Step::Pair(a, b))?;
                    t = f;
                    u = g;
                }
                _ => return Ok(false),
            },
            head => match pair_heads(pool, head, pool.get(u)) {
                HeadPairs::Differ => return Ok(false),
                HeadPairs::Alike => return Ok(true),
                HeadPairs::Bodies(b, c) => {
                    work.push(Step::Pair(b, c))?;
                    return Ok(true);
                }
                HeadPairs::Products(a, b, c, d) => {
                    work.push(Step::Pair(b, d))?;
                    work.push(Step::Pair(a, c))?;
                    return Ok(true);
                }
            },
        }
    }
}

/// The parts of two nodes, of which the first is no application.
fn pair_heads(pool: &Pool, t: Node, u: Node) -> HeadPairs
    requires t { IsWithin (length pool.now) t }
    requires u { IsWithin (length pool.now) u }
    requires head { is_application (denoted (terms pool.now) t) ≡ false }
    ensures pairs { pairs_of (denoted (terms pool.now) t) (denoted (terms pool.now) u)
        ≡ head_pairs pool.now result }
    ensures within { AreHeads (length pool.now) result }
{
    let _pool = pool;
    match (t, u) {
        (NodeOf::Star, NodeOf::Star) => HeadPairs::Alike,
        (NodeOf::Kind, NodeOf::Kind) => HeadPairs::Alike,
        (NodeOf::Sym(a), NodeOf::Sym(b)) => alike_if(a == b),
        (NodeOf::Var(a), NodeOf::Var(b)) => alike_if(a == b),
        (NodeOf::Rvar(a), NodeOf::Rvar(b)) => alike_if(a == b),
        (NodeOf::Abs(None, b), NodeOf::Abs(None, c)) => HeadPairs::Bodies(b, c),
        (NodeOf::Prod(a, b), NodeOf::Prod(c, d)) => HeadPairs::Products(a, b, c, d),
        _ => HeadPairs::Differ,
    }
}

/// HeadPairs without parts.
fn alike_if(alike: bool) -> HeadPairs
    ensures { result ≡ (if alike then Alike else Differ) }
{
    if alike {
        HeadPairs::Alike
    } else {
        HeadPairs::Differ
    }
}
