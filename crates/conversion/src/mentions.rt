//! What a term mentions: a variable that isn't bound in it, a rule variable.
ghost use Rattle.std.specs.Prelude.{IfSome, ◌≡◌, ◌<◌, ◌++◌, ◌∷◌, [], IfOk, Some, None, replicate, length};
ghost use Rattle.dk_model.specs.Bindings.{is_closed_at, mentions_rule_variable, may_bind};
ghost use Rattle.shared_term.specs.Pools.{term, Extends};

use dk_model::{NoMemory, NodeOf};
use shared_term::{Pool, TermId};
use std::alloc::Global;

/// Whether the term mentions no variable but those that are bound in it.
fn is_closed(pool: &mut Pool, id: TermId) -> Result<bool, NoMemory>
    requires { id.0 < length pool.old }
    ensures tells { IfOk result (λ b. b ≡ is_closed_at 0 (term pool.old id)) }
    ensures keeps { Extends pool.old pool.new }
{
    // Raised by one, a variable that isn't bound makes another term.
    let raised = pool.shift(id, 0, 1)?;
    Ok(pool.same(raised, id))
}

/// A term that is deeper than this isn't looked through as a tree.
const SHALLOW: u32 = 8;

/// Whether the rule variable stands in the term; nothing of a term that is deeper.
fn stands_near(pool: &Pool, id: TermId, number: u32, depth: u32) -> Option<bool>
    requires { id.0 < length pool.now }
    ensures { IfSome result (λ b. b ≡ mentions_rule_variable number (term pool.now id)) }
{
    if depth == 0 {
        return None;
    }
    let (first, second) = match pool.get(id) {
        NodeOf::Rvar(k) => return Some(k == number),
        NodeOf::App(f, a) => (f, a),
        NodeOf::Abs(Some(n), b) => (n, b),
        NodeOf::Prod(a, b) => (a, b),
        NodeOf::Abs(None, b) => return stands_near(pool, b, number, depth - 1),
        _ => return Some(false),
    };
    match stands_near(pool, first, number, depth - 1) {
        Some(false) => stands_near(pool, second, number, depth - 1),
        Some(true) => Some(true),
        None => None,
    }
}

/// A term for this rule variable alone.
fn only(alloc: Global, number: u32, term: TermId) -> Result<Vec<Option<TermId>>, NoMemory>
    ensures { IfOk result (λ terms. terms.items ≡ replicate number None ++ Some term ∷ []) }
{
    let mut terms = vec![in alloc; None; number as usize]?;
    terms.push(Some(term))?;
    Ok(terms)
}

/// Whether the rule variable stands in the term.
#[tactic(auto, using(crate::proofs::Winding::extends_more, crate::proofs::Raising::only_within, crate::proofs::Raising::only_tells))]
fn mentions(alloc: Global, pool: &mut Pool, id: TermId, number: u32) -> Result<bool, NoMemory>
    requires { id.0 < length pool.old }
    ensures tells { IfOk result (λ b. b ≡ mentions_rule_variable number (term pool.old id)) }
    ensures keeps { Extends pool.old pool.new }
{
    if let Some(found) = stands_near(pool, id, number, SHALLOW) {
        return Ok(found);
    }
    // With `Type` in its place it makes another term.
    let star = pool.intern(NodeOf::Star)?;
    let terms = only(alloc, number, star)?;
    let filled = pool.filled(id, terms.as_slice())?;
    Ok(!pool.same(filled, id))
}

/// Whether a rule variable may be bound to the term.
#[tactic(auto, using(crate::proofs::Winding::extends_more))]
pub(crate) fn may_bind(
    alloc: Global,
    pool: &mut Pool,
    id: TermId,
    number: u32,
) -> Result<bool, NoMemory>
    requires { id.0 < length pool.old }
    ensures tells { IfOk result (λ b. b ≡ may_bind number (term pool.old id)) }
    ensures keeps { Extends pool.old pool.new }
{
    if !is_closed(pool, id)? {
        return Ok(false);
    }
    Ok(!mentions(alloc, pool, id, number)?)
}
