//! The types of a context as another thread takes them.
ghost use Rattle.std.specs.Prelude.{◌≡◌, IfOk, map};
ghost use Rattle.dk_model.specs.Signatures.{PlainSignature};
ghost use Rattle.shared_term.specs.Storage.{stored_term};
ghost use Rattle.signature_log.specs.Reducers.{AreOwned, Keeps};
ghost use Rattle.infer_check.specs.Contexts.{OwnsContext, rule_types, bound_types};
ghost use Rattle.split_check.specs.Steps.{sent_rule_types, sent_bound_types};

use dk_model::{Listed, NoMemory};
use infer_check::Context;
use shared_term::Stored;
use signature_log::Reducer;

/// Terms as entries keep them.
fn sent<R: Reducer>(r: &R, terms: &Listed<R::T>) -> Result<Listed<Stored>, NoMemory>
    requires { AreOwned R.owns r.now terms.now }
    ensures { IfOk result (λ l. map stored_term l ≡ map (R.denotes r.now) terms.now) }
{
    let mut made = Listed::new(r.alloc());
    let mut rest = terms.as_slice();
    while let Some((term, others)) = rest.split_first() {
        made.push(r.send(term)?)?;
        rest = others;
    }
    Ok(made)
}

/// Such terms as the reducer's own.
#[tactic(auto, using(crate::proofs::Sending::next_brought, infer_check::proofs::Contexts::owned_pushed, infer_check::proofs::Contexts::owned_kept, signature_log::proofs::Keeping::keeps_further))]
fn brought<R: Reducer>(r: &mut R, terms: &Listed<Stored>) -> Result<Listed<R::T>, NoMemory>
    ensures own { IfOk result (AreOwned R.owns r.new) }
    ensures same { IfOk result (λ l. map (R.denotes r.new) l ≡ map stored_term terms.now) }
    ensures keeps { Keeps R.owns R.denotes r.old r.new }
    ensures serves { (S : PlainSignature) → R.serves S r.old → R.serves S r.new }
{
    let mut made = Listed::new(r.alloc());
    let mut rest = terms.as_slice();
    while let Some((term, others)) = rest.split_first() {
        made.push(r.bring(term)?)?;
        rest = others;
    }
    Ok(made)
}

/// The types of a context as entries keep them.
#[tactic(auto, using(crate::proofs::Sending::rule_types_sent, crate::proofs::Sending::bound_types_sent))]
pub(crate) fn sent_context<R: Reducer>(
    r: &R,
    context: &Context<R::T>,
) -> Result<Context<Stored>, NoMemory>
    requires { OwnsContext R.owns r.now context.now }
    ensures rule_vars { IfOk result (λ c.
        sent_rule_types c ≡ rule_types R.denotes r.now context.now) }
    ensures bound { IfOk result (λ c.
        sent_bound_types c ≡ bound_types R.denotes r.now context.now) }
{
    let rule_vars = sent(r, &context.rule_vars)?;
    let bound = sent(r, &context.bound)?;
    Ok(Context { rule_vars, bound })
}

/// The context with such types, as the reducer's own.
#[tactic(auto, using(crate::proofs::Sending::rule_types_brought, crate::proofs::Sending::bound_types_brought, infer_check::proofs::Contexts::owned_kept, signature_log::proofs::Keeping::keeps_further))]
pub(crate) fn brought_context<R: Reducer>(
    r: &mut R,
    context: &Context<Stored>,
) -> Result<Context<R::T>, NoMemory>
    ensures own { IfOk result (OwnsContext R.owns r.new) }
    ensures rule_vars { IfOk result (λ c.
        rule_types R.denotes r.new c ≡ sent_rule_types context.now) }
    ensures bound { IfOk result (λ c.
        bound_types R.denotes r.new c ≡ sent_bound_types context.now) }
    ensures keeps { Keeps R.owns R.denotes r.old r.new }
    ensures serves { (S : PlainSignature) → R.serves S r.old → R.serves S r.new }
{
    let rule_vars = brought(r, &context.rule_vars)?;
    let bound = brought(r, &context.bound)?;
    Ok(Context { rule_vars, bound })
}
