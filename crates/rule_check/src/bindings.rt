//! What rule variables are bound to while a left side is typed, and terms under these bindings.
ghost use Rattle.std.specs.Prelude.{◌≡◌, ◌≤◌, ◌<◌, IfOk, OnOk, IsTrue, length};
ghost use Rattle.dk_model.specs.Signatures.{PlainSignature, maybe_by};
ghost use Rattle.dk_model.specs.Captures.{capture_at};
ghost use Rattle.dk_model.specs.Bindings.{under};
ghost use Rattle.dk_model.specs.Typing.{as_product};
ghost use Rattle.dk_model.specs.declared.code.Code.TheVariants.{E34};
ghost use Rattle.signature_log.specs.Versions.{entries_of};
ghost use Rattle.signature_log.specs.Reducers.{Keeps, Makes, OwnsSome, OwnsSomes};
ghost use Rattle.infer_check.specs.Given.{GivesProduct};
ghost use Rattle.infer_check.specs.Walks.{Follows};
ghost use Rattle.rule_check.specs.Founds.{types_of, terms_of, AreClosed, OwnsBindings};
ghost use Rattle.rule_check.specs.Levels.{put_into, put_into_each};
ghost use Rattle.rule_check.specs.Bindings.{with_term, IsSomeUnder, ArePut, IsStill, HasRoom, MayBind, IsBound};

use crate::found::Bindings;
use crate::levels::{join, place, small_level};
use crate::mentioned::{is_mentioned, note};
use dk_model::{Code, NoMemory, TypeFault};
use infer_check::{Product, into_product};
use signature_log::{Reducer, Version};

/// A term with each bound rule variable replaced.
pub(crate) fn under<R: Reducer>(
    r: &mut R,
    bindings: &Bindings<R::T>,
    term: R::T,
) -> Result<R::T, NoMemory>
    requires own { R.owns r.old term }
    requires bindings { OwnsBindings R.owns R.denotes r.old bindings.now }
    ensures makes { IfOk result (Makes R.owns R.denotes r.new
        (under (terms_of R.denotes r.old bindings.now) (R.denotes r.old term))) }
    ensures keeps { Keeps R.owns R.denotes r.old r.new }
    ensures serves { (S : PlainSignature) → R.serves S r.old → R.serves S r.new }
{
    let mut term = term;
    for _ in 0..bindings.levels.len() {
        term = r.fill(&term, bindings.terms.as_slice())?;
    }
    Ok(term)
}

/// The same of a term that is needed again.
pub(crate) fn copy_under<R: Reducer>(
    r: &mut R,
    bindings: &Bindings<R::T>,
    term: &R::T,
) -> Result<R::T, NoMemory>
    requires own { R.owns r.old term.now }
    requires bindings { OwnsBindings R.owns R.denotes r.old bindings.now }
    ensures makes { IfOk result (Makes R.owns R.denotes r.new
        (under (terms_of R.denotes r.old bindings.now) (R.denotes r.old term.now))) }
    ensures keeps { Keeps R.owns R.denotes r.old r.new }
    ensures serves { (S : PlainSignature) → R.serves S r.old → R.serves S r.new }
{
    let copy = r.copy(term)?;
    under(r, bindings, copy)
}

/// What others are bound to, put into a term that is bound, if one is.
fn some_under<R: Reducer>(
    r: &mut R,
    terms: &[Option<R::T>],
    term: &Option<R::T>,
) -> Result<Option<R::T>, NoMemory>
    requires own { OwnsSome R.owns r.old term.now }
    requires terms { OwnsSomes R.owns r.old terms.now }
    requires closed { AreClosed (types_of R.denotes r.old terms.now) }
    ensures under { IfOk result
        (IsSomeUnder R.owns R.denotes r.old terms.now (maybe_by (R.denotes r.old) term.now) r.new) }
    ensures keeps { Keeps R.owns R.denotes r.old r.new }
    ensures serves { (S : PlainSignature) → R.serves S r.old → R.serves S r.new }
{
    match term {
        Some(term) => Ok(Some(r.fill(term, terms)?)),
        None => Ok(None),
    }
}

/// The same of what a rule variable is bound to.
fn bound_under<R: Reducer>(
    r: &mut R,
    terms: &[Option<R::T>],
    number: u32,
) -> Result<Option<R::T>, NoMemory>
    requires terms { OwnsSomes R.owns r.old terms.now }
    requires closed { AreClosed (types_of R.denotes r.old terms.now) }
    ensures under { IfOk result (IsSomeUnder R.owns R.denotes r.old terms.now
        (capture_at (types_of R.denotes r.old terms.now) number) r.new) }
    ensures keeps { Keeps R.owns R.denotes r.old r.new }
    ensures serves { (S : PlainSignature) → R.serves S r.old → R.serves S r.new }
{
    match terms.get(number as usize) {
        Some(term) => some_under(r, terms, term),
        None => Ok(None),
    }
}

/// Puts a term at a place, behind places without one.
fn put<T: Drop>(terms: &mut Vec<Option<T>>, number: u32, term: T) -> Result<(), NoMemory>
    ensures { OnOk result (terms.new.items ≡ with_term terms.old.items number term) }
{
    let place = number as usize;
    while terms.len() <= place {
        terms.push(None)?;
    }
    terms[place] = Some(term);
    Ok(())
}

/// Puts what others are bound to into what a rule variable is bound to.
fn put_into<R: Reducer>(
    r: &mut R,
    terms: &mut Vec<Option<R::T>>,
    number: u32,
) -> Result<(), NoMemory>
    requires terms { OwnsSomes R.owns r.old terms.old.items }
    requires closed { AreClosed (types_of R.denotes r.old terms.old.items) }
    ensures put { OnOk result (ArePut R.owns R.denotes
        (put_into (types_of R.denotes r.old terms.old.items) number) r.new terms.new.items) }
    ensures keeps { Keeps R.owns R.denotes r.old r.new }
    ensures serves { (S : PlainSignature) → R.serves S r.old → R.serves S r.new }
{
    match bound_under(r, terms.as_slice(), number)? {
        Some(term) => put(terms, number, term),
        None => Ok(()),
    }
}

/// The same for each of these.
fn put_into_each<R: Reducer>(
    r: &mut R,
    terms: &mut Vec<Option<R::T>>,
    numbers: &[u32],
) -> Result<(), NoMemory>
    requires terms { OwnsSomes R.owns r.old terms.old.items }
    requires closed { AreClosed (types_of R.denotes r.old terms.old.items) }
    ensures put { OnOk result (ArePut R.owns R.denotes
        (put_into_each (types_of R.denotes r.old terms.old.items) numbers.now) r.new
        terms.new.items) }
    ensures keeps { Keeps R.owns R.denotes r.old r.new }
    ensures serves { (S : PlainSignature) → R.serves S r.old → R.serves S r.new }
{
    let mut rest = numbers;
    while let Some((first, others)) = rest.split_first() {
        put_into(r, terms, *first)?;
        rest = others;
    }
    Ok(())
}

/// Joins the last two levels, where the one before the last isn't twice as large. Answers whether it did.
fn join_last<R: Reducer>(r: &mut R, bindings: &mut Bindings<R::T>) -> Result<bool, NoMemory>
    requires { OwnsBindings R.owns R.denotes r.old bindings.old }
    ensures still { OnOk result
        (IsStill R.owns R.denotes r.old bindings.old r.new bindings.new) }
    ensures fewer { IfOk result (λ b. IsTrue b
        → length bindings.new.levels.items < length bindings.old.levels.items) }
    ensures keeps { Keeps R.owns R.denotes r.old r.new }
    ensures serves { (S : PlainSignature) → R.serves S r.old → R.serves S r.new }
{
    match small_level(bindings.levels.as_slice()) {
        Some(level) => put_into_each(r, &mut bindings.terms, level)?,
        None => return Ok(false),
    }
    join(r.alloc(), &mut bindings.levels)?;
    Ok(true)
}

/// Joins the last levels until each is at least twice as large as the one behind it.
fn join_levels<R: Reducer>(r: &mut R, bindings: &mut Bindings<R::T>) -> Result<(), NoMemory>
    requires { OwnsBindings R.owns R.denotes r.old bindings.old }
    ensures still { OnOk result
        (IsStill R.owns R.denotes r.old bindings.old r.new bindings.new) }
    ensures keeps { Keeps R.owns R.denotes r.old r.new }
    ensures serves { (S : PlainSignature) → R.serves S r.old → R.serves S r.new }
{
    loop {
        if !join_last(r, bindings)? {
            return Ok(());
        }
    }
}

/// Begins a level where the rule variable may stand in what another is bound to.
///
/// The last levels are joined before, so that there are few, and what is in a level is gone through few times.
fn make_room<R: Reducer>(
    r: &mut R,
    bindings: &mut Bindings<R::T>,
    number: u32,
) -> Result<(), NoMemory>
    requires { OwnsBindings R.owns R.denotes r.old bindings.old }
    ensures room { OnOk result
        (HasRoom R.owns R.denotes r.old bindings.old number r.new bindings.new) }
    ensures keeps { Keeps R.owns R.denotes r.old r.new }
    ensures serves { (S : PlainSignature) → R.serves S r.old → R.serves S r.new }
{
    if is_mentioned(r, &bindings.mentioned, number)? {
        join_levels(r, bindings)?;
        bindings.levels.push(Vec::new(r.alloc()))?;
    }
    Ok(())
}

/// Binds a further rule variable: it is replaced in what the others are bound to.
pub(crate) fn bind<R: Reducer>(
    r: &mut R,
    bindings: &mut Bindings<R::T>,
    number: u32,
    term: R::T,
) -> Result<(), NoMemory>
    requires term { MayBind R.owns R.denotes r.old bindings.old number term }
    requires bindings { OwnsBindings R.owns R.denotes r.old bindings.old }
    ensures bound { OnOk result
        (IsBound R.owns R.denotes r.old bindings.old number term r.new bindings.new) }
    ensures keeps { Keeps R.owns R.denotes r.old r.new }
    ensures serves { (S : PlainSignature) → R.serves S r.old → R.serves S r.new }
{
    make_room(r, bindings, number)?;
    place(r.alloc(), &mut bindings.levels, number)?;
    note(r, &mut bindings.mentioned, &term)?;
    put(&mut bindings.terms, number, term)
}

/// The parts of a type under the bindings, which must be a product (E34).
#[tactic(auto, using(signature_log::proofs::Keeping::keeps_further, infer_check::proofs::Walks::follows))]
pub(crate) fn as_product_under<R: Reducer>(
    r: &mut R,
    version: &Version,
    bindings: &Bindings<R::T>,
    typ: &R::T,
    left: &mut u64,
) -> Result<Product<R::T>, TypeFault>
    requires own { R.owns r.old typ.now }
    requires bindings { OwnsBindings R.owns R.denotes r.old bindings.now }
    requires serves { R.serves (entries_of version.now) r.old }
    ensures gives { GivesProduct R.owns R.denotes (as_product (entries_of version.now) E34
        (under (terms_of R.denotes r.old bindings.now) (R.denotes r.old typ.now)) left.old)
        r.new result left.new }
    ensures follows { Follows R.owns R.denotes R.serves (entries_of version.now) r.old r.new }
    ensures spent { left.new ≤ left.old }
{
    let typ = copy_under(r, bindings, typ)?;
    into_product(r, version, Code::E34, typ, left)
}

/// The same of a type that isn't needed any more.
#[tactic(auto, using(signature_log::proofs::Keeping::keeps_further, infer_check::proofs::Walks::follows))]
pub(crate) fn into_product_under<R: Reducer>(
    r: &mut R,
    version: &Version,
    bindings: &Bindings<R::T>,
    typ: R::T,
    left: &mut u64,
) -> Result<Product<R::T>, TypeFault>
    requires own { R.owns r.old typ }
    requires bindings { OwnsBindings R.owns R.denotes r.old bindings.now }
    requires serves { R.serves (entries_of version.now) r.old }
    ensures gives { GivesProduct R.owns R.denotes (as_product (entries_of version.now) E34
        (under (terms_of R.denotes r.old bindings.now) (R.denotes r.old typ)) left.old)
        r.new result left.new }
    ensures follows { Follows R.owns R.denotes R.serves (entries_of version.now) r.old r.new }
    ensures spent { left.new ≤ left.old }
{
    let typ = under(r, bindings, typ)?;
    into_product(r, version, Code::E34, typ, left)
}
