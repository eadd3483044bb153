//! A typing laid out as steps: each is done with all units, and what is left of it is another thread's.
ghost use Rattle.std.specs.Prelude.{◌≡◌, ◌≤◌, ◌++◌, ◌∷◌, [], IfOk, OnOk};
ghost use Rattle.dk_model.specs.Signatures.{PlainSignature};
ghost use Rattle.dk_model.specs.Typing.{answer, as_convertible, as_product, as_star, checked, inferred, sort_of};
ghost use Rattle.dk_model.specs.declared.code.Code.TheVariants.{E21};
ghost use Rattle.signature_log.specs.Versions.{entries_of};
ghost use Rattle.infer_check.specs.Contexts.{OwnsContext, rule_types, bound_types};
ghost use Rattle.infer_check.specs.Given.{GivesFit};
ghost use Rattle.infer_check.specs.Walks.{Follows, IsReady};
ghost use Rattle.split_check.specs.Laying.{GoesOn, LaysFit, LaysProduct, LaysSort, LaysType, Stays};
ghost use Rattle.split_check.specs.Steps.{fault_with, fine_with};

use crate::context::sent_context;
use crate::step::{Part, Step, fault_result};
use dk_model::{Code, NoMemory, NodeOf, TypeFault};
use infer_check::{Compared, Product, Walk, as_convertible, check, infer, into_product, sort_of};
use signature_log::{Reducer, Version};
use split_parts::{PartOut, PartResult};

/// A typing that is being laid out.
#[derive(Drop)]
pub(crate) struct Laying<T> {
    pub(crate) walk: Walk<T>,
    pub(crate) steps: Vec<Step>,
    /// The units that each step may take.
    pub(crate) whole: u64,
    /// From how many nodes on an argument is worth a thread.
    pub(crate) nodes: u64,
    /// Whether this stands in such an argument, beside another one.
    pub(crate) apart: bool,
}

impl<T: Drop> Laying<T> {
    /// From how many nodes on an argument is worth a thread here: it takes the types of all bound variables along.
    pub(crate) fn heavy(&self) -> u64 {
        self.nodes.max(self.walk.context.bound.len() as u64)
    }

    /// A step that has an answer, with so many units left.
    fn fine(&mut self, left: u64) -> Result<(), NoMemory>
        requires { left ≤ self.old.whole }
        ensures grown { OnOk result (self.new.steps.items
            ≡ self.old.steps.items ++ Step.Done (fine_with self.old.whole left) ∷ []) }
        ensures stays { Stays self.old self.new }
    {
        self.steps.push(Step::Done(PartResult {
            out: PartOut::Fine,
            units: self.whole - left,
        }))?;
        Ok(())
    }

    /// A step that has a fault, with so many units left.
    fn fault(&mut self, fault: TypeFault, left: u64) -> Result<(), NoMemory>
        requires { left ≤ self.old.whole }
        ensures grown { OnOk result (self.new.steps.items
            ≡ self.old.steps.items ++ Step.Done (fault_with self.old.whole fault left) ∷ []) }
        ensures told { OnOk result (¬ (fault ≡ TypeFault.NoMemory)) }
        ensures stays { Stays self.old self.new }
    {
        match fault {
            TypeFault::NoMemory => Err(NoMemory),
            fault => {
                let result = fault_result(fault, self.whole, left);
                self.steps.push(Step::Done(result))?;
                Ok(())
            }
        }
    }
}

/// The parts of a type that must be a product; else this code.
#[tactic(auto, using(crate::proofs::Layings::product_goes, crate::proofs::Layings::product_over, signature_log::proofs::Keeping::keeps_further, infer_check::proofs::Walks::follows, infer_check::proofs::Walks::ready))]
pub(crate) fn lay_product<R: Reducer>(
    r: &mut R,
    version: &Version,
    laying: &mut Laying<R::T>,
    code: Code,
    typ: R::T,
) -> Result<Option<Product<R::T>>, NoMemory>
    requires own { R.owns r.old typ }
    requires serves { R.serves (entries_of version.now) r.old }
    ensures lays { IfOk result (LaysProduct R.owns R.denotes (entries_of version.now)
        (as_product (entries_of version.now) code (R.denotes r.old typ))
        laying.old laying.new r.new) }
    ensures stays { Stays laying.old laying.new }
    ensures follows { Follows R.owns R.denotes R.serves (entries_of version.now) r.old r.new }
{
    let mut left = laying.whole;
    match into_product(r, version, code, typ, &mut left) {
        Ok(product) => {
            laying.fine(left)?;
            Ok(Some(product))
        }
        Err(fault) => {
            laying.fault(fault, left)?;
            Ok(None)
        }
    }
}

/// The type of a term, which isn't split.
#[tactic(auto, using(crate::proofs::Layings::type_goes, crate::proofs::Layings::type_over, signature_log::proofs::Keeping::keeps_further, infer_check::proofs::Walks::follows, infer_check::proofs::Walks::ready))]
pub(crate) fn lay_type<R: Reducer>(
    r: &mut R,
    version: &Version,
    laying: &mut Laying<R::T>,
    term: &R::T,
) -> Result<Option<R::T>, NoMemory>
    requires own { R.owns r.old term.now }
    requires ready { IsReady R.owns R.serves (entries_of version.now) r.old laying.old.walk }
    ensures lays { IfOk result (LaysType R.owns R.denotes (entries_of version.now)
        (inferred (entries_of version.now) (rule_types R.denotes r.old laying.old.walk.context)
        (bound_types R.denotes r.old laying.old.walk.context) (R.denotes r.old term.now))
        laying.old laying.new r.new) }
    ensures stays { Stays laying.old laying.new }
    ensures follows { Follows R.owns R.denotes R.serves (entries_of version.now) r.old r.new }
{
    laying.walk.left = laying.whole;
    match infer(r, version, &mut laying.walk, term) {
        Ok(typ) => {
            laying.fine(laying.walk.left)?;
            Ok(Some(typ))
        }
        Err(fault) => {
            laying.fault(fault, laying.walk.left)?;
            Ok(None)
        }
    }
}

/// That a term fits a type; it isn't split.
#[tactic(auto, using(crate::proofs::Layings::fit_goes, crate::proofs::Layings::fit_over, signature_log::proofs::Keeping::keeps_further, infer_check::proofs::Walks::follows, infer_check::proofs::Walks::ready))]
pub(crate) fn lay_fit<R: Reducer>(
    r: &mut R,
    version: &Version,
    laying: &mut Laying<R::T>,
    term: &R::T,
    expected: &R::T,
) -> Result<bool, NoMemory>
    requires own { R.owns r.old term.now }
    requires other { R.owns r.old expected.now }
    requires ready { IsReady R.owns R.serves (entries_of version.now) r.old laying.old.walk }
    ensures lays { IfOk result (LaysFit (entries_of version.now)
        (checked (entries_of version.now) (rule_types R.denotes r.old laying.old.walk.context)
        (bound_types R.denotes r.old laying.old.walk.context) (R.denotes r.old term.now)
        (R.denotes r.old expected.now)) laying.old laying.new) }
    ensures stays { Stays laying.old laying.new }
    ensures follows { Follows R.owns R.denotes R.serves (entries_of version.now) r.old r.new }
{
    laying.walk.left = laying.whole;
    match check(r, version, &mut laying.walk, term, expected) {
        Ok(()) => {
            laying.fine(laying.walk.left)?;
            Ok(true)
        }
        Err(fault) => {
            laying.fault(fault, laying.walk.left)?;
            Ok(false)
        }
    }
}

/// That a type that was found is convertible with the expected one.
#[tactic(auto, using(crate::proofs::Layings::same_goes, crate::proofs::Layings::same_over, signature_log::proofs::Keeping::keeps_further, infer_check::proofs::Walks::follows, infer_check::proofs::Walks::ready))]
pub(crate) fn lay_same<R: Reducer>(
    r: &mut R,
    version: &Version,
    laying: &mut Laying<R::T>,
    found: &R::T,
    expected: &R::T,
) -> Result<bool, NoMemory>
    requires own { R.owns r.old found.now }
    requires other { R.owns r.old expected.now }
    requires serves { R.serves (entries_of version.now) r.old }
    ensures lays { IfOk result (LaysFit (entries_of version.now)
        (as_convertible (entries_of version.now) E21 (R.denotes r.old found.now)
        (R.denotes r.old expected.now)) laying.old laying.new) }
    ensures stays { Stays laying.old laying.new }
    ensures follows { Follows R.owns R.denotes R.serves (entries_of version.now) r.old r.new }
{
    let mut left = laying.whole;
    let compared = Compared {
        code: Code::E21,
        found,
        expected,
    };
    match as_convertible(r, version, compared, &mut left) {
        Ok(()) => {
            laying.fine(left)?;
            Ok(true)
        }
        Err(fault) => {
            laying.fault(fault, left)?;
            Ok(false)
        }
    }
}

/// That the weak head form of a type is `Type` (E22).
fn as_star<R: Reducer>(
    r: &mut R,
    version: &Version,
    typ: &R::T,
    left: &mut u64,
) -> Result<(), TypeFault>
    requires own { R.owns r.old typ.now }
    requires serves { R.serves (entries_of version.now) r.old }
    ensures gives { GivesFit
        (as_star (entries_of version.now) (R.denotes r.old typ.now) left.old) result left.new }
    ensures follows { Follows R.owns R.denotes R.serves (entries_of version.now) r.old r.new }
    ensures spent { left.new ≤ left.old }
{
    let form = r.whnf(version, typ, left)?;
    match r.open(form)? {
        NodeOf::Star => Ok(()),
        _ => Err(TypeFault::Refused(Code::E22)),
    }
}

/// That the type of a type is `Type`.
#[tactic(auto, using(crate::proofs::Layings::star_goes, crate::proofs::Layings::star_over, signature_log::proofs::Keeping::keeps_further, infer_check::proofs::Walks::follows, infer_check::proofs::Walks::ready))]
pub(crate) fn lay_star<R: Reducer>(
    r: &mut R,
    version: &Version,
    laying: &mut Laying<R::T>,
    typ: &R::T,
) -> Result<bool, NoMemory>
    requires own { R.owns r.old typ.now }
    requires serves { R.serves (entries_of version.now) r.old }
    ensures lays { IfOk result (LaysFit (entries_of version.now)
        (as_star (entries_of version.now) (R.denotes r.old typ.now)) laying.old laying.new) }
    ensures stays { Stays laying.old laying.new }
    ensures follows { Follows R.owns R.denotes R.serves (entries_of version.now) r.old r.new }
{
    let mut left = laying.whole;
    match as_star(r, version, typ, &mut left) {
        Ok(()) => {
            laying.fine(left)?;
            Ok(true)
        }
        Err(fault) => {
            laying.fault(fault, left)?;
            Ok(false)
        }
    }
}

/// That a term fits a type is left to another thread.
pub(crate) fn lay_part<R: Reducer>(
    r: &R,
    laying: &mut Laying<R::T>,
    place: u32,
    argument: &R::T,
    domain: &R::T,
) -> Result<(), NoMemory>
    requires own { R.owns r.now argument.now }
    requires other { R.owns r.now domain.now }
    requires context { OwnsContext R.owns r.now laying.old.walk.context }
    ensures lays { OnOk result ((S : PlainSignature) → GoesOn S
        (checked S (rule_types R.denotes r.now laying.old.walk.context)
        (bound_types R.denotes r.now laying.old.walk.context) (R.denotes r.now argument.now)
        (R.denotes r.now domain.now)) (answer tt) laying.old laying.new) }
    ensures stays { Stays laying.old laying.new }
{
    let context = sent_context(r, &laying.walk.context)?;
    let argument = r.send(argument)?;
    let domain = r.send(domain)?;
    laying.steps.push(Step::Check(Part {
        place,
        context,
        argument,
        domain,
    }))?;
    Ok(())
}

/// That a type has a sort.
#[tactic(auto, using(crate::proofs::Layings::sort_goes, crate::proofs::Layings::sort_over, signature_log::proofs::Keeping::keeps_further, infer_check::proofs::Walks::follows, infer_check::proofs::Walks::ready))]
pub(crate) fn lay_sort<R: Reducer>(
    r: &mut R,
    version: &Version,
    laying: &mut Laying<R::T>,
    typ: &R::T,
) -> Result<bool, NoMemory>
    requires own { R.owns r.old typ.now }
    requires ready { IsReady R.owns R.serves (entries_of version.now) r.old laying.old.walk }
    ensures lays { IfOk result (LaysSort (entries_of version.now)
        (sort_of (entries_of version.now) (rule_types R.denotes r.old laying.old.walk.context)
        (bound_types R.denotes r.old laying.old.walk.context) (R.denotes r.old typ.now))
        laying.old laying.new) }
    ensures stays { Stays laying.old laying.new }
    ensures follows { Follows R.owns R.denotes R.serves (entries_of version.now) r.old r.new }
{
    laying.walk.left = laying.whole;
    match sort_of(r, version, &mut laying.walk, typ) {
        Ok(_sort) => {
            laying.fine(laying.walk.left)?;
            Ok(true)
        }
        Err(fault) => {
            laying.fault(fault, laying.walk.left)?;
            Ok(false)
        }
    }
}
