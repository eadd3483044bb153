//! The equation of two types, which is solved by binding rule variables.
ghost use Rattle.std.specs.Prelude.{◌≡◌, ◌≤◌, ◌<◌, ◌++◌, ◌∷◌, [], IfOk, OnOk, false};
ghost use Rattle.dk_model.specs.Signatures.{PlainSignature};
ghost use Rattle.dk_model.specs.Shapes.{is_definable};
ghost use Rattle.dk_model.specs.Spines.{head};
ghost use Rattle.dk_model.specs.Solving.{binder_of, equation_of, is_rigid_head, solved};
ghost use Rattle.signature_log.specs.Versions.{entries_of};
ghost use Rattle.signature_log.specs.Reducers.{Keeps, OwnsParts, built};
ghost use Rattle.infer_check.specs.Spine.{is_application};
ghost use Rattle.infer_check.specs.Walks.{Follows, Continues};
ghost use Rattle.rule_check.specs.Founds.{terms_of, OwnsBindings, IsRebound};
ghost use Rattle.rule_check.specs.Given.{GivesBindings};
ghost use Rattle.rule_check.specs.Equations.{pending, divided, set_apart, same_due, heads_due, OwnsEquation, OwnsEquations, AreBothUnder, AreBothFree, GivesSame, GivesPair, Divides, StepsTo, GivesEquations};

use crate::bindings::{bind, under};
use crate::found::{Bindings, LeftWalk};
use dk_model::{Code, Entry, NoMemory, NodeOf, SymSort, TypeFault};
use signature_log::{Reducer, Version};

/// Two terms that are taken to be equal.
#[derive(Drop)]
pub(crate) struct Equation<T> {
    pub(crate) one: T,
    pub(crate) other: T,
}

/// Whether the symbol was declared by `def`.
pub fn is_definable(version: &Version, symbol: u32) -> bool
    ensures { result ≡ is_definable (entries_of version.now) symbol }
{
    match version.get(symbol) {
        Some(Entry::Symbol { sort, .. }) => match sort {
            SymSort::Definable => true,
            SymSort::Static => false,
            SymSort::Theorem => false,
        },
        _ => false,
    }
}

fn push<T: Drop>(equations: &mut Vec<Equation<T>>, equation: Equation<T>) -> Result<(), NoMemory>
    ensures { OnOk result (equations.new.items ≡ equations.old.items ++ equation ∷ []) }
{
    equations.push(equation)?;
    Ok(())
}

fn append<T: Drop>(
    equations: &mut Vec<Equation<T>>,
    others: Vec<Equation<T>>,
) -> Result<(), NoMemory>
    ensures { OnOk result (equations.new.items ≡ equations.old.items ++ others.items) }
{
    let mut others = others;
    equations.append(&mut others)?;
    Ok(())
}

/// Solves an equation: where its sides aren't convertible under the bindings, rule variables are bound, or the parts of both
/// sides are solved, or it is dropped.
pub(crate) fn solve<R: Reducer>(
    r: &mut R,
    version: &Version,
    bindings: &mut Bindings<R::T>,
    equation: Equation<R::T>,
    left: &mut u64,
) -> Result<(), TypeFault>
    requires own { OwnsEquation R.owns r.old equation }
    requires bindings { OwnsBindings R.owns R.denotes r.old bindings.old }
    requires serves { R.serves (entries_of version.now) r.old }
    ensures gives { GivesBindings R.owns R.denotes (solved (entries_of version.now)
        (terms_of R.denotes r.old bindings.old) (R.denotes r.old equation.one)
        (R.denotes r.old equation.other) left.old) r.new bindings.new result left.new }
    ensures follows { Follows R.owns R.denotes R.serves (entries_of version.now) r.old r.new }
    ensures spent { left.new ≤ left.old }
{
    let mut pending = solve_one(r, version, bindings, equation, left)?;
    while let Some(equation) = pending.pop() {
        let parts = solve_one(r, version, bindings, equation, left)?;
        append(&mut pending, parts)?;
    }
    Ok(())
}

/// The equations that are left of one, the first one last.
fn solve_one<R: Reducer>(
    r: &mut R,
    version: &Version,
    bindings: &mut Bindings<R::T>,
    equation: Equation<R::T>,
    left: &mut u64,
) -> Result<Vec<Equation<R::T>>, TypeFault>
    requires own { OwnsEquation R.owns r.old equation }
    requires bindings { OwnsBindings R.owns R.denotes r.old bindings.old }
    requires serves { R.serves (entries_of version.now) r.old }
    ensures gives { GivesEquations R.owns R.denotes (entries_of version.now)
        (solved (entries_of version.now)
        (terms_of R.denotes r.old bindings.old) (R.denotes r.old equation.one)
        (R.denotes r.old equation.other) left.old) r.new bindings.new result left.new }
    ensures follows { Follows R.owns R.denotes R.serves (entries_of version.now) r.old r.new }
    ensures fewer { OnOk result (left.new < left.old) }
    ensures spent { left.new ≤ left.old }
{
    let equation = both_under(r, bindings, equation)?;
    if is_same(r, version, &equation, left)? {
        return Ok(Vec::new(r.alloc()));
    }
    let equation = heads(r, version, bindings, equation, left)?;
    step(r, version, bindings, equation)
}

/// Whether both sides are convertible.
#[tactic(auto, using(infer_check::proofs::Walks::follows))]
fn is_same<R: Reducer>(
    r: &mut R,
    version: &Version,
    equation: &Equation<R::T>,
    left: &mut u64,
) -> Result<bool, TypeFault>
    requires own { OwnsEquation R.owns r.old equation.now }
    requires serves { R.serves (entries_of version.now) r.old }
    ensures gives { GivesSame (same_due (entries_of version.now)
        (R.denotes r.old equation.now.one) (R.denotes r.old equation.now.other) left.old)
        result left.new }
    ensures follows { Follows R.owns R.denotes R.serves (entries_of version.now) r.old r.new }
    ensures spent { left.new ≤ left.old }
{
    let same = r.same(version, &equation.one, &equation.other, left)?;
    Ok(same)
}

/// Both sides under the bindings.
fn both_under<R: Reducer>(
    r: &mut R,
    bindings: &Bindings<R::T>,
    equation: Equation<R::T>,
) -> Result<Equation<R::T>, NoMemory>
    requires own { OwnsEquation R.owns r.old equation }
    requires bindings { OwnsBindings R.owns R.denotes r.old bindings.now }
    ensures under { IfOk result
        (AreBothUnder R.owns R.denotes r.old bindings.now equation r.new) }
    ensures free { IfOk result (AreBothFree R.denotes bindings.now r.new) }
    ensures keeps { Keeps R.owns R.denotes r.old r.new }
    ensures serves { (S : PlainSignature) → R.serves S r.old → R.serves S r.new }
{
    let Equation { one, other } = equation;
    let one = under(r, bindings, one)?;
    let other = under(r, bindings, other)?;
    Ok(Equation { one, other })
}

/// The weak head forms of both sides, under the bindings.
fn heads<R: Reducer>(
    r: &mut R,
    version: &Version,
    bindings: &Bindings<R::T>,
    equation: Equation<R::T>,
    left: &mut u64,
) -> Result<Equation<R::T>, TypeFault>
    requires own { OwnsEquation R.owns r.old equation }
    requires bindings { OwnsBindings R.owns R.denotes r.old bindings.now }
    requires serves { R.serves (entries_of version.now) r.old }
    ensures gives { GivesPair R.owns R.denotes (heads_due (entries_of version.now)
        (terms_of R.denotes r.old bindings.now) (R.denotes r.old equation.one)
        (R.denotes r.old equation.other) left.old) r.new result left.new }
    ensures free { IfOk result (AreBothFree R.denotes bindings.now r.new) }
    ensures follows { Follows R.owns R.denotes R.serves (entries_of version.now) r.old r.new }
    ensures spent { left.new ≤ left.old }
{
    let one = r.whnf(version, &equation.one, left)?;
    let other = r.whnf(version, &equation.other, left)?;
    Ok(both_under(r, bindings, Equation { one, other })?)
}

/// The rule variable that a term is, where it may be bound to the other.
fn binder<R: Reducer>(r: &mut R, term: &R::T, other: &R::T) -> Result<Option<u32>, NoMemory>
    requires own { R.owns r.old term.now }
    requires other { R.owns r.old other.now }
    ensures binder { IfOk result (λ k. k
        ≡ binder_of (R.denotes r.old term.now) (R.denotes r.old other.now)) }
    ensures keeps { Keeps R.owns R.denotes r.old r.new }
    ensures serves { (S : PlainSignature) → R.serves S r.old → R.serves S r.new }
{
    match r.look(term)? {
        NodeOf::Rvar(number) => {
            if r.may_bind(other, number)? {
                Ok(Some(number))
            } else {
                Ok(None)
            }
        }
        _ => Ok(None),
    }
}

/// Of two weak head forms: binds a rule variable, or gives the equations of their parts, the first one last.
fn step<R: Reducer>(
    r: &mut R,
    version: &Version,
    bindings: &mut Bindings<R::T>,
    equation: Equation<R::T>,
) -> Result<Vec<Equation<R::T>>, TypeFault>
    requires own { OwnsEquation R.owns r.old equation }
    requires bindings { OwnsBindings R.owns R.denotes r.old bindings.old }
    requires free { AreBothFree R.denotes bindings.old r.old equation }
    ensures steps { StepsTo R.owns R.denotes (terms_of R.denotes r.old bindings.old)
        (equation_of (entries_of version.now) (R.denotes r.old equation.one)
        (R.denotes r.old equation.other)) r.new bindings.new result }
    ensures keeps { Keeps R.owns R.denotes r.old r.new }
    ensures serves { (S : PlainSignature) → R.serves S r.old → R.serves S r.new }
{
    let Equation { one, other } = equation;
    if let Some(number) = binder(r, &one, &other)? {
        bind(r, bindings, number, other)?;
        return Ok(Vec::new(r.alloc()));
    }
    if let Some(number) = binder(r, &other, &one)? {
        bind(r, bindings, number, one)?;
        return Ok(Vec::new(r.alloc()));
    }
    parts(r, version, one, other)
}

/// The equations of the parts of two terms with the same head, the first one last; none where an equation is dropped.
fn parts<R: Reducer>(
    r: &mut R,
    version: &Version,
    one: R::T,
    other: R::T,
) -> Result<Vec<Equation<R::T>>, TypeFault>
    requires one { R.owns r.old one }
    requires other { R.owns r.old other }
    ensures divides { Divides R.owns R.denotes (divided (entries_of version.now)
        (R.denotes r.old one) (R.denotes r.old other) []) r.new result }
    ensures keeps { Keeps R.owns R.denotes r.old r.new }
    ensures serves { (S : PlainSignature) → R.serves S r.old → R.serves S r.new }
{
    let mut arguments = Vec::new(r.alloc());
    let mut one = r.open(one)?;
    let mut other = r.open(other)?;
    loop {
        match one {
            NodeOf::App(f, a) => match other {
                NodeOf::App(g, b) => {
                    push(&mut arguments, Equation { one: a, other: b })?;
                    one = r.open(f)?;
                    other = r.open(g)?;
                }
                node => return apart(r, version, NodeOf::App(f, a), node),
            },
            node => return head_parts(r, version, arguments, node, other),
        }
    }
}

/// The same of two heads, the first of which isn't applied, with the equations of the arguments.
fn head_parts<R: Reducer>(
    r: &mut R,
    version: &Version,
    arguments: Vec<Equation<R::T>>,
    one: NodeOf<R::T>,
    other: NodeOf<R::T>,
) -> Result<Vec<Equation<R::T>>, TypeFault>
    requires arguments { OwnsEquations R.owns r.old arguments.items }
    requires one { OwnsParts R.owns r.old one }
    requires other { OwnsParts R.owns r.old other }
    requires head { is_application (built R.denotes r.old one) ≡ false }
    ensures divides { Divides R.owns R.denotes (divided (entries_of version.now)
        (built R.denotes r.old one) (built R.denotes r.old other)
        (pending R.denotes r.old arguments.items)) r.new result }
    ensures keeps { Keeps R.owns R.denotes r.old r.new }
    ensures serves { (S : PlainSignature) → R.serves S r.old → R.serves S r.new }
{
    let mut parts = arguments;
    match one {
        NodeOf::Sym(j) => match other {
            NodeOf::Sym(k) => {
                if j == k && !is_definable(version, j) {
                    return Ok(parts);
                }
                apart(r, version, NodeOf::Sym(j), NodeOf::Sym(k))
            }
            node => apart(r, version, NodeOf::Sym(j), node),
        },
        NodeOf::Var(j) => match other {
            NodeOf::Var(k) => {
                if j == k {
                    return Ok(parts);
                }
                apart(r, version, NodeOf::Var(j), NodeOf::Var(k))
            }
            node => apart(r, version, NodeOf::Var(j), node),
        },
        NodeOf::Abs(None, b) => match other {
            NodeOf::Abs(None, c) => {
                push(&mut parts, Equation { one: b, other: c })?;
                Ok(parts)
            }
            node => apart(r, version, NodeOf::Abs(None, b), node),
        },
        NodeOf::Prod(a, b) => match other {
            NodeOf::Prod(c, d) => {
                push(&mut parts, Equation { one: b, other: d })?;
                push(&mut parts, Equation { one: a, other: c })?;
                Ok(parts)
            }
            node => apart(r, version, NodeOf::Prod(a, b), node),
        },
        node => apart(r, version, node, other),
    }
}

/// Two heads that have no parts in common: a fault where both are rigid (E34).
fn apart<R: Reducer>(
    r: &mut R,
    version: &Version,
    one: NodeOf<R::T>,
    other: NodeOf<R::T>,
) -> Result<Vec<Equation<R::T>>, TypeFault>
    requires one { OwnsParts R.owns r.old one }
    requires other { OwnsParts R.owns r.old other }
    ensures divides { Divides R.owns R.denotes (set_apart (entries_of version.now)
        (built R.denotes r.old one) (built R.denotes r.old other)) r.new result }
    ensures keeps { Keeps R.owns R.denotes r.old r.new }
    ensures serves { (S : PlainSignature) → R.serves S r.old → R.serves S r.new }
{
    if is_rigid(r, version, one)? && is_rigid(r, version, other)? {
        Err(TypeFault::Refused(Code::E34))
    } else {
        Ok(Vec::new(r.alloc()))
    }
}

/// Whether no reduction and no binding changes the head.
fn is_rigid<R: Reducer>(r: &mut R, version: &Version, node: NodeOf<R::T>) -> Result<bool, NoMemory>
    requires { OwnsParts R.owns r.old node }
    ensures tells { IfOk result (λ b. b ≡
        is_rigid_head (entries_of version.now) (head (built R.denotes r.old node))) }
    ensures keeps { Keeps R.owns R.denotes r.old r.new }
    ensures serves { (S : PlainSignature) → R.serves S r.old → R.serves S r.new }
{
    let mut node = node;
    loop {
        match node {
            NodeOf::App(f, _) => node = r.open(f)?,
            NodeOf::Sym(k) => return Ok(!is_definable(version, k)),
            NodeOf::Rvar(_) => return Ok(false),
            NodeOf::Abs(Some(_), _) => return Ok(false),
            _ => return Ok(true),
        }
    }
}

/// Solves the equation of a type that is found on the walk and one that is expected there.
#[tactic(auto, using(signature_log::proofs::Keeping::keeps_further, infer_check::proofs::Walks::continues))]
pub(crate) fn expect<R: Reducer>(
    r: &mut R,
    version: &Version,
    side: &mut LeftWalk<R::T>,
    typ: R::T,
    expected: &R::T,
) -> Result<(), TypeFault>
    requires typ { R.owns r.old typ }
    requires expected { R.owns r.old expected.now }
    requires bindings { OwnsBindings R.owns R.denotes r.old side.old.found.bindings }
    requires serves { R.serves (entries_of version.now) r.old }
    ensures gives { GivesBindings R.owns R.denotes (solved (entries_of version.now)
        (terms_of R.denotes r.old side.old.found.bindings) (R.denotes r.old typ)
        (R.denotes r.old expected.now) side.old.walk.left) r.new side.new.found.bindings result
        side.new.walk.left }
    ensures rebound { IsRebound side.old.found side.new.found }
    ensures continues { Continues R.owns R.denotes R.serves (entries_of version.now)
        r.old side.old.walk r.new side.new.walk }
{
    let other = r.copy(expected)?;
    let equation = Equation { one: typ, other };
    solve(
        r,
        version,
        &mut side.found.bindings,
        equation,
        &mut side.walk.left,
    )
}
