//! The left side that a pattern stands for.
ghost use Rattle.std.specs.Prelude.{◌≡◌, ◌+◌, ◌≤◌, IfOk, IfErr};
ghost use Rattle.dk_model.specs.Scoping.{plain_left, left_apply, left_abstraction};
ghost use Rattle.dk_parser.specs.RawViews.{written_pattern};
ghost use Rattle.dk_parser.specs.Written.{pattern_apply};
ghost use Rattle.scope_terms.specs.Scopes.{scoped};
ghost use Rattle.scope_terms.specs.Answers.{IsFaultOf};
ghost use Rattle.scope_terms.specs.Binding.{IsTold};
ghost use Rattle.scope_terms.specs.Meanings.{named_left, qualified_left, left_sense};
ghost use Rattle.scope_terms.specs.Spines.{applied_pattern, pattern_references, pattern_size, total_pattern_size};

use crate::binders::{Binders, under_listed};
use crate::meaning::{Named, Scope, look_up, qualified};
use crate::term::term_at;
use dk_model::{Code, Fault, Left, Listed, NoMemory};
use dk_parser::RawPat;
use shared_term::Making;
use std::alloc::Global;

fn make_left_app(alloc: Global, f: Left, a: Left) -> Result<Left, NoMemory>
    ensures { IfOk result (λ l. plain_left l ≡ left_apply (plain_left f) (plain_left a)) }
{
    let f = Box::new(alloc, f)?;
    let a = Box::new(alloc, a)?;
    Ok(Left::App(f, a))
}

fn make_left_abs(alloc: Global, body: Left) -> Result<Left, NoMemory>
    ensures { IfOk result (λ l. plain_left l ≡ left_abstraction (plain_left body)) }
{
    Ok(Left::Abs(Box::new(alloc, body)?))
}

/// The number of a bound variable in a left side.
fn narrow(number: u64) -> Result<u32, NoMemory>
    ensures { IfOk result (λ n. n ≡ number) }
{
    match u32::try_from(number) {
        Ok(number) => Ok(number),
        Err(_) => Err(NoMemory),
    }
}

fn name_at<'a>(scope: &Scope, name: &Listed<u8>, bound: &'a Binders<'a>) -> Result<Left, Fault>
    requires told { IsTold bound.now }
    ensures ok { IfOk result
        (λ l. named_left scope.now bound.now name.now ≡ scoped (plain_left l)) }
    ensures refused { IfErr result (IsFaultOf (named_left scope.now bound.now name.now)) }
{
    match look_up(scope, bound, name.as_slice())? {
        Named::Variable(number) => Ok(Left::Var(narrow(number)?)),
        Named::RuleVariable(number) => Ok(Left::Rvar(number)),
        Named::Symbol(number) => Ok(Left::Sym(number)),
        Named::Unknown => Err(Fault::Refused(Code::E10)),
    }
}

fn qualified_at(scope: &Scope, module_name: &Listed<u8>, name: &Listed<u8>) -> Result<Left, Fault>
    ensures ok { IfOk result
        (λ l. qualified_left scope.now module_name.now name.now ≡ scoped (plain_left l)) }
    ensures refused { IfErr result (IsFaultOf (qualified_left scope.now module_name.now name.now)) }
{
    match qualified(scope, module_name.as_slice(), name.as_slice()) {
        Some(number) => Ok(Left::Sym(number)),
        None => Err(Fault::Refused(Code::E10)),
    }
}

/// The head of `f a`, and its arguments on a stack, the first one on top.
#[tactic(auto, using(crate::proofs::PatternSpines::applied_pushed, crate::proofs::PatternSpines::total_pushed))]
fn spine<'a>(
    alloc: Global,
    f: &'a RawPat,
    a: &'a RawPat,
) -> Result<(&'a RawPat, Vec<&'a RawPat>), NoMemory>
    ensures whole { IfOk result (λ s.
        applied_pattern (written_pattern s.0.now) (pattern_references s.1.items)
        ≡ pattern_apply (written_pattern f.now) (written_pattern a.now)) }
    ensures smaller { IfOk result (λ s.
        pattern_size (written_pattern s.0.now) + total_pattern_size (pattern_references s.1.items)
        ≤ pattern_size (written_pattern f.now) + pattern_size (written_pattern a.now)) }
{
    let mut arguments = Vec::new(alloc);
    arguments.push(a)?;
    let mut head = f;
    loop {
        match head {
            RawPat::App(g, b) => {
                let b: &'a RawPat = b;
                arguments.push(b)?;
                head = g;
            }
            other => return Ok((other, arguments)),
        }
    }
}

/// The left side under these binders, or its first code. It nests with brackets, and not with the arguments of an
/// application.
#[tactic(auto, using(crate::proofs::Stages::one_scoped, crate::proofs::Stages::one_fault, crate::proofs::PatternSpines::total_pushed, crate::proofs::PatternSpines::spine_begun, crate::proofs::PatternSpines::spine_head_fault, crate::proofs::PatternSpines::spine_further, crate::proofs::PatternSpines::spine_argument_fault))]
pub(crate) fn left_at<'a>(
    making: &mut Making,
    scope: &Scope,
    raw: &'a RawPat,
    bound: &'a Binders<'a>,
) -> Result<Left, Fault>
    requires told { IsTold bound.now }
    ensures ok { IfOk result (λ l. left_sense scope.now bound.now raw.now ≡ scoped (plain_left l)) }
    ensures refused { IfErr result (IsFaultOf (left_sense scope.now bound.now raw.now)) }
{
    match raw {
        RawPat::Name(name) => name_at(scope, name, bound),
        RawPat::Qualified(module_name, name) => { qualified_at(scope, module_name, name) },
        RawPat::Wild => Ok(Left::Any),
        RawPat::Guard(guard) => {
            let guard = term_at(making, scope, guard, &Binders::Outermost)?;
            Ok(Left::Guard(guard))
        }
        RawPat::App(f, a) => {
            let alloc = making.alloc();
            let (head, arguments) = spine(alloc, f, a)?;
            let mut arguments = arguments;
            let mut whole = left_at(making, scope, head, bound)?;
            while let Some(argument) = arguments.pop() {
                let argument = left_at(making, scope, argument, bound)?;
                whole = make_left_app(alloc, whole, argument)?;
            }
            Ok(whole)
        }
        RawPat::Abs(x, body) => {
            let under = under_listed(x, bound)?;
            let body = left_at(making, scope, body, &under)?;
            Ok(make_left_abs(making.alloc(), body)?)
        }
    }
}
