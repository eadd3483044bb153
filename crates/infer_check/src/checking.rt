//! Checking (docs/typing.md).
ghost use Rattle.dk_model.specs.Trees.{bare, annotated};
ghost use Rattle.signature_log.specs.Versions.{entries_of};
ghost use Rattle.infer_check.specs.Clauses.{Checks};
ghost use Rattle.infer_check.specs.Walks.{IsReady, Continues};

use crate::Walk;
use crate::expect::{Compared, as_convertible, into_product};
use crate::inference::{infer_domain, infer_node};
use dk_model::{Code, NodeOf, TypeFault};
use signature_log::{Reducer, Version};

/// An abstraction with an annotation.
struct Annotated<T> {
    annotation: T,
    body: T,
}

/// That a term fits a type.
///
/// The walk has the units that may be spent, and then those that are left. Its context is at exit as at entry.
#[tactic(auto, using(crate::proofs::Contexts::context_kept, crate::proofs::Contexts::rule_types_kept, crate::proofs::Contexts::bound_types_kept, signature_log::proofs::Keeping::keeps_further, crate::proofs::Walks::continues, crate::proofs::Walks::ready))]
pub fn check<R: Reducer>(
    r: &mut R,
    version: &Version,
    walk: &mut Walk<R::T>,
    t: &R::T,
    expected: &R::T,
) -> Result<(), TypeFault>
    requires term { R.owns r.old t.now }
    requires expected { R.owns r.old expected.now }
    requires ready { IsReady R.owns R.serves (entries_of version.now) r.old walk.old }
    ensures gives { Checks R.owns R.denotes (entries_of version.now) r.old walk.old
        (R.denotes r.old t.now) (R.denotes r.old expected.now) result walk.new.left }
    ensures continues { Continues R.owns R.denotes R.serves (entries_of version.now)
        r.old walk.old r.new walk.new }
{
    let term = r.copy(t)?;
    let expected = r.copy(expected)?;
    check_taken(r, version, walk, term, expected)
}

/// That a term fits a type: that it is an abstraction that does, or that its type is convertible with this one.
///
/// ```text
/// G |- t : U    U is convertible with T
/// -------------------------------------
/// G |- t fits T, where t is no abstraction
/// ```
#[cycle(typing)]
#[tactic(auto, using(crate::proofs::Judging::check_infer_fails, crate::proofs::Judging::check_same, crate::proofs::Contexts::context_kept, crate::proofs::Contexts::rule_types_kept, crate::proofs::Contexts::bound_types_kept, signature_log::proofs::Keeping::keeps_further, crate::proofs::Walks::continues, crate::proofs::Walks::ready))]
pub(crate) fn check_taken<R: Reducer>(
    r: &mut R,
    version: &Version,
    walk: &mut Walk<R::T>,
    term: R::T,
    expected: R::T,
) -> Result<(), TypeFault>
    requires term { R.owns r.old term }
    requires expected { R.owns r.old expected }
    requires ready { IsReady R.owns R.serves (entries_of version.now) r.old walk.old }
    ensures gives { Checks R.owns R.denotes (entries_of version.now) r.old walk.old
        (R.denotes r.old term) (R.denotes r.old expected) result walk.new.left }
    ensures continues { Continues R.owns R.denotes R.serves (entries_of version.now)
        r.old walk.old r.new walk.new }
{
    match r.open(term)? {
        NodeOf::Abs(annotation, b) => match annotation {
            None => check_bare(r, version, walk, b, expected),
            Some(d) => {
                let abstraction = Annotated {
                    annotation: d,
                    body: b,
                };
                check_annotated(r, version, walk, abstraction, expected)
            }
        },
        other => {
            let found = infer_node(r, version, walk, other)?;
            let compared = Compared {
                code: Code::E21,
                found: &found,
                expected: &expected,
            };
            as_convertible(r, version, compared, &mut walk.left)
        }
    }
}

/// That a bare abstraction fits a type.
///
/// ```text
/// T has the weak head form x : A -> B    G, x : A |- b fits B
/// -----------------------------------------------------------
/// G |- (x => b) fits T
/// ```
#[cycle(typing)]
#[tactic(auto, using(crate::proofs::Judging::bare_product_fails, crate::proofs::Judging::bare_body_fails, crate::proofs::Judging::bare_given, crate::proofs::Contexts::context_kept, crate::proofs::Contexts::context_bound, crate::proofs::Contexts::rule_types_kept, crate::proofs::Contexts::bound_types_kept, crate::proofs::Contexts::bound_types_pushed, signature_log::proofs::Keeping::keeps_further, crate::proofs::Walks::continues, crate::proofs::Walks::ready))]
fn check_bare<R: Reducer>(
    r: &mut R,
    version: &Version,
    walk: &mut Walk<R::T>,
    body: R::T,
    expected: R::T,
) -> Result<(), TypeFault>
    requires body { R.owns r.old body }
    requires expected { R.owns r.old expected }
    requires ready { IsReady R.owns R.serves (entries_of version.now) r.old walk.old }
    ensures gives { Checks R.owns R.denotes (entries_of version.now) r.old walk.old
        (bare (R.denotes r.old body)) (R.denotes r.old expected) result walk.new.left }
    ensures continues { Continues R.owns R.denotes R.serves (entries_of version.now)
        r.old walk.old r.new walk.new }
{
    let function = into_product(r, version, Code::E24, expected, &mut walk.left)?;
    walk.context.bind(function.domain)?;
    let fits = check_taken(r, version, walk, body, function.codomain);
    let _domain = walk.context.leave();
    fits
}

/// That an annotated abstraction fits a type.
///
/// ```text
/// T has the weak head form x : A -> B    G |- d : Type    |d| is convertible with A    G, x : A |- b fits B
/// ---------------------------------------------------------------------------------------------------------
/// G |- (x : d => b) fits T
/// ```
#[cycle(typing)]
#[tactic(auto, using(crate::proofs::Judging::annotated_product_fails, crate::proofs::Judging::annotated_domain_fails, crate::proofs::Judging::annotated_same_fails, crate::proofs::Judging::annotated_body_fails, crate::proofs::Judging::annotated_given, crate::proofs::Contexts::context_kept, crate::proofs::Contexts::context_bound, crate::proofs::Contexts::rule_types_kept, crate::proofs::Contexts::bound_types_kept, crate::proofs::Contexts::bound_types_pushed, signature_log::proofs::Keeping::keeps_further, crate::proofs::Walks::continues, crate::proofs::Walks::ready))]
fn check_annotated<R: Reducer>(
    r: &mut R,
    version: &Version,
    walk: &mut Walk<R::T>,
    abstraction: Annotated<R::T>,
    expected: R::T,
) -> Result<(), TypeFault>
    requires annotation { R.owns r.old abstraction.annotation }
    requires body { R.owns r.old abstraction.body }
    requires expected { R.owns r.old expected }
    requires ready { IsReady R.owns R.serves (entries_of version.now) r.old walk.old }
    ensures gives { Checks R.owns R.denotes (entries_of version.now) r.old walk.old
        (annotated (R.denotes r.old abstraction.annotation) (R.denotes r.old abstraction.body))
        (R.denotes r.old expected) result walk.new.left }
    ensures continues { Continues R.owns R.denotes R.serves (entries_of version.now)
        r.old walk.old r.new walk.new }
{
    let Annotated { annotation, body } = abstraction;
    let function = into_product(r, version, Code::E24, expected, &mut walk.left)?;
    let erased = r.erase(&annotation)?;
    infer_domain(r, version, walk, annotation)?;
    let compared = Compared {
        code: Code::E21,
        found: &erased,
        expected: &function.domain,
    };
    as_convertible(r, version, compared, &mut walk.left)?;
    walk.context.bind(function.domain)?;
    let fits = check_taken(r, version, walk, body, function.codomain);
    let _domain = walk.context.leave();
    fits
}
