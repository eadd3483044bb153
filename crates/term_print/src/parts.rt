//! The parts of a term, as tasks in its place.
ghost use Rattle.std.specs.Prelude.{◌≡◌};
ghost use Rattle.term_print.specs.Tasks.{application_parts, arrow_parts, bare_parts, bound_parts};

use crate::place::Place;
use crate::task::{Subterm, Task};
use crate::text::Mark;

// A part of a term.
fn at(term: u64, depth: u64, place: Place) -> Task
    ensures { result ≡ Task.Term (record { term = term; depth = depth; place = place }) }
{
    Task::Term(Subterm { term, depth, place })
}

/// A head and an argument.
pub(crate) fn application_parts(whole: Subterm, head: u64, argument: u64) -> [Task; 2]
    ensures { result ≡ application_parts whole head argument }
{
    [
        at(head, whole.depth, Place::Application),
        at(argument, whole.depth, Place::Atom),
    ]
}

/// A binder without a type, and the body, which stands under it.
pub(crate) fn bare_parts(whole: Subterm, under: u64, body: u64) -> [Task; 3]
    ensures { result ≡ bare_parts whole under body }
{
    [
        Task::Binder(whole.depth),
        Task::Mark(Mark::DoubleArrow),
        at(body, under, Place::Term),
    ]
}

/// A binder with its type, and the body.
pub(crate) fn bound_parts(whole: Subterm, under: u64, typ: u64, mark: Mark, body: u64) -> [Task; 5]
    ensures { result ≡ bound_parts whole under typ mark body }
{
    [
        Task::Binder(whole.depth),
        Task::Mark(Mark::Colon),
        at(typ, whole.depth, Place::Application),
        Task::Mark(mark),
        at(body, under, Place::Term),
    ]
}

/// A domain and a codomain, which stands under a binder without a name.
pub(crate) fn arrow_parts(whole: Subterm, under: u64, domain: u64, codomain: u64) -> [Task; 3]
    ensures { result ≡ arrow_parts whole under domain codomain }
{
    [
        at(domain, whole.depth, Place::Application),
        Task::Mark(Mark::Arrow),
        at(codomain, under, Place::Term),
    ]
}
