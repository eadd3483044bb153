//! Two terms whose steps lead to one.
ghost use Rattle.std.specs.Prelude.{◌≡◌, IfOk};
ghost use Rattle.dk_model.specs.Trees.{tree, apply, bare, product};
ghost use Rattle.told_steps.specs.Meetings.{AlwaysMeetIn, MeetAround, MeetBehind, MeetBy, MeetTogether};

use crate::moved::{joined_steps, moved, steps_together};
use crate::told::Told;
use certificate_items::{Join, Step};
use dk_model::{Listed, NoMemory, Term, make_app, make_bare, make_product};
use std::alloc::Global;

/// The steps of two terms to one form.
#[derive(Drop)]
pub struct Meeting {
    pub form: Term,
    pub first: Listed<Step>,
    pub second: Listed<Step>,
}

impl Meeting {
    /// The two lists of steps.
    pub fn into_join(self) -> Join
        ensures meets { MeetBy self result }
    {
        let Meeting { first, second, .. } = self;
        Join { first, second }
    }
}

/// A term with itself.
pub fn met_same(alloc: Global, term: &Term) -> Result<Meeting, NoMemory>
    ensures form { IfOk result (λ met. tree met.form ≡ tree term.now) }
    ensures meets { IfOk result (λ met. AlwaysMeetIn (tree term.now) (tree term.now) met) }
{
    Ok(Meeting {
        form: term.copy(alloc)?,
        first: Listed::new(alloc),
        second: Listed::new(alloc),
    })
}

/// Two applications whose functions and whose arguments meet.
pub fn met_application(
    alloc: Global,
    function: Meeting,
    argument: Meeting,
) -> Result<Meeting, NoMemory>
    ensures form { IfOk result (λ met. tree met.form
        ≡ apply (tree function.form) (tree argument.form)) }
    ensures meets { IfOk result (λ met. MeetTogether apply function argument met) }
{
    let first = steps_together(alloc, function.first, &function.form, argument.first)?;
    let second = steps_together(alloc, function.second, &function.form, argument.second)?;
    let form = make_app(alloc, function.form, argument.form)?;
    Ok(Meeting {
        form,
        first,
        second,
    })
}

/// Two abstractions without annotation whose bodies meet.
pub fn met_body(alloc: Global, body: Meeting) -> Result<Meeting, NoMemory>
    ensures form { IfOk result (λ met. tree met.form ≡ bare (tree body.form)) }
    ensures meets { IfOk result (λ met. MeetAround bare body met) }
{
    let first = moved(alloc, body.first, 1)?;
    let second = moved(alloc, body.second, 1)?;
    let form = make_bare(alloc, body.form)?;
    Ok(Meeting {
        form,
        first,
        second,
    })
}

/// Two products whose domains and whose codomains meet.
pub fn met_product(alloc: Global, domain: Meeting, codomain: Meeting) -> Result<Meeting, NoMemory>
    ensures form { IfOk result (λ met. tree met.form
        ≡ product (tree domain.form) (tree codomain.form)) }
    ensures meets { IfOk result (λ met. MeetTogether product domain codomain met) }
{
    let first = steps_together(alloc, domain.first, &domain.form, codomain.first)?;
    let second = steps_together(alloc, domain.second, &domain.form, codomain.second)?;
    let form = make_product(alloc, domain.form, codomain.form)?;
    Ok(Meeting {
        form,
        first,
        second,
    })
}

/// Two terms that lead to two others, which meet.
pub fn met_behind(first: Told, second: Told, met: Meeting) -> Result<Meeting, NoMemory>
    ensures form { IfOk result (λ all. tree all.form ≡ tree met.form) }
    ensures meets { IfOk result (λ all. MeetBehind first second met all) }
{
    let ahead = joined_steps(first.steps, met.first)?;
    let behind = joined_steps(second.steps, met.second)?;
    Ok(Meeting {
        form: met.form,
        first: ahead,
        second: behind,
    })
}
