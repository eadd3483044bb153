//! The equation of two types, solved with the items of its equations.
ghost use Rattle.std.specs.Prelude.{◌≡◌, ◌<◌, ℕ, if◌then◌else◌, Some, [], ◌∷◌, ◌++◌, IfOk, OnOk, List, map};
ghost use Rattle.dk_model.specs.Trees.{tree};
ghost use Rattle.dk_model.specs.Signatures.{maybe_tree};
ghost use Rattle.dk_model.specs.Bindings.{Bindings as Bound, under, bound as bound_of};
ghost use Rattle.dk_model.specs.Solving.{equation_of, each_solved, solved as solved_of};
ghost use Rattle.dk_model.specs.TypingOver.{JudgedIn, answer};
ghost use Rattle.signature_log.specs.Versions.{entries_of};
ghost use Rattle.checked_steps.specs.Items.{Item as PlainItem, equation as equation_item, left_bound, right_bound};
ghost use Rattle.checked_steps.specs.Taken.{equation_taken, word_taken};
ghost use Rattle.checked_steps.specs.Checked.{next_solution};
ghost use Rattle.certificate_items.specs.Views.{plain_items, plain_steps, plain_word};
ghost use Rattle.tree_steps.specs.Views.{pair, solved as view, bindings as plain};
ghost use Rattle.tree_typing.specs.Given.{Judges, bindings};
ghost use Rattle.told_items.specs.Solvings.{AreLeft, GoesOn};
ghost use Rattle.told_items.specs.Equations.{by_heads, one_solved, replaced, sides_taken};

use certificate_items::{Item, Join};
use certificate_lines::Word;
use dk_model::{Code, NoMemory, Term, TypeFault};
use signature_log::Version;
use std::alloc::Global;
use std::collections::LinkedList;
use told_steps::Tells;
use tree_steps::{Equation, Pair, Solved, copied, equation_of, is_left, push_copies};
use tree_terms::{bound, under};
use tree_typing::Bindings;

/// How an equation of two terms that have taken their steps is solved.
#[derive(Drop)]
struct Worded {
    word: Word,
    solved: Solved,
}

/// How an equation is solved, with the steps of its sides.
#[derive(Drop)]
struct Taken {
    word: Word,
    join: Join,
    solved: Solved,
}

/// What rule variables are bound to once an equation is solved, with its items.
#[derive(Drop)]
pub(crate) struct Solution {
    pub bindings: Vec<Option<Term>>,
    pub items: Vec<Item>,
}

/// What rule variables are bound to so far, the items of the equations that are solved, and the equations that are left.
#[derive(Drop)]
pub(crate) struct Solving {
    pub bindings: Vec<Option<Term>>,
    pub items: Vec<Item>,
    pub left: LinkedList<Pair>,
}

/// A rule variable is bound.
fn bound_now(
    alloc: Global,
    bindings: Vec<Option<Term>>,
    number: u32,
    term: Term,
) -> Result<Solved, NoMemory>
    ensures { IfOk result (λ s. view s ≡ (bound_of (plain bindings) number (tree term), [])) }
{
    Ok(Solved {
        bindings: bound(alloc, bindings.as_slice(), number, term)?,
        parts: LinkedList::new(alloc),
    })
}

/// No rule variable is bound, and nothing is left of the equation.
fn as_before(alloc: Global, bindings: Vec<Option<Term>>) -> Solved
    ensures { view result ≡ (plain bindings, []) }
{
    Solved {
        bindings,
        parts: LinkedList::new(alloc),
    }
}

fn bound_word(is_left: bool) -> Word
    ensures { plain_word result ≡ (if is_left then left_bound else right_bound) }
{
    if is_left {
        Word::LeftBound
    } else {
        Word::RightBound
    }
}

/// How the equation of two weak head forms is solved, which are under the bindings.
#[tactic(auto, using(crate::proofs::Solving::bound_taken))]
fn in_words(
    alloc: Global,
    version: &Version,
    bindings: Vec<Option<Term>>,
    forms: &Pair,
) -> Result<Worded, TypeFault>
    ensures gives { (n : ℕ) → Judges (λ w. view w.solved) (replaced (plain bindings)
        (equation_of (entries_of version.now) (tree forms.now.first) (tree forms.now.second)) n)
        result n }
    ensures word { IfOk result (λ w. word_taken (entries_of version.now) (plain_word w.word)
        (plain bindings) (tree forms.now.first) (tree forms.now.second) ≡ Some (view w.solved)) }
{
    let is_left = is_left(&forms.first, &forms.second)?;
    match equation_of(alloc, version, &forms.first, &forms.second)? {
        Equation::Binds(number, term) => Ok(Worded {
            word: bound_word(is_left),
            solved: bound_now(alloc, bindings, number, term)?,
        }),
        Equation::Parts(parts) => Ok(Worded {
            word: Word::InParts,
            solved: Solved { bindings, parts },
        }),
        Equation::Clash => Err(TypeFault::Refused(Code::E34)),
        Equation::Nothing => Ok(Worded {
            word: Word::LetGo,
            solved: as_before(alloc, bindings),
        }),
    }
}

/// The equation of two terms, which are under the bindings, by their weak head forms.
#[tactic(auto, using(crate::proofs::Solving::led_taken))]
fn by_heads<T: Tells>(
    evaluation: &mut T,
    version: &Version,
    bindings: Vec<Option<Term>>,
    sides: &Pair,
) -> Result<Taken, TypeFault>
    ensures gives { Judges (λ t. view t.solved) (by_heads (entries_of version.now)
        (plain bindings) (tree sides.now.first) (tree sides.now.second)
        (T.units evaluation.old)) result (T.units evaluation.new) }
    ensures taken { IfOk result (λ t. sides_taken (entries_of version.now)
        (plain_word t.word) (plain_steps t.join.first) (plain_steps t.join.second)
        (plain bindings) (tree sides.now.first) (tree sides.now.second) ≡ Some (view t.solved)) }
{
    let alloc = evaluation.alloc();
    let first = evaluation.whnf(version, &sides.first)?;
    let second = evaluation.whnf(version, &sides.second)?;
    let forms = Pair {
        first: under(alloc, bindings.as_slice(), &first.form)?,
        second: under(alloc, bindings.as_slice(), &second.form)?,
    };
    let Worded { word, solved } = in_words(alloc, version, bindings, &forms)?;
    let join = Join {
        first: first.steps,
        second: second.steps,
    };
    Ok(Taken { word, join, solved })
}

/// The equation of two terms: convertible under the bindings, or by their weak head forms.
#[tactic(auto, using(crate::proofs::Solving::met_taken))]
fn solve_one<T: Tells>(
    evaluation: &mut T,
    version: &Version,
    bindings: Vec<Option<Term>>,
    sides: &Pair,
) -> Result<Taken, TypeFault>
    ensures gives { Judges (λ t. view t.solved) (one_solved (entries_of version.now)
        (plain bindings) (tree sides.now.first) (tree sides.now.second)
        (T.units evaluation.old)) result (T.units evaluation.new) }
    ensures taken { IfOk result (λ t. equation_taken (entries_of version.now)
        (plain_word t.word) (plain_steps t.join.first) (plain_steps t.join.second)
        (plain bindings) (tree sides.now.first) (tree sides.now.second) ≡ Some (view t.solved)) }
{
    let alloc = evaluation.alloc();
    let sides = Pair {
        first: under(alloc, bindings.as_slice(), &sides.first)?,
        second: under(alloc, bindings.as_slice(), &sides.second)?,
    };
    match evaluation.same(version, &sides.first, &sides.second)? {
        Some(join) => Ok(Taken {
            word: Word::Same,
            join,
            solved: as_before(alloc, bindings),
        }),
        None => by_heads(evaluation, version, bindings, &sides),
    }
}

/// Puts an equation behind the items.
fn keep(items: &mut Vec<Item>, word: Word, join: Join) -> Result<(), NoMemory>
    ensures { OnOk result (plain_items items.new.items ≡ plain_items items.old.items
        ++ equation_item (plain_word word) (plain_steps join.first) (plain_steps join.second) ∷ []) }
{
    items.push(Item::Equation(word, join))?;
    Ok(())
}

/// Equations before those that are left.
fn ahead(parts: LinkedList<Pair>, left: LinkedList<Pair>) -> Result<LinkedList<Pair>, NoMemory>
    ensures { IfOk result (λ all. map pair all ≡ map pair parts ++ map pair left) }
{
    let mut all = parts;
    let mut left = left;
    all.append(&mut left)?;
    Ok(all)
}

/// Solves an equation, before those that are left. Its parts stand in its place.
#[tactic(auto, using(crate::proofs::Solving::each_goes, crate::proofs::Solving::one_fewer))]
fn go_on<T: Tells>(
    evaluation: &mut T,
    version: &Version,
    solving: Solving,
    sides: &Pair,
) -> Result<Solving, TypeFault>
    ensures gives { GoesOn (entries_of version.now) (each_solved (solved_of (entries_of version.now))
        (pair sides.now ∷ map pair solving.left) (plain solving.bindings)
        (T.units evaluation.old)) result (T.units evaluation.new) }
    ensures fewer { OnOk result (T.units evaluation.new < T.units evaluation.old) }
    ensures items { IfOk result (λ v. (due : List PlainItem → JudgedIn (List PlainItem) Bound) →
        AreLeft (entries_of version.now) due (plain_items solving.items.items)
        (pair sides.now ∷ map pair solving.left) (plain solving.bindings) →
        AreLeft (entries_of version.now) due (plain_items v.items.items)
        (map pair v.left) (plain v.bindings)) }
{
    let Solving {
        bindings,
        mut items,
        left,
    } = solving;
    let Taken { word, join, solved } = solve_one(evaluation, version, bindings, sides)?;
    let Solved { bindings, parts } = solved;
    keep(&mut items, word, join)?;
    let left = ahead(parts, left)?;
    Ok(Solving {
        bindings,
        items,
        left,
    })
}

/// Nothing is solved yet of the equation of two types.
fn begun(alloc: Global, bound: &Bindings, term: &Term, other: &Term) -> Result<Solving, NoMemory>
    ensures bindings { IfOk result (λ v. plain v.bindings ≡ bindings bound.now) }
    ensures items { IfOk result (λ v. plain_items v.items.items ≡ []) }
    ensures left { IfOk result (λ v. map pair v.left ≡ (tree term.now, tree other.now) ∷ []) }
{
    let mut left = LinkedList::new(alloc);
    push_copies(alloc, &mut left, term, other)?;
    Ok(Solving {
        bindings: copied(alloc, bound.terms.as_slice())?,
        items: Vec::new(alloc),
        left,
    })
}

/// The equation of two types, from left to right: the parts of one stand in its place.
#[tactic(auto, using(crate::proofs::Solving::all_begun, crate::proofs::Solving::items_begun, crate::proofs::Solving::fails_further))]
pub(crate) fn solve<T: Tells>(
    evaluation: &mut T,
    version: &Version,
    bound: &Bindings,
    term: &Term,
    other: &Term,
) -> Result<Solution, TypeFault>
    ensures gives { Judges (λ s. plain s.bindings) (solved_of (entries_of version.now)
        (bindings bound.now) (tree term.now) (tree other.now)
        (T.units evaluation.old)) result (T.units evaluation.new) }
    ensures items { IfOk result (λ s. next_solution (entries_of version.now)
        (plain_items s.items.items) (bindings bound.now) (tree term.now) (tree other.now)
        ≡ answer (plain s.bindings) []) }
{
    let mut solving = begun(evaluation.alloc(), bound, term, other)?;
    while let Some(sides) = solving.left.pop_front() {
        solving = go_on(evaluation, version, solving, &sides)?;
    }
    let Solving {
        bindings,
        items,
        left: _,
    } = solving;
    Ok(Solution { bindings, items })
}
