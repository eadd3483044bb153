//! Printing, by a stack of tasks.
ghost use Rattle.std.specs.Prelude.{◌≡◌, ◌++◌, ◌+◌, ◌-◌, ◌<◌, IfOk, OnOk};
ghost use Rattle.dk_terms.specs.declared.terminal.Terminal.TheVariants as terminal;
ghost use Rattle.scope_terms.specs.Names.{reading};
ghost use Rattle.scope_terms.specs.Reading.{current};
ghost use Rattle.shared_term.specs.Storage.{stored_term};
ghost use Rattle.term_print.specs.Named.{binder_name};
ghost use Rattle.term_print.specs.Printing.{printed};
ghost use Rattle.term_print.specs.ReadBack.{word_terminal};
ghost use Rattle.term_print.specs.Tasks.{Puts, left_of, named_in, named_left, term_terminals, terminals, text_with, weight, weights};
ghost use Rattle.term_print.specs.Words.{word_of};

use crate::binder::binder_name;
use crate::page::Page;
use crate::parts::{application_parts, arrow_parts, bare_parts, bound_parts};
use crate::place::Place;
use crate::products::{named_products, take_last};
use crate::source::{Source, Words};
use crate::spellings::{Spellings, spellings_of};
use crate::task::{Subterm, Task, push_tasks};
use crate::text::{Mark, Text};
use dk_model::{Listed, NoMemory, NodeOf};
use scope_terms::Names;
use shared_term::Stored;
use std::alloc::Global;

/// The bytes of a term as it is printed in the module being read. Nothing is asked of the term: what can't be written has a
/// text too, which isn't read back (docs/printing.md).
pub fn print(alloc: Global, term: &Stored, names: &Names) -> Result<Listed<u8>, NoMemory>
    ensures { IfOk result (λ p. p ≡ printed (word_of (reading names.now).symbols
        (current (reading names.now))) (stored_term term.now)) }
{
    print_part(alloc, term, names, term.root().number() as u64)
}

/// The bytes of a part of any source.
#[tactic(auto, using(crate::proofs::Turned::begins, crate::proofs::Stacking::named_begins))]
pub fn print_part<S: Source, W: Words>(
    alloc: Global,
    source: &S,
    words: &W,
    whole: u64,
) -> Result<Listed<u8>, NoMemory>
    ensures { IfOk result (λ p. p ≡ printed (W.word words.now) (S.denotes source.now whole)) }
{
    let used = spellings_of(alloc, source, words, whole)?;
    let named = named_products(alloc, source, whole)?;
    let mut page = Page {
        alloc,
        text: Text::new(alloc),
        tasks: Vec::new(alloc),
        named,
    };
    page.tasks.push(Task::Term(Subterm {
        term: whole,
        depth: 0,
        place: Place::Term,
    }))?;
    print_tasks(source, words, &used, &mut page)?;
    Ok(Listed::from_vec(page.text.bytes))
}

// What is left is written, until nothing is.
#[tactic(auto, using(crate::proofs::Turned::popped, crate::proofs::Turned::ends, crate::proofs::Stacking::weights_pushed, crate::proofs::Stacking::named_popped))]
fn print_tasks<S: Source, W: Words>(
    source: &S,
    words: &W,
    used: &Spellings,
    page: &mut Page,
) -> Result<(), NoMemory>
    requires named { page.old.named.items ≡ named_left (S.denotes source.now) page.old.tasks.items }
    ensures { OnOk result (text_with page.old.text
        (left_of (S.denotes source.now) (W.word words.now) used.now page.old.tasks.items)
        ≡ page.new.text.bytes.items) }
{
    'tasks: while let Some(task) = page.tasks.pop() {
        turn(source, words, used, task, page)?;
    }
    Ok(())
}

// One task: a terminal more, or tasks in its place.
fn turn<S: Source, W: Words>(
    source: &S,
    words: &W,
    used: &Spellings,
    task: Task,
    page: &mut Page,
) -> Result<(), NoMemory>
    requires named { page.old.named.items ≡ named_left (S.denotes source.now) page.old.tasks.items
        ++ named_in (S.denotes source.now) task }
    ensures text { OnOk result (text_with page.old.text
        (terminals (S.denotes source.now) (W.word words.now) used.now task
        ++ left_of (S.denotes source.now) (W.word words.now) used.now page.old.tasks.items)
        ≡ text_with page.new.text
        (left_of (S.denotes source.now) (W.word words.now) used.now page.new.tasks.items)) }
    ensures named { OnOk result (page.new.named.items
        ≡ named_left (S.denotes source.now) page.new.tasks.items) }
    ensures weight { OnOk result (weights (S.denotes source.now) page.new.tasks.items
        < weights (S.denotes source.now) page.old.tasks.items
        + weight (S.denotes source.now) task) }
{
    match task {
        Task::Term(subterm) => term_turn(source, words, used, subterm, page),
        Task::Binder(depth) => {
            put_binder(used, depth, page)?;
            Ok(())
        }
        Task::Open => {
            page.text.put_open()?;
            Ok(())
        }
        Task::Close => {
            page.text.put_close()?;
            Ok(())
        }
        Task::Mark(mark) => {
            page.text.put_mark(mark)?;
            Ok(())
        }
    }
}

// The name of a binder.
fn put_binder(used: &Spellings, depth: u64, page: &mut Page) -> Result<(), NoMemory>
    ensures text { OnOk result
        (Puts page.old.text (terminal.Name (binder_name used.now depth)) page.new.text) }
    ensures tasks { page.new.tasks ≡ page.old.tasks }
    ensures named { page.new.named ≡ page.old.named }
{
    let name = binder_name(page.alloc, used, depth)?;
    page.text.put_name(name.as_slice())
}

// The word of a symbol.
#[tactic(auto, using(crate::proofs::Turned::plain_word, crate::proofs::Turned::qualified_word))]
fn put_word<W: Words>(words: &W, symbol: u32, text: &mut Text) -> Result<(), NoMemory>
    ensures { OnOk result (Puts text.old (word_terminal (W.word words.now symbol)) text.new) }
{
    match words.module_name(symbol) {
        None => text.put_name(words.spelling(symbol)),
        Some(module_name) => text.put_qualified(module_name, words.spelling(symbol)),
    }
}

// The depth of the binder that a variable means.
fn depth_of(depth: u64, variable: u64) -> u64
    ensures { result ≡ depth - (variable + 1) }
{
    depth.saturating_sub(variable).saturating_sub(1)
}

// One more binder around.
fn one_deeper(depth: u64) -> Result<u64, NoMemory>
    ensures { IfOk result (λ d. d ≡ depth + 1) }
{
    depth.checked_add(1).ok_or(NoMemory)
}

// A term: its terminal, or its parts as tasks.
#[tactic(auto, using(crate::proofs::Turned::word_turn, crate::proofs::Turned::leaf_turn, crate::proofs::Turned::application_turn, crate::proofs::Turned::arrow_turn, crate::proofs::Turned::product_turn, crate::proofs::Turned::bare_turn, crate::proofs::Turned::annotated_turn, crate::proofs::Turned::named_leaf, crate::proofs::Turned::named_application, crate::proofs::Turned::named_bare, crate::proofs::Turned::named_annotated, crate::proofs::Turned::named_product, crate::proofs::Turned::named_arrow, crate::proofs::Turned::application_less, crate::proofs::Turned::bare_less, crate::proofs::Turned::annotated_less, crate::proofs::Turned::product_less, crate::proofs::Turned::arrow_less))]
fn term_turn<S: Source, W: Words>(
    source: &S,
    words: &W,
    used: &Spellings,
    subterm: Subterm,
    page: &mut Page,
) -> Result<(), NoMemory>
    requires named { page.old.named.items ≡ named_left (S.denotes source.now) page.old.tasks.items
        ++ named_in (S.denotes source.now) (Task.Term subterm) }
    ensures text { OnOk result (text_with page.old.text
        (terminals (S.denotes source.now) (W.word words.now) used.now (Task.Term subterm)
        ++ left_of (S.denotes source.now) (W.word words.now) used.now page.old.tasks.items)
        ≡ text_with page.new.text
        (left_of (S.denotes source.now) (W.word words.now) used.now page.new.tasks.items)) }
    ensures named { OnOk result (page.new.named.items
        ≡ named_left (S.denotes source.now) page.new.tasks.items) }
    ensures weight { OnOk result (weights (S.denotes source.now) page.new.tasks.items
        < weights (S.denotes source.now) page.old.tasks.items
        + weight (S.denotes source.now) (Task.Term subterm)) }
{
    match source.node(subterm.term) {
        NodeOf::Star => {
            page.text.put_star()?;
            Ok(())
        }
        NodeOf::Kind => {
            page.text.put_name(b"Kind".as_slice())?;
            Ok(())
        }
        NodeOf::Sym(k) => {
            put_word(words, k, &mut page.text)?;
            Ok(())
        }
        NodeOf::Var(k) => {
            put_binder(used, depth_of(subterm.depth, k), page)?;
            Ok(())
        }
        NodeOf::Rvar(_) => {
            page.text.put_wildcard()?;
            Ok(())
        }
        NodeOf::App(f, a) => {
            let parts = application_parts(subterm, f, a);
            push_tasks(&mut page.tasks, &parts, subterm.place.is_narrow())?;
            Ok(())
        }
        NodeOf::Abs(annotation, b) => {
            let under = one_deeper(subterm.depth)?;
            match annotation {
                None => {
                    let parts = bare_parts(subterm, under, b);
                    push_tasks(&mut page.tasks, &parts, subterm.place.is_wide())?;
                    Ok(())
                }
                Some(d) => {
                    let parts = bound_parts(subterm, under, d, Mark::DoubleArrow, b);
                    push_tasks(&mut page.tasks, &parts, subterm.place.is_wide())?;
                    Ok(())
                }
            }
        }
        NodeOf::Prod(a, b) => {
            let under = one_deeper(subterm.depth)?;
            if take_last(&mut page.named) {
                let parts = bound_parts(subterm, under, a, Mark::Arrow, b);
                push_tasks(&mut page.tasks, &parts, subterm.place.is_wide())?;
                Ok(())
            } else {
                let parts = arrow_parts(subterm, under, a, b);
                push_tasks(&mut page.tasks, &parts, subterm.place.is_wide())?;
                Ok(())
            }
        }
    }
}
