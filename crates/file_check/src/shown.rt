//! What a report shows of a command, if it is accepted (docs/report.md).
ghost use Rattle.std.specs.Prelude.{◌≡◌, IfOk, map};
ghost use Rattle.std.specs.Option.{option_map};
ghost use Rattle.dk_parser.specs.Written.{written_rules};
ghost use Rattle.dk_parser.specs.RawViews.{written_form, written_pattern, written_rule};
ghost use Rattle.scope_terms.specs.Names.{reading};
ghost use Rattle.shared_term.specs.Finding.{plain_found};
ghost use Rattle.file_report.specs.Outcomes.{head_name, shown_name, spelt};
ghost use Rattle.file_check.specs.Shown.{shown_by_form, shown_found, shown_with, words_in};

use dk_model::{Listed, NoMemory};
use dk_parser::{RawForm, RawPat, RawRule};
use scope_terms::Names;
use shared_term::Found;
use std::alloc::Global;
use term_print::print;
use verdict_book::Shown;

// The name at the head of the first rule.
fn first_head(alloc: Global, rules: &[RawRule]) -> Result<Listed<u8>, NoMemory>
    ensures { IfOk result (λ name. name ≡ shown_name (written_rules (map written_rule rules.now))) }
{
    match rules {
        [] => Ok(Listed::new(alloc)),
        [rule, ..] => head_name(alloc, &rule.left),
    }
}

// A qualified name as it is spelt.
fn spelt(alloc: Global, part: &[u8], name: &[u8]) -> Result<Listed<u8>, NoMemory>
    ensures { IfOk result (λ text. text ≡ spelt part.now name.now) }
{
    let mut text = part.to_vec(alloc)?;
    text.extend_from_slice(b".")?;
    text.extend_from_slice(name)?;
    Ok(Listed::from_vec(text))
}

// The name at the head of a left side.
fn head_name(alloc: Global, left: &RawPat) -> Result<Listed<u8>, NoMemory>
    ensures { IfOk result (λ name. name ≡ head_name (written_pattern left.now)) }
{
    match left {
        RawPat::Name(name) => name.copy(alloc),
        RawPat::App(f, _) => head_name(alloc, f),
        RawPat::Abs(_, _) => Ok(Listed::new(alloc)),
        RawPat::Qualified(part, name) => spelt(alloc, part.as_slice(), name.as_slice()),
        RawPat::Wild => Ok(Listed::new(alloc)),
        RawPat::Guard(_) => Ok(Listed::new(alloc)),
    }
}

// The name that is declared, or that at the head of the first rule; or that it was asserted.
fn shown_by_form(alloc: Global, form: RawForm) -> Result<Shown, NoMemory>
    ensures { IfOk result (λ shown. shown ≡ shown_by_form (written_form form)) }
{
    match form {
        RawForm::Declare {
            name,
            params,
            typ,
            body,
            ..
        } => {
            drop(params);
            drop(typ);
            drop(body);
            Ok(Shown::Name(name))
        }
        RawForm::Rules(rules) => {
            let head = first_head(alloc, rules.as_slice());
            drop(rules);
            Ok(Shown::Name(head?))
        }
        RawForm::Query { asked, .. } => {
            drop(asked);
            Ok(Shown::Asserted)
        }
        RawForm::Module(_) => Ok(Shown::Name(Listed::new(alloc))),
        RawForm::Require(_) => Ok(Shown::Name(Listed::new(alloc))),
    }
}

// The answer of a query; its symbols are spelt as in the module that is being read.
fn shown_found(alloc: Global, names: &Names, found: &Found) -> Result<Shown, NoMemory>
    ensures { IfOk result (λ shown. shown
        ≡ shown_found (words_in (reading names.now)) (plain_found found.now)) }
{
    match found {
        Found::Yes => Ok(Shown::Yes),
        Found::No => Ok(Shown::No),
        Found::Of(typ) => Ok(Shown::Of(print(alloc, typ, names)?)),
        Found::Value(value) => Ok(Shown::Value(print(alloc, value, names)?)),
    }
}

/// What is shown of a command of the module that is being read, where the reader found this of it itself.
pub fn shown_with(
    alloc: Global,
    names: &Names,
    form: RawForm,
    found: &Option<Found>,
) -> Result<Shown, NoMemory>
    ensures { IfOk result (λ shown. shown ≡ shown_with (words_in (reading names.now))
        (written_form form) (option_map plain_found found.now)) }
{
    match found {
        Some(found) => {
            drop(form);
            shown_found(alloc, names, found)
        }
        None => shown_by_form(alloc, form),
    }
}
