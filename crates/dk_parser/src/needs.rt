//! The modules that a command or a directive needs.
ghost use Rattle.std.specs.Prelude.{◌≡◌, ◌∷◌, ◌++◌, [], map, reverse, IfOk, OnOk};
ghost use Rattle.std.specs.List.{flat_map};
ghost use Rattle.dk_parser.specs.Modules.{modules_in, modules_in_asked, modules_in_maybe, modules_in_note, modules_in_param, modules_in_pattern, modules_in_rule, modules_of};
ghost use Rattle.dk_parser.specs.Needed.{modules_at};
ghost use Rattle.dk_parser.specs.RawViews.{maybe_written, written, written_asked, written_form, written_note, written_param, written_pattern, written_rule};

use crate::{RawAsked, RawForm, RawNote, RawParam, RawRule};
use dk_model::{Listed, NoMemory};
use dk_terms::{RawOperation, RawPat, RawTerm};
use std::alloc::Global;

// The modules so far, from the last one on. It goes backwards: a term is gone through by a loop from its last operation on, an
// application of patterns from its last argument to its head, and only brackets of patterns nest.
#[derive(Drop)]
struct Needs {
    alloc: Global,
    modules: Vec<Listed<u8>>,
}

impl RawForm {
    /// The modules that it needs, from the last one on: those of the qualified names of a command, as often as they stand
    /// there; that of `#REQUIRE`. Only they take memory.
    pub fn needs(&self, alloc: Global) -> Result<Vec<Listed<u8>>, NoMemory>
        ensures { IfOk result
            (λ modules. modules.items ≡ reverse (modules_of (written_form self.now))) }
    {
        let mut needs = Needs {
            alloc,
            modules: Vec::new(alloc),
        };
        needs.form(self)?;
        Ok(needs.modules)
    }
}

impl Needs {
    fn form(&mut self, form: &RawForm) -> Result<(), NoMemory>
        ensures { OnOk result (self.new.modules.items
            ≡ self.old.modules.items ++ reverse (modules_of (written_form form.now))) }
    {
        match form {
            RawForm::Declare {
                params,
                typ,
                body,
                ..
            } => {
                self.maybe_term(body)?;
                self.maybe_term(typ)?;
                self.params(params.as_slice())
            }
            RawForm::Rules(rules) => self.rules(rules.as_slice()),
            RawForm::Query { asked, .. } => self.asked(asked),
            RawForm::Module(_) => Ok(()),
            RawForm::Require(name) => self.add(name.as_slice()),
        }
    }

    fn asked(&mut self, asked: &RawAsked) -> Result<(), NoMemory>
        ensures { OnOk result (self.new.modules.items
            ≡ self.old.modules.items ++ reverse (modules_in_asked (written_asked asked.now))) }
    {
        match asked {
            RawAsked::Typed(t, a) => self.both(t, a),
            RawAsked::Equal(t, u) => self.both(t, u),
            RawAsked::Infer(t) | RawAsked::Eval(t) => self.term(t),
        }
    }

    fn both(&mut self, first: &RawTerm, second: &RawTerm) -> Result<(), NoMemory>
        ensures { OnOk result (self.new.modules.items ≡ self.old.modules.items
            ++ reverse (modules_in (written first.now) ++ modules_in (written second.now))) }
    {
        self.term(second)?;
        self.term(first)
    }

    fn params(&mut self, params: &[RawParam]) -> Result<(), NoMemory>
        ensures { OnOk result (self.new.modules.items ≡ self.old.modules.items
            ++ reverse (flat_map modules_in_param (map written_param params.now))) }
    {
        let mut rest = params;
        while let Some((last, front)) = rest.split_last() {
            self.term(&last.typ)?;
            rest = front;
        }
        Ok(())
    }

    fn rules(&mut self, rules: &[RawRule]) -> Result<(), NoMemory>
        ensures { OnOk result (self.new.modules.items ≡ self.old.modules.items
            ++ reverse (flat_map modules_in_rule (map written_rule rules.now))) }
    {
        let mut rest = rules;
        while let Some((last, front)) = rest.split_last() {
            self.rule(last)?;
            rest = front;
        }
        Ok(())
    }

    fn rule(&mut self, rule: &RawRule) -> Result<(), NoMemory>
        ensures { OnOk result (self.new.modules.items
            ≡ self.old.modules.items ++ reverse (modules_in_rule (written_rule rule.now))) }
    {
        self.term(&rule.right)?;
        self.pattern(&rule.left)?;
        self.notes(rule.context.as_slice())
    }

    fn notes(&mut self, notes: &[RawNote]) -> Result<(), NoMemory>
        ensures { OnOk result (self.new.modules.items ≡ self.old.modules.items
            ++ reverse (flat_map modules_in_note (map written_note notes.now))) }
    {
        let mut rest = notes;
        while let Some((last, front)) = rest.split_last() {
            self.maybe_term(&last.note)?;
            rest = front;
        }
        Ok(())
    }

    fn maybe_term(&mut self, term: &Option<RawTerm>) -> Result<(), NoMemory>
        ensures { OnOk result (self.new.modules.items
            ≡ self.old.modules.items ++ reverse (modules_in_maybe (maybe_written term.now))) }
    {
        match term {
            Some(term) => self.term(term),
            None => Ok(()),
        }
    }

    // From the last operation on: names stand in a list as in the text.
    #[tactic(auto, using(crate::proofs::Needed::needed_before, crate::proofs::Needed::all_needed))]
    fn term(&mut self, term: &RawTerm) -> Result<(), NoMemory>
        ensures { OnOk result (self.new.modules.items
            ≡ self.old.modules.items ++ reverse (modules_in (written term.now))) }
    {
        let mut rest = term.operations.as_slice();
        while let Some((last, front)) = rest.split_last() {
            self.operation(term, *last)?;
            rest = front;
        }
        Ok(())
    }

    fn operation(&mut self, term: &RawTerm, operation: RawOperation) -> Result<(), NoMemory>
        ensures { OnOk result (self.new.modules.items
            ≡ self.old.modules.items ++ modules_at term.now.letters operation) }
    {
        match operation {
            RawOperation::Qualified(span, count) => {
                let (module_name, _) = term.qualified(span, count);
                self.add(module_name)
            }
            _ => Ok(()),
        }
    }

    fn pattern(&mut self, pattern: &RawPat) -> Result<(), NoMemory>
        ensures { OnOk result (self.new.modules.items
            ≡ self.old.modules.items ++ reverse (modules_in_pattern (written_pattern pattern.now))) }
    {
        let mut front = pattern;
        loop {
            match front {
                RawPat::Qualified(name, _) => return self.add(name.as_slice()),
                RawPat::Guard(guard) => return self.term(guard),
                RawPat::App(function, argument) => {
                    self.pattern(argument)?;
                    front = function;
                }
                RawPat::Abs(_, body) => front = body,
                RawPat::Name(_) | RawPat::Wild => return Ok(()),
            }
        }
    }

    fn add(&mut self, name: &[u8]) -> Result<(), NoMemory>
        ensures { OnOk result (self.new.modules.items ≡ self.old.modules.items ++ name.now ∷ []) }
    {
        let name = Listed::from_slice(self.alloc, name)?;
        self.modules.push(name)?;
        Ok(())
    }
}
