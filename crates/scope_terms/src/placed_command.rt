//! A command scoped with its type and its body made node by node: `names.rt` makes the same of boxes.
ghost use Rattle.std.specs.Prelude.{◌≡◌, ◌<◌, IfErr, IfOk, OnErr, OnOk};
ghost use Rattle.dk_parser.specs.RawViews.{written_form};
ghost use Rattle.shared_term.specs.Commands.{stored_command};
ghost use Rattle.scope_terms.specs.Answers.{IsFaultOf};
ghost use Rattle.scope_terms.specs.Meanings.{scoping_of};
ghost use Rattle.scope_terms.specs.Names.{reading};
ghost use Rattle.scope_terms.specs.Reading.{after_command};
ghost use Rattle.scope_terms.specs.Scopes.{scoped};

use crate::declaration::{TypeAndBody, declaration_at};
use crate::meaning::Scope;
use crate::query::asked_at;
use crate::rule::rules_at;
use crate::{Names, ScopeFault};
use dk_model::{Code, Fault};
use dk_parser::{Raw, RawForm};
use shared_term::{Making, StoredCommand};

impl Names {
    /// The command as `scope` has it, with its type and its body stored; they are made in this memory.
    pub fn place(&mut self, making: &mut Making, raw: &Raw) -> Result<StoredCommand, ScopeFault>
        requires { (reading self.old).symbols.count < 4294967295 }
        ensures ok { IfOk result (λ c. scoping_of (reading self.old) raw.now ≡ scoped (stored_command c)) }
        ensures added { OnOk result
            (reading self.new ≡ after_command (reading self.old) (written_form raw.now.form)) }
        ensures refused { IfErr result (IsFaultOf (scoping_of (reading self.old) raw.now)) }
        ensures err { OnErr result (reading self.new ≡ reading self.old) }
    {
        let alloc = making.alloc();
        match &raw.form {
            RawForm::Declare {
                sort,
                name,
                params,
                typ,
                body,
            } => {
                let scope = Scope::Command(self);
                let params = params.as_slice();
                let TypeAndBody { typ, body } = match declaration_at(
                    making, &scope, params, typ, body,
                ) {
                    Ok(parts) => parts,
                    Err(fault) => return Err(self.first_fault(name, Code::E11, fault)),
                };
                if !self.add(alloc, name)? {
                    return Err(Fault::Refused(Code::E11));
                }
                Ok(StoredCommand::Declare {
                    sort: *sort,
                    typ,
                    body,
                })
            }
            RawForm::Rules(rules) => {
                let rules = rules_at(making, rules.as_slice(), self)?;
                self.add_number()?;
                Ok(StoredCommand::Rules(rules))
            }
            RawForm::Query { demand, asked } => {
                let asked = asked_at(making, asked, self)?;
                self.add_number()?;
                Ok(StoredCommand::Query {
                    demand: *demand,
                    asked,
                })
            }
            RawForm::Module(_) | RawForm::Require(_) => Err(Fault::Refused(Code::E06)),
        }
    }
}
