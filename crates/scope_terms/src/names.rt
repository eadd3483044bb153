//! The names that the commands so far declare, module by module.
ghost use Rattle.std.specs.Prelude.{◌≤◌, All, length};
ghost use Rattle.scope_terms.specs.Modules.{IsKept, past};

use crate::declaration::{TypeAndBody, declaration_at};
use crate::meaning::Scope;
use crate::modules::{Entered, Modules, Place, last_place};
use crate::query::asked_at;
use crate::rule::rules_at;
use crate::spelt::Symbol;
use dk_model::{Code, Fault, Listed, NoMemory, Scoped};
use dk_parser::{Raw, RawForm};
use shared_term::Making;
use std::alloc::Global;

/// Why a command wasn't scoped: its first code from left to right, or want of memory.
pub type ScopeFault = Fault;

/// The names that the accepted commands declare, module by module, each with the number of its command, and the modules
/// that are being read.
#[derive(Drop)]
pub struct Names {
    modules: Modules,
    // Where those are kept that are entered and not left; the one being read comes last.
    entered: Vec<Place>,
    // For each number where its symbol is kept; None where its command declares none.
    symbols: Vec<Option<Symbol>>,
    count: u32,
    // Each has its place.
    ghost within: { All (λ p. past p ≤ length modules.named.entries) entered.items },
    ghost kept: { All (IsKept modules) symbols.items },
}

impl Names {
    ghost use Rattle.std.specs.Prelude.{◌≡◌, ◌<◌, Some, is_some, not, if◌then◌else◌, IfOk, IfErr, OnOk, OnErr};
    ghost use Rattle.std.specs.Map.{lookup};
    ghost use Rattle.dk_model.specs.Scoping.{plain_command};
    ghost use Rattle.dk_model.specs.declared.code.Fault.TheVariants.{Refused};
    ghost use Rattle.dk_parser.specs.RawViews.{written_form};
    ghost use Rattle.std.specs.Option.{option_map};
    ghost use Rattle.scope_terms.specs.Scopes.{number_of, numbers_in, same_spelling, scoped, spelling_of, with_number};
    ghost use Rattle.scope_terms.specs.Reading.{after_command, after_entering, after_leaving, current, module_of, no_reading, own_names, spelt_word, with_own_name, with_symbols};
    ghost use Rattle.scope_terms.specs.Names.{reading};
    ghost use Rattle.scope_terms.specs.Answers.{IsFaultOf};
    ghost use Rattle.scope_terms.specs.Meanings.{scoping_of};

    /// No names, and no module is entered.
    pub fn new(alloc: Global) -> Result<Names, NoMemory>
        ensures { IfOk result (λ names. reading names ≡ no_reading) }
    {
        Ok(Names {
            modules: Modules::new(alloc),
            entered: Vec::new(alloc),
            symbols: Vec::new(alloc),
            count: 0,
        })
    }

    /// Enters a module that is new: it is the one being read from then on. Nothing changes where it is known or open. The
    /// answer says how it stood; None is the module without a name.
    pub fn enter(&mut self, alloc: Global, module_name: Option<&str>) -> Result<Entered, NoMemory>
        ensures ok { IfOk result (λ stood. stood ≡ (reading self.old).standing (module_of module_name.entry)) }
        ensures entered { OnOk result
            (reading self.new ≡ after_entering (reading self.old) (module_of module_name.entry)) }
        ensures err { OnErr result (reading self.new ≡ reading self.old) }
    {
        let stood = self.modules.standing(module_name);
        if let Entered::New = stood {
            self.entered.reserve(1)?;
            let place = self.modules.place(alloc, module_name)?;
            self.modules.set_standing(place, Entered::Open);
            self.entered.push_reserved(place);
        }
        Ok(stood)
    }

    /// Leaves the module being read, for good; the one that was entered before it is read again.
    pub fn leave(&mut self)
        requires { 0 < length (reading self.old).entered }
        ensures { reading self.new ≡ after_leaving (reading self.old) }
    {
        if let Some(place) = self.entered.pop() {
            self.modules.set_standing(place, Entered::Known);
        }
    }

    /// The number of the accepted command of this module that declared this name; None exactly where none did. The module
    /// None is the one without a name.
    pub fn number(&self, module_name: Option<&str>, name: &[u8]) -> Option<u32>
        ensures { result ≡ lookup (same_spelling name.now)
            (numbers_in (reading self.now).symbols (module_of module_name.entry)) }
    {
        match module_name {
            Some(module_name) => self.number_in(module_name.as_bytes(), name),
            None => self.modules.number_at(Place::Nameless, name),
        }
    }

    /// The number of a name of the module of this name.
    pub(crate) fn number_in(&self, module_name: &[u8], name: &[u8]) -> Option<u32>
        ensures { result ≡ lookup (same_spelling name.now)
            (numbers_in (reading self.now).symbols (Some module_name.now)) }
    {
        self.modules.number_in(module_name, name)
    }

    /// The number of a name of the module being read.
    pub(crate) fn own_number(&self, name: &[u8]) -> Option<u32>
        ensures { result ≡ number_of (own_names (reading self.now)) name.now }
    {
        self.modules.number_at(last_place(&self.entered), name)
    }

    /// The module and the name with which this number was declared, as bytes; None exactly where it declares no symbol. The
    /// module None is the one without a name.
    pub fn spelt(&self, number: u32) -> Option<(Option<&[u8]>, &[u8])>
        ensures { option_map spelt_word result ≡ spelling_of (reading self.now).symbols number }
    {
        match self.symbols.get(number as usize) {
            Some(kept) => match kept {
                Some(symbol) => self.modules.spelling_at(*symbol),
                None => None,
            },
            None => None,
        }
    }

    /// The name of the module being read, as bytes; None is the one without a name.
    pub fn current(&self) -> Option<&[u8]>
        ensures { module_of result ≡ current (reading self.now) }
    {
        self.modules.name_at(last_place(&self.entered))
    }

    /// How many numbers were given: one for each accepted command, of whichever module.
    pub fn count(&self) -> u32
        ensures { result ≡ (reading self.now).symbols.count }
    {
        self.count
    }

    /// The command, which stands in the module being read, with its names as numbers, or its first code from left to right.
    /// Before a module is entered it stands in the one without a name.
    ///
    /// Accepted, the declared name is added to that module with the next number; rules and queries take a number without a
    /// name. After a refusal, want of memory too, the names are as before (docs/scoping.md).
    pub fn scope(&mut self, alloc: Global, raw: &Raw) -> Result<Scoped, ScopeFault>
        requires { (reading self.old).symbols.count < 4294967295 }
        ensures ok { IfOk result (λ c. scoping_of (reading self.old) raw.now ≡ scoped (plain_command c)) }
        ensures added { OnOk result
            (reading self.new ≡ after_command (reading self.old) (written_form raw.now.form)) }
        ensures refused { IfErr result (IsFaultOf (scoping_of (reading self.old) raw.now)) }
        ensures err { OnErr result (reading self.new ≡ reading self.old) }
    {
        let mut making = Making::new(alloc);
        match &raw.form {
            RawForm::Declare {
                sort,
                name,
                params,
                typ,
                body,
            } => {
                let scope = Scope::Command(self);
                let params = params.as_slice();
                let TypeAndBody { typ, body } = match declaration_at(
                    &mut making,
                    &scope,
                    params,
                    typ,
                    body,
                ) {
                    Ok(declared) => declared,
                    Err(fault) => return Err(self.first_fault(name, Code::E11, fault)),
                };
                if !self.add(alloc, name)? {
                    return Err(Fault::Refused(Code::E11));
                }
                Ok(Scoped::Declare {
                    sort: *sort,
                    typ,
                    body,
                })
            }
            RawForm::Rules(rules) => {
                let rules = rules_at(&mut making, rules.as_slice(), self)?;
                self.add_number()?;
                Ok(Scoped::Rules(rules))
            }
            RawForm::Query { demand, asked } => {
                let asked = asked_at(&mut making, asked, self)?;
                self.add_number()?;
                Ok(Scoped::Query {
                    demand: *demand,
                    asked,
                })
            }
            RawForm::Module(_) | RawForm::Require(_) => Err(Fault::Refused(Code::E06)),
        }
    }

    /// The first fault where this one is of what stands behind the name: the code, if the module being read declares the
    /// name already.
    pub(crate) fn first_fault(&self, name: &Listed<u8>, code: Code, fault: Fault) -> Fault
        ensures { result
            ≡ if is_some (number_of (own_names (reading self.now)) name.now) then Refused code else fault }
    {
        if self.own_number(name.as_slice()).is_some() {
            Fault::Refused(code)
        } else {
            fault
        }
    }

    /// Adds a name of the module being read with the next number, unless it has one: whether it was added.
    pub(crate) fn add(&mut self, alloc: Global, name: &Listed<u8>) -> Result<bool, NoMemory>
        requires room { (reading self.old).symbols.count < 4294967295 }
        ensures is_new { IfOk result
            (λ added. added ≡ not (is_some (number_of (own_names (reading self.old)) name.now))) }
        ensures ok { IfOk result (λ added.
            reading self.new
            ≡ if added then with_own_name (reading self.old) name.now else reading self.old) }
        ensures err { OnErr result (reading self.new ≡ reading self.old) }
    {
        let place = last_place(&self.entered);
        let at = self.modules.names_at(place);
        self.symbols.reserve(1)?;
        let added = self.modules.add_at(alloc, place, name, self.count)?;
        if added {
            self.symbols.push_reserved(Some(Symbol { place, at }));
            self.count += 1;
        }
        Ok(added)
    }

    /// Gives the next number to a command that declares nothing.
    pub(crate) fn add_number(&mut self) -> Result<(), NoMemory>
        requires { (reading self.old).symbols.count < 4294967295 }
        ensures ok { OnOk result (reading self.new
            ≡ with_symbols (reading self.old) (with_number (reading self.old).symbols)) }
        ensures err { OnErr result (reading self.new ≡ reading self.old) }
    {
        self.symbols.push(None)?;
        self.count += 1;
        Ok(())
    }
}
