//! The types of the variables that may stand in a term.
ghost use Rattle.std.specs.Prelude.{◌≡◌, ◌<◌, [], OnOk, OnErr, length};
ghost use Rattle.infer_check.specs.Contexts.{with_bound};

use dk_model::{Listed, NoMemory};
use std::alloc::Global;

/// The types of the variables that may stand in a term.
#[derive(Drop)]
pub struct Context<T> {
    /// Those of the rule variables, which mention no bound variable.
    pub rule_vars: Listed<T>,
    /// Those of the bound variables, each over the variables before it, the innermost last.
    pub bound: Listed<T>,
}

impl<T: Drop> Context<T> {
    /// No variables.
    pub fn new(alloc: Global) -> Context<T>
        ensures rule_vars { result.rule_vars ≡ [] }
        ensures bound { result.bound ≡ [] }
    {
        Context {
            rule_vars: Listed::new(alloc),
            bound: Listed::new(alloc),
        }
    }

    /// Binds one more variable of this type.
    pub fn bind(&mut self, typ: T) -> Result<(), NoMemory>
        ensures ok { OnOk result (self.new ≡ with_bound self.old typ) }
        ensures err { OnErr result (self.new ≡ self.old) }
    {
        self.bound.push(typ)
    }

    /// Leaves the innermost variable, and answers its type.
    pub fn leave(&mut self) -> T
        requires { 0 < length self.old.bound }
        ensures { (c : Context T) (typ : T) → self.old ≡ with_bound c typ → (self.new ≡ c) × (result ≡ typ) }
    {
        match self.bound.pop() {
            Some(typ) => typ,
            None => unreachable!(),
        }
    }
}
