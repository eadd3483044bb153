//! Directives, one terminal at a time.
ghost use Rattle.std.specs.Prelude.{◌≡◌};
ghost use Rattle.dk_parser.specs.Parsing.{directive_form, module_named};
ghost use Rattle.dk_parser.specs.RawViews.{written_form};
ghost use Rattle.dk_parser.specs.Views.{plain_step};

use crate::RawForm;
use crate::command_so_far::{Advance, CommandSoFar, Due};
use dk_lexer::is_plain_name;
use dk_model::Listed;

/// A directive, by its word.
#[derive(Clone, Copy)]
pub enum Directive {
    Name,
    Require,
}

impl Directive {
    /// The directive with its module.
    pub fn form(self, name: Listed<u8>) -> RawForm
        ensures { written_form result ≡ directive_form self name }
    {
        match self {
            Directive::Name => RawForm::Module(name),
            Directive::Require => RawForm::Require(name),
        }
    }
}

impl CommandSoFar {
    // The name behind the word of a directive: a module's is plain.
    pub(crate) fn module_named(&mut self, directive: Directive, name: Listed<u8>) -> Advance
        ensures { plain_step result self.new ≡ module_named directive name }
    {
        if is_plain_name(name.as_slice()) {
            self.goes(Due::Dot(directive, name))
        } else {
            Advance::Refuses
        }
    }
}
