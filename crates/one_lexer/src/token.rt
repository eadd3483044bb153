//! The token that is spelt.
ghost use Rattle.std.specs.Prelude.{◌≡◌, IfOk};
ghost use Rattle.one_lexer.specs.Steps.{token_of};

use crate::next::Spelt;
use dk_lexer::Token;
use dk_model::{Listed, NoMemory};
use std::alloc::Global;

impl Spelt<'_> {
    /// The token, with a copy of its spelling: a sign takes no memory.
    pub fn token(self, alloc: Global) -> Result<Token, NoMemory>
        ensures { IfOk result (λ token. token ≡ token_of self.entry) }
    {
        let spelling = if self.text.is_empty() {
            Listed::new(alloc)
        } else {
            Listed::from_slice(alloc, self.text)?
        };
        Ok(Token {
            kind: self.kind,
            spelling,
            offset: self.here.offset,
            line: self.here.line,
        })
    }
}
