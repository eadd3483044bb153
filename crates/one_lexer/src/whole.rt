//! A whole text at once.
ghost use Rattle.std.specs.Prelude.{◌≡◌};
ghost use Rattle.dk_lexer.specs.Tokens.{tokens, whole};

use crate::lexer::{Lexer, Taken};
use dk_model::{Code, Limits};

/// The fault of a whole text, if its bytes spell one, and its line; else the line of the end.
pub fn text_fault(limits: Limits, text: &[u8]) -> (Option<Code>, u32)
    ensures fault { result.0 ≡ (tokens limits text.now whole).fault }
    ensures line { result.1 ≡ (tokens limits text.now whole).line }
{
    let mut lexer = Lexer::new(limits);
    let mut rest = text;
    loop {
        match lexer.finish(rest) {
            Taken::Token(_, left) => rest = rest.split_at(rest.len() - left).1,
            Taken::More(_) => return (None, lexer.line()),
            Taken::Failed(code) => return (Some(code), lexer.line()),
        }
    }
}
