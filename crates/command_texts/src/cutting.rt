//! Cuts the bytes of a file at the dots of its commands.
//!
//! The text of a command goes from its first token to its dot, and no command has another dot; so the tokens are enough,
//! and none of the bytes is copied. Begin at `command_spans`.
ghost use Rattle.std.specs.Prelude.{◌≡◌, [], List, None, IfOk, OnOk};
ghost use Rattle.dk_parser.specs.Written.{WrittenCommand};
ghost use Rattle.text_law.specs.Cuts.{AreTextsOf, IsReadAs};
ghost use Rattle.command_texts.specs.Cutting.{Adds};
ghost use Rattle.command_texts.specs.Spans.{cut};

use crate::Span;
use dk_lexer::{Sign, TokenKind};
use dk_model::{Limits, NoMemory};
use one_lexer::{Lexer, Taken};
use std::alloc::Global;

/// The places of the texts of a file's commands and directives, in their order: each from its first token to its dot.
/// Of bytes that aren't read to their end without a fault, nothing is said.
pub fn command_spans(alloc: Global, limits: Limits, bytes: &[u8]) -> Result<Vec<Span>, NoMemory>
    ensures cuts { (commands : List WrittenCommand) → IsReadAs limits bytes.now commands →
        IfOk result (λ spans. AreTextsOf limits bytes.now commands (cut bytes.now spans.items)) }
{
    let mut lexer = Lexer::new(limits);
    let mut texts = Texts::new(alloc);
    let mut rest = bytes;
    while let Taken::Token(token, left) = lexer.finish(rest) {
        texts.token(token.kind, token.here.offset)?;
        rest = rest.split_at(rest.len() - left).1;
    }
    Ok(texts.ended)
}

// The texts of the tokens so far.
#[derive(Drop)]
struct Texts {
    // Those that have ended.
    ended: Vec<Span>,
    // Where the one begins that has not.
    begun: Option<u32>,
}

impl Texts {
    fn new(alloc: Global) -> Texts
        ensures ended { result.ended.items ≡ [] }
        ensures begun { result.begun ≡ None }
    {
        Texts {
            ended: Vec::new(alloc),
            begun: None,
        }
    }

    // The next token: a dot ends a text; any other one goes on with it, or begins one.
    fn token(&mut self, kind: TokenKind, offset: u32) -> Result<(), NoMemory>
        ensures { OnOk result (Adds self.old kind offset self.new) }
    {
        let begin = self.begun.unwrap_or(offset);
        match kind {
            TokenKind::Sign(Sign::Dot) => {
                self.begun = None;
                self.ended.push(Span {
                    begin: begin as usize,
                    end: offset as usize + 1,
                })?;
            }
            _ => self.begun = Some(begin),
        }
        Ok(())
    }
}
