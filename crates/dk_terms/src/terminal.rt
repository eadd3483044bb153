//! Terminals: what a token is to the grammar (docs/grammar.md).
ghost use Rattle.std.specs.Prelude.{◌≡◌, IfOk, position};
ghost use Rattle.dk_terms.specs.Terminals.{dot_role, is_dot, module_part, name_part, query_terminal, terminal_of, word_terminal};

use crate::slices::{before, behind};
use dk_lexer::{Sign, Token, TokenKind};
use dk_model::{Listed, NoMemory};
use std::alloc::Global;

/// A token without its place.
#[derive(Drop)]
pub enum Terminal {
    /// A plain or quoted name, as spelt.
    Name(Listed<u8>),
    /// A qualified name: the part before the dot, and the part behind it.
    Qualified(Listed<u8>, Listed<u8>),
    Wildcard,
    /// The word `Type`.
    Star,
    Def,
    Thm,
    /// The word `#NAME`.
    NameWord,
    /// The word `#REQUIRE`.
    RequireWord,
    /// The word `#CHECK`.
    Check,
    /// The word `#ASSERT`.
    Assert,
    /// The word `#INFER`.
    Infer,
    /// The word `#EVAL`.
    Eval,
    /// Any other word outside the profile.
    Profile,
    Sign(Sign),
}

impl Terminal {
    /// The terminal of a token. Only a qualified name takes memory.
    pub fn of(alloc: Global, token: Token) -> Result<Terminal, NoMemory>
        ensures { IfOk result (λ x. x ≡ terminal_of token) }
    {
        let Token {
            kind,
            spelling,
            offset: _,
            line: _,
        } = token;
        match kind {
            TokenKind::Plain => Ok(Terminal::Name(spelling)),
            TokenKind::Quoted => Ok(Terminal::Name(spelling)),
            TokenKind::Qualified => qualified(alloc, spelling),
            TokenKind::Wildcard => Ok(Terminal::Wildcard),
            TokenKind::Star => Ok(Terminal::Star),
            TokenKind::Def => Ok(Terminal::Def),
            TokenKind::Thm => Ok(Terminal::Thm),
            TokenKind::Profile => Ok(word(spelling.as_slice())),
            TokenKind::Sign(sign) => Ok(Terminal::Sign(sign)),
        }
    }
}

// The terminal of a word that no name is spelt as: six of these begin directives and queries.
fn word(spelling: &[u8]) -> Terminal
    ensures { result ≡ word_terminal spelling.now }
{
    if spelling == b"#NAME".as_slice() {
        Terminal::NameWord
    } else if spelling == b"#REQUIRE".as_slice() {
        Terminal::RequireWord
    } else {
        query_word(spelling)
    }
}

// The terminal of a word that begins no directive.
fn query_word(spelling: &[u8]) -> Terminal
    ensures { result ≡ query_terminal spelling.now }
{
    if spelling == b"#CHECK".as_slice() {
        Terminal::Check
    } else if spelling == b"#ASSERT".as_slice() {
        Terminal::Assert
    } else if spelling == b"#INFER".as_slice() {
        Terminal::Infer
    } else if spelling == b"#EVAL".as_slice() {
        Terminal::Eval
    } else {
        Terminal::Profile
    }
}

// The two parts of a qualified name.
#[tactic(auto, using(crate::proofs::Stacked::behind_one_more))]
fn qualified(alloc: Global, spelling: Listed<u8>) -> Result<Terminal, NoMemory>
    ensures { IfOk result
        (λ x. x ≡ Terminal.Qualified (module_part spelling) (name_part spelling)) }
{
    let bytes = spelling.as_slice();
    let dot = dot_role(bytes);
    let module = Listed::from_slice(alloc, before(bytes, dot))?;
    let name = Listed::from_slice(alloc, behind(behind(bytes, dot), 1))?;
    Ok(Terminal::Qualified(module, name))
}

// Where the first dot is.
fn first_dot(bytes: &[u8]) -> Option<usize>
    ensures { result ≡ position is_dot bytes.now }
{
    bytes.iter().position(|byte| *byte == b'.')
}

// Where the first dot is, or the length.
fn dot_role(bytes: &[u8]) -> usize
    ensures { result ≡ dot_role bytes.now }
{
    first_dot(bytes).unwrap_or(bytes.len())
}
