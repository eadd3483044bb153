//! Whether a text is one command, and which.
ghost use Rattle.std.specs.Prelude.{◌≡◌, ◌==◌, IfOk};
ghost use Rattle.std.specs.List.{list_any};
ghost use Rattle.dk_lexer.specs.declared.token.Token.{Token};
ghost use Rattle.dk_lexer.specs.Tokens.{tokens, whole};
ghost use Rattle.edit_session.specs.Texts.{form_of, is_command_text, is_qualified};
ghost use Rattle.edit_session.specs.Reading.{IsReadAs, IsOnlyCommand};

use dk_io::{Book, Failed, MemShelf, Shelf};
use dk_lexer::TokenKind;
use dk_model::{Limits, NoMemory};
use dk_parser::Raw;
use file_reader::{Next, ReadEnd, Reader};
use one_lexer::{Lexer, Taken};
use std::alloc::Global;

/// The command that a text is, or None exactly where it isn't one command of one line without directives and qualified names.
pub fn read_text(alloc: Global, limits: Limits, text: &[u8]) -> Result<Option<Raw>, NoMemory>
    ensures { IfOk result (IsReadAs limits text.now) }
{
    if has_newline(text) {
        return Ok(None);
    }
    if has_qualified(limits, text) {
        return Ok(None);
    }
    only_command(alloc, limits, text)
}

fn has_newline(text: &[u8]) -> bool
    ensures { result ≡ list_any (λ b. b == 10) text.now }
{
    text.contains(&10)
}

fn is_qualified(kind: TokenKind) -> bool
    ensures { result ≡ is_qualified kind }
{
    match kind {
        TokenKind::Qualified => true,
        _ => false,
    }
}

/// Whether one of the tokens of a text is a qualified name.
fn has_qualified(limits: Limits, text: &[u8]) -> bool
    ensures { result ≡ list_any (λ (t : Token). is_qualified t.kind) (tokens limits text.now whole).tokens }
{
    let mut lexer = Lexer::new(limits);
    let mut rest = text;
    while let Taken::Token(token, left) = lexer.finish(rest) {
        if is_qualified(token.kind) {
            return true;
        }
        rest = rest.split_at(rest.len() - left).1;
    }
    false
}

/// A shelf whose open book has these bytes.
fn shelf_of(alloc: Global, text: &[u8]) -> Result<MemShelf, NoMemory>
    ensures { IfOk result (λ shelf. shelf.left ≡ text.now) }
{
    let mut books = Vec::new(alloc);
    let book = Book {
        name: String::new(alloc),
        bytes: text.to_vec(alloc)?,
    };
    books.push(book)?;
    let Ok(mut shelf) = MemShelf::new(alloc, books, 4096, Vec::new(alloc)) else {
        return Err(NoMemory);
    };
    match shelf.open_book("") {
        Ok(()) => Ok(shelf),
        Err(Failed) => Err(NoMemory),
    }
}

/// The command that a text is read as, where it is read as one command and no more.
fn only_command(alloc: Global, limits: Limits, text: &[u8]) -> Result<Option<Raw>, NoMemory>
    ensures { IfOk result (IsOnlyCommand (form_of limits text.now)) }
{
    let mut shelf = shelf_of(alloc, text)?;
    let mut reader = Reader::new(alloc, limits);
    let raw = match reader.next(alloc, &mut shelf) {
        Ok(Next::Command(raw)) => raw,
        Ok(Next::Directive(_)) => return Ok(None),
        Err(ReadEnd::Whole) => return Ok(None),
        Err(ReadEnd::Refused(_, _)) => return Ok(None),
        Err(ReadEnd::Unread | ReadEnd::NoMemory(_)) => return Err(NoMemory),
    };
    match reader.next(alloc, &mut shelf) {
        Ok(_) => Ok(None),
        Err(ReadEnd::Whole) => Ok(Some(raw)),
        Err(ReadEnd::Refused(_, _)) => Ok(None),
        Err(ReadEnd::Unread | ReadEnd::NoMemory(_)) => Err(NoMemory),
    }
}
