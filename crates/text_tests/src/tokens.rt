//! Tokens by kind and offset, with the line where it isn't 1, for the cases of docs/syntax.md.
use crate::token_rows::{Limit, ROWS, Row};
use dk_lexer::{Sign, Token, TokenKind};
use dk_model::{Code, Limits};
use one_lexer::{Carried, Lexer, Taken};
use std::alloc::Global;
use std::test::Fail;

// What was read of a text.
#[derive(Drop)]
struct Reading {
    lexer: Lexer,
    carried: Carried,
    tokens: String,
    fault: Option<Code>,
}

impl Reading {
    fn new(alloc: Global, limit: Limit) -> Reading {
        Reading {
            lexer: Lexer::new(limits(limit)),
            carried: Carried::new(alloc),
            tokens: String::new(alloc),
            fault: None,
        }
    }
}

fn limits(limit: Limit) -> Limits {
    let mut limits = Limits::standard();
    match limit {
        Limit::Standard => {}
        Limit::Name(bytes) => limits.name_bytes = bytes,
        Limit::Command(bytes) => limits.command_bytes = bytes,
        Limit::Input(bytes) => limits.input_bytes = bytes,
    }
    limits
}

fn sign_text(sign: Sign) -> &'static str {
    match sign {
        Sign::Colon => ":",
        Sign::Defined => ":=",
        Sign::Arrow => "->",
        Sign::DoubleArrow => "=>",
        Sign::LongArrow => "-->",
        Sign::Dot => ".",
        Sign::Comma => ",",
        Sign::OpenBracket => "(",
        Sign::CloseBracket => ")",
        Sign::OpenSquare => "[",
        Sign::CloseSquare => "]",
        Sign::OpenBrace => "{",
        Sign::CloseBrace => "}",
        Sign::Equal => "==",
    }
}

fn kind_text(kind: TokenKind) -> &'static str {
    match kind {
        TokenKind::Plain => "plain",
        TokenKind::Quoted => "quoted",
        TokenKind::Qualified => "qualified",
        TokenKind::Wildcard => "_",
        TokenKind::Star => "Type",
        TokenKind::Def => "def",
        TokenKind::Thm => "thm",
        TokenKind::Profile => "profile",
        TokenKind::Sign(sign) => sign_text(sign),
    }
}

fn keep(alloc: Global, tokens: &mut String, token: Token) -> Result<(), Fail> {
    let kind = kind_text(token.kind);
    let text = if token.line > 1 {
        format!(in alloc; " {kind} {}/{}", token.offset, token.line)?
    } else {
        format!(in alloc; " {kind} {}", token.offset)?
    };
    tokens.push_str(text.as_str())?;
    Ok(())
}

// Takes the tokens that a piece of the text settles.
fn take(alloc: Global, reading: &mut Reading, piece: &[u8]) -> Result<(), Fail> {
    reading.carried.put(piece)?;
    for _ in 0..u64::MAX {
        match reading.lexer.take(reading.carried.bytes()) {
            Taken::Token(spelt, left) => {
                let token = spelt.token(alloc)?;
                reading.carried.keep(left);
                keep(alloc, &mut reading.tokens, token)?;
            }
            Taken::More(left) => {
                reading.carried.keep(left);
                return Ok(());
            }
            Taken::Failed(code) => {
                reading.fault = Some(code);
                return Ok(());
            }
        }
    }
    Ok(())
}

// Takes the tokens that the end of the text settles.
fn finish(alloc: Global, reading: &mut Reading) -> Result<(), Fail> {
    for _ in 0..u64::MAX {
        match reading.lexer.finish(reading.carried.bytes()) {
            Taken::Token(spelt, left) => {
                let token = spelt.token(alloc)?;
                reading.carried.keep(left);
                keep(alloc, &mut reading.tokens, token)?;
            }
            Taken::More(_) => return Ok(()),
            Taken::Failed(code) => {
                reading.fault = Some(code);
                return Ok(());
            }
        }
    }
    Ok(())
}

// Whether the tokens, the fault and the line at the end are those of the row.
fn is_due(reading: &Reading, row: &Row<'_>) -> bool {
    let (_, _, tokens, fault, line) = *row;
    reading.tokens.as_str() == tokens && reading.fault == fault && reading.lexer.line() == line
}

// Whether a text that comes byte by byte has its tokens, its fault and its line at the end.
fn is_lexed(alloc: Global, row: &Row<'_>) -> Result<bool, Fail> {
    let (text, limit, _, _, _) = *row;
    let mut reading = Reading::new(alloc, limit);
    for byte in text {
        let piece = [*byte];
        take(alloc, &mut reading, piece.as_slice())?;
    }
    finish(alloc, &mut reading)?;
    Ok(is_due(&reading, row))
}

// What a file of one byte is: a token of this text, a blank, or a fault.
fn one_byte(byte: u8) -> (&'static str, Option<Code>) {
    match byte {
        b'a'..=b'z' | b'A'..=b'Z' | b'0'..=b'9' | b'!' | b'?' => (" plain 0", None),
        b'_' => (" _ 0", None),
        b' ' | b'\t' | b'\r' | b'\n' => ("", None),
        b':' => (" : 0", None),
        b'.' => (" . 0", None),
        b',' => (" , 0", None),
        b'(' => (" ( 0", None),
        b')' => (" ) 0", None),
        b'[' => (" [ 0", None),
        b']' => (" ] 0", None),
        b'{' => (" { 0", None),
        b'}' => (" } 0", None),
        b'-' | b'=' => ("", Some(Code::E03)),
        _ => ("", Some(Code::E01)),
    }
}

/// The first byte whose file isn't as it is due.
fn first_byte(alloc: Global) -> Result<Option<u8>, Fail> {
    for byte in 0..=255u8 {
        let (tokens, fault) = one_byte(byte);
        let line = if byte == b'\n' { 2 } else { 1 };
        let text = [byte];
        let row = (text.as_slice(), Limit::Standard, tokens, fault, line);
        if !is_lexed(alloc, &row)? {
            return Ok(Some(byte));
        }
    }
    Ok(None)
}

// Whether a text whose first bytes come in a piece of their own has the tokens, the fault and the line of the whole.
fn is_lexed_in_two(alloc: Global, row: &Row<'_>, cut: usize) -> Result<bool, Fail> {
    let (text, limit, _, _, _) = *row;
    let mut reading = Reading::new(alloc, limit);
    let (front, rest) = text.split_at(cut.min(text.len()));
    take(alloc, &mut reading, front)?;
    take(alloc, &mut reading, rest)?;
    finish(alloc, &mut reading)?;
    Ok(is_due(&reading, row))
}

/// The first text that isn't lexed as it is due, whole or in two pieces.
fn first_text(alloc: Global) -> Result<Option<&'static [u8]>, Fail> {
    for row in &ROWS {
        let mut is_due = is_lexed(alloc, row)?;
        for cut in 0..=row.0.len() {
            is_due = is_lexed_in_two(alloc, row, cut)? && is_due;
        }
        if !is_due {
            return Ok(Some(row.0));
        }
    }
    Ok(None)
}

#[test]
fn gives_the_tokens_and_the_fault_of_each_text(rt: HostRuntime) -> Result<(), Fail> {
    let text = first_text(rt.alloc())?;
    let byte = first_byte(rt.alloc())?;
    assert!(rt; text.is_none() && byte.is_none(), "at {text:?} {byte:?}");
    Ok(())
}
