//! Texts: their commands, as lexer, parser and scoping make them, and the version that these come to.
use command_check::entry_of;
use dk_lexer::Token;
use dk_model::{Entry, Limits, Listed, NoMemory, Scoped};
use dk_parser::{Parser, Step};
use one_lexer::{Lexer, Taken};
use scope_terms::Names;
use shared_term::Stored;
use signature_log::Version;
use std::alloc::Global;
use std::sync::Arc;

/// The parts of a text, each so often. In a part `$` stands for how often it was written before, and `@` for one more.
pub type Parts = &'static [(&'static str, u32)];

/// A byte of a part that was written so often before.
fn put(alloc: Global, text: &mut Vec<u8>, byte: u8, before: u32) -> Result<(), NoMemory> {
    let number = match byte {
        b'$' => before,
        b'@' => before.saturating_add(1),
        _ => {
            text.push(byte)?;
            return Ok(());
        }
    };
    text.extend_from_slice(format!(in alloc; "{number}")?.as_bytes())?;
    Ok(())
}

fn written(alloc: Global, parts: &[(&str, u32)]) -> Result<Vec<u8>, NoMemory> {
    let mut text = Vec::new(alloc);
    for (part, times) in parts {
        for before in 0..*times {
            for byte in part.as_bytes() {
                put(alloc, &mut text, *byte, before)?;
            }
        }
    }
    Ok(text)
}

#[derive(Drop)]
struct Reading {
    parser: Parser,
    names: Names,
    commands: Listed<Scoped>,
}

fn take(alloc: Global, reading: &mut Reading, token: Token) -> Result<(), NoMemory> {
    if reading.names.count() == u32::MAX {
        return Err(NoMemory);
    }
    match reading.parser.feed(alloc, token) {
        Ok(Step::More) => Ok(()),
        Ok(Step::Command(raw)) => match reading.names.scope(alloc, &raw) {
            Ok(command) => reading.commands.push(command),
            Err(_) => Err(NoMemory),
        },
        // No text here has a directive.
        _ => Err(NoMemory),
    }
}

// A text that spells no token somewhere counts as want of memory too.
fn read(alloc: Global, reading: &mut Reading, text: &[u8]) -> Result<(), NoMemory> {
    let mut lexer = Lexer::new(Limits::standard());
    let mut rest = text;
    for _ in 0..u64::MAX {
        match lexer.finish(rest) {
            Taken::Token(spelt, left) => {
                rest = rest.split_at(rest.len() - left).1;
                take(alloc, reading, spelt.token(alloc)?)?;
            }
            Taken::More(_) => return Ok(()),
            Taken::Failed(_) => return Err(NoMemory),
        }
    }
    Err(NoMemory)
}

fn reading_of(alloc: Global) -> Result<Reading, NoMemory> {
    let names = Names::new(alloc)?;
    Ok(Reading {
        parser: Parser::new(alloc, Limits::standard()),
        names,
        commands: Listed::new(alloc),
    })
}

/// The commands of a text. Each text here has some: what isn't read or scoped counts as want of memory.
pub fn commands_of(alloc: Global, parts: &[(&str, u32)]) -> Result<Listed<Scoped>, NoMemory> {
    let text = written(alloc, parts)?;
    let mut reading = reading_of(alloc)?;
    match read(alloc, &mut reading, text.as_slice()) {
        Ok(()) => Ok(reading.commands),
        Err(NoMemory) => Err(NoMemory),
    }
}

pub fn with(alloc: Global, version: &Version, entry: Entry<Stored>) -> Result<Version, NoMemory> {
    match version.append(Arc::new(alloc, entry)?) {
        Ok(version) => Ok(version),
        Err(_) => Err(NoMemory),
    }
}

/// The version with what a command adds, which isn't checked: evaluation reads no type.
pub fn entered(alloc: Global, version: &Version, command: &Scoped) -> Result<Version, NoMemory> {
    match entry_of(alloc, version, command, None) {
        Ok(entry) => with(alloc, version, entry),
        Err(_) => Err(NoMemory),
    }
}

/// The version after these commands.
pub fn version_after(alloc: Global, commands: &[Scoped]) -> Result<Version, NoMemory> {
    let mut version = Version::empty(alloc)?;
    for command in commands {
        version = entered(alloc, &version, command)?;
    }
    Ok(version)
}

/// The version after the commands of a text.
pub fn version_of_text(alloc: Global, parts: &[(&str, u32)]) -> Result<Version, NoMemory> {
    let commands = commands_of(alloc, parts)?;
    version_after(alloc, commands.as_slice())
}
