//! The names of books on the shelf.
ghost use Rattle.std.specs.Prelude.{◌≡◌, ◌≤◌, ◌<◌, ◌==◌, Some, length, reverse, position, IfOk, IfSome};
ghost use Rattle.std.specs.String.{string_bytes};
ghost use Rattle.theory_walk.specs.BookNames.{book_named, length_behind_slash, own_module};

use dk_lexer::is_plain_name;
use dk_model::{Listed, NoMemory};
use std::alloc::Global;

// The last slash, counted from behind.
fn last_slash(name: &[u8]) -> Option<usize>
    ensures value { result ≡ position (λ b. b == 47) (reverse name.now) }
    ensures within { IfSome result (λ at. at < length name.now) }
{
    name.iter().rev().position(|byte| *byte == b'/')
}

// How many bytes stand behind the last slash.
fn length_behind_slash(name: &[u8]) -> usize
    ensures value { result ≡ length_behind_slash name.now }
    ensures within { result ≤ length name.now }
{
    match last_slash(name) {
        Some(at) => at,
        None => name.len(),
    }
}

/// The name of the book of a module: it lies beside the file.
pub fn book_name(alloc: Global, file: &[u8], name: &[u8]) -> Result<String, NoMemory>
    ensures { IfOk result (λ book. string_bytes book ≡ book_named file.now (Some name.now)) }
{
    let (folder, _) = file.split_at(file.len() - length_behind_slash(file));
    let mut book = folder.to_vec(alloc)?;
    book.extend_from_slice(name)?;
    book.extend_from_slice(b".dk")?;
    // A plain name is ASCII, so this is a text.
    match String::from_utf8(book) {
        Ok(book) => Ok(book),
        Err(_) => Err(NoMemory),
    }
}

/// The file's own module, if it has one.
pub fn own_module(alloc: Global, file: &[u8]) -> Result<Option<Listed<u8>>, NoMemory>
    ensures { IfOk result (λ own. own ≡ own_module file.now) }
{
    let (_, name) = file.split_at(file.len() - length_behind_slash(file));
    let (stem, ending) = name.split_at(name.len().saturating_sub(3));
    if ending != b".dk".as_slice() || !is_plain_name(stem) {
        return Ok(None);
    }
    Ok(Some(Listed::from_slice(alloc, stem)?))
}
