//! A line from its bytes.
ghost use Rattle.std.specs.Prelude.{◌≡◌, ◌<◌, ℕ, List, None, IfSome, length, position};
ghost use Rattle.script_lines.specs.Reading.{IsNoTextEdit, IsReadAs};
ghost use Rattle.script_lines.specs.Scripts.{Edit as PlainEdit, deletes, edit_at, edits, inserts, is_blank, line_of, number_of, replaces, text_edit};

use crate::number::number_of;
use crate::{Edit, Line};

fn first_blank(words: &[u8]) -> Option<usize>
    ensures value { result ≡ position is_blank words.now }
    ensures within { IfSome result (λ at. at < length words.now) }
{
    words.iter().position(|byte| *byte == b' ')
}

// The number before the first blank, and the text behind it.
fn number_and_text(words: &[u8]) -> Option<(u32, &[u8])>
    ensures some { IfSome result (λ p. (edit : ℕ → List ℕ → PlainEdit)
        → text_edit edit words.now ≡ edits (edit p.0 p.1.now)) }
    ensures none { result ≡ None → IsNoTextEdit words.now }
{
    let at = first_blank(words)?;
    let number = number_of(&words[..at])?;
    Some((number, &words[at + 1..]))
}

fn insert(words: &[u8]) -> Line<'_>
    ensures { IsReadAs (text_edit inserts words.now) result }
{
    match number_and_text(words) {
        Some((number, text)) => Line::Edit(Edit::Insert(number, text)),
        None => Line::Unreadable,
    }
}

fn replace(words: &[u8]) -> Line<'_>
    ensures { IsReadAs (text_edit replaces words.now) result }
{
    match number_and_text(words) {
        Some((number, text)) => Line::Edit(Edit::Replace(number, text)),
        None => Line::Unreadable,
    }
}

fn delete<'a>(words: &[u8]) -> Line<'a>
    ensures { IsReadAs (edit_at deletes (number_of words.now)) result }
{
    match number_of(words) {
        Some(number) => Line::Edit(Edit::Delete(number)),
        None => Line::Unreadable,
    }
}

/// What a line asks, without the LF that ends it.
pub fn read_line(line: &[u8]) -> Line<'_>
    ensures { IsReadAs (line_of line.now) result }
{
    if let Some(words) = line.strip_prefix(b"insert ".as_slice()) {
        return insert(words);
    }
    if let Some(words) = line.strip_prefix(b"replace ".as_slice()) {
        return replace(words);
    }
    if let Some(words) = line.strip_prefix(b"delete ".as_slice()) {
        return delete(words);
    }
    if line == b"report".as_slice() {
        Line::Report
    } else {
        Line::Unreadable
    }
}
