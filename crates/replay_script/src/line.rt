//! One line of a script.
ghost use Rattle.std.specs.Prelude.{◌≡◌, ◌⊎◌, ◌<◌, ◌+◌, [], ◌∷◌, None, Some, Err, OnErr, OnOk, codes, decimal, length};
ghost use Rattle.dk_io.specs.Causes.{HasCause};
ghost use Rattle.dk_io.specs.Writing.{Wrote};
ghost use Rattle.verdict_book.specs.Pieces.{pieces_text};
ghost use Rattle.verdict_book.specs.Report.{concat};
ghost use Rattle.script_lines.specs.Reading.{plain_edit};
ghost use Rattle.script_lines.specs.Scripts.{edits, line_of, reports};
ghost use Rattle.replay_script.specs.Replays.{bad_line, edited};
ghost use Rattle.replay_script.specs.Standing.{Puts, TakesLine, output_of};

use dk_io::{Buffer, Failed, Sink};
use edit_session::{EditFault, Judge, ReportFault, Session};
use script_lines::{Edit, Line, read_line};
use verdict_book::{Piece, put_pieces};

/// Why the taking of a script stopped before its end.
#[derive(Clone, Copy, Debug, PartialEq, Eq)]
pub enum Stop {
    /// A read failed.
    Unread,
    /// A write failed.
    SinkFailed,
    NoMemory,
}

/// Writes a line of these pieces, in one call of the sink where that takes it whole.
pub fn put_line<K: Sink>(sink: &mut K, pieces: &[Piece<'_>]) -> Result<(), Failed>
    ensures wrote { Wrote (K.taken sink.old) (K.taken sink.new) (pieces_text pieces.now) result }
    ensures cause { HasCause (K.faults sink.old) (K.faults sink.new) result }
{
    let mut buffer = Buffer::new();
    match put_pieces(&mut buffer, sink, pieces) {
        Ok(()) => buffer.flush(sink),
        Err(failed) => Err(failed),
    }
}

// A word with a blank behind it, and a number.
fn put_numbered<K: Sink>(sink: &mut K, word: &[u8], number: u32) -> Result<(), Stop>
    ensures { Puts (output_of K.Sink sink.old) (output_of K.Sink sink.new)
        (concat (word.now ∷ decimal number ∷ codes "\n" ∷ [])) result }
{
    let pieces = [
        Piece::Text(word),
        Piece::Number(number as u64),
        Piece::Text(b"\n"),
    ];
    match put_line(sink, &pieces) {
        Ok(()) => Ok(()),
        Err(Failed) => Err(Stop::SinkFailed),
    }
}

// That the line of this number is bad.
pub fn put_bad<K: Sink>(sink: &mut K, number: u32) -> Result<(), Stop>
    ensures { Puts (output_of K.Sink sink.old) (output_of K.Sink sink.new) (bad_line number) result }
{
    put_numbered(sink, b"bad ", number)
}

// The texts after an edit.
fn apply(session: &mut Session, edit: &Edit<'_>) -> Result<(), EditFault>
    requires few { length session.old.slots < 4294967295 }
    ensures ok { OnOk result (edited session.old.limits session.old.slots (plain_edit edit.now)
        ≡ Some session.new.slots) }
    ensures bad { ((result ≡ Err EditFault.Range) ⊎ (result ≡ Err EditFault.Text))
        → edited session.old.limits session.old.slots (plain_edit edit.now) ≡ None }
    ensures err { OnErr result (session.new ≡ session.old) }
    ensures limits { session.new.limits ≡ session.old.limits }
    ensures budget { session.new.budget ≡ session.old.budget }
{
    match edit {
        Edit::Insert(k, text) => session.insert(*k, text),
        Edit::Replace(k, text) => session.replace(*k, text),
        Edit::Delete(k) => session.delete(*k),
    }
}

// An edit, or that its line is bad.
fn take_edit<K: Sink>(
    session: &mut Session,
    sink: &mut K,
    number: u32,
    edit: &Edit<'_>,
) -> Result<(), Stop>
    requires few { length session.old.slots < 4294967295 }
    ensures takes { TakesLine session.old session.new number (edits (plain_edit edit.now))
        (output_of K.Sink sink.old) (output_of K.Sink sink.new) result }
    ensures limits { session.new.limits ≡ session.old.limits }
    ensures budget { session.new.budget ≡ session.old.budget }
{
    match apply(session, edit) {
        Ok(()) => Ok(()),
        Err(EditFault::NoMemory) => Err(Stop::NoMemory),
        Err(EditFault::Range) => put_bad(sink, number),
        Err(EditFault::Text) => put_bad(sink, number),
    }
}

// The report of the texts as they stand, and how many commands were checked for it.
fn put_report<J: Judge, K: Sink>(
    session: &mut Session,
    judge: &mut J,
    sink: &mut K,
    number: u32,
) -> Result<(), Stop>
    ensures takes { TakesLine session.old session.new number reports
        (output_of K.Sink sink.old) (output_of K.Sink sink.new) result }
    ensures limits { session.new.limits ≡ session.old.limits }
    ensures budget { session.new.budget ≡ session.old.budget }
{
    match session.report(judge, sink) {
        Ok(checked) => put_numbered(sink, b"checked ", checked),
        Err(ReportFault::Failed) => Err(Stop::SinkFailed),
        Err(ReportFault::NoMemory) => Err(Stop::NoMemory),
    }
}

/// Takes the line of this number.
pub fn take_line<J: Judge, K: Sink>(
    session: &mut Session,
    judge: &mut J,
    sink: &mut K,
    number: u32,
    line: &[u8],
) -> Result<(), Stop>
    requires few { length session.old.slots < 4294967295 }
    ensures takes { TakesLine session.old session.new number (line_of line.now)
        (output_of K.Sink sink.old) (output_of K.Sink sink.new) result }
    ensures limits { session.new.limits ≡ session.old.limits }
    ensures budget { session.new.budget ≡ session.old.budget }
{
    match read_line(line) {
        Line::Edit(edit) => take_edit(session, sink, number, &edit),
        Line::Report => put_report(session, judge, sink, number),
        Line::Unreadable => put_bad(sink, number),
    }
}
