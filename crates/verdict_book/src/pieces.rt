//! A line of a report as its pieces, texts and numbers.
ghost use Rattle.std.specs.Prelude.{◌≡◌};
ghost use Rattle.dk_io.specs.Causes.{HasCause};
ghost use Rattle.dk_io.specs.Gathered.{Gathers};
ghost use Rattle.verdict_book.specs.Pieces.{piece_text, pieces_text};

use dk_io::{Buffer, Failed, Sink};
use itoa::Buffer as Digits;

/// A piece of a line.
#[derive(Clone, Copy)]
pub enum Piece<'a> {
    Text(&'a [u8]),
    /// A number, written in decimal.
    Number(u64),
}

fn put_piece<K: Sink>(buffer: &mut Buffer, sink: &mut K, piece: &Piece<'_>) -> Result<(), Failed>
    ensures put { Gathers (K.taken sink.old) buffer.old (K.taken sink.new) buffer.new
        (piece_text piece.now) result }
    ensures cause { HasCause (K.faults sink.old) (K.faults sink.new) result }
{
    match *piece {
        Piece::Text(text) => buffer.put(sink, text),
        Piece::Number(number) => buffer.put(sink, Digits::new().format(number).as_bytes()),
    }
}

/// Puts the pieces, one after the other.
pub fn put_pieces<K: Sink>(
    buffer: &mut Buffer,
    sink: &mut K,
    pieces: &[Piece<'_>],
) -> Result<(), Failed>
    ensures put { Gathers (K.taken sink.old) buffer.old (K.taken sink.new) buffer.new
        (pieces_text pieces.now) result }
    ensures cause { HasCause (K.faults sink.old) (K.faults sink.new) result }
{
    match pieces.split_first() {
        None => buffer.put(sink, b""),
        Some((first, rest)) => match put_piece(buffer, sink, first) {
            Ok(()) => put_pieces(buffer, sink, rest),
            Err(failed) => Err(failed),
        },
    }
}
