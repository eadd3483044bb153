//! One line, and the LF that ends it.
ghost use Rattle.std.specs.Prelude.{◌≡◌, [], ◌∷◌, ◌++◌, codes};
ghost use Rattle.dk_io.specs.Causes.{HasCause};
ghost use Rattle.dk_io.specs.Gathered.{Gathers};
ghost use Rattle.certificate_lines.specs.Texts.{spaced, word_text, HasShortNumbers};
ghost use Rattle.certificate_items.specs.Texts.{lines_text};

use certificate_lines::{Line, Word};
use dk_io::{Buffer, Failed, Sink};
use itoa::Buffer as Digits;

fn letter_of(word: Word) -> &'static [u8]
    ensures { result.now ≡ word_text word }
{
    match word {
        Word::Same => b"=",
        Word::LeftBound => b"l",
        Word::RightBound => b"r",
        Word::InParts => b"t",
        Word::LetGo => b"x",
    }
}

/// A line of one number.
fn put_one<K: Sink>(
    buffer: &mut Buffer,
    sink: &mut K,
    letter: &[u8],
    number: u64,
) -> Result<(), Failed>
    ensures put { Gathers (K.taken sink.old) buffer.old (K.taken sink.new) buffer.new
        (letter.now ++ spaced number (codes "\n")) result }
    ensures cause { HasCause (K.faults sink.old) (K.faults sink.new) result }
{
    let mut digits = Digits::new();
    let number = digits.format(number).as_bytes();
    buffer.put_all(sink, &[letter, b" ", number, b"\n"])
}

fn put_joining<K: Sink>(
    buffer: &mut Buffer,
    sink: &mut K,
    first: u64,
    second: u64,
) -> Result<(), Failed>
    ensures put { Gathers (K.taken sink.old) buffer.old (K.taken sink.new) buffer.new
        (codes "j" ++ spaced first (spaced second (codes "\n"))) result }
    ensures cause { HasCause (K.faults sink.old) (K.faults sink.new) result }
{
    let mut digits = Digits::new();
    let mut others = Digits::new();
    let first = digits.format(first).as_bytes();
    let second = others.format(second).as_bytes();
    buffer.put_all(sink, &[b"j ", first, b" ", second, b"\n"])
}

fn put_equation<K: Sink>(
    buffer: &mut Buffer,
    sink: &mut K,
    first: u64,
    second: u64,
    word: Word,
) -> Result<(), Failed>
    ensures put { Gathers (K.taken sink.old) buffer.old (K.taken sink.new) buffer.new
        (codes "e" ++ spaced first (spaced second (codes " " ++ (word_text word ++ codes "\n"))))
        result }
    ensures cause { HasCause (K.faults sink.old) (K.faults sink.new) result }
{
    let mut digits = Digits::new();
    let mut others = Digits::new();
    let first = digits.format(first).as_bytes();
    let second = others.format(second).as_bytes();
    let letter = letter_of(word);
    buffer.put_all(sink, &[b"e ", first, b" ", second, b" ", letter, b"\n"])
}

fn put_rule<K: Sink>(
    buffer: &mut Buffer,
    sink: &mut K,
    place: u64,
    number: u64,
    conditions: u64,
) -> Result<(), Failed>
    ensures put { Gathers (K.taken sink.old) buffer.old (K.taken sink.new) buffer.new
        (codes "f" ++ spaced place (spaced number (spaced conditions (codes "\n")))) result }
    ensures cause { HasCause (K.faults sink.old) (K.faults sink.new) result }
{
    let mut digits = Digits::new();
    let mut others = Digits::new();
    let mut more = Digits::new();
    let place = digits.format(place).as_bytes();
    let number = others.format(number).as_bytes();
    let conditions = more.format(conditions).as_bytes();
    buffer.put_all(sink, &[b"f ", place, b" ", number, b" ", conditions, b"\n"])
}

/// Puts a line. Takes no memory.
pub fn put_line<K: Sink>(buffer: &mut Buffer, sink: &mut K, line: &Line) -> Result<(), Failed>
    ensures put { Gathers (K.taken sink.old) buffer.old (K.taken sink.new) buffer.new
        (lines_text (line.now ∷ [])) result }
    ensures short { HasShortNumbers line.now }
    ensures cause { HasCause (K.faults sink.old) (K.faults sink.new) result }
{
    match *line {
        Line::First => buffer.put(sink, b"dk certificate 1\n"),
        Line::Part(number) => put_one(buffer, sink, b"c", number),
        Line::Reduction(count) => put_one(buffer, sink, b"r", count),
        Line::Joining(first, second) => put_joining(buffer, sink, first, second),
        Line::Equation(first, second, word) => put_equation(buffer, sink, first, second, word),
        Line::Beta(place) => put_one(buffer, sink, b"b", place),
        Line::Rule(place, number, conditions) => {
            put_rule(buffer, sink, place, number, conditions)
        }
        Line::Last => buffer.put(sink, b"end\n"),
    }
}
