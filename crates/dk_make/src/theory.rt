//! Writes the made theory through one buffer.
ghost use Rattle.std.specs.Prelude.{◌≡◌, ◌+◌, ◌<◌, ◌^◌};
ghost use Rattle.dk_io.specs.Writing.{Wrote};
ghost use Rattle.dk_io.specs.Causes.{HasCause};
ghost use Rattle.dk_io.specs.Gathered.{Gathers};
ghost use Rattle.dk_make.specs.Theory.{beginning, numeral, theorem_of, theorems, theory_of};

use dk_io::{Buffer, Failed, Sink};
use itoa::Buffer as Digits;

/// Writes the theory with so many theorems. Takes no memory. After `Failed` the sink has taken a
/// front of it.
pub fn make<K: Sink>(n: u32, sink: &mut K) -> Result<(), Failed>
    ensures wrote { Wrote (K.taken sink.old) (K.taken sink.new) (theory_of n) result }
    ensures cause { HasCause (K.faults sink.old) (K.faults sink.new) result }
{
    let mut buffer = Buffer::new();
    match put_theory(&mut buffer, sink, n) {
        Ok(()) => buffer.flush(sink),
        Err(failed) => Err(failed),
    }
}

fn put_theory<K: Sink>(buffer: &mut Buffer, sink: &mut K, n: u32) -> Result<(), Failed>
    ensures put { Gathers (K.taken sink.old) buffer.old (K.taken sink.new) buffer.new
        (theory_of n) result }
    ensures cause { HasCause (K.faults sink.old) (K.faults sink.new) result }
{
    match put_beginning(buffer, sink) {
        Ok(()) => put_theorems(buffer, sink, n),
        Err(failed) => Err(failed),
    }
}

// The declarations and the rules of addition.
fn put_beginning<K: Sink>(buffer: &mut Buffer, sink: &mut K) -> Result<(), Failed>
    ensures put { Gathers (K.taken sink.old) buffer.old (K.taken sink.new) buffer.new
        beginning result }
    ensures cause { HasCause (K.faults sink.old) (K.faults sink.new) result }
{
    buffer.put_all(
        sink,
        &[
            b"nat : Type.\nz : nat.\ns : nat -> nat.\n",
            b"def plus : nat -> nat -> nat.\n",
            b"[n] plus z n --> n\n[m, n] plus (s m) n --> s (plus m n).\n",
            b"eq : nat -> nat -> Type.\nrefl : n : nat -> eq n n.\n",
        ],
    )
}

fn put_theorems<K: Sink>(buffer: &mut Buffer, sink: &mut K, n: u32) -> Result<(), Failed>
    ensures put { Gathers (K.taken sink.old) buffer.old (K.taken sink.new) buffer.new
        (theorems 1 n) result }
    ensures cause { HasCause (K.faults sink.old) (K.faults sink.new) result }
{
    for place in 0..n {
        let number = u64::from(place) + 1;
        match put_theorem(buffer, sink, number) {
            Ok(()) => {}
            Err(failed) => return Err(failed),
        }
    }
    Ok(())
}

fn put_theorem<K: Sink>(buffer: &mut Buffer, sink: &mut K, number: u64) -> Result<(), Failed>
    ensures put { Gathers (K.taken sink.old) buffer.old (K.taken sink.new) buffer.new
        (theorem_of number) result }
    ensures cause { HasCause (K.faults sink.old) (K.faults sink.new) result }
{
    let first = numeral_text(number % 7);
    let second = numeral_text(number % 5);
    let sum = numeral_text(number % 7 + number % 5);
    let mut digits = Digits::new();
    let decimal = digits.format(number).as_bytes();
    buffer.put_all(
        sink,
        &[
            b"thm t",
            decimal,
            b" : eq (plus ",
            first,
            b" ",
            second,
            b") ",
            sum,
            b" := refl ",
            sum,
            b".\n",
        ],
    )
}

// The numeral of a sum, which is at most 10.
fn numeral_text(number: u64) -> &'static [u8]
    requires { number < 11 }
    ensures { result.now ≡ numeral number }
{
    match number {
        0 => b"z",
        1 => b"(s z)",
        2 => b"(s (s z))",
        3 => b"(s (s (s z)))",
        4 => b"(s (s (s (s z))))",
        5 => b"(s (s (s (s (s z)))))",
        6 => b"(s (s (s (s (s (s z))))))",
        7 => b"(s (s (s (s (s (s (s z)))))))",
        8 => b"(s (s (s (s (s (s (s (s z))))))))",
        9 => b"(s (s (s (s (s (s (s (s (s z)))))))))",
        10 => b"(s (s (s (s (s (s (s (s (s (s z))))))))))",
        _ => unreachable!(),
    }
}
