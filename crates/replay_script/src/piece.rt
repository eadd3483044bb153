//! A script, byte by byte.
ghost use Rattle.std.specs.Prelude.{◌≡◌, ◌≢◌, ◌<◌, ◌≤◌, ◌+◌, ◌++◌, [], ◌∷◌, ℕ, List, Ok, false, true, IfOk, OnOk, length};
ghost use Rattle.dk_lexer.specs.Tokens.{input_limit};
ghost use Rattle.dk_model.specs.declared.limits.Limits.{Limits as Bounds};
ghost use Rattle.script_lines.specs.Scripts.{line_of};
ghost use Rattle.replay_script.specs.Standing.{IsAfter, IsWithin, Output, TakesByte, TakesLine, TakesPiece, TakesRest, output_of};

use crate::judging::Referee;
use crate::line::{Stop, put_bad, take_line};
use dk_io::Sink;
use dk_model::{Limits, NoMemory};
use edit_session::Session;
use std::alloc::Global;

/// A session along a script, and how far that was taken.
#[derive(Drop)]
pub struct Replay {
    pub session: Session,
    pub referee: Referee,
    /// The bytes of the line that is due.
    pub line: Vec<u8>,
    /// The number of that line, from 1.
    pub number: u32,
    /// How many bytes were taken.
    pub count: u32,
}

fn is_empty(bytes: &[u8]) -> bool
    ensures empty { result ≡ true → bytes.now ≡ [] }
    ensures filled { result ≡ false → bytes.now ≢ [] }
{
    match bytes {
        [] => true,
        _ => false,
    }
}

impl Replay {
    /// Before the first line.
    pub fn new(alloc: Global, limits: Limits, budget: u64) -> Result<Replay, NoMemory>
        ensures within { IfOk result IsWithin }
        ensures after { IfOk result (λ r. IsAfter limits budget [] r []) }
    {
        let referee = Referee::new(alloc)?;
        Ok(Replay {
            session: Session::new(alloc, limits, budget)?,
            referee,
            line: Vec::new(alloc),
            number: 1,
            count: 0,
        })
    }

    // Takes the line that is due.
    fn end_line<K: Sink>(&mut self, sink: &mut K) -> Result<(), Stop>
        requires few { length self.old.session.slots < 4294967295 }
        ensures takes { TakesLine self.old.session self.new.session self.old.number
            (line_of self.old.line.items)
            (output_of K.Sink sink.old) (output_of K.Sink sink.new) result }
        ensures limits { self.new.session.limits ≡ self.old.session.limits }
        ensures budget { self.new.session.budget ≡ self.old.session.budget }
        ensures line { self.new.line.items ≡ self.old.line.items }
        ensures number { self.new.number ≡ self.old.number }
        ensures count { self.new.count ≡ self.old.count }
    {
        let line = self.line.as_slice();
        take_line(
            &mut self.session,
            &mut self.referee,
            sink,
            self.number,
            line,
        )
    }

    // Takes the newline of the line that is due, and with it the line.
    fn take_newline<K: Sink>(&mut self, sink: &mut K) -> Result<(), Stop>
        requires within { IsWithin self.old }
        requires below { self.old.count < 4294967294 }
        ensures within { OnOk result (IsWithin self.new) }
        ensures count { OnOk result (self.new.count ≡ self.old.count + 1) }
        ensures takes { (limits : Bounds) (budget : ℕ) (given text : List ℕ)
            → IsAfter limits budget given self.old text → length given < input_limit limits
            → TakesByte limits budget (given ++ 10 ∷ []) self.new text
            (output_of K.Sink sink.old) (output_of K.Sink sink.new) result }
    {
        match self.end_line(sink) {
            Ok(()) => {
                self.line.clear();
                self.number += 1;
                self.count += 1;
                Ok(())
            }
            Err(stop) => Err(stop),
        }
    }

    // Takes a byte of the line that is due.
    fn take_other(&mut self, byte: u8) -> Result<(), Stop>
        requires within { IsWithin self.old }
        requires below { self.old.count < 4294967294 }
        requires other { byte ≢ 10 }
        ensures within { OnOk result (IsWithin self.new) }
        ensures count { OnOk result (self.new.count ≡ self.old.count + 1) }
        ensures takes { (limits : Bounds) (budget : ℕ) (given text : List ℕ) (output : Output)
            → IsAfter limits budget given self.old text → length given < input_limit limits
            → TakesByte limits budget (given ++ byte ∷ []) self.new text output output result }
    {
        match self.line.push(byte) {
            Ok(()) => {
                self.count += 1;
                Ok(())
            }
            Err(_) => Err(Stop::NoMemory),
        }
    }

    fn take_byte<K: Sink>(&mut self, sink: &mut K, byte: u8) -> Result<(), Stop>
        requires within { IsWithin self.old }
        requires below { self.old.count < 4294967294 }
        ensures within { OnOk result (IsWithin self.new) }
        ensures count { OnOk result (self.new.count ≡ self.old.count + 1) }
        ensures takes { (limits : Bounds) (budget : ℕ) (given text : List ℕ)
            → IsAfter limits budget given self.old text → length given < input_limit limits
            → TakesByte limits budget (given ++ byte ∷ []) self.new text
            (output_of K.Sink sink.old) (output_of K.Sink sink.new) result }
    {
        if byte == b'\n' {
            self.take_newline(sink)
        } else {
            self.take_other(byte)
        }
    }

    /// Takes bytes, up to the limit; whether there were no more of them. The line of the byte past the limit is bad.
    pub fn take_piece<K: Sink>(
        &mut self,
        sink: &mut K,
        most: u32,
        piece: &[u8],
    ) -> Result<bool, Stop>
        requires within { IsWithin self.old }
        requires most { most < 4294967295 }
        requires count { self.old.count ≤ most }
        ensures within { result ≡ Ok true → IsWithin self.new }
        ensures count { result ≡ Ok true → self.new.count ≡ self.old.count + length piece.now }
        ensures most { result ≡ Ok true → self.new.count ≤ most }
        ensures takes { (limits : Bounds) (budget : ℕ) (given text : List ℕ)
            → IsAfter limits budget given self.old text → most ≡ input_limit limits
            → TakesPiece limits budget (given ++ piece.now) self.new text
            (output_of K.Sink sink.old) (output_of K.Sink sink.new) result }
    {
        let mut rest = piece;
        while let Some((byte, others)) = rest.split_first() {
            if self.count >= most {
                return match put_bad(sink, self.number) {
                    Ok(()) => Ok(false),
                    Err(stop) => Err(stop),
                };
            }
            if let Err(stop) = self.take_byte(sink, *byte) {
                return Err(stop);
            }
            rest = others;
        }
        Ok(true)
    }

    /// Takes what stands behind the last newline of a script, if anything does.
    pub fn take_rest<K: Sink>(&mut self, sink: &mut K) -> Result<(), Stop>
        requires within { IsWithin self.old }
        requires below { self.old.count < 4294967295 }
        ensures takes { (limits : Bounds) (budget : ℕ) (given text : List ℕ)
            → IsAfter limits budget given self.old text → length given ≤ input_limit limits
            → TakesRest limits budget given self.new text
            (output_of K.Sink sink.old) (output_of K.Sink sink.new) result }
    {
        if is_empty(self.line.as_slice()) {
            Ok(())
        } else {
            self.end_line(sink)
        }
    }
}
