//! Reads the commands and directives of a book from a shelf, piece by piece.
ghost use Rattle.std.specs.Prelude.{◌≡◌, ◌<◌, ◌≤◌, ◌∷◌, ◌^◌, [], ℕ, List, Some, IfOk, OnOk, length, unwrap_or};
ghost use Rattle.dk_lexer.specs.declared.token.Token.{Token};
ghost use Rattle.dk_model.specs.declared.limits.Limits.{Limits};
ghost use Rattle.dk_parser.specs.Steps.{read_tokens};
ghost use Rattle.dk_parser.specs.Views.{HasRead};
ghost use Rattle.dk_parser.specs.Written.{WrittenCommand};
ghost use Rattle.one_lexer.specs.Lexers.{Knows, Takes, limits_of};
ghost use Rattle.file_reader.specs.Counts.{MayRiseByAnswer, RoseByAnswer};
ghost use Rattle.file_reader.specs.Held.{EndsBehind, Finds, GivesToken, Holds, HoldsToken, IsDry, IsRead, LeavesAtMost, Loads, Parses, next_of};
ghost use Rattle.file_reader.specs.Nexts.{raw_of};
ghost use Rattle.file_reader.specs.Progress.{Answers, HasBegun, IsBehind};
ghost use Rattle.file_reader.specs.Rooms.{HasFewer, room_of};

use dk_io::{Failed, Shelf};
use dk_lexer::Token;
use dk_model::{Code, Fault, Limits, NoMemory};
use dk_parser::{Parser, Raw, Step};
use one_lexer::{Carried, Lexer, Taken};
use std::alloc::Global;

/// What comes next in a book.
#[derive(Drop)]
pub enum Next {
    Command(Raw),
    Directive(Raw),
}

impl Next {
    /// The command or directive.
    pub fn into_raw(self) -> Raw
        ensures { result ≡ raw_of self }
    {
        match self {
            Next::Command(raw) => raw,
            Next::Directive(raw) => raw,
        }
    }
}

// The same in a block: what each token comes to is small so.
#[derive(Drop)]
pub enum Whole {
    Command(Box<Raw>),
    Directive(Box<Raw>),
}

impl Whole {
    fn into_next(self) -> Next
        ensures { result ≡ next_of self }
    {
        match self {
            Whole::Command(raw) => Next::Command(Box::into_inner(raw)),
            Whole::Directive(raw) => Next::Directive(Box::into_inner(raw)),
        }
    }
}

/// Why no other command and no other directive of a book comes.
#[derive(Clone, Copy, Debug, PartialEq, Eq)]
pub enum ReadEnd {
    /// It was read to its end.
    Whole,
    /// A read failed.
    Unread,
    /// The bytes or tokens behind the last command or directive are at fault: the line of the one that is due, and the
    /// code.
    Refused(u32, Code),
    /// Memory ended while the command or directive at this line was due.
    NoMemory(u32),
}

/// What has been read of a book. Once it has ended, nothing more is to be read.
#[derive(Drop)]
pub struct Reader {
    lexer: Lexer,
    parser: Parser,
    // The bytes of the book that were given and not taken.
    carried: Carried,
    // Whether the end of the book was met behind them.
    over: bool,
    // How many bytes of the book were given to it.
    given: u64,
}

// Takes the next token of these bytes, which are all that are left where the end was met.
#[tactic(auto, using(crate::proofs::Known::at_most))]
fn take_next<'a>(lexer: &mut Lexer, over: bool, bytes: &'a [u8]) -> Taken<'a>
    ensures limits { limits_of lexer.new ≡ limits_of lexer.old }
    ensures takes { (before : List ℕ) (ts : List Token) → Knows over before ts bytes.now lexer.old →
        Takes over before ts bytes.now lexer.new result }
    ensures left { LeavesAtMost (length bytes.now) result }
{
    if over {
        lexer.finish(bytes)
    } else {
        lexer.take(bytes)
    }
}

impl Reader {
    /// The reader of a book, before its first byte.
    pub fn new(alloc: Global, limits: Limits) -> Reader
        ensures begun { HasBegun result }
        ensures behind { (bytes : List ℕ) → IsBehind limits bytes [] (Some bytes) result }
        ensures room { room_of result ≤ 2 ^ 97 }
    {
        Reader {
            lexer: Lexer::new(limits),
            parser: Parser::new(alloc, limits),
            carried: Carried::new(alloc),
            over: false,
            given: 0,
        }
    }

    /// The next command or directive of the shelf's current book, which is the one that the reader began; or why none
    /// comes. The book is read in pieces of 4,096 bytes, as they are needed.
    pub fn next<H: Shelf>(&mut self, alloc: Global, shelf: &mut H) -> Result<Next, ReadEnd>
        requires begun { HasBegun self.old }
        ensures begun { OnOk result (HasBegun self.new) }
        ensures answers { (limits : Limits) (bytes : List ℕ) (done : List WrittenCommand) →
            IsBehind limits bytes done (H.left shelf.old) self.old →
            Answers limits bytes done (H.left shelf.new) self.new result }
        ensures room { OnOk result (room_of self.new < room_of self.old) }
        ensures books { H.books shelf.new ≡ H.books shelf.old }
        ensures is_open { H.is_open shelf.new ≡ H.is_open shelf.old }
        ensures aside { H.aside shelf.new ≡ H.aside shelf.old }
        ensures faults { RoseByAnswer (H.faults shelf.old) (H.faults shelf.new) result }
        ensures missed { MayRiseByAnswer (H.missed shelf.old) (H.missed shelf.new) result }
    {
        'pieces: for _turn in 0..u64::MAX {
            match self.carried_next(alloc) {
                Ok(Some(whole)) => return Ok(whole.into_next()),
                Err(end) => return Err(end),
                Ok(None) => {}
            }
            if let Err(end) = self.load(shelf) {
                return Err(end);
            }
        }
        // A book of more bytes than the limit is refused long before.
        unreachable!()
    }

    // Goes through the bytes that are carried, to the end of the next command or directive.
    fn carried_next(&mut self, alloc: Global) -> Result<Option<Whole>, ReadEnd>
        ensures finds { (limits : Limits) (given : List ℕ) (done : List WrittenCommand) →
            Holds limits given done self.old → Finds limits given done self.new result }
        ensures given { self.new.given ≡ self.old.given }
        ensures over { self.new.over ≡ self.old.over }
        ensures fewer { IfOk result (λ next.
            HasFewer next (length self.old.carried) (length self.new.carried)) }
    {
        loop {
            let token = match self.token(alloc) {
                Ok(Some(token)) => token,
                Ok(None) => return Ok(None),
                Err(end) => return Err(end),
            };
            match self.parse(alloc, token) {
                Ok(Some(whole)) => return Ok(Some(whole)),
                Ok(None) => {}
                Err(end) => return Err(end),
            }
        }
    }

    // Takes the next token of the bytes that are carried, if they settle one.
    fn token(&mut self, alloc: Global) -> Result<Option<Token>, ReadEnd>
        ensures takes { (limits : Limits) (given : List ℕ) (done : List WrittenCommand) →
            Holds limits given done self.old → GivesToken limits given done self.new result }
        ensures given { self.new.given ≡ self.old.given }
        ensures over { self.new.over ≡ self.old.over }
        ensures fewer { IfOk result (λ token.
            HasFewer token (length self.old.carried) (length self.new.carried)) }
    {
        match take_next(&mut self.lexer, self.over, self.carried.bytes()) {
            Taken::Token(spelt, left) => {
                let line = spelt.here.line;
                let token = spelt.token(alloc);
                self.carried.keep(left);
                match token {
                    Ok(token) => Ok(Some(token)),
                    Err(NoMemory) => Err(ReadEnd::NoMemory(self.due_line(line))),
                }
            }
            Taken::More(left) => {
                self.carried.keep(left);
                match self.end() {
                    Some(end) => Err(end),
                    None => Ok(None),
                }
            }
            Taken::Failed(code) => Err(ReadEnd::Refused(self.due_line(self.lexer.line()), code)),
        }
    }

    // Hands a token to the parser.
    fn parse(&mut self, alloc: Global, token: Token) -> Result<Option<Whole>, ReadEnd>
        ensures parses { (limits : Limits) (given : List ℕ) (done : List WrittenCommand) →
            HoldsToken limits given done token self.old →
            Parses limits given done self.new result }
        ensures given { self.new.given ≡ self.old.given }
        ensures over { self.new.over ≡ self.old.over }
        ensures carried { self.new.carried ≡ self.old.carried }
    {
        let line = self.due_line(token.line);
        match self.parser.feed(alloc, token) {
            Ok(Step::More) => Ok(None),
            Ok(Step::Command(raw)) => Ok(Some(Whole::Command(raw))),
            Ok(Step::Directive(raw)) => Ok(Some(Whole::Directive(raw))),
            Err(Fault::Refused(code)) => Err(ReadEnd::Refused(self.due_line(line), code)),
            Err(Fault::NoMemory) => Err(ReadEnd::NoMemory(line)),
        }
    }

    // The line of the command or directive that is due: of its first token, else this one.
    fn due_line(&self, place: u32) -> u32
        ensures { (limits : Limits) (ts : List Token) → HasRead limits ts self.now.parser →
            result ≡ unwrap_or (read_tokens limits ts).begun place }
    {
        self.parser.begun().unwrap_or(place)
    }

    // How the book ends behind its last token, once its end was met.
    fn end(&self) -> Option<ReadEnd>
        ensures { (limits : Limits) (given : List ℕ) (done : List WrittenCommand) →
            IsRead limits given done self.now → EndsBehind limits given done self.now result }
    {
        if !self.over {
            return None;
        }
        match self.parser.finish() {
            Ok(()) => Some(ReadEnd::Whole),
            Err(code) => Some(ReadEnd::Refused(self.due_line(self.lexer.line()), code)),
        }
    }

    // Puts the next piece of the book behind the bytes that are carried, or notes its end.
    fn load<H: Shelf>(&mut self, shelf: &mut H) -> Result<(), ReadEnd>
        ensures loads { (limits : Limits) (given : List ℕ) (done : List WrittenCommand) →
            IsDry limits given done self.old →
            Loads limits given done (H.left shelf.old) (H.left shelf.new) self.old self.new result }
        ensures books { H.books shelf.new ≡ H.books shelf.old }
        ensures is_open { H.is_open shelf.new ≡ H.is_open shelf.old }
        ensures aside { H.aside shelf.new ≡ H.aside shelf.old }
        ensures faults { RoseByAnswer (H.faults shelf.old) (H.faults shelf.new) result }
        ensures missed { MayRiseByAnswer (H.missed shelf.old) (H.missed shelf.new) result }
    {
        let mut buf = [0u8; 4096];
        let count = match shelf.read(&mut buf) {
            Ok(count) => count,
            Err(Failed) => return Err(ReadEnd::Unread),
        };
        if count == 0 {
            self.over = true;
            return Ok(());
        }
        let (piece, _) = buf.split_at(count);
        match self.carried.put(piece) {
            Ok(()) => {
                self.given = self.given.saturating_add(count as u64);
                Ok(())
            }
            Err(NoMemory) => Err(ReadEnd::NoMemory(self.due_line(self.lexer.line()))),
        }
    }
}
