//! A lexer: what is known of an input of which a front was taken. Begin at `Lexer::take`.
ghost use Rattle.std.specs.Prelude.{◌≡◌, ◌<◌, [], ℕ, Bool, List, IfSome, length, false, true};
ghost use Rattle.dk_lexer.specs.declared.token.Token.{Token};
ghost use Rattle.one_lexer.specs.Lexers.{BeginsWord, IsFewer, IsLeft, Knows, KnowsBy, Passes, Takes, limits_of, line_of, moved_to};
ghost use Rattle.one_lexer.specs.Quick.{KnowsNext};
ghost use Rattle.one_lexer.specs.Reading.{last_of};
ghost use Rattle.one_lexer.specs.Steps.{Comes, ComesFrom, LeavesFewer};

use crate::blank::pass_blanks;
use crate::next::{Inside, Next, Spelt, Standing, read_inside, read_letters, read_next};
use crate::quick::{Short, quick_token};
use crate::word::{goes_on, word_begun};
use dk_lexer::Place;
use dk_model::{Code, Limits};

// What the bytes that aren't taken yet begin with.
#[derive(Clone, Copy)]
pub enum State {
    // What is not begun, or not known to be.
    Between,
    // `#` and so many letters, which wait. So a word that goes over many pieces is looked at once.
    Word(usize),
    // The rest of a comment.
    Comment(Inside),
    // Nothing any more: a fault stands before.
    Failed(Code),
}

/// A lexer: what is known of the bytes of an input that were taken. It holds none of them.
#[derive(Clone, Copy)]
pub struct Lexer {
    limits: Limits,
    // Of the first byte that isn't taken; of a comment or a fault that stands before it.
    at: Standing,
    state: State,
}

/// What is taken of some bytes. A number counts those that are left.
#[derive(Clone, Copy)]
pub enum Taken<'a> {
    /// A token, with blanks and comments before it.
    Token(Spelt<'a>, usize),
    /// Nothing but blanks and comments; what is left isn't settled, and the next bytes go behind
    /// it.
    More(usize),
    /// A fault.
    Failed(Code),
}

// What one spelling comes to.
#[derive(Clone, Copy)]
enum One<'a> {
    Taken(Taken<'a>),
    // A blank or a comment; so many bytes are left.
    Passed(usize),
}

impl Lexer {
    /// The lexer of an input, before its first byte.
    pub fn new(limits: Limits) -> Lexer
        ensures limits { limits_of result ≡ limits }
        ensures knows { (bytes : List ℕ) → Knows false bytes [] bytes result }
    {
        Lexer {
            limits,
            at: Standing {
                here: Place { offset: 0, line: 1 },
                command: None,
            },
            state: State::Between,
        }
    }

    /// Takes the next token of these bytes, which are those of the input that aren't taken yet, as
    /// far as they are there. After a fault every later call answers it again.
    #[inline(always)]
    pub fn take<'a>(&mut self, bytes: &'a [u8]) -> Taken<'a>
        ensures limits { limits_of self.new ≡ limits_of self.old }
        ensures takes { (before : List ℕ) (ts : List Token) →
            Knows false before ts bytes.now self.old →
            Takes false before ts bytes.now self.new result }
        ensures left { IsLeft false (length bytes.now) result }
    {
        self.step(false, bytes)
    }

    /// Takes the next token of these bytes, which are all those of the input that aren't taken yet;
    /// where there is none, none is left.
    #[inline(always)]
    pub fn finish<'a>(&mut self, bytes: &'a [u8]) -> Taken<'a>
        ensures limits { limits_of self.new ≡ limits_of self.old }
        ensures takes { (before : List ℕ) (ts : List Token) →
            Knows true before ts bytes.now self.old →
            Takes true before ts bytes.now self.new result }
        ensures left { IsLeft true (length bytes.now) result }
    {
        self.step(true, bytes)
    }

    /// The line of the fault, if one stands; else of the first byte of what is begun; else of the
    /// next byte. From 1.
    pub fn line(&self) -> u32
        ensures { result ≡ line_of self.now }
    {
        self.at.here.line
    }

    // The next token, by the short way or by one spelling after the other.
    #[inline(always)]
    fn step<'a>(&mut self, over: bool, bytes: &'a [u8]) -> Taken<'a>
        ensures limits { limits_of self.new ≡ limits_of self.old }
        ensures takes { (before : List ℕ) (ts : List Token) →
            Knows over before ts bytes.now self.old →
            Takes over before ts bytes.now self.new result }
        ensures left { IsLeft over (length bytes.now) result }
    {
        if let Some(short) = self.quick(bytes) {
            self.at = short.behind;
            return Taken::Token(short.spelt, short.left);
        }
        self.steps(over, bytes)
    }

    // The next token, where the short way has it.
    #[inline(always)]
    fn quick<'a>(&self, bytes: &'a [u8]) -> Option<Short<'a>>
        ensures { IfSome result (λ short. KnowsNext bytes.now short self.now) }
    {
        match self.state {
            State::Between => quick_token(self.limits, self.at, bytes),
            State::Word(_) | State::Comment(_) | State::Failed(_) => None,
        }
    }

    // One spelling after the other, up to a token.
    #[inline(never)]
    fn steps<'a>(&mut self, over: bool, bytes: &'a [u8]) -> Taken<'a>
        ensures limits { limits_of self.new ≡ limits_of self.old }
        ensures takes { (before : List ℕ) (ts : List Token) →
            Knows over before ts bytes.now self.old →
            Takes over before ts bytes.now self.new result }
        ensures left { IsLeft over (length bytes.now) result }
    {
        let mut rest = bytes;
        while !rest.is_empty() {
            match self.one(over, rest) {
                One::Taken(taken) => return taken,
                One::Passed(left) => rest = rest.split_at(rest.len() - left).1,
            }
        }
        self.end(over)
    }

    // One spelling.
    fn one<'a>(&mut self, over: bool, bytes: &'a [u8]) -> One<'a>
        requires { 0 < length bytes.now }
        ensures limits { limits_of self.new ≡ limits_of self.old }
        ensures takes { (before : List ℕ) (ts : List Token) →
            Knows over before ts bytes.now self.old →
            Passes over before ts bytes.now self.new result }
        ensures left { IsFewer over (length bytes.now) result }
    {
        if let Some((here, left)) = self.blanks(bytes) {
            self.at.here = here;
            return One::Passed(left);
        }
        match self.next(over, bytes) {
            Next::Token(spelt, behind, left) => {
                self.at = behind;
                self.state = State::Between;
                One::Taken(Taken::Token(spelt, left))
            }
            Next::Blank(behind, left) => {
                self.at = behind;
                self.state = State::Between;
                One::Passed(left)
            }
            Next::Comment(inside) => {
                self.state = State::Comment(inside);
                One::Passed(0)
            }
            Next::More => {
                self.state = self.begun(bytes);
                One::Taken(Taken::More(bytes.len()))
            }
            Next::Failed(code) => {
                self.state = State::Failed(code);
                One::Taken(Taken::Failed(code))
            }
        }
    }

    // The place behind the blanks that come next, if some do between tokens; so many bytes are
    // left.
    fn blanks(&self, bytes: &[u8]) -> Option<(Place, usize)>
        ensures fewer { IfSome result (λ passed. passed.1 < length bytes.now) }
        ensures knows { IfSome result (λ passed. (over : Bool) (before : List ℕ) (ts : List Token) →
            Knows over before ts bytes.now self.now →
            Knows over before ts (last_of passed.1 bytes.now) (moved_to passed.0 self.now)) }
    {
        match self.state {
            State::Between => pass_blanks(self.limits, self.at, bytes),
            State::Word(_) | State::Comment(_) | State::Failed(_) => None,
        }
    }

    // What stands at the first of these bytes.
    fn next<'a>(&self, over: bool, bytes: &'a [u8]) -> Next<'a>
        requires { 0 < length bytes.now }
        ensures comes { (before : List ℕ) (ts : List Token) →
            Knows over before ts bytes.now self.now →
            Comes over self.now.limits before ts self.now.at bytes.now result }
        ensures fewer { LeavesFewer over (length bytes.now) result }
    {
        match self.state {
            State::Between => read_next(self.limits, self.at, over, bytes),
            State::Word(known) => self.word(over, known, bytes),
            State::Comment(inside) => read_inside(self.limits, self.at, inside, bytes),
            State::Failed(code) => Next::Failed(code),
        }
    }

    // What stands at the first of these bytes, which begin with `#` and so many letters.
    fn word<'a>(&self, over: bool, known: usize, bytes: &'a [u8]) -> Next<'a>
        requires { 0 < length bytes.now }
        ensures comes { BeginsWord known bytes.now →
            ComesFrom over self.now.limits self.now.at bytes.now result }
        ensures fewer { LeavesFewer over (length bytes.now) result }
    {
        if !over {
            if let Some(next) = read_letters(self.limits, self.at, known, bytes) {
                return next;
            }
        }
        read_next(self.limits, self.at, over, bytes)
    }

    // What is known of these bytes, which wait.
    fn begun(&self, bytes: &[u8]) -> State
        ensures { (over : Bool) (before : List ℕ) (ts : List Token) →
            Knows over before ts bytes.now self.now →
            KnowsBy over self.now.limits before ts bytes.now self.now.at result }
    {
        match self.state {
            State::Between => match word_begun(bytes) {
                Some(known) => State::Word(known),
                None => State::Between,
            },
            State::Word(known) => {
                if goes_on(known, bytes) {
                    State::Word(bytes.len() - 1)
                } else {
                    State::Between
                }
            }
            State::Comment(_) | State::Failed(_) => self.state,
        }
    }

    // No byte is left.
    fn end<'a>(&mut self, over: bool) -> Taken<'a>
        ensures limits { limits_of self.new ≡ limits_of self.old }
        ensures takes { (before : List ℕ) (ts : List Token) → Knows over before ts [] self.old →
            Takes over before ts [] self.new result }
        ensures left { IsLeft over 0 result }
    {
        match self.state {
            State::Between => Taken::More(0),
            // A word has bytes left.
            State::Word(_) => Taken::More(0),
            State::Comment(_) => {
                if over {
                    self.state = State::Failed(Code::E03);
                    Taken::Failed(Code::E03)
                } else {
                    Taken::More(0)
                }
            }
            State::Failed(code) => Taken::Failed(code),
        }
    }
}
