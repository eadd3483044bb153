//! The parser: commands from tokens, one token at a time.
ghost use Rattle.std.specs.Prelude.{◌≡◌, [], ◌∷◌, ◌++◌, List, Err, Some};
ghost use Rattle.dk_lexer.specs.declared.token.Token.{Token};
ghost use Rattle.dk_model.specs.declared.code.Fault.{Fault};
ghost use Rattle.dk_model.specs.declared.limits.Limits.{Limits};
ghost use Rattle.dk_parser.specs.Parsing.{command_due, refusal, turn, turn_by_step};
ghost use Rattle.dk_parser.specs.Steps.{AddsStep, Answers, finished, read_tokens};
ghost use Rattle.dk_parser.specs.Views.{CameTo, HasRead, IsStep, parsing, plain_step};

use crate::Raw;
use crate::command_so_far::{Advance, CommandSoFar, Due};
use crate::standing::Standing;
use dk_lexer::Token;
use dk_model::{Code, Fault, Limits, NoMemory};
use dk_terms::Terminal;
use std::alloc::Global;

/// Why `feed` gave no step.
pub type ParseFault = Fault;

/// What a token came to. A directive is no command, and has no number.
#[derive(Drop)]
pub enum Step {
    /// The command or directive goes on.
    More,
    /// The token ended this command.
    Command(Box<Raw>),
    /// The token ended this directive.
    Directive(Box<Raw>),
}

/// Reads commands from tokens that come one at a time.
#[derive(Drop)]
pub struct Parser {
    limits: Limits,
    begun: Option<u32>,
    standing: Standing,
    part: CommandSoFar,
    // With the line of its command.
    fault: Option<(u32, Code)>,
}

impl Parser {
    /// A parser before the first token.
    pub fn new(alloc: Global, limits: Limits) -> Parser
        ensures { HasRead limits [] result }
    {
        Parser {
            limits,
            begun: None,
            standing: Standing::new(alloc),
            part: CommandSoFar::new(alloc),
            fault: None,
        }
    }

    /// Takes the next token.
    ///
    /// The codes are E06 for a word outside the profile, else E02 where no command and no directive
    /// begins with the tokens of this one so far and this one, else E04 where it is on a level past the limit.
    /// After a code every later call answers the same code, and nothing changes. After want of
    /// memory the parser is to be dropped.
    pub fn feed(&mut self, alloc: Global, token: Token) -> Result<Step, ParseFault>
        ensures after { (limits : Limits) (ts : List Token) →
            HasRead limits ts self.old → Answers result (HasRead limits (ts ++ token ∷ []) self.new) }
        ensures adds { (limits : Limits) (ts : List Token) →
            HasRead limits ts self.old
            → AddsStep (read_tokens limits ts) result (read_tokens limits (ts ++ token ∷ [])) }
    {
        self.take(alloc, token)
    }

    /// The end of the tokens: the code that `feed` answered, else E03 where a command has begun
    /// and not ended.
    pub fn finish(&self) -> Result<(), Code>
        ensures { (limits : Limits) (ts : List Token) → HasRead limits ts self.now
            → result ≡ finished (read_tokens limits ts) }
    {
        match (self.fault, self.begun) {
            (Some((_, code)), _) => Err(code),
            (None, Some(_)) => Err(Code::E03),
            (None, None) => Ok(()),
        }
    }

    /// The line of the first token of the command that has begun and not ended, also where one
    /// of its tokens was at fault.
    pub fn begun(&self) -> Option<u32>
        ensures { (limits : Limits) (ts : List Token) → HasRead limits ts self.now
            → result ≡ (read_tokens limits ts).begun }
    {
        match self.fault {
            Some((line, _)) => Some(line),
            None => self.begun,
        }
    }

    fn take(&mut self, alloc: Global, token: Token) -> Result<Step, Fault>
        ensures { CameTo (turn (parsing self.old) token) result (parsing self.new) }
    {
        if let Some((_, code)) = self.fault {
            return Err(Fault::Refused(code));
        }
        let line = self.begun.unwrap_or(token.line);
        let x = Terminal::of(alloc, token)?;
        let code = refusal(&x);
        let load = self.standing.take(alloc, &x)?;
        let deep = load > u64::from(self.limits.levels);
        let step = self.part.next(alloc, x)?;
        self.answer(alloc, line, code, deep, step)
    }

    // The answer to a step.
    #[tactic(auto, using(crate::proofs::Turns::step_came))]
    fn answer(
        &mut self,
        alloc: Global,
        line: u32,
        code: Code,
        deep: bool,
        step: Advance,
    ) -> Result<Step, Fault>
        ensures { CameTo
            (turn_by_step (parsing self.old) line code deep (plain_step step self.old.part))
            result (parsing self.new) }
    {
        match (step, deep) {
            (Advance::Refuses, _) => self.refuse(line, code),
            (_, true) => self.refuse(line, Code::E04),
            (Advance::Goes, false) => {
                self.begun = Some(line);
                Ok(Step::More)
            }
            (Advance::Ends(command), false) => {
                let mut command = command;
                command.line = line;
                self.begun = None;
                self.standing.start(alloc);
                self.part.due = Due::Command;
                Ok(whole(command))
            }
        }
    }

    fn refuse(&mut self, line: u32, code: Code) -> Result<Step, Fault>
        ensures answer { result ≡ Err (Fault.Refused code) }
        ensures after { parsing self.new
            ≡ record (parsing self.old) { part = command_due; fault = Some (line, code) } }
    {
        self.part.due = Due::Command;
        self.fault = Some((line, code));
        Err(Fault::Refused(code))
    }
}

// What a whole command or directive comes to.
fn whole(raw: Box<Raw>) -> Step
    ensures { IsStep raw.value result }
{
    if raw.form.is_directive() {
        Step::Directive(raw)
    } else {
        Step::Command(raw)
    }
}

// The code of a terminal that no command goes on with.
fn refusal(x: &Terminal) -> Code
    ensures { result ≡ refusal x.now }
{
    match x {
        Terminal::Profile => Code::E06,
        _ => Code::E02,
    }
}
