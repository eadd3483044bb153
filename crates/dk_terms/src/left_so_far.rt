//! Left sides of rules, one terminal at a time; their guards are read as terms.
ghost use Rattle.std.specs.Prelude.{◌≡◌, ◌∷◌, IfOk, OnOk, Some, None};
ghost use Rattle.dk_terms.specs.Parsing.{application_bound, binder_pattern, end_left, left_bound, left_due, left_ended, left_next, left_read, pattern_applied_to, pattern_bracket_ended, with_atom};
ghost use Rattle.dk_terms.specs.Parsing as plain;
ghost use Rattle.dk_terms.specs.Views.{maybe_pattern, plain_left, plain_left_application, plain_left_step};
ghost use Rattle.dk_terms.specs.RawViews.{written_pattern};

use crate::RawPat;
use crate::terminal::Terminal;
use dk_lexer::Sign;
use dk_model::{Listed, NoMemory};
use std::alloc::Global;
use std::mem::replace;

/// What has been read of an application of patterns.
#[derive(Drop)]
pub enum LeftApplication {
    /// Nothing, or some atoms.
    Reading(Option<RawPat>),
    /// A name or a wildcard: a binder or the first atom.
    Bindable(Option<Listed<u8>>),
}

/// What waits for a pattern.
#[derive(Drop)]
pub enum PatternFrame {
    /// An open bracket, and what stood before it.
    Bracket(Option<RawPat>),
    /// `x =>`.
    Bare(Option<Listed<u8>>),
}

/// A left side that has begun.
#[derive(Drop)]
pub struct LeftSoFar {
    // The outermost first.
    frames: Listed<PatternFrame>,
    application: LeftApplication,
}

/// What a terminal came to.
#[derive(Drop)]
pub enum LeftStep {
    /// The left side goes on.
    Goes,
    /// This is the whole left side.
    Ends(RawPat),
    /// No left side goes on so.
    Refuses,
}

// A binder read as a pattern.
fn binder_pattern(binder: Option<Listed<u8>>) -> RawPat
    ensures { written_pattern result ≡ binder_pattern binder }
{
    match binder {
        Some(name) => RawPat::Name(name),
        None => RawPat::Wild,
    }
}

// An atom behind what has been read of its application.
fn applied_to(alloc: Global, f: Option<RawPat>, p: RawPat) -> Result<RawPat, NoMemory>
    ensures { IfOk result (λ q. written_pattern q
        ≡ pattern_applied_to (maybe_pattern f) (written_pattern p)) }
{
    match f {
        Some(f) => {
            let f = Box::new(alloc, f)?;
            Ok(RawPat::App(f, Box::new(alloc, p)?))
        }
        None => Ok(p),
    }
}

impl LeftSoFar {
    /// Before the first terminal.
    pub fn new(alloc: Global) -> LeftSoFar
        ensures { plain_left result ≡ left_due }
    {
        LeftSoFar {
            frames: Listed::new(alloc),
            application: LeftApplication::Reading(None),
        }
    }

    /// Begins anew.
    pub fn begin(&mut self, alloc: Global)
        ensures { plain_left self.new ≡ left_due }
    {
        let mut frames = replace(&mut self.frames, Listed::new(alloc)).into_vec();
        frames.clear();
        self.frames = Listed::from_vec(frames);
        self.application = LeftApplication::Reading(None);
    }

    /// Takes a terminal that is in no guard.
    pub fn next(&mut self, alloc: Global, x: Terminal) -> Result<LeftStep, NoMemory>
        ensures { IfOk result (λ step. plain_left_step step self.new
            ≡ left_next (plain_left self.old) x) }
    {
        match x {
            Terminal::Name(n) => self.binder(alloc, Some(n))?,
            Terminal::Wildcard => self.binder(alloc, None)?,
            Terminal::Qualified(m, n) => self.atom(alloc, RawPat::Qualified(m, n))?,
            Terminal::Sign(Sign::OpenBracket) => self.open()?,
            Terminal::Sign(Sign::CloseBracket) => return self.end(alloc, Sign::CloseBracket),
            Terminal::Sign(Sign::DoubleArrow) => return self.bind(),
            Terminal::Sign(Sign::LongArrow) => return self.end(alloc, Sign::LongArrow),
            _ => return Ok(LeftStep::Refuses),
        }
        Ok(LeftStep::Goes)
    }

    /// Another atom.
    pub fn atom(&mut self, alloc: Global, p: RawPat) -> Result<(), NoMemory>
        ensures { OnOk result (plain_left self.new
            ≡ with_atom (plain_left self.old) (written_pattern p)) }
    {
        let f = self.taken();
        self.application = LeftApplication::Reading(Some(applied_to(alloc, f, p)?));
        Ok(())
    }

    // What has been read of the application, taken out.
    fn taken(&mut self) -> Option<RawPat>
        ensures value { maybe_pattern result ≡ left_read (plain_left self.old).application }
        ensures frames { self.new.frames ≡ self.old.frames }
        ensures after { self.new.application ≡ LeftApplication.Reading None }
    {
        match replace(&mut self.application, LeftApplication::Reading(None)) {
            LeftApplication::Reading(f) => f,
            LeftApplication::Bindable(binder) => Some(binder_pattern(binder)),
        }
    }

    // A name or a wildcard.
    fn binder(&mut self, alloc: Global, binder: Option<Listed<u8>>) -> Result<(), NoMemory>
        ensures { OnOk result (plain_left self.new ≡ record {
          frames = (plain_left self.old).frames;
          application = application_bound (plain_left self.old).application binder;
        }) }
    {
        match self.application {
            LeftApplication::Reading(None) => {
                self.application = LeftApplication::Bindable(binder);
                Ok(())
            }
            _ => self.atom(alloc, binder_pattern(binder)),
        }
    }

    #[tactic(auto, using(crate::proofs::Stacked::pushed))]
    fn open(&mut self) -> Result<(), NoMemory>
        ensures { OnOk result (plain_left self.new ≡ record {
          frames = plain.pattern_bracket (left_read (plain_left self.old).application)
              ∷ (plain_left self.old).frames;
          application = plain.pattern_reading None;
        }) }
    {
        let f = self.taken();
        self.frames.push(PatternFrame::Bracket(f))?;
        Ok(())
    }

    // A sign that ends an application.
    fn end(&mut self, alloc: Global, sign: Sign) -> Result<LeftStep, NoMemory>
        ensures { IfOk result (λ step. plain_left_step step self.new
            ≡ end_left (plain_left self.old).frames
            (left_read (plain_left self.old).application) sign) }
    {
        match self.taken() {
            Some(p) => self.unwind(alloc, p, sign),
            None => Ok(LeftStep::Refuses),
        }
    }

    // The sign behind a pattern in its frames.
    #[tactic(auto, using(crate::proofs::Stacked::left_wrap, crate::proofs::Stacked::left_bracket))]
    fn unwind(&mut self, alloc: Global, p: RawPat, sign: Sign) -> Result<LeftStep, NoMemory>
        ensures { IfOk result (λ step. plain_left_step step self.new
            ≡ left_ended (plain_left self.old).frames (written_pattern p) sign) }
    {
        let mut pattern = p;
        while let Some(frame) = self.frames.pop() {
            match frame {
                PatternFrame::Bare(v) => pattern = RawPat::Abs(v, Box::new(alloc, pattern)?),
                PatternFrame::Bracket(f) => return self.close(alloc, f, pattern, sign),
            }
        }
        match sign {
            Sign::LongArrow => Ok(LeftStep::Ends(pattern)),
            _ => Ok(LeftStep::Refuses),
        }
    }

    // The bracket around a pattern, and the sign behind the pattern.
    fn close(
        &mut self,
        alloc: Global,
        f: Option<RawPat>,
        p: RawPat,
        sign: Sign,
    ) -> Result<LeftStep, NoMemory>
        ensures { IfOk result (λ step. plain_left_step step self.new
            ≡ pattern_bracket_ended (plain_left self.old).frames (maybe_pattern f)
            (written_pattern p) sign) }
    {
        match sign {
            Sign::CloseBracket => {
                self.application = LeftApplication::Reading(Some(applied_to(alloc, f, p)?));
                Ok(LeftStep::Goes)
            }
            _ => Ok(LeftStep::Refuses),
        }
    }

    // A binder in brackets; a pattern is due behind it.
    #[tactic(auto, using(crate::proofs::Stacked::bound_goes))]
    fn bind(&mut self) -> Result<LeftStep, NoMemory>
        ensures { IfOk result (λ step. plain_left_step step self.new
            ≡ left_bound (plain_left self.old).frames (plain_left self.old).application) }
    {
        match replace(&mut self.application, LeftApplication::Reading(None)) {
            LeftApplication::Bindable(binder) => {
                let Some(frame) = self.frames.pop() else {
                    return Ok(LeftStep::Refuses);
                };
                self.frames.push(frame)?;
                self.frames.push(PatternFrame::Bare(binder))?;
                Ok(LeftStep::Goes)
            }
            LeftApplication::Reading(_) => Ok(LeftStep::Refuses),
        }
    }
}
