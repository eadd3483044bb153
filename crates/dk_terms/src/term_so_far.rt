//! Terms, one terminal at a time.
ghost use Rattle.std.specs.Prelude.{◌≡◌, true, IfOk};
ghost use Rattle.dk_terms.specs.Parts.{parts};
ghost use Rattle.dk_terms.specs.Shapes.{is_bindable, shape_due};

use crate::RawTerm;
use crate::frame::{Application, Frame, Role, is_closing};
use crate::operation::Wrap;
use crate::parts_so_far::{Atom, PartsSoFar};
use crate::terminal::Terminal;
use dk_lexer::Sign;
use dk_model::NoMemory;
use std::alloc::Global;

/// A term that has begun.
#[derive(Drop)]
pub struct TermSoFar {
    list: PartsSoFar,
    // What waits for a term, the outermost first.
    frames: Vec<Frame>,
    application: Application,
    ghost shaped: { (parts list).shape ≡ shape_due application frames.items },
    ghost bindable: { is_bindable application (parts list).items ≡ true },
}

/// What a terminal came to.
#[derive(Drop)]
pub enum TermStep {
    /// The term goes on.
    Goes,
    /// This is the whole term, and this sign stands behind it.
    Ends(RawTerm, Sign),
    /// No term goes on so.
    Refuses,
}

impl TermSoFar {
    ghost use Rattle.dk_terms.specs.Parts.{binder_in, is_lone, with_scope, with_waiting, written_atom};
    ghost use Rattle.dk_terms.specs.Parsing.{arrow_next, asked_due, atom_next, binder_next, colon_next, double_arrow_next, end_next, open_next, term_due, term_next};
    ghost use Rattle.dk_terms.specs.Postfix.{by_arrow};
    ghost use Rattle.dk_terms.specs.Shapes.{HasRead, is_after_term};
    ghost use Rattle.dk_terms.specs.Views.{bracket_over, domain_over, ended_over, plain_term, plain_term_step, scope_over};

    /// Before the first terminal.
    pub fn new(alloc: Global) -> TermSoFar
        ensures { plain_term result ≡ term_due }
    {
        TermSoFar {
            list: PartsSoFar::new(alloc),
            frames: Vec::new(alloc),
            application: Application::Reading(Role::Front, false),
        }
    }

    /// Begins anew.
    pub fn begin(&mut self)
        ensures { plain_term self.new ≡ term_due }
    {
        self.list.clear();
        self.frames.clear();
        self.application = Application::Reading(Role::Front, false);
    }

    /// Begins anew, with an application that a colon or another sign ends.
    pub fn begin_asked(&mut self)
        ensures { plain_term self.new ≡ asked_due }
    {
        self.list.clear();
        self.frames.clear();
        self.application = Application::Reading(Role::Asked, false);
    }

    /// Takes a terminal. Only a whole term takes memory that isn't kept.
    #[inline(always)]
    pub fn next(&mut self, alloc: Global, x: Terminal) -> Result<TermStep, NoMemory>
        ensures { IfOk result (λ step. plain_term_step step self.new
            ≡ term_next (plain_term self.old) x) }
    {
        match x {
            Terminal::Name(n) => self.binder(Atom::Name(n.as_slice())),
            Terminal::Wildcard => self.binder(Atom::Wild),
            Terminal::Qualified(m, n) => self.atom(Atom::Qualified(m.as_slice(), n.as_slice())),
            Terminal::Star => self.atom(Atom::Star),
            Terminal::Sign(Sign::OpenBracket) => self.open(),
            Terminal::Sign(Sign::Colon) => self.colon(alloc),
            Terminal::Sign(Sign::Arrow) => self.arrow(),
            Terminal::Sign(Sign::DoubleArrow) => self.double_arrow(),
            Terminal::Sign(sign) => self.end(alloc, sign),
            _ => Ok(TermStep::Refuses),
        }
    }

    // Another atom.
    #[tactic(auto, using(crate::proofs::Framed::front_read))]
    #[inline(always)]
    fn atom(&mut self, atom: Atom) -> Result<TermStep, NoMemory>
        ensures { IfOk result (λ step. plain_term_step step self.new
            ≡ atom_next (plain_term self.old).frames (plain_term self.old).application
            (written_atom atom.entry)) }
    {
        match self.application {
            Application::Reading(role, read) => {
                self.list.atom(atom, read)?;
                self.application = Application::Reading(role, true);
                Ok(TermStep::Goes)
            }
            Application::Bindable => {
                self.list.atom(atom, true)?;
                self.application = Application::Reading(Role::Front, true);
                Ok(TermStep::Goes)
            }
            Application::Bracketed => Ok(TermStep::Refuses),
        }
    }

    // A name or a wildcard.
    #[tactic(auto, using(crate::proofs::Framed::bound_later))]
    #[inline(always)]
    fn binder(&mut self, atom: Atom) -> Result<TermStep, NoMemory>
        requires { is_lone (written_atom atom) ≡ true }
        ensures { IfOk result (λ step. plain_term_step step self.new
            ≡ binder_next (plain_term self.old).frames (plain_term self.old).application
            (binder_in (written_atom atom.entry))) }
    {
        if !self.application.is_first() {
            return self.atom(atom);
        }
        self.list.atom(atom, false)?;
        self.application = Application::Bindable;
        Ok(TermStep::Goes)
    }

    #[tactic(auto, using(crate::proofs::Framed::front_read))]
    #[inline(always)]
    fn open(&mut self) -> Result<TermStep, NoMemory>
        ensures { IfOk result (λ step. plain_term_step step self.new
            ≡ open_next (plain_term self.old).frames (plain_term self.old).application) }
    {
        match self.application {
            Application::Reading(role, read) => self.bracket(role, read),
            Application::Bindable => self.bracket(Role::Front, true),
            Application::Bracketed => Ok(TermStep::Refuses),
        }
    }

    // A bracket in an application of which something may have been read.
    #[tactic(auto, using(crate::proofs::Framed::on_top, crate::proofs::Framed::shaped_bracket))]
    #[inline(always)]
    fn bracket(&mut self, role: Role, read: bool) -> Result<TermStep, NoMemory>
        requires { HasRead self.old.application read }
        ensures { IfOk result (λ step. plain_term_step step self.new
            ≡ bracket_over (parts self.old.list) self.old.frames.items role read) }
    {
        self.frames.reserve(1)?;
        self.frames.push_reserved(Frame::Bracket(role, read));
        self.application = Application::Reading(Role::Front, false);
        Ok(TermStep::Goes)
    }

    fn colon(&mut self, alloc: Global) -> Result<TermStep, NoMemory>
        ensures { IfOk result (λ step. plain_term_step step self.new
            ≡ colon_next (plain_term self.old).frames (plain_term self.old).application) }
    {
        match self.application {
            Application::Bindable => {
                self.list.wait()?;
                self.application = Application::Reading(Role::Domain, false);
                Ok(TermStep::Goes)
            }
            Application::Reading(Role::Asked, true) => self.unwind(alloc, Sign::Colon),
            _ => Ok(TermStep::Refuses),
        }
    }

    #[tactic(auto, using(crate::proofs::Framed::front_read))]
    fn arrow(&mut self) -> Result<TermStep, NoMemory>
        ensures { IfOk result (λ step. plain_term_step step self.new
            ≡ arrow_next (plain_term self.old).frames (plain_term self.old).application) }
    {
        match self.application {
            Application::Bindable => self.scope_of_arrow(),
            Application::Reading(Role::Front, true) => self.scope_of_arrow(),
            Application::Reading(Role::Domain, true) => self.scope(Wrap::Product),
            Application::Bracketed => self.scope(Wrap::Product),
            _ => Ok(TermStep::Refuses),
        }
    }

    fn double_arrow(&mut self) -> Result<TermStep, NoMemory>
        ensures { IfOk result (λ step. plain_term_step step self.new
            ≡ double_arrow_next (plain_term self.old).frames (plain_term self.old).application) }
    {
        match self.application {
            Application::Bindable => {
                self.list.wait()?;
                self.application = Application::Reading(Role::Domain, false);
                self.scope(Wrap::Bare)
            }
            Application::Reading(Role::Domain, true) => self.scope(Wrap::Annotated),
            _ => Ok(TermStep::Refuses),
        }
    }

    // Behind the arrow of a domain without a binder, the last term.
    #[tactic(auto, using(crate::proofs::Framed::on_top, crate::proofs::Framed::shaped_scope))]
    fn scope_of_arrow(&mut self) -> Result<TermStep, NoMemory>
        requires { HasRead self.old.application true }
        ensures { IfOk result (λ step. plain_term_step step self.new ≡ scope_over
            (with_scope by_arrow (parts self.old.list)) self.old.frames.items Wrap.Product) }
    {
        self.frames.reserve(1)?;
        self.list.begin_arrow()?;
        self.frames.push_reserved(Frame::Wraps(Wrap::Product));
        self.application = Application::Reading(Role::Front, false);
        Ok(TermStep::Goes)
    }

    // Behind the arrow of the binder that waits last.
    #[tactic(auto, using(crate::proofs::Framed::on_top, crate::proofs::Framed::shaped_scope))]
    fn scope(&mut self, wrap: Wrap) -> Result<TermStep, NoMemory>
        requires { HasRead self.old.application (is_after_term wrap) }
        ensures { IfOk result (λ step. plain_term_step step self.new ≡ scope_over
            (with_waiting (parts self.old.list)) self.old.frames.items wrap) }
    {
        self.frames.reserve(1)?;
        self.list.begin_waiting()?;
        self.frames.push_reserved(Frame::Wraps(wrap));
        self.application = Application::Reading(Role::Front, false);
        Ok(TermStep::Goes)
    }

    // A sign that ends an application.
    #[tactic(auto, using(crate::proofs::Framed::front_read))]
    fn end(&mut self, alloc: Global, sign: Sign) -> Result<TermStep, NoMemory>
        ensures { IfOk result (λ step. plain_term_step step self.new
            ≡ end_next (plain_term self.old).frames (plain_term self.old).application sign) }
    {
        match self.application {
            Application::Bindable => self.unwind(alloc, sign),
            Application::Reading(Role::Front, true) => self.unwind(alloc, sign),
            Application::Reading(Role::Asked, true) => self.unwind(alloc, sign),
            Application::Reading(Role::Domain, true) => Ok(self.close_domain(sign)),
            _ => Ok(TermStep::Refuses),
        }
    }

    // The binder that waits last and its domain in brackets, at the front of a term.
    #[tactic(auto, using(crate::proofs::Framed::shaped_domain))]
    fn close_domain(&mut self, sign: Sign) -> TermStep
        requires { HasRead self.old.application true }
        ensures { plain_term_step result self.new
            ≡ domain_over (parts self.old.list) self.old.frames.items sign }
    {
        let Some(frame) = self.frames.pop() else {
            return TermStep::Refuses;
        };
        if frame.is_domain() && is_closing(sign) {
            self.application = Application::Bracketed;
            return TermStep::Goes;
        }
        self.frames.push_reserved(frame);
        TermStep::Refuses
    }

    // The sign behind the last term in its frames.
    #[tactic(auto, using(crate::proofs::Framed::shaped_wrap, crate::proofs::Framed::shaped_close))]
    fn unwind(&mut self, alloc: Global, sign: Sign) -> Result<TermStep, NoMemory>
        requires { HasRead self.old.application true }
        ensures { IfOk result (λ step. plain_term_step step self.new
            ≡ ended_over (parts self.old.list) self.old.frames.items sign) }
    {
        self.application = Application::Reading(Role::Front, true);
        self.list.reserve()?;
        while let Some(frame) = self.frames.pop() {
            match frame {
                Frame::Wraps(wrap) => self.list.wrap(wrap),
                Frame::Bracket(role, read) => {
                    if is_closing(sign) {
                        self.list.apply(read);
                        self.application = Application::Reading(role, true);
                        return Ok(TermStep::Goes);
                    }
                    self.frames.push_reserved(frame);
                    return Ok(TermStep::Refuses);
                }
            }
            self.list.reserve()?;
        }
        let term = self.list.whole(alloc)?;
        Ok(TermStep::Ends(term, sign))
    }
}
