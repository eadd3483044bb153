//! Where a terminal stands in its command: its level, and the argument that it begins.
ghost use Rattle.std.specs.Prelude.{◌≡◌, ◌+◌, ℕ, IfOk, OnOk, if◌then◌else◌};
ghost use Rattle.dk_parser.specs.Levels.{argument_in, at_start, params_closed, standing_behind, with_new_groups};
ghost use Rattle.dk_parser.specs.Groups.{grouped, load, open_arrows, plain_side};

use dk_lexer::Sign;
use dk_model::{Listed, NoMemory};
use dk_terms::Terminal;
use std::alloc::Global;
use std::mem::replace;

/// What stands in a bracket: its arrows so far, and the atoms of its last application.
#[derive(Clone, Copy)]
pub struct Group {
    pub arrows: u64,
    pub atoms: u64,
}

/// Where in its command a terminal stands.
#[derive(Clone, Copy)]
pub enum Side {
    /// Before the first colon that is in no bracket.
    Head,
    BehindHead,
    /// On the left side of a rule.
    Left,
}

/// Where the next terminal of a command stands.
#[derive(Drop)]
pub struct Standing {
    // The parameters that have closed.
    params: u64,
    side: Side,
    inner: Group,
    // What the brackets that are open stand in, the outermost first.
    outer: Listed<Group>,
    level: u64,
    ghost counted: { level ≡ params + (inner.arrows + open_arrows outer) },
}

const NOTHING: Group = Group {
    arrows: 0,
    atoms: 0,
};

// One more.
fn next(n: u64) -> Result<u64, NoMemory>
    ensures { IfOk result (λ next. next ≡ n + 1) }
{
    n.checked_add(1).ok_or(NoMemory)
}

impl Standing {
    ghost use Rattle.dk_parser.specs.Views.{plain_standing};

    /// Before the first terminal.
    pub fn new(alloc: Global) -> Standing
        ensures { plain_standing result ≡ at_start }
    {
        Standing {
            params: 0,
            side: Side::Head,
            inner: NOTHING,
            outer: Listed::new(alloc),
            level: 0,
        }
    }

    /// Takes a terminal. The level that it stands on, or the number of the argument that it
    /// begins, whichever is greater.
    pub fn take(&mut self, alloc: Global, x: &Terminal) -> Result<u64, NoMemory>
        ensures load { IfOk result (λ n. n ≡ load (plain_standing self.old) x.now) }
        ensures after { OnOk result (plain_standing self.new
            ≡ standing_behind (plain_standing self.old) x.now) }
    {
        let argument = self.argument(x);
        self.go(alloc, x)?;
        Ok(self.level.max(argument))
    }

    // The number of the argument that a terminal begins, from 1; 0 where it begins none.
    fn argument(&self, x: &Terminal) -> u64
        ensures { result ≡ argument_in (plain_standing self.now) x.now }
    {
        match x {
            Terminal::Name(_) => self.inner.atoms,
            Terminal::Qualified(_, _) => self.inner.atoms,
            Terminal::Star => self.inner.atoms,
            Terminal::Wildcard => self.inner.atoms,
            Terminal::Sign(Sign::OpenBracket) => self.inner.atoms,
            Terminal::Sign(Sign::OpenBrace) => match self.side {
                Side::Left => self.inner.atoms,
                _ => 0,
            },
            _ => 0,
        }
    }

    fn go(&mut self, alloc: Global, x: &Terminal) -> Result<(), NoMemory>
        ensures { OnOk result (plain_standing self.new
            ≡ standing_behind (plain_standing self.old) x.now) }
    {
        match x {
            Terminal::Name(_) => self.atom()?,
            Terminal::Qualified(_, _) => self.atom()?,
            Terminal::Star => self.atom()?,
            Terminal::Wildcard => self.atom()?,
            Terminal::Sign(Sign::OpenBracket) => self.open()?,
            Terminal::Sign(Sign::CloseBracket) => self.close_bracket()?,
            Terminal::Sign(Sign::Colon) => self.colon(),
            Terminal::Sign(Sign::Arrow) => self.arrow()?,
            Terminal::Sign(Sign::DoubleArrow) => self.arrow()?,
            Terminal::Sign(Sign::OpenBrace) => match self.side {
                Side::Left => self.open()?,
                _ => self.anew(alloc, Side::BehindHead),
            },
            Terminal::Sign(Sign::CloseBrace) => self.close(),
            Terminal::Sign(Sign::CloseSquare) => self.anew(alloc, Side::Left),
            Terminal::Sign(Sign::Dot) => self.start(alloc),
            Terminal::Sign(_) => self.anew(alloc, Side::BehindHead),
            Terminal::Check | Terminal::Assert => self.anew(alloc, Side::BehindHead),
            Terminal::Infer | Terminal::Eval => self.anew(alloc, Side::BehindHead),
            _ => (),
        }
        Ok(())
    }

    fn atom(&mut self) -> Result<(), NoMemory>
        ensures { OnOk result (plain_standing self.new
            ≡ grouped (plain_standing self.old) Terminal.Star) }
    {
        self.inner.atoms = next(self.inner.atoms)?;
        Ok(())
    }

    fn arrow(&mut self) -> Result<(), NoMemory>
        ensures { OnOk result (plain_standing self.new
            ≡ grouped (plain_standing self.old) (Terminal.Sign Sign.Arrow)) }
    {
        let level = next(self.level)?;
        let arrows = next(self.inner.arrows)?;
        self.inner = Group { arrows, atoms: 0 };
        self.level = level;
        Ok(())
    }

    // A bracket, or the brace of a guard.
    #[tactic(auto, using(crate::proofs::Grouped::arrows_pushed, dk_terms::proofs::Stacked::pushed))]
    fn open(&mut self) -> Result<(), NoMemory>
        ensures { OnOk result (plain_standing self.new
            ≡ grouped (plain_standing self.old) (Terminal.Sign Sign.OpenBracket)) }
    {
        let level = next(self.level)?;
        let atoms = next(self.inner.atoms)?;
        let arrows = self.inner.arrows;
        self.outer.push(Group { arrows, atoms })?;
        self.inner = NOTHING;
        self.level = level;
        Ok(())
    }

    #[tactic(auto, using(crate::proofs::Grouped::arrows_pushed, dk_terms::proofs::Stacked::pushed))]
    fn close(&mut self)
        ensures { plain_standing self.new
            ≡ grouped (plain_standing self.old) (Terminal.Sign Sign.CloseBracket) }
    {
        if self.outer.is_empty() {
            return;
        }
        if let Some(group) = self.outer.pop() {
            self.level -= self.inner.arrows;
            self.level -= 1;
            self.inner = group;
        }
    }

    // Whether a bracket that closes is that of a parameter.
    #[tactic(auto, using(crate::proofs::Grouped::one_closed, crate::proofs::Grouped::other_closed))]
    fn closes_param(&self) -> bool
        ensures { (n : ℕ) → params_closed (plain_standing self.now).side
            (plain_standing self.now).groups.outer n ≡ (if result then n + 1 else n) }
    {
        match self.side {
            Side::Head => self.outer.len() == 1,
            _ => false,
        }
    }

    fn close_bracket(&mut self) -> Result<(), NoMemory>
        ensures { OnOk result (plain_standing self.new
            ≡ standing_behind (plain_standing self.old) (Terminal.Sign Sign.CloseBracket)) }
    {
        if !self.closes_param() {
            self.close();
            return Ok(());
        }
        let params = next(self.params)?;
        let level = next(self.level)?;
        self.params = params;
        self.level = level;
        self.close();
        Ok(())
    }

    #[tactic(auto, using(crate::proofs::Grouped::colon_inside))]
    fn colon(&mut self)
        ensures { plain_standing self.new
            ≡ standing_behind (plain_standing self.old) (Terminal.Sign Sign.Colon) }
    {
        self.inner.atoms = 0;
        if self.outer.is_empty() {
            if let Side::Head = self.side {
                self.side = Side::BehindHead;
            }
        }
    }

    // Behind a term, a context or a left side.
    fn anew(&mut self, alloc: Global, side: Side)
        ensures { plain_standing self.new
            ≡ with_new_groups (plain_standing self.old) (plain_side side) }
    {
        let mut outer = replace(&mut self.outer, Listed::new(alloc)).into_vec();
        outer.clear();
        self.outer = Listed::from_vec(outer);
        self.inner = NOTHING;
        self.side = side;
        self.level = self.params;
    }

    /// Begins anew, behind a command.
    pub fn start(&mut self, alloc: Global)
        ensures { plain_standing self.new ≡ at_start }
    {
        self.anew(alloc, Side::Head);
        self.params = 0;
        self.level = 0;
    }
}
