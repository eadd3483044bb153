//! The bytes so far, and whether a blank is due.
ghost use Rattle.std.specs.Prelude.{◌≡◌, ◌∷◌, ◌++◌, [], true, if◌then◌else◌, OnOk};
ghost use Rattle.dk_terms.specs.declared.terminal.Terminal.TheVariants as terminal;
ghost use Rattle.dk_lexer.specs.declared.token.Sign.TheVariants as sign;
ghost use Rattle.term_print.specs.Text.{sign_text};
ghost use Rattle.term_print.specs.Tasks.{Puts, mark_sign};

use dk_model::NoMemory;
use std::alloc::Global;

/// The bytes so far, and whether the next terminal is joined to them.
#[derive(Drop)]
pub(crate) struct Text {
    pub(crate) bytes: Vec<u8>,
    pub(crate) joined: bool,
}

impl Text {
    pub(crate) fn new(alloc: Global) -> Text
        ensures bytes { result.bytes.items ≡ [] }
        ensures joined { result.joined ≡ true }
    {
        Text {
            bytes: Vec::new(alloc),
            joined: true,
        }
    }

    // A blank, where one is due.
    fn gap(&mut self) -> Result<(), NoMemory>
        ensures { OnOk result (self.new.bytes.items ≡ self.old.bytes.items
            ++ (if self.old.joined then [] else (32 ∷ []))) }
    {
        if !self.joined {
            self.bytes.push(b' ')?;
        }
        Ok(())
    }

    /// A name.
    #[tactic(auto, using(crate::proofs::Writing::name_put))]
    pub(crate) fn put_name(&mut self, name: &[u8]) -> Result<(), NoMemory>
        ensures { OnOk result (Puts self.old (terminal.Name name.now) self.new) }
    {
        self.gap()?;
        self.bytes.extend_from_slice(name)?;
        self.joined = false;
        Ok(())
    }

    /// A qualified name.
    #[tactic(auto, using(crate::proofs::Writing::qualified_put))]
    pub(crate) fn put_qualified(&mut self, module_name: &[u8], name: &[u8]) -> Result<(), NoMemory>
        ensures { OnOk result
            (Puts self.old (terminal.Qualified module_name.now name.now) self.new) }
    {
        self.gap()?;
        self.bytes.extend_from_slice(module_name)?;
        self.bytes.push(b'.')?;
        self.bytes.extend_from_slice(name)?;
        self.joined = false;
        Ok(())
    }

    /// The word `Type`.
    #[tactic(auto, using(crate::proofs::Writing::star_put))]
    pub(crate) fn put_star(&mut self) -> Result<(), NoMemory>
        ensures { OnOk result (Puts self.old terminal.Star self.new) }
    {
        self.gap()?;
        self.bytes.extend_from_slice(b"Type".as_slice())?;
        self.joined = false;
        Ok(())
    }

    /// The wildcard.
    #[tactic(auto, using(crate::proofs::Writing::wildcard_put))]
    pub(crate) fn put_wildcard(&mut self) -> Result<(), NoMemory>
        ensures { OnOk result (Puts self.old terminal.Wildcard self.new) }
    {
        self.gap()?;
        self.bytes.push(b'_')?;
        self.joined = false;
        Ok(())
    }

    /// An opening bracket.
    #[tactic(auto, using(crate::proofs::Writing::open_put))]
    pub(crate) fn put_open(&mut self) -> Result<(), NoMemory>
        ensures { OnOk result (Puts self.old (terminal.Sign sign.OpenBracket) self.new) }
    {
        self.gap()?;
        self.bytes.push(b'(')?;
        self.joined = true;
        Ok(())
    }

    /// A closing bracket.
    #[tactic(auto, using(crate::proofs::Writing::close_put))]
    pub(crate) fn put_close(&mut self) -> Result<(), NoMemory>
        ensures { OnOk result (Puts self.old (terminal.Sign sign.CloseBracket) self.new) }
    {
        self.bytes.push(b')')?;
        self.joined = false;
        Ok(())
    }

    /// A sign that is no bracket.
    #[tactic(auto, using(crate::proofs::Writing::mark_put))]
    pub(crate) fn put_mark(&mut self, mark: Mark) -> Result<(), NoMemory>
        ensures { OnOk result (Puts self.old (terminal.Sign (mark_sign mark)) self.new) }
    {
        self.gap()?;
        let text = mark_text(mark);
        self.bytes.extend_from_slice(text)?;
        self.joined = false;
        Ok(())
    }
}

/// A sign that is no bracket.
#[derive(Clone, Copy)]
pub enum Mark {
    Colon,
    Arrow,
    DoubleArrow,
}

fn mark_text(mark: Mark) -> &'static [u8]
    ensures { result.now ≡ sign_text (mark_sign mark) }
{
    match mark {
        Mark::Colon => b":".as_slice(),
        Mark::Arrow => b"->".as_slice(),
        Mark::DoubleArrow => b"=>".as_slice(),
    }
}
