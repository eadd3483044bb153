//! The parts of a term so far, as a postfix list.
ghost use Rattle.std.specs.Prelude.{◌≡◌, ◌≤◌, ◌++◌, true, length, All, IfOk, OnOk, OnErr};
ghost use Rattle.dk_terms.specs.Postfix.{binder_end, operation_end, one_term};

use crate::RawTerm;
use crate::operation::{Opening, RawOperation, Span, Wrap};
use dk_model::{Listed, NoMemory};
use std::alloc::Global;

/// An atom that is no bracket.
#[derive(Clone, Copy)]
pub enum Atom<'a> {
    Name(&'a [u8]),
    /// A module and a name in it.
    Qualified(&'a [u8], &'a [u8]),
    Star,
    Wild,
}

/// Terms and binders, as a postfix list that has begun, and the binders that wait for their domains.
#[derive(Drop)]
pub struct PartsSoFar {
    operations: Vec<RawOperation>,
    letters: Vec<u8>,
    // The outermost first.
    waiting: Vec<Option<Span>>,
    ghost within: { All (λ x. operation_end x ≤ length letters.items) operations.items },
    ghost waiting_within: { All (λ v. binder_end v ≤ length letters.items) waiting.items },
}

// A number of letters, where it is small enough.
fn count(letters: usize) -> Result<u32, NoMemory>
    ensures { IfOk result (λ n. n ≡ letters) }
{
    match u32::try_from(letters) {
        Ok(letters) => Ok(letters),
        Err(_) => Err(NoMemory),
    }
}

impl PartsSoFar {
    ghost use Rattle.dk_terms.specs.Parts.{HasRoom, after, is_lone, maybe_applied, no_parts, parts, waits, with_scope, with_term, with_waiting, with_wrap, written_atom};
    ghost use Rattle.dk_terms.specs.RawViews.{written};
    ghost use Rattle.dk_terms.specs.Written.{written_qualified};
    ghost use Rattle.dk_terms.specs.Postfix.{by_arrow, top_term};

    /// Nothing. Takes no memory.
    pub fn new(alloc: Global) -> PartsSoFar
        ensures { parts result ≡ no_parts }
    {
        PartsSoFar {
            operations: Vec::new(alloc),
            letters: Vec::new(alloc),
            waiting: Vec::new(alloc),
        }
    }

    /// Lets all go, and keeps the memory.
    pub fn clear(&mut self)
        ensures { parts self.new ≡ no_parts }
    {
        self.operations.clear();
        self.waiting.clear();
        self.letters.clear();
    }

    // Keeps these letters.
    #[tactic(auto, using(crate::proofs::Spelt::parts_grown, crate::proofs::Spelt::still_within))]
    #[inline(always)]
    fn spell(&mut self, name: &[u8]) -> Result<Span, NoMemory>
        ensures same { parts self.new ≡ parts self.old }
        ensures ok { OnOk result (self.new.letters.items ≡ self.old.letters.items ++ name.now) }
        ensures from { IfOk result (λ s. s.from ≡ length self.old.letters.items) }
        ensures to { IfOk result (λ s. s.to ≡ length self.new.letters.items) }
    {
        let from = count(self.letters.len())?;
        self.letters.extend_from_slice(name)?;
        let to = count(self.letters.len())?;
        Ok(Span { from, to })
    }

    // Adds an operation without parts, and then perhaps applies the term before it.
    #[tactic(auto, using(crate::proofs::Spelt::parts_put, crate::proofs::Spelt::put_applied, crate::proofs::Spelt::put_within))]
    #[inline(always)]
    fn put(&mut self, operation: RawOperation, applied: bool) -> Result<(), NoMemory>
        requires { operation_end operation ≤ length self.old.letters.items }
        ensures ok { OnOk result (parts self.new
            ≡ maybe_applied applied (after self.old.letters.items operation (parts self.old))) }
        ensures err { OnErr result (parts self.new ≡ parts self.old) }
    {
        self.operations.reserve(2)?;
        self.operations.push_reserved(operation);
        if applied {
            self.operations.push_reserved(RawOperation::Apply);
        }
        Ok(())
    }

    /// Adds an atom, and applies the term before it where it is an argument.
    #[tactic(auto, using(crate::proofs::Spelt::spelt_now))]
    #[inline(always)]
    pub fn atom(&mut self, atom: Atom, applied: bool) -> Result<(), NoMemory>
        ensures ok { OnOk result (parts self.new
            ≡ maybe_applied applied (with_term (written_atom atom.entry) (parts self.old))) }
        ensures err { OnErr result (parts self.new ≡ parts self.old) }
    {
        match atom {
            Atom::Name(name) => {
                let span = self.spell(name)?;
                self.put(RawOperation::Name(span), applied)
            }
            Atom::Qualified(module_name, name) => self.qualified(module_name, name, applied),
            Atom::Star => self.put(RawOperation::Star, applied),
            Atom::Wild => self.put(RawOperation::Wild, applied),
        }
    }

    fn qualified(&mut self, module_name: &[u8], name: &[u8], applied: bool) -> Result<(), NoMemory>
        ensures ok { OnOk result (parts self.new ≡ maybe_applied applied
            (with_term (written_qualified module_name.now name.now) (parts self.old))) }
        ensures err { OnErr result (parts self.new ≡ parts self.old) }
    {
        let before = count(module_name.len())?;
        let front = self.spell(module_name)?;
        let back = self.spell(name)?;
        let span = Span {
            from: front.from,
            to: back.to,
        };
        self.put(RawOperation::Qualified(span, before), applied)
    }

    /// The last term, a name or a wildcard, waits for its domain as a binder.
    #[tactic(auto, using(crate::proofs::Spelt::waited, crate::proofs::Spelt::lone_there, crate::proofs::Spelt::put_within, crate::proofs::Spelt::less_within, crate::proofs::Spelt::last_within, crate::proofs::Spelt::span_within))]
    pub fn wait(&mut self) -> Result<(), NoMemory>
        requires { is_lone (top_term (parts self.old).items) ≡ true }
        ensures ok { OnOk result (parts self.new ≡ waits (parts self.old)) }
        ensures err { OnErr result (parts self.new ≡ parts self.old) }
    {
        self.waiting.reserve(1)?;
        let Some(operation) = self.operations.pop() else {
            unreachable!()
        };
        self.waiting.push_reserved(operation.name());
        Ok(())
    }

    /// The scope of the binder that waits last begins.
    #[tactic(auto, using(crate::proofs::Spelt::begun_waiting, crate::proofs::Spelt::begun_none, crate::proofs::Spelt::put_within, crate::proofs::Spelt::less_within, crate::proofs::Spelt::last_within))]
    pub fn begin_waiting(&mut self) -> Result<(), NoMemory>
        ensures ok { OnOk result (parts self.new ≡ with_waiting (parts self.old)) }
        ensures err { OnErr result (parts self.new ≡ parts self.old) }
    {
        self.operations.reserve(1)?;
        match self.waiting.pop() {
            Some(binder) => self
                .operations
                .push_reserved(RawOperation::Begin(Opening::Binder(binder))),
            None => self
                .operations
                .push_reserved(RawOperation::Begin(Opening::Binder(None))),
        }
        Ok(())
    }

    /// The scope behind an arrow begins.
    #[tactic(auto, using(crate::proofs::Spelt::put_arrow, crate::proofs::Spelt::put_within))]
    pub fn begin_arrow(&mut self) -> Result<(), NoMemory>
        ensures ok { OnOk result (parts self.new ≡ with_scope by_arrow (parts self.old)) }
        ensures err { OnErr result (parts self.new ≡ parts self.old) }
    {
        self.operations.reserve(1)?;
        self.operations
            .push_reserved(RawOperation::Begin(Opening::Arrow));
        Ok(())
    }

    /// Takes memory for an operation.
    pub fn reserve(&mut self) -> Result<(), NoMemory>
        ensures same { parts self.new ≡ parts self.old }
        ensures ok { OnOk result (HasRoom self.new) }
    {
        self.operations.reserve(1)?;
        Ok(())
    }

    /// Ends the last scope.
    #[tactic(auto, using(crate::proofs::Spelt::put_wrap, crate::proofs::Spelt::put_within))]
    pub fn wrap(&mut self, wrap: Wrap)
        requires { HasRoom self.old }
        ensures { parts self.new ≡ with_wrap wrap (parts self.old) }
    {
        self.operations.push_reserved(RawOperation::Wrap(wrap));
    }

    /// Applies the term before the last one to it, where it is an argument.
    #[tactic(auto, using(crate::proofs::Spelt::put_apply, crate::proofs::Spelt::put_within))]
    pub fn apply(&mut self, applied: bool)
        requires { HasRoom self.old }
        ensures { parts self.new ≡ maybe_applied applied (parts self.old) }
    {
        if applied {
            self.operations.push_reserved(RawOperation::Apply);
        }
    }

    /// The whole term, in memory of its own.
    pub fn whole(&self, alloc: Global) -> Result<RawTerm, NoMemory>
        requires { (parts self.now).shape ≡ one_term }
        ensures { IfOk result (λ t. written t ≡ top_term (parts self.now).items) }
    {
        let operations = Listed::from_slice(alloc, self.operations.as_slice())?;
        let letters = Listed::from_slice(alloc, self.letters.as_slice())?;
        Ok(RawTerm {
            operations,
            letters,
        })
    }
}
