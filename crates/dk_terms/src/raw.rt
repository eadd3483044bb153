//! Terms and patterns as they are written, before scoping (docs/syntax.md).
ghost use Rattle.std.specs.Prelude.{◌≡◌, [], Some, drop, take};
ghost use Rattle.dk_terms.specs.Postfix.{one_term, shape_from, spelling};

use crate::operation::{RawOperation, Span};
use crate::slices::{before, behind};
use dk_model::Listed;

/// A term as written, as a postfix list of its own. Names keep their spelling; brackets are gone.
#[derive(Drop)]
pub struct RawTerm {
    pub operations: Listed<RawOperation>,
    /// The letters of its names, one behind the other.
    pub letters: Listed<u8>,
    ghost whole: { shape_from operations (Some []) ≡ one_term },
}

impl RawTerm {
    /// The letters of a name.
    pub fn spelling(&self, span: Span) -> &[u8]
        ensures { result.now ≡ spelling self.now.letters span }
    {
        let letters = before(self.letters.as_slice(), span.to as usize);
        behind(letters, span.from as usize)
    }

    /// The letters of a module, of which there are so many, and of a name in it.
    pub fn qualified(&self, span: Span, count: u32) -> (&[u8], &[u8])
        ensures module_name { result.0.now ≡ take count (spelling self.now.letters span) }
        ensures name { result.1.now ≡ drop count (spelling self.now.letters span) }
    {
        let letters = self.spelling(span);
        let count = count as usize;
        (before(letters, count), behind(letters, count))
    }
}

/// A pattern as written.
#[derive(Drop)]
pub enum RawPat {
    Name(Listed<u8>),
    Qualified(Listed<u8>, Listed<u8>),
    Wild,
    /// `{t}`.
    Guard(RawTerm),
    App(Box<RawPat>, Box<RawPat>),
    Abs(Option<Listed<u8>>, Box<RawPat>),
}
