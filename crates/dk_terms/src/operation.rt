//! Postfix lists: a term as the operations that make it, each behind its parts (docs/syntax.md).
ghost use Rattle.std.specs.Prelude.{◌≡◌};
ghost use Rattle.dk_terms.specs.Postfix.{span_of};

/// The letters of a name in a list of letters: from here on, up to there.
#[derive(Clone, Copy)]
pub struct Span {
    pub from: u32,
    pub to: u32,
}

/// What makes a longer term of the one in a scope.
#[derive(Clone, Copy)]
pub enum Wrap {
    /// `A -> B`, or `binder : A -> B`.
    Product,
    /// `binder => t`.
    Bare,
    /// `binder : A => t`.
    Annotated,
}

/// What begins a scope.
#[derive(Clone, Copy)]
pub enum Opening {
    /// An arrow, which has no binder.
    Arrow,
    /// A binder. None is the wildcard.
    Binder(Option<Span>),
}

/// An operation on the terms before it. `A -> B` is `A Begin(Arrow) B Wrap(Product)`, and `x : A => t` is
/// `A Begin(Binder(x)) t Wrap(Annotated)`.
#[derive(Clone, Copy)]
pub enum RawOperation {
    Name(Span),
    /// A module and a name in it: so many letters of the module, and then those of the name.
    Qualified(Span, u32),
    /// The word `Type`.
    Star,
    /// The wildcard.
    Wild,
    /// The last two terms become an application.
    Apply,
    /// A scope begins.
    Begin(Opening),
    /// It ends: a domain where it has one, what began it, and the term in it become one.
    Wrap(Wrap),
}

impl RawOperation {
    /// The letters of the name that it makes.
    pub fn name(self) -> Option<Span>
        ensures { result ≡ span_of self }
    {
        match self {
            RawOperation::Name(span) => Some(span),
            _ => None,
        }
    }
}
