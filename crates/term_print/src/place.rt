//! Where a term stands in what is printed.
ghost use Rattle.std.specs.Prelude.{◌≡◌};
ghost use Rattle.term_print.specs.Tasks.{is_narrow, is_wide};

/// Where a term stands.
#[derive(Clone, Copy)]
pub enum Place {
    /// As a whole, in brackets, or behind an arrow.
    Term,
    /// As the head of an application, left of an arrow, or as the type of a binder.
    Application,
    /// As an argument.
    Atom,
}

impl Place {
    /// An application stands in brackets there.
    pub(crate) fn is_narrow(self) -> bool
        ensures { result ≡ is_narrow self }
    {
        match self {
            Place::Atom => true,
            _ => false,
        }
    }

    /// A product or an abstraction stands in brackets there.
    pub(crate) fn is_wide(self) -> bool
        ensures { result ≡ is_wide self }
    {
        match self {
            Place::Term => false,
            _ => true,
        }
    }
}
