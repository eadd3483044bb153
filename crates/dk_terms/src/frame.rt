//! Where an atom of a term stands: in its application, and in what is around that.
ghost use Rattle.std.specs.Prelude.{◌≡◌};
ghost use Rattle.dk_terms.specs.Shapes.{is_closing, is_domain, is_first};

use crate::operation::Wrap;
use dk_lexer::Sign;

/// Where an application stands.
#[derive(Clone, Copy)]
pub enum Role {
    /// At the front of a term.
    Front,
    /// As what a query asks of: an application, and no longer term.
    Asked,
    /// As the domain of the binder that waits last.
    Domain,
}

/// What has been read of an application and before it.
#[derive(Clone, Copy)]
pub enum Application {
    /// Nothing, or some atoms: they are the last term.
    Reading(Role, bool),
    /// A name or a wildcard at the front of a term, the last one: a binder or the first atom.
    Bindable,
    /// The binder that waits last and its domain in brackets, the last term: an arrow is due.
    Bracketed,
}

/// What waits for a term.
#[derive(Clone, Copy)]
pub enum Frame {
    /// An open bracket; whether something stands before it, and where.
    Bracket(Role, bool),
    /// A scope that a longer term is made of.
    Wraps(Wrap),
}

impl Application {
    /// Whether it stands at the front of a term and nothing has been read of it.
    #[inline(always)]
    pub fn is_first(self) -> bool
        ensures { result ≡ is_first self }
    {
        matches!(self, Application::Reading(Role::Front, false))
    }
}

impl Frame {
    /// Whether a binder and its domain may stand in it: a bracket at the front of a term.
    pub fn is_domain(self) -> bool
        ensures { result ≡ is_domain self }
    {
        matches!(self, Frame::Bracket(Role::Front, false))
    }
}

/// Whether a sign closes a bracket.
#[inline(always)]
pub fn is_closing(sign: Sign) -> bool
    ensures { result ≡ is_closing sign }
{
    matches!(sign, Sign::CloseBracket)
}
