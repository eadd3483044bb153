//! A command after scoping: its names are numbers.
use crate::{Listed, SymSort, Term};

/// A scoped command.
#[derive(Drop)]
pub enum Scoped {
    Declare {
        sort: SymSort,
        /// The declared type; a definition may have none.
        typ: Option<Term>,
        /// The body of a definition or theorem.
        body: Option<Term>,
    },
    Rules(Listed<ScopedRule>),
    Query {
        /// Whether the command is accepted only where the answer is yes, as `#ASSERT`.
        demand: bool,
        asked: Asked,
    },
}

/// What a query asks.
#[derive(Drop)]
pub enum Asked {
    /// Whether the term has the type.
    Typed(Term, Term),
    /// Whether the terms are the same.
    Equal(Term, Term),
    /// The type of the term.
    Infer(Term),
    /// The normal form of the term.
    Eval(Term),
}

/// A scoped rule, before its left side is known to be a pattern.
#[derive(Drop)]
pub struct ScopedRule {
    /// How many rule variables the context has.
    pub vars: u32,
    /// The annotations of the context, in its order.
    pub notes: Listed<Option<Term>>,
    pub left: Left,
    pub right: Term,
}

/// A scoped left side.
#[derive(Drop)]
pub enum Left {
    /// A symbol, by its number in the signature.
    Sym(u32),
    /// A rule variable, by its place in the context, from 0.
    Rvar(u32),
    /// The variable of the `k`th binder of the left side around it, from 0 at the innermost.
    Var(u32),
    /// The wildcard.
    Any,
    /// A guard: a term that the part must be convertible with, under no binders.
    Guard(Term),
    /// An abstraction; its body is under the variable.
    Abs(Box<Left>),
    /// A function and its argument.
    App(Box<Left>, Box<Left>),
}
