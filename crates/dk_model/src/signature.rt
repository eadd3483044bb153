//! Patterns, rules, entries and the signature: what the commands before one have declared.
use crate::{Listed, Term};

/// How a symbol was declared.
#[derive(Clone, Copy, Debug, PartialEq, Eq)]
pub enum SymSort {
    /// By its type alone: it takes no rules.
    Static,
    /// By `def`: it may have a body, and takes rules.
    Definable,
    /// By `thm`: its body is never unfolded.
    Theorem,
}

/// A pattern on the left side of a rule, over the type of its terms. Variables and rule variables are numbered as in a term.
#[derive(Drop)]
pub enum Pat<T = Term> {
    /// A rule variable applied to distinct variables that are bound in the pattern.
    Rvar(u32, Listed<u32>),
    /// The wildcard.
    Any,
    /// A guard: a term that the part must be convertible with.
    Guard(T),
    /// A symbol applied to patterns.
    Sym(u32, Listed<Pat<T>>),
    /// A variable bound in the pattern, applied to patterns.
    Var(u32, Listed<Pat<T>>),
    /// An abstraction.
    Abs(Box<Pat<T>>),
}

/// A rewrite rule of a symbol, over the type of its terms.
#[derive(Drop)]
pub struct Rule<T = Term> {
    /// The symbol that is rewritten.
    pub head: u32,
    /// How many rule variables the context has.
    pub vars: u32,
    /// The patterns of the head's arguments.
    pub pats: Listed<Pat<T>>,
    /// The annotations of the context, in its order.
    pub notes: Listed<Option<T>>,
    /// The right side.
    pub right: T,
}

/// What one accepted command added, over the type of its terms.
#[derive(Drop)]
pub enum Entry<T = Term> {
    Symbol {
        sort: SymSort,
        /// The type, without annotations.
        typ: T,
        /// The body of a definition, without annotations.
        body: Option<T>,
    },
    Rules(Listed<Rule<T>>),
}

/// The entries of the commands accepted so far, in file order. Symbol `k` is declared by entry `k`, from 0.
#[derive(Drop)]
pub struct Signature {
    pub entries: Listed<Entry>,
}
