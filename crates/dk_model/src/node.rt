//! The outermost node of a term, over whatever stands for the terms inside it.

/// A node. In a tree its parts are trees; where equal terms are one, they are numbers of nodes.
#[derive(Debug, Clone, Copy, PartialEq, Eq, Hash)]
pub enum NodeOf<I> {
    /// `Type`.
    Star,
    /// The type of `Type`, which no file spells.
    Kind,
    /// The symbol that entry `k` of the signature declares, from 0.
    Sym(u32),
    /// The variable of the `k`th binder around it, from 0 at the innermost.
    Var(u64),
    /// A variable of a rule's context, by its place there, from 0.
    Rvar(u32),
    /// A function and its argument.
    App(I, I),
    /// An abstraction: the annotation of its variable, if it has one, and the body, which is under the variable.
    Abs(Option<I>, I),
    /// A product: the domain, and the codomain, which is under the variable.
    Prod(I, I),
}
