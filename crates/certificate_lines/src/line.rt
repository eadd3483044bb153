//! A line of a certificate.

/// How an equation is solved once both sides have taken their steps.
#[derive(Clone, Copy, Debug, PartialEq, Eq)]
pub enum Word {
    /// The sides are the same.
    Same,
    /// The left rule variable is bound to the right side.
    LeftBound,
    /// The right rule variable is bound to the left side.
    RightBound,
    /// By the equations of its parts.
    InParts,
    /// It is dropped.
    LetGo,
}

/// A line, without the LF that ends it.
#[derive(Clone, Copy, Debug, PartialEq, Eq)]
pub enum Line {
    /// The first line of a certificate.
    First,
    /// The first line of the part of this command, counted from 1.
    Part(u64),
    /// A reduction by so many steps.
    Reduction(u64),
    /// The joining of two terms, by so many steps of the first and of the second.
    Joining(u64, u64),
    /// The solution of an equation, behind so many steps of its left and of its right side.
    Equation(u64, u64, Word),
    /// A contraction at this node, counted from 0.
    Beta(u64),
    /// A step at this node by the rule of this number, each counted from 0, with so many
    /// conditions.
    Rule(u64, u64, u64),
    /// The last line.
    Last,
}
