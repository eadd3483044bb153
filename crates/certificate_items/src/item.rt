//! The items of a part (docs/certificates.md).
use certificate_lines::Word;
use dk_model::Listed;

/// A step of a term. Its nodes are numbered in preorder from 0.
#[derive(Drop)]
#[cycle(steps)]
pub enum Step {
    /// The contraction of the node of this number, a bare abstraction that is applied.
    Beta(u64),
    /// The rule of this number of the symbol at the node, from 0, with what joins its conditions.
    Rule {
        place: u64,
        number: u64,
        joins: Listed<Join>,
    },
}

/// The steps of two terms to one term.
#[derive(Drop)]
#[cycle(steps)]
pub struct Join {
    pub first: Listed<Step>,
    pub second: Listed<Step>,
}

/// What an evaluation that typing asks for has in its place.
#[derive(Drop)]
pub enum Item {
    /// The steps of a type to a form of it.
    Reduction(Listed<Step>),
    /// Two terms are convertible.
    Joining(Join),
    /// How an equation is solved, once both sides have taken their steps.
    Equation(Word, Join),
}
