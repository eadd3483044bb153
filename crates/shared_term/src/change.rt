//! What a walk makes of a term, and of the parts of it that it comes to.

use crate::TermId;

/// What becomes of a term, by the number of binders that it stands under.
#[derive(Clone, Copy, PartialEq, Eq)]
pub(crate) enum Change {
    /// Its variables from that number on are raised.
    Shift(u64),
    /// The term takes the place of the variable with that number.
    Substitute(TermId),
    /// The terms of the call take the place of as many variables from that number on.
    SubstituteAll,
    /// Its annotations go.
    Erase,
    /// Its rule variables are replaced by their captures.
    Fill,
    /// Its variables are those of a capture, as its arguments bind them.
    Rename,
    /// Its variables that the pattern binds, and that are no arguments, are one more.
    Raise,
}

/// What is asked for: a term under a number of binders, changed.
#[derive(Clone, Copy, PartialEq, Eq)]
pub(crate) struct Goal {
    pub(crate) change: Change,
    pub(crate) id: TermId,
    pub(crate) depth: u64,
}

/// What the changes of one call look up: the captures; the terms that take the place of variables, the last one that of the
/// first; how many variables the pattern binds, and which of them are the arguments of the capture.
#[derive(Clone, Copy)]
pub(crate) struct Given<'a> {
    pub(crate) captures: &'a [Option<TermId>],
    pub(crate) terms: &'a [TermId],
    pub(crate) bound: u64,
    pub(crate) arguments: &'a [u32],
}

/// A node with two parts; the second is under a binder but in an application.
#[derive(Clone, Copy)]
pub enum Pair {
    Application,
    Abstraction,
    Product,
}

/// What waits for the change of a part: the goal that the node was, and what there is of it.
#[derive(Clone, Copy)]
pub(crate) enum Frame {
    /// The first part is being changed.
    First {
        goal: Goal,
        pair: Pair,
        second: TermId,
    },
    /// The second part is being changed; the first has been.
    Second {
        goal: Goal,
        pair: Pair,
        first: TermId,
    },
    /// The body of an abstraction that gets no annotation is being changed.
    Body {
        goal: Goal,
    },
}

/// Where a walk stands: before a term, or after it with what has become of it.
#[derive(Clone, Copy)]
pub(crate) enum State {
    Down(Goal),
    Up(TermId),
}
