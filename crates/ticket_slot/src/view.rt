//! What a pass shows. It exists in proofs alone: no value of these types is made.
use std::collections::LinkedList;

/// What a pass shows of its holder (docs/board-lock.md).
pub struct View<E, J> {
    /// False once the pass was joined.
    pub live: bool,
    /// The number under which its events stand in the history; the reader's is 0.
    pub number: u64,
    /// Of the reader's pass: how many passes were made so far, its own among them.
    pub made: u64,
    /// The ticket that it drew and has not given up, counted without end.
    pub ticket: Option<u64>,
    /// Whether its turn has come and was not passed on.
    pub turn: bool,
    /// How many turns it has passed on.
    pub turns: u64,
    /// The part of the history that its holder has seen: at a turn the whole of it.
    pub seen: LinkedList<(u64, E)>,
    /// Its own events, in order.
    pub mine: LinkedList<(u64, E)>,
    /// The reader's list as it was at its last turn.
    pub known: LinkedList<J>,
    /// Of the reader's pass: the passes that it took in, the last one first.
    pub ended: LinkedList<Ended<E, J>>,
}

/// What a pass showed when it was joined into the reader's.
pub struct Ended<E, J> {
    pub number: u64,
    pub seen: LinkedList<(u64, E)>,
    pub mine: LinkedList<(u64, E)>,
    pub known: LinkedList<J>,
}
