//! What the value behind the tickets has to say of itself.
ghost use Rattle.std.specs.Prelude.{ℕ, List};

/// A value whose history of events, each by one maker, is counted beside it.
pub trait Kept {
    /// An event, without its maker.
    type Event;

    /// An item of the list that the reader alone makes longer.
    type Item;

    /// The events so far, the oldest first, each behind its maker's number.
    ghost events: { Self → List (ℕ × Self.Event) };

    /// The reader's list.
    ghost items: { Self → List Self.Item };

    /// That a history may stand beside a list.
    ghost lawful: { List (ℕ × Self.Event) → List Self.Item → Type 0 };
}
