//! The rule that every step keeps, and what each kind of step tells (docs/board-lock.md).
ghost use Rattle.std.specs.Prelude.{ℕ, List, []};
ghost use Rattle.ticket_slot.specs.Steps.{drew, looked, gave, counted};
ghost use Rattle.ticket_slot.specs.Views.{parent, child, joined, spent_view};

use crate::kept::Kept;
use crate::view::View;
use atomic_table::{Join, Play, Split, TableRule};
use std::marker::{Brand, PhantomData};

/// The rule over the three words, the slot and all views.
pub struct Turns<V> {
    value: PhantomData<V>,
}

impl<V: Kept> TableRule<Option<V>, View<V::Event, V::Item>, ()> for Turns<V> {
    ghost use Rattle.ticket_slot.specs.Rule.{Ruled};
    ghost use Rattle.ticket_slot.specs.Views.{reader};

    ghost holds = { λ _. Ruled V.events V.items V.lawful };

    ghost first = { λ _. reader };
}

/// Draws a ticket.
pub struct Draw;

impl<S, E, J> Play<Option<S>, View<E, J>> for Draw {
    ghost then = { drew };
}

/// Reads whose turn it is.
pub struct Look<V> {
    value: PhantomData<V>,
}

impl<V: Kept> Play<Option<V>, View<V::Event, V::Item>> for Look<V> {
    ghost then = { looked V.events V.items V.lawful };
}

/// Passes the turn on.
pub struct Give;

impl<S, E, J> Play<Option<S>, View<E, J>> for Give {
    ghost then = { gave };
}

/// The history and the list after an event: the call that counts it picks them.
pub trait Adding<E, J> {
    ghost events: { List (ℕ × E) };

    ghost items: { List J };
}

impl<E, J> Adding<E, J> for Brand {
    ghost events = { [] };

    ghost items = { [] };
}

/// Counts an event.
pub struct Count<X> {
    after: PhantomData<X>,
}

impl<S, E, J, X: Adding<E, J>> Play<Option<S>, View<E, J>> for Count<X> {
    ghost then = { counted X.events X.items };
}

/// Splits a seat off the reader's, and joins one into it.
pub struct Seating;

impl<E, J> Split<View<E, J>> for Seating {
    ghost left = { parent };

    ghost right = { child };
}

impl<E, J> Join<View<E, J>> for Seating {
    ghost both = { joined };

    ghost spent = { spent_view };
}
