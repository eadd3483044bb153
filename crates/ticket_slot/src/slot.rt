//! The value, its tickets and its count.
ghost use Rattle.std.specs.Prelude.{◌≡◌, ℕ, ◌+◌, ◌-◌, ◌^◌, ◌<◌, ◌≤◌, [], ◌∷◌, length, IfOk, IfErr};
ghost use Rattle.std.specs.List.{All};
ghost use Rattle.ticket_slot.specs.Views.{IsFree, IsReader, HasTurn, TookTurn, AddsOne, KeepsList, EachOnce, EndsIn, StartsWith, calls_by, added, passed, child, parent, joined, ended_of, reader};

use crate::door::Door;
use crate::kept::Kept;
use crate::pause::Pause;
use crate::steps::{Adding, Count, Draw, Give, Look, Seating, Turns};
use crate::view::View;
use atomic_table::{Seat, Table};
use std::alloc::Global;
use std::marker::{Brand, Model};
use std::sync::Wait;
use std::thread;

// The words of the table.
const NEXT: usize = 0;

const SERVING: usize = 1;

const COUNT: usize = 2;

/// One value that threads take turns at. Contracts see the identity that its passes carry.
pub struct Slot<V: Kept> {
    table: Table<Option<V>, View<V::Event, V::Item>, (), Turns<V>, Global>,
    door: Door,
}

impl<V: Kept> Model for Slot<V> {
    ghost use Rattle.std.specs.Prelude.{◌≡◌};
    ghost use Rattle.atomic_table.specs.Seated.{TableId, table_id_coded};

    ghost Value = { TableId };

    ghost coded = { table_id_coded };

    ghost view = { λ s. s.table.shared.table_id };

    ghost invariant = { λ s. (s.table.shared.table_id.words ≡ 3) × (s.table.shared.table_id.slots ≡ 1) };
}

/// The right of one thread to step at a slot, of no bytes. Its ghost `me` has what it shows (`View`).
pub type Pass<V> = Seat<Option<V>, View<<V as Kept>::Event, <V as Kept>::Item>>;

/// Memory ran out. The value comes back.
#[derive(Drop)]
pub struct NoMemory<V> {
    pub value: V,
}

impl<V: Kept> Slot<V> {
    /// A slot with this value at home, and the reader's pass, whose number is 0.
    pub fn new(alloc: Global, value: V) -> Result<(Slot<V>, Pass<V>), NoMemory<V>>
        requires no_events { V.events value ≡ [] }
        requires no_items { V.items value ≡ [] }
        requires lawful { V.lawful (V.events value) (V.items value) }
        ensures own { IfOk result (λ made. made.1.table_id ≡ made.0) }
        ensures reader { IfOk result (λ made. made.1.me ≡ (reader, [])) }
        ensures no_memory { IfErr result (λ refused. refused.value ≡ value) }
    {
        let mut slots = Vec::new(alloc);
        if slots.reserve(1).is_err() {
            slots.destroy_empty();
            return Err(NoMemory { value });
        }
        slots.push_reserved(Some(value));
        match Table::new(alloc, &[0, 0, 0], slots, &()) {
            Ok((table, pass)) => {
                let door = Door::new();
                Ok((Slot { table, door }, pass))
            }
            Err(refused) => Err(NoMemory {
                value: only_value(refused.slots),
            }),
        }
    }

    /// A pass for one more maker of events. Its number is the count of passes made before it.
    pub fn split(&self, pass: &mut Pass<V>) -> Pass<V>
        requires own { pass.old.table_id ≡ self.now }
        requires reader { IsReader pass.old.me.0 }
        requires room { pass.old.me.0.made < 2 ^ 32 - 1 }
        ensures own { (pass.new.table_id ≡ self.now) × (result.table_id ≡ self.now) }
        ensures parent { pass.new.me ≡ (parent pass.old.me.0, pass.old.me.1) }
        ensures child { result.me ≡ (child pass.old.me.0, []) }
    {
        self.table.shared.split_seat::<Seating>(pass)
    }

    /// Ends a pass: the reader's keeps what it showed.
    pub fn join(&self, pass: &mut Pass<V>, other: Pass<V>)
        requires own { (pass.old.table_id ≡ self.now) × (other.table_id ≡ self.now) }
        requires reader { IsReader pass.old.me.0 }
        requires free { IsFree other.me }
        ensures own { pass.new.table_id ≡ self.now }
        ensures joined { pass.new.me ≡ (joined pass.old.me.0 other.me.0, pass.old.me.1) }
    {
        self.table.shared.join_seat::<Seating>(pass, other);
    }

    /// Gives the value back, once all other passes are joined. Its one history begins with what each
    /// pass has seen, and the events of each pass's number in it are that pass's own.
    pub fn close(self, pass: Pass<V>) -> V
        requires own { pass.table_id ≡ self }
        requires reader { IsReader pass.me.0 }
        requires free { IsFree pass.me }
        requires all_joined { length pass.me.0.ended + 1 ≡ pass.me.0.made }
        ensures lawful { V.lawful (V.events result) (V.items result) }
        ensures list { V.items result ≡ pass.me.0.known }
        ensures reader { EndsIn (V.events result) (V.items result) (ended_of pass.me.0) }
        ensures ended { All (EndsIn (V.events result) (V.items result)) pass.me.0.ended }
        ensures each_once { EachOnce pass.me.0.made pass.me.0.ended }
        ensures no_others { (n : ℕ) → pass.me.0.made ≤ n → calls_by n (V.events result) ≡ [] }
    {
        let Slot { table, door: _ } = self;
        let mut closed = table.close_with(pass);
        let Some(value) = closed.take(0) else {
            unreachable!()
        };
        closed.free();
        value
    }

    /// Passes the door, draws a ticket, waits for its turn, and takes the value. At the turn the pass's
    /// `seen` is the whole history, and `known` the reader's list.
    pub fn lock<R: Wait>(&self, rt: &R, pass: &mut Pass<V>) -> V
        requires own { pass.old.table_id ≡ self.now }
        requires free { IsFree pass.old.me }
        ensures own { pass.new.table_id ≡ self.now }
        ensures turn { TookTurn pass.old.me.0 (V.events result) (V.items result) pass.new.me }
        ensures lawful { V.lawful (V.events result) (V.items result) }
        ensures seen { StartsWith (V.events result) pass.old.me.0.seen }
        ensures known { StartsWith (V.items result) pass.old.me.0.known }
        ensures mine { calls_by pass.old.me.0.number (V.events result) ≡ pass.old.me.0.mine }
        ensures reader { pass.old.me.0.number ≡ 0 → V.items result ≡ pass.old.me.0.known }
    {
        self.door.enter(rt);
        let shared = &self.table.shared;
        let ticket = shared.fetch_add::<Draw>(pass, NEXT, 1);
        let mut pause = Pause::new();
        for _ in rt.forever() {
            let serving = shared.load::<Look<V>>(pass, SERVING);
            if serving == ticket {
                let Some(value) = shared.exchange(pass, 0, None) else {
                    unreachable!()
                };
                return value;
            }
            match pause.next() {
                None => thread::yield_now(),
                Some(sleep) => shared.park_timeout(rt, SERVING, low_half(serving), sleep),
            }
        }
        unreachable!()
    }

    /// Counts the event that was added to the value in hand. The reader may have made its list longer
    /// with it.
    pub fn add(&self, pass: &mut Pass<V>, value: &V)
        requires own { pass.old.table_id ≡ self.now }
        requires turn { HasTurn pass.old.me }
        requires room { length pass.old.me.0.seen < 2 ^ 64 - 1 }
        requires lawful { V.lawful (V.events value.now) (V.items value.now) }
        requires event { AddsOne pass.old.me.0 (V.events value.now) }
        requires list { KeepsList pass.old.me.0 (V.items value.now) }
        ensures own { pass.new.table_id ≡ self.now }
        ensures added { pass.new.me ≡ added pass.old.me (V.events value.now) (V.items value.now) }
    {
        self.add_as::<Brand>(pass, value);
    }

    // The same, where X has the history and the list of the value.
    fn add_as<X: Adding<V::Event, V::Item>>(&self, pass: &mut Pass<V>, value: &V)
        requires own { pass.old.table_id ≡ self.now }
        requires turn { HasTurn pass.old.me }
        requires room { length pass.old.me.0.seen < 2 ^ 64 - 1 }
        requires lawful { V.lawful (V.events value.now) (V.items value.now) }
        requires event { AddsOne pass.old.me.0 (V.events value.now) }
        requires list { KeepsList pass.old.me.0 (V.items value.now) }
        requires picked { (X.events ≡ V.events value.now) × (X.items ≡ V.items value.now) }
        ensures own { pass.new.table_id ≡ self.now }
        ensures added { pass.new.me ≡ added pass.old.me (V.events value.now) (V.items value.now) }
    {
        let _ = value;
        self.table.shared.fetch_add::<Count<X>>(pass, COUNT, 1);
    }

    /// Puts the value back, and then passes the turn to the next ticket. The value has just the events
    /// and the list that the pass carries, so it is lawful.
    pub fn unlock(&self, pass: &mut Pass<V>, value: V)
        requires own { pass.old.table_id ≡ self.now }
        requires turn { HasTurn pass.old.me }
        requires events { V.events value ≡ pass.old.me.0.seen }
        requires items { V.items value ≡ pass.old.me.0.known }
        ensures own { pass.new.table_id ≡ self.now }
        ensures passed { pass.new.me ≡ (passed pass.old.me.0, []) }
    {
        let shared = &self.table.shared;
        let empty = shared.exchange(pass, 0, Some(value));
        let None = empty else { unreachable!() };
        shared.fetch_add::<Give>(pass, SERVING, 1);
        self.door.leave();
    }
}

// The half of a word that a sleep on it looks at.
fn low_half(word: u64) -> u32 {
    (word & 0xffff_ffff) as u32
}

// The value in the one slot.
fn only_value<V>(mut slots: Vec<Option<V>>) -> V
    requires { (value : V) × (slots.items ≡ Some value ∷ []) }
    ensures { slots.items ≡ Some result ∷ [] }
{
    let Some(last) = slots.pop() else {
        unreachable!()
    };
    slots.destroy_empty();
    let Some(value) = last else { unreachable!() };
    value
}
