//! The bookings in the order in which they were made, each found by its key without a search through them.
ghost use Rattle.std.specs.Prelude.{◌≡◌, ℕ, ◌<◌, [], ◌∷◌, ◌++◌, false, length, is_some, ◌≤◌, slice_index, AllPairs, IfErr, Contains, OnOk, OnErr, IfSome, vec_len, vec_capacity};
ghost use Rattle.reservation_calendar.specs.Schedules.{is_booked, without};
ghost use Rattle.reservation_calendar.specs.Keys.{most_numbers};

use crate::{Booking, Key};
use drmaa_types::{End, Moment, Refusal};
use std::alloc::Global;
use std::collections::BTreeMap;
use std::marker::Model;

/// How many bookings a calendar can take in its life: more than any memory holds.
const MOST_NUMBERS: u64 = 1_000_000_000_000_000_000;

/// Bookings of which no two have one key; contracts see the list of them.
#[derive(Drop)]
pub struct KeyedBookings {
    bookings: Vec<Booking>,
    /// The number under which each booking was made; they rise.
    numbers: Vec<u64>,
    /// The number of each key's booking.
    by_key: BTreeMap<Key, u64>,
    /// The number of the next booking.
    next: u64,
}

impl Model for KeyedBookings {
    ghost use Rattle.std.specs.Prelude.{List};
    ghost use Rattle.std.specs.BTreeMap as tree;
    ghost use Rattle.reservation_calendar.specs.declared.bookings.Booking.{Booking};
    ghost use Rattle.reservation_calendar.specs.Keys.{key_order, IsKeyed};

    ghost Value = { List Booking };

    ghost view = { λ k. k.bookings.items };

    ghost invariant = { λ k. IsKeyed k.bookings.items k.numbers.items k.next (tree.get key_order k.by_key) };
}

impl KeyedBookings {
    /// No bookings; it takes no memory.
    pub fn new(alloc: Global) -> KeyedBookings
        ensures { result ≡ [] }
    {
        KeyedBookings {
            bookings: Vec::new(alloc),
            numbers: Vec::new(alloc),
            by_key: BTreeMap::new(alloc),
            next: 0,
        }
    }

    /// The bookings.
    pub fn as_slice(&self) -> &[Booking]
        ensures { result.now ≡ self.now }
    {
        self.bookings.as_slice()
    }

    /// Whether a booking stands under the key.
    pub fn contains(&self, key: Key) -> bool
        ensures { result ≡ is_booked self.now key }
    {
        self.by_key.contains_key(&key)
    }

    /// Adds a booking at the end, under a key that is not booked.
    ///
    /// # Errors
    ///
    /// Want of memory alone; the bookings are then as they were.
    pub fn push(&mut self, key: Key, slots: u32, from: Moment, until: End) -> Result<(), Refusal>
        requires fresh { is_booked self.old key ≡ false }
        ensures ok { OnOk result (self.new ≡ self.old
            ++ record { key = key; slots = slots; from = from; until = until } ∷ []) }
        ensures err { OnErr result (self.new ≡ self.old) }
        ensures memory { IfErr result (λ refusal. refusal ≡ Refusal.OutOfMemory) }
        ensures few { length self.old ≤ most_numbers }
    {
        if self.next >= MOST_NUMBERS {
            return Err(Refusal::OutOfMemory);
        }
        if self.numbers.reserve(1).is_err() {
            return Err(Refusal::OutOfMemory);
        }
        if self.bookings.reserve(1).is_err() {
            return Err(Refusal::OutOfMemory);
        }
        if self.by_key.insert(key, self.next).is_err() {
            return Err(Refusal::OutOfMemory);
        }
        let booking = Booking {
            key,
            slots,
            from,
            until,
        };
        put(&mut self.bookings, booking);
        put(&mut self.numbers, self.next);
        self.next += 1;
        Ok(())
    }

    /// Takes out the booking of a key. None exactly where there is none.
    pub fn remove(&mut self, key: Key) -> Option<Booking>
        ensures found { is_some result ≡ is_booked self.old key }
        ensures booking { IfSome result (λ b. (b.key ≡ key) × Contains self.old b) }
        ensures others { self.new ≡ without key self.old }
    {
        let Some(number) = self.by_key.remove(&key) else {
            return None;
        };
        let place = place_of(&self.numbers, number);
        self.numbers.remove(place);
        Some(self.bookings.remove(place))
    }
}

// Adds an element for which there is room.
fn put<T>(items: &mut Vec<T>, item: T)
where
    T: Drop,
    requires { vec_len items.old < vec_capacity items.old }
    ensures items { items.new.items ≡ items.old.items ++ item ∷ [] }
{
    let Ok(()) = items.push(item) else {
        unreachable!()
    };
}

// The place of a number that stands among rising ones.
fn place_of(numbers: &[u64], number: u64) -> usize
    requires rising { AllPairs (λ (a b : ℕ). a < b) numbers.now }
    ensures { (p : ℕ) → p < length numbers.now → slice_index numbers.now p ≡ number → result ≡ p }
{
    numbers.partition_point(|n| *n < number)
}
