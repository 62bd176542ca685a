//! The calendar of a machine: its bookings, which together never pass its slots.
ghost use Rattle.std.specs.Prelude.{◌≡◌, ℕ, ◌<◌, ◌≤◌, ◌↔◌, [], ◌∷◌, ◌++◌, false, IsTrue, IsNone, IfSome, OnOk, OnErr, IfErr};
ghost use Rattle.reservation_calendar.specs.Loads.{is_before};
ghost use Rattle.reservation_calendar.specs.Schedules.{schedule, IsSound, is_booked, without};
ghost use Rattle.reservation_calendar.specs.Fitting.{IsOverfull, Fits, IsFittingStart};

use crate::bookings::is_before;
use crate::keyed::KeyedBookings;
use crate::timeline::Timeline;
use crate::{Booking, Key};
use drmaa_types::{End, Moment, Refusal};
use std::alloc::Global;
use std::marker::Model;

/// The bookings of a machine's slots. At no moment do they take more slots than the machine has, each
/// booking starts before its end, and no key is booked twice.
#[derive(Drop)]
pub struct Calendar {
    bookings: KeyedBookings,
    timeline: Timeline,
    total: u32,
}

impl Model for Calendar {
    ghost use Rattle.reservation_calendar.specs.Schedules.{Schedule, schedule};
    ghost use Rattle.reservation_calendar.specs.Calendars.{IsCalendar};

    ghost Value = { Schedule };

    ghost view = { λ c. schedule c.bookings c.total };

    ghost invariant = { λ c. IsCalendar c.bookings c.timeline.steps c.total };
}

impl Calendar {
    /// The empty calendar of a machine with so many slots; it takes no memory.
    pub fn new(alloc: Global, total: u32) -> Calendar
        ensures { result ≡ schedule [] total }
    {
        Calendar {
            bookings: KeyedBookings::new(alloc),
            timeline: Timeline::new(alloc),
            total,
        }
    }

    /// The slots of the machine.
    pub fn total(&self) -> u32
        ensures { result ≡ self.now.total }
    {
        self.total
    }

    /// The bookings, in the order in which they were made.
    pub fn bookings(&self) -> &[Booking]
        ensures items { result.now ≡ self.now.bookings }
        ensures sound { IsSound self.now }
    {
        self.bookings.as_slice()
    }

    /// Whether the key is booked.
    pub fn is_booked(&self, key: Key) -> bool
        ensures { result ≡ is_booked self.now.bookings key }
    {
        self.bookings.contains(key)
    }

    /// The least moment of the interval at which so many slots more pass the total. It takes no memory.
    pub fn first_overfull(&self, slots: u32, from: Moment, until: End) -> Option<Moment>
        ensures overfull { IfSome result (IsOverfull self.now slots from until) }
        ensures least { IfSome result
            (λ x. (y : ℕ) → IsOverfull self.now slots from until y → x ≤ y) }
        ensures none { IsNone result ↔ Fits self.now slots from until }
    {
        let Some(most) = self.total.checked_sub(slots) else {
            return if is_before(from, &until) {
                Some(from)
            } else {
                None
            };
        };
        self.timeline.first_above(most, from, &until)
    }

    /// Whether so many slots fit the interval. It takes no memory.
    pub fn fits(&self, slots: u32, from: Moment, until: End) -> bool
        ensures { IsTrue result ↔ Fits self.now slots from until }
    {
        self.first_overfull(slots, from, until).is_none()
    }

    /// The least start at or after `from` from which so many slots fit for `span` seconds, where the
    /// interval ends at or before `until`. It takes no memory.
    pub fn earliest(&self, slots: u32, from: Moment, until: Moment, span: u64) -> Option<Moment>
        requires { 0 < span }
        ensures fitting { IfSome result (IsFittingStart self.now slots from until span) }
        ensures least { IfSome result
            (λ x. (y : ℕ) → IsFittingStart self.now slots from until span y → x ≤ y) }
        ensures none { IsNone result
            ↔ ((y : ℕ) → IsFittingStart self.now slots from until span y → ⊥) }
    {
        let Some(most) = self.total.checked_sub(slots) else {
            return None;
        };
        self.timeline.earliest(most, from, until, span)
    }

    /// The greatest number of slots from `min` to `max` that fits the interval; none where `min` does not
    /// fit. It takes no memory.
    pub fn largest(&self, min: u32, max: u32, from: Moment, until: End) -> Option<u32>
        requires some { 1 ≤ min }
        requires range { min ≤ max }
        ensures range { IfSome result (λ n. (min ≤ n) × (n ≤ max)) }
        ensures fits { IfSome result (λ n. Fits self.now n from until) }
        ensures greatest { IfSome result
            (λ n. (m : ℕ) → m ≤ max → Fits self.now m from until → m ≤ n) }
        ensures none { IsNone result ↔ ¬ Fits self.now min from until }
    {
        if !is_before(from, &until) {
            return Some(max);
        }
        let room = self.total - self.timeline.greatest_in(from, &until);
        if room < min {
            None
        } else {
            Some(max.min(room))
        }
    }

    /// Books slots for an interval that they fit, under a key that is not booked.
    ///
    /// # Errors
    ///
    /// Want of memory alone; the calendar is then as it was.
    pub fn book(&mut self, key: Key, slots: u32, from: Moment, until: End) -> Result<(), Refusal>
        requires lasting { IsTrue (is_before from until) }
        requires fits { Fits self.old slots from until }
        requires fresh { is_booked self.old.bookings key ≡ false }
        ensures booked { OnOk result (self.new ≡ record self.old {
          bookings = self.old.bookings
              ++ record { key = key; slots = slots; from = from; until = until } ∷ [];
        }) }
        ensures err { OnErr result (self.new ≡ self.old) }
        ensures memory { IfErr result (λ refusal. refusal ≡ Refusal.OutOfMemory) }
        ensures sound { IsSound self.new }
    {
        let booking = Booking {
            key,
            slots,
            from,
            until,
        };
        let made = &booking;
        if self.timeline.reserve().is_err() {
            return Err(Refusal::OutOfMemory);
        }
        if let Err(refusal) = self
            .bookings
            .push(made.key, made.slots, made.from, made.until)
        {
            return Err(refusal);
        }
        self.timeline.add(made);
        Ok(())
    }

    /// Removes the booking of a key; false where there is none. It takes no memory.
    pub fn cancel(&mut self, key: Key) -> bool
        ensures found { result ≡ is_booked self.old.bookings key }
        ensures others { self.new ≡ record self.old { bookings = without key self.old.bookings } }
        ensures same { result ≡ false → self.new ≡ self.old }
        ensures sound { IsSound self.new }
    {
        let Some(booking) = self.bookings.remove(key) else {
            return false;
        };
        self.timeline.take_off(&booking);
        true
    }
}
