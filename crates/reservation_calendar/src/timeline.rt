//! The timeline of bookings: the moments at which they start or end, each with the load from it to the next.
ghost use Rattle.std.specs.Prelude.{◌≡◌, ℕ, ◌+◌, ◌^◌, ◌<◌, ◌≤◌, ◌-◌, ◌==◌, [], OnOk, IfSome, IfNone, IsTrue, if◌then◌else◌, vec_len, vec_capacity};
ghost use Rattle.std.specs.List.{insert};
ghost use Rattle.reservation_calendar.specs.Loads.{is_before, is_end, slots_at};
ghost use Rattle.reservation_calendar.specs.Fitting.{IsIn};
ghost use Rattle.reservation_calendar.specs.Timelines.{load_at, edges_at, edges_of, IsLevel, IsBounded};
ghost use Rattle.reservation_calendar.specs.Heights.{IsLow, IsAbove, IsLowStart};

use crate::boundaries::{Boundary, count_before, load_before, lower, raise, search};
use crate::{Booking, heights};
use drmaa_types::{End, Moment};
use std::alloc::{AllocError, Global};
use std::marker::Model;

/// The boundaries of bookings, in order; contracts see them and for how many more there is memory.
#[derive(Drop)]
pub struct Timeline {
    steps: Vec<Boundary>,
}

impl Model for Timeline {
    ghost use Rattle.std.specs.Prelude.{◌-◌, vec_len, vec_capacity};
    ghost use Rattle.reservation_calendar.specs.Timelines.{Line, line, IsTimeline};

    ghost Value = { Line };

    ghost view = { λ t. line t.steps.items (vec_capacity t.steps - vec_len t.steps) };

    ghost invariant = { λ t. IsTimeline t.steps.items };
}

impl Timeline {
    /// The timeline of no bookings; it takes no memory.
    pub fn new(alloc: Global) -> Timeline
        ensures { result.steps ≡ [] }
    {
        Timeline {
            steps: Vec::new(alloc),
        }
    }

    /// Makes room for the boundaries of one more booking.
    pub fn reserve(&mut self) -> Result<(), AllocError>
        ensures steps { self.new.steps ≡ self.old.steps }
        ensures room { OnOk result (2 ≤ self.new.room) }
    {
        self.steps.reserve(2)
    }

    /// Adds a booking, for whose boundaries there is room. It takes no memory.
    pub fn add(&mut self, booking: &Booking)
        requires lasting { IsTrue (is_before booking.now.from booking.now.until) }
        requires room { 2 ≤ self.old.room }
        requires fits { (x : ℕ) → IsIn booking.now.from booking.now.until x
            → load_at self.old.steps x + booking.now.slots < 2 ^ 32 }
        requires few { (x : ℕ) → edges_at self.old.steps x + 2 < 2 ^ 64 }
        ensures loads { (x : ℕ)
            → load_at self.new.steps x ≡ load_at self.old.steps x + slots_at x booking.now }
        ensures edges { (x : ℕ)
            → edges_at self.new.steps x ≡ edges_at self.old.steps x + edges_of x booking.now }
    {
        self.open(booking.from);
        self.open_end(&booking.until);
        self.raise(booking);
    }

    /// Takes a booking off. It takes no memory.
    pub fn take_off(&mut self, booking: &Booking)
        requires lasting { IsTrue (is_before booking.now.from booking.now.until) }
        requires loads { (x : ℕ) → slots_at x booking.now ≤ load_at self.old.steps x }
        requires edges { (x : ℕ) → edges_of x booking.now ≤ edges_at self.old.steps x }
        requires level { (x : ℕ) → edges_at self.old.steps x ≤ edges_of x booking.now
            → IsLevel (λ y. load_at self.old.steps y - slots_at y booking.now) x }
        ensures loads { (x : ℕ)
            → load_at self.new.steps x + slots_at x booking.now ≡ load_at self.old.steps x }
        ensures edges { (x : ℕ)
            → edges_at self.new.steps x + edges_of x booking.now ≡ edges_at self.old.steps x }
    {
        self.lower(booking);
        self.shut(booking.from);
        self.shut_end(&booking.until);
    }

    /// The least moment of the interval at which the load is above so many slots.
    pub fn first_above(&self, most: u32, from: Moment, until: &End) -> Option<Moment>
        ensures above { IfSome result (IsAbove self.now.steps most from until.now) }
        ensures least { IfSome result
            (λ x. (y : ℕ) → IsAbove self.now.steps most from until.now y → x ≤ y) }
        ensures none { IfNone result (IsLow self.now.steps most from until.now) }
    {
        heights::first_above(&self.steps, most, from, until)
    }

    /// The greatest load in the interval; 0 where it has no moment.
    pub fn greatest_in(&self, from: Moment, until: &End) -> u32
        ensures high { IsLow self.now.steps result from until.now }
        ensures least { (most : ℕ) → IsLow self.now.steps most from until.now → result ≤ most }
    {
        heights::greatest_in(&self.steps, from, until)
    }

    /// The least start at or after `from` from which the load is at most so many slots for `span` seconds, where
    /// these end at or before `until`.
    pub fn earliest(&self, most: u32, from: Moment, until: Moment, span: u64) -> Option<Moment>
        requires { 0 < span }
        ensures low { IfSome result (IsLowStart self.now.steps most from until span) }
        ensures least { IfSome result
            (λ x. (y : ℕ) → IsLowStart self.now.steps most from until span y → x ≤ y) }
        ensures none { IfNone result ((y : ℕ) → IsLowStart self.now.steps most from until span y → ⊥) }
    {
        heights::earliest(&self.steps, most, from, until, span)
    }

    // One more booking starts or ends at the moment; a boundary for it has room.
    fn open(&mut self, x: Moment)
        requires room { 1 ≤ self.old.room }
        requires few { edges_at self.old.steps x + 1 < 2 ^ 64 }
        ensures loads { (y : ℕ) → load_at self.new.steps y ≡ load_at self.old.steps y }
        ensures edges { (y : ℕ)
            → edges_at self.new.steps y ≡ edges_at self.old.steps y + (if x == y then 1 else 0) }
        ensures room { self.old.room ≤ self.new.room + 1 }
    {
        match search(&self.steps, x) {
            Ok(place) => self.steps[place].edges += 1,
            Err(place) => {
                let load = load_before(&self.steps, place);
                insert(
                    &mut self.steps,
                    place,
                    Boundary {
                        moment: x,
                        load,
                        edges: 1,
                    },
                );
            }
        }
    }

    // One more booking ends there, if anywhere.
    fn open_end(&mut self, until: &End)
        requires room { 1 ≤ self.old.room }
        requires few { (x : ℕ) → edges_at self.old.steps x + 1 < 2 ^ 64 }
        ensures loads { (y : ℕ) → load_at self.new.steps y ≡ load_at self.old.steps y }
        ensures edges { (y : ℕ) → edges_at self.new.steps y
            ≡ edges_at self.old.steps y + (if is_end y until.now then 1 else 0) }
    {
        match until {
            End::At(end) => self.open(*end),
            End::Never => {}
        }
    }

    // Adds the slots of a booking whose boundaries are open.
    fn raise(&mut self, booking: &Booking)
        requires start { 0 < edges_at self.old.steps booking.now.from }
        requires end { IsBounded self.old.steps booking.now.until }
        requires fits { (x : ℕ) → IsIn booking.now.from booking.now.until x
            → load_at self.old.steps x + booking.now.slots < 2 ^ 32 }
        requires lasting { IsTrue (is_before booking.now.from booking.now.until) }
        ensures loads { (x : ℕ)
            → load_at self.new.steps x ≡ load_at self.old.steps x + slots_at x booking.now }
        ensures edges { (x : ℕ) → edges_at self.new.steps x ≡ edges_at self.old.steps x }
    {
        let first = count_before(&self.steps, &End::At(booking.from));
        let last = count_before(&self.steps, &booking.until);
        raise(&mut self.steps, first, last, booking.slots);
    }

    // Takes the slots of a booking off, whose boundaries are open.
    fn lower(&mut self, booking: &Booking)
        requires start { 0 < edges_at self.old.steps booking.now.from }
        requires end { IsBounded self.old.steps booking.now.until }
        requires fits { (x : ℕ) → slots_at x booking.now ≤ load_at self.old.steps x }
        requires lasting { IsTrue (is_before booking.now.from booking.now.until) }
        ensures loads { (x : ℕ)
            → load_at self.new.steps x + slots_at x booking.now ≡ load_at self.old.steps x }
        ensures edges { (x : ℕ) → edges_at self.new.steps x ≡ edges_at self.old.steps x }
    {
        let first = count_before(&self.steps, &End::At(booking.from));
        let last = count_before(&self.steps, &booking.until);
        lower(&mut self.steps, first, last, booking.slots);
    }

    // One booking fewer starts or ends at the moment; where it was the last, the load does not change there.
    fn shut(&mut self, x: Moment)
        requires some { 0 < edges_at self.old.steps x }
        requires level { edges_at self.old.steps x ≡ 1 → IsLevel (load_at self.old.steps) x }
        ensures loads { (y : ℕ) → load_at self.new.steps y ≡ load_at self.old.steps y }
        ensures edges { (y : ℕ)
            → edges_at self.new.steps y + (if x == y then 1 else 0) ≡ edges_at self.old.steps y }
    {
        let Ok(place) = search(&self.steps, x) else {
            unreachable!()
        };
        if self.steps[place].edges == 1 {
            self.steps.remove(place);
        } else {
            self.steps[place].edges -= 1;
        }
    }

    // One booking fewer ends there, if anywhere.
    fn shut_end(&mut self, until: &End)
        requires some { IsBounded self.old.steps until.now }
        requires level { (x : ℕ) → edges_at self.old.steps x ≡ 1 → IsTrue (is_end x until.now)
            → IsLevel (load_at self.old.steps) x }
        ensures loads { (y : ℕ) → load_at self.new.steps y ≡ load_at self.old.steps y }
        ensures edges { (y : ℕ) → edges_at self.new.steps y + (if is_end y until.now then 1 else 0)
            ≡ edges_at self.old.steps y }
    {
        match until {
            End::At(end) => self.shut(*end),
            End::Never => {}
        }
    }
}

// Puts a boundary at a place; there is room for it.
fn insert(steps: &mut Vec<Boundary>, place: usize, step: Boundary)
    requires range { place ≤ vec_len steps.old }
    requires room { vec_len steps.old < vec_capacity steps.old }
    ensures items { steps.new.items ≡ insert steps.old.items place step }
    ensures room { vec_capacity steps.old - vec_len steps.old
        ≤ vec_capacity steps.new - vec_len steps.new + 1 }
{
    let Ok(()) = steps.insert(place, step) else {
        unreachable!()
    };
}
