//! Clocks, seen by contracts as the readings that they gave.
ghost use Rattle.std.specs.Prelude.{◌≡◌, ℕ, ◌≤◌, ◌<◌, [], length, Some, IfSome};
ghost use Rattle.std.specs.List.Sorted.{IsNonDecreasing};
ghost use Rattle.drmaa_types.specs.Readings.{Readings, Reads, nobodys, told_readings, counted_on, step_reading, list_reading};

use crate::{CallerId, Moment, MomentList};
use std::marker::Model;

/// A source of moments. No reading is below an earlier one.
pub trait Clock {
    /// Whose clock it is, where it was handed out to a caller, and the readings that it gave, in order, where it tells them.
    ghost given: { Self → Readings };

    /// No reading from now on is below this moment.
    ghost least: { Self → ℕ };

    /// The next reading.
    fn now(&mut self) -> Moment
        ensures given { Reads (given self.old) result (given self.new) }
        ensures least { least self.old ≤ result }
        ensures rising { result ≤ least self.new };
}

/// A clock for each caller.
pub trait Clocks {
    /// One caller's clock.
    type One: Clock + Send + Drop;

    /// A clock for this caller, that has given no reading yet.
    fn clock(&self, caller: CallerId) -> Self::One
        ensures caller { (Self.One.given result).caller ≡ Some caller.0 }
        ensures unread { IfSome (Self.One.given result).told (λ readings. readings ≡ []) };
}

/// The clock of one caller: another clock, with whose it is.
#[derive(Drop)]
pub struct CallersClock<C> {
    caller: CallerId,
    clock: C,
}

impl<C> Model for CallersClock<C> {
    ghost use Rattle.drmaa_types.specs.Readings.{Owned};

    ghost Value = { Owned C };

    ghost view = { λ c. record { caller = c.caller.0; clock = c.clock } };
}

impl<C: Clock> CallersClock<C> {
    /// This clock, as the one of this caller.
    pub fn new(caller: CallerId, clock: C) -> CallersClock<C>
        ensures { result ≡ record { caller = caller.0; clock = clock } }
    {
        CallersClock { caller, clock }
    }
}

impl<C: Clock> Clock for CallersClock<C> {
    ghost given = { λ c. record { caller = Some c.caller; told = (C.given c.clock).told } };

    ghost least = { λ c. C.least c.clock };

    fn now(&mut self) -> Moment {
        self.clock.now()
    }
}

/// A clock that gives `first`, `first` plus `step` and so on, held at the greatest moment.
#[derive(Drop)]
pub struct StepClock {
    first: Moment,
    step: u64,
    next: Moment,
    count: u64,
}

impl Model for StepClock {
    ghost use Rattle.std.specs.Prelude.{◌≡◌};
    ghost use Rattle.drmaa_types.specs.Readings.{Stepping, step_reading};

    ghost Value = { Stepping };

    ghost view = { λ c. record { first = c.first; step = c.step; count = c.count } };

    ghost invariant = { λ c. c.next ≡ step_reading c.first c.step c.count };
}

impl StepClock {
    /// A clock that has given no reading; it takes no memory.
    pub fn new(first: Moment, step: u64) -> StepClock
        ensures { result ≡ record { first = first; step = step; count = 0 } }
    {
        StepClock {
            first,
            step,
            next: first,
            count: 0,
        }
    }
}

impl Clock for StepClock {
    ghost given = { λ c. nobodys (told_readings (step_reading c.first c.step) c.count) };

    ghost least = { λ c. step_reading c.first c.step c.count };

    /// The next reading. Past 2^64 - 1 readings the last one comes again, and they are told no more.
    fn now(&mut self) -> Moment
        ensures given { Reads (nobodys (told_readings (step_reading self.old.first self.old.step) self.old.count)) result
            (nobodys (told_readings (step_reading self.new.first self.new.step) self.new.count)) }
        ensures least { step_reading self.old.first self.old.step self.old.count ≤ result }
        ensures rising { result ≤ step_reading self.new.first self.new.step self.new.count }
        ensures reading { result ≡ step_reading self.old.first self.old.step self.old.count }
        ensures counted { self.new ≡ record self.old { count = counted_on self.old.count } }
    {
        let reading = self.next;
        if self.count < u64::MAX {
            self.count += 1;
            self.next = reading.plus(self.step).unwrap_or(Moment::greatest());
        }
        reading
    }
}

/// A clock that gives a list of readings, and then the last one again.
#[derive(Drop)]
pub struct ListClock {
    readings: MomentList,
    count: u64,
}

impl Model for ListClock {
    ghost use Rattle.std.specs.Prelude.{◌<◌, length};
    ghost use Rattle.std.specs.List.Sorted.{IsNonDecreasing};
    ghost use Rattle.drmaa_types.specs.Readings.{Listed};

    ghost Value = { Listed };

    ghost view = { λ c. record { readings = c.readings; count = c.count } };

    ghost invariant = { λ c. (0 < length c.readings) × IsNonDecreasing c.readings };
}

impl ListClock {
    /// A clock that has given no reading; it takes no memory. The list is not empty and never falls.
    pub fn new(readings: MomentList) -> ListClock
        requires some { 0 < length readings }
        requires rising { IsNonDecreasing readings }
        ensures { result ≡ record { readings = readings; count = 0 } }
    {
        ListClock { readings, count: 0 }
    }
}

impl Clock for ListClock {
    ghost given = { λ c. nobodys (told_readings (list_reading c.readings) c.count) };

    ghost least = { λ c. list_reading c.readings c.count };

    /// The next reading. Past 2^64 - 1 readings the last one comes again, and they are told no more.
    fn now(&mut self) -> Moment
        ensures given { Reads (nobodys (told_readings (list_reading self.old.readings) self.old.count)) result
            (nobodys (told_readings (list_reading self.new.readings) self.new.count)) }
        ensures least { list_reading self.old.readings self.old.count ≤ result }
        ensures rising { result ≤ list_reading self.new.readings self.new.count }
        ensures reading { result ≡ list_reading self.old.readings self.old.count }
        ensures counted { self.new ≡ record self.old { count = counted_on self.old.count } }
    {
        let reading = reading_at(&self.readings, self.count);
        if self.count < u64::MAX {
            self.count += 1;
        }
        reading
    }
}

/// The reading with this number, counted from 0; past the list its last one.
fn reading_at(readings: &MomentList, number: u64) -> Moment
    requires { 0 < length readings.now }
    ensures { result ≡ list_reading readings.now number }
{
    let readings = readings.as_slice();
    let last = readings.len() - 1;
    if number < last as u64 {
        readings[number as usize]
    } else {
        readings[last]
    }
}
