//! Bookings made in a calendar, asked about and cancelled again.
use super::way::Way;
use crate::watch::Watch;
use drmaa_types::{End, JobId, Moment};
use reservation_calendar::{Calendar, Key};
use std::io;

/// The slots of the machine: of bookings of one slot three overlap, so that one slot stays free.
const SLOTS: u32 = 4;

/// The seconds from the start of one booking to the next one's.
const STEP: u64 = 10;

/// How many seconds a booking lasts.
const LENGTH: u64 = 25;

/// How often the calendar is asked.
const ASKED: u32 = 100;

/// Books a slot for each of so many jobs in a new calendar, asks 100 times where two more fit, which is
/// behind all bookings, and as often whether one more fits all along, cancels all again, and prints how
/// long each step took. It answers whether all were booked, found and cancelled.
pub fn measure(rt: HostRuntime, count: u32, way: Way) -> io::Result<bool> {
    let mut calendar = Calendar::new(rt.alloc(), SLOTS);
    measure_in(rt, &mut calendar, count, way)
}

// The same in an empty calendar.
fn measure_in(rt: HostRuntime, calendar: &mut Calendar, count: u32, way: Way) -> io::Result<bool> {
    let mut watch = Watch::start(rt);
    let booked = book_all(calendar, count, way);
    let book = watch.each(count);
    let found = find_places(calendar);
    let search = watch.each(ASKED);
    let fitting = ask_fits(calendar);
    let fits = watch.each(ASKED);
    let gone = cancel_all(calendar, count, way);
    let cancel = watch.each(count);
    let name = way.name();
    println!(rt;
        "calendar, {count} {name}: book {book} ns, earliest {search} ns, fits {fits} ns, cancel {cancel} ns"
    )?;
    Ok(booked == count && found == ASKED && fitting == ASKED && gone == count)
}

// Books a slot for each job, and answers how many were booked.
fn book_all(calendar: &mut Calendar, count: u32, way: Way) -> u32 {
    let mut booked = 0u32;
    for place in 0..count {
        if book_one(calendar, way.number(place, count)) {
            booked = booked.saturating_add(1);
        }
    }
    booked
}

// Books a slot for a job, if it fits and the job has none.
fn book_one(calendar: &mut Calendar, number: u64) -> bool {
    let key = Key::Job(JobId(number));
    let Some(from) = Moment::new(number.saturating_mul(STEP)) else {
        return false;
    };
    let Some(until) = from.plus(LENGTH) else {
        return false;
    };
    if from >= until || calendar.is_booked(key) || !calendar.fits(1, from, End::At(until)) {
        return false;
    }
    calendar.book(key, 1, from, End::At(until)).is_ok()
}

// Asks where two more slots fit, and answers how often there is a place.
fn find_places(calendar: &Calendar) -> u32 {
    let mut found = 0u32;
    for _ in 0..ASKED {
        let place = Moment::new(STEP).and_then(|from| calendar.earliest(
            2,
            from,
            Moment::greatest(),
            LENGTH,
        ));
        if place.is_some() {
            found = found.saturating_add(1);
        }
    }
    found
}

// Asks whether one more slot fits from now on, and answers how often it does.
fn ask_fits(calendar: &Calendar) -> u32 {
    let mut fitting = 0u32;
    for _ in 0..ASKED {
        if Moment::new(0).is_some_and(|now| calendar.fits(1, now, End::Never)) {
            fitting = fitting.saturating_add(1);
        }
    }
    fitting
}

// Cancels each job's booking, and answers how many there were.
fn cancel_all(calendar: &mut Calendar, count: u32, way: Way) -> u32 {
    let mut gone = 0u32;
    for place in 0..count {
        if calendar.cancel(Key::Job(JobId(way.number(place, count)))) {
            gone = gone.saturating_add(1);
        }
    }
    gone
}
