//! What the calendar has room for, for a request whose template is in form. None of it takes memory.
ghost use Rattle.std.specs.Prelude.{◌≡◌, ◌+◌, ◌<◌, ◌≤◌, None, Some, filter, length, nat_le, if◌then◌else◌};
ghost use Rattle.job_template.specs.Frames.{is_loose};
ghost use Rattle.drmaa_model.specs.Load.{first_overfull};
ghost use Rattle.drmaa_model.specs.Requests.{most_reservations, slots_in, start_in};
ghost use Rattle.drmaa_model.specs.Time.{lasts};
ghost use Rattle.plan_book.specs.Book.{plan_of, IsBook};

use drmaa_model::Accepted;
use drmaa_types::{End, Moment};
use job_template::{Frame, ReservationTemplate};
use plan_book::Book;

/// The most accepted reservations.
const MOST_RESERVATIONS: usize = 10_000;

/// Whether so many reservations last at this moment that no more are accepted.
pub fn is_full(rs: &Vec<Accepted>, moment: Moment) -> bool
    ensures { result ≡ nat_le most_reservations (length (filter (lasts moment) rs.now.items)) }
{
    count_lasting(rs, moment) >= MOST_RESERVATIONS
}

/// How many of the reservations last at this moment.
fn count_lasting(rs: &Vec<Accepted>, moment: Moment) -> usize
    ensures { result ≡ length (filter (lasts moment) rs.now.items) }
{
    rs.iter()
        .filter(|r| moment.number() < r.until.number())
        .count()
}

/// The least start in a frame from which its least number of slots fits.
pub fn start_in(book: &Book, frame: &Frame) -> Option<Moment>
    requires book { IsBook book.now }
    requires since { (plan_of book.now).moment ≤ frame.now.from }
    requires lasting { 0 < frame.now.span }
    ensures { result ≡ start_in frame.now (plan_of book.now) }
{
    book.calendar
        .earliest(frame.min, frame.from, frame.until, frame.span)
}

/// The greatest number of slots of a frame that fits from such a start.
pub fn slots_in(book: &Book, frame: &Frame, from: Moment, until: Moment) -> u32
    requires book { IsBook book.now }
    requires since { (plan_of book.now).moment ≤ frame.now.from }
    requires least { 1 ≤ frame.now.min }
    requires range { frame.now.min ≤ frame.now.max }
    requires start { start_in frame.now (plan_of book.now) ≡ Some from }
    requires until { until ≡ from + frame.now.span }
    ensures { result ≡ slots_in frame.now (plan_of book.now) from }
{
    match book
        .calendar
        .largest(frame.min, frame.max, from, End::At(until))
    {
        Some(slots) => slots,
        None => frame.min,
    }
}

/// Where the interval that a template gives exactly is overfull first. None where it gives no such interval.
pub fn denied_at(book: &Book, t: &ReservationTemplate, frame: &Frame) -> Option<Moment>
    requires book { IsBook book.now }
    requires since { (plan_of book.now).moment ≤ frame.now.from }
    ensures { result ≡ (if is_loose t.now then None else first_overfull (plan_of book.now) frame.now.min frame.now.from (End.At frame.now.until)) }
{
    if is_loose(t) {
        return None;
    }
    overfull_from(book, frame.min, frame.from, End::At(frame.until))
}

/// The first moment of an interval at which so many slots more would be too many. None exactly where they fit.
pub fn overfull_from(book: &Book, slots: u32, from: Moment, until: End) -> Option<Moment>
    requires book { IsBook book.now }
    requires since { (plan_of book.now).moment ≤ from }
    ensures { result ≡ first_overfull (plan_of book.now) slots from until }
{
    book.calendar.first_overfull(slots, from, until)
}

/// Whether start, end and duration are all set.
fn is_loose(t: &ReservationTemplate) -> bool
    ensures { result ≡ is_loose t.now }
{
    t.start_time.is_some() && t.end_time.is_some() && t.duration.is_some()
}
