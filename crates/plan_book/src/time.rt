//! When a job's time is over, and what time does to reservations. None of it takes memory.
ghost use Rattle.std.specs.Prelude.{◌≡◌, ◌≤◌, ◌&&◌, ◌||◌, filter, if◌then◌else◌, vec_len, vec_capacity};
ghost use Rattle.drmaa_types.specs.States.{is_waiting, is_started};
ghost use Rattle.drmaa_model.specs.Courses.{is_unasked};
ghost use Rattle.drmaa_model.specs.Time.{lasts, is_late, is_past, is_over, is_stranded, lapses, lapsed, is_due, called_in};
ghost use Rattle.reservation_calendar.specs.Schedules.{without};
ghost use Rattle.plan_book.specs.Places.{AreSorted};
ghost use Rattle.plan_book.specs.Ties.{let_go_of};

use crate::courses::{called, failed, is_unasked};
use crate::reservations::{is_accepted, is_lasting};
use crate::states::{is_started, is_waiting};
use drmaa_model::{Accepted, Course, Row};
use drmaa_types::{End, Moment, Note};
use reservation_calendar::{Calendar, Key};

/// Whether the job names a reservation that is gone.
pub fn is_stranded(rs: &Vec<Accepted>, row: &Row) -> bool
    requires sorted { AreSorted rs.now.items }
    ensures { result ≡ is_stranded rs.now.items row.now }
{
    match row.wants.reservation {
        None => false,
        Some(number) => !is_accepted(rs, number),
    }
}

fn is_late(row: &Row, moment: Moment) -> bool
    ensures { result ≡ is_late moment row.now }
{
    match row.wants.deadline {
        None => false,
        Some(deadline) => deadline.number() <= moment.number(),
    }
}

/// Whether an end has come.
pub fn is_past(end: End, moment: Moment) -> bool
    ensures { result ≡ is_past moment end }
{
    match end {
        End::At(end) => end.number() <= moment.number(),
        End::Never => false,
    }
}

fn is_over(row: &Row, moment: Moment) -> bool
    ensures { result ≡ is_over moment row.now }
{
    match row.course.planned {
        None => false,
        Some(end) => is_past(end, moment),
    }
}

/// Whether a waiting job's time is over.
pub fn lapses(rs: &Vec<Accepted>, row: &Row, moment: Moment) -> bool
    requires sorted { AreSorted rs.now.items }
    ensures { result ≡ lapses moment rs.now.items row.now }
{
    lapses_where(row, moment, is_stranded(rs, row))
}

fn lapses_where(row: &Row, moment: Moment, stranded: bool) -> bool
    ensures { result ≡ (is_waiting row.now.course.state && (is_late moment row.now || stranded)) }
{
    if !is_waiting(row.course.state) {
        return false;
    }
    is_late(row, moment) || stranded
}

fn is_stranded_at(rs: &Vec<Accepted>, row: &Row, moment: Moment) -> bool
    requires sorted { AreSorted rs.now.items }
    ensures { result ≡ is_stranded (filter (lasts moment) rs.now.items) row.now }
{
    match row.wants.reservation {
        None => false,
        Some(number) => !is_lasting(rs, number, moment),
    }
}

/// A job's course once time has come to this moment.
pub fn course_at(rs: &Vec<Accepted>, row: &Row, moment: Moment) -> Course
    requires sorted { AreSorted rs.now.items }
    ensures { result ≡ (called_in moment (filter (lasts moment) rs.now.items) (lapsed moment (filter (lasts moment) rs.now.items) row.now)).course }
{
    let stranded = is_stranded_at(rs, row, moment);
    if lapses_where(row, moment, stranded) {
        return failed(&row.course, moment, lapse_note(row, moment));
    }
    if is_due_where(row, moment, stranded) {
        return called(&row.course, due_note(row, moment));
    }
    row.course
}

/// Why a waiting job ends.
pub fn lapse_note(row: &Row, moment: Moment) -> Note
    ensures { result ≡ (if is_late moment row.now then Note.PastDeadline else Note.ReservationGone) }
{
    if is_late(row, moment) {
        Note::PastDeadline
    } else {
        Note::ReservationGone
    }
}

/// Whether a started job's time is over, which is not asked to end.
pub fn is_due(rs: &Vec<Accepted>, row: &Row, moment: Moment) -> bool
    requires sorted { AreSorted rs.now.items }
    ensures { result ≡ is_due moment rs.now.items row.now }
{
    is_due_where(row, moment, is_stranded(rs, row))
}

fn is_due_where(row: &Row, moment: Moment, stranded: bool) -> bool
    ensures { result ≡ (is_started row.now.course.state && (is_unasked row.now.course.kill && (is_over moment row.now || stranded))) }
{
    if !is_started(row.course.state) {
        return false;
    }
    if !is_unasked(row.course.kill) {
        return false;
    }
    is_over(row, moment) || stranded
}

/// Why a started job is asked to end.
pub fn due_note(row: &Row, moment: Moment) -> Note
    ensures { result ≡ (if is_over moment row.now then Note.PastLimit else Note.ReservationGone) }
{
    if is_over(row, moment) {
        Note::PastLimit
    } else {
        Note::ReservationGone
    }
}

/// Lets the reservations go that are over.
pub fn keep_lasting(rs: &mut Vec<Accepted>, moment: Moment)
    ensures items { rs.new.items ≡ filter (lasts moment) rs.old.items }
    ensures len { vec_len rs.new ≤ vec_len rs.old }
    ensures capacity { vec_capacity rs.new ≡ vec_capacity rs.old }
{
    rs.retain(|r| moment.number() < r.until.number());
}

/// Cancels the bookings of the reservations that are over. It takes no memory.
pub fn cancel_ended(rs: &Vec<Accepted>, calendar: &mut Calendar, moment: Moment)
    ensures { calendar.new ≡ let_go_of moment rs.now.items calendar.old }
{
    for r in rs {
        cancel_if_ended(r, calendar, moment);
    }
}

fn cancel_if_ended(r: &Accepted, calendar: &mut Calendar, moment: Moment)
    ensures { calendar.new ≡ (if lasts moment r.now then calendar.old else record calendar.old { bookings = without (Key.Reservation r.now.reservation) calendar.old.bookings }) }
{
    if r.until.number() <= moment.number() {
        calendar.cancel(Key::Reservation(r.reservation));
    }
}
