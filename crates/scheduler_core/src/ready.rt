//! Who may be launched at a moment, and with how many slots. None of it takes memory.
ghost use Rattle.std.specs.Prelude.{◌≡◌, ◌+◌, ◌-◌, ◌^◌, ◌<◌, ◌≤◌, ◌++◌, ◌&&◌, List, true, false, Some, map, filter, nat_le};
ghost use Rattle.std.specs.Option.{option_copied, option_map, option_map_or};
ghost use Rattle.drmaa_model.specs.declared.reservations.Accepted.{Accepted};
ghost use Rattle.drmaa_model.specs.declared.rows.Row.{Row};
ghost use Rattle.drmaa_model.specs.Load.{covers, in_reservation, in_array, holds_in, held_inside, reservation_of};
ghost use Rattle.drmaa_model.specs.NextLaunch.{held, is_queued, is_reached, has_slots_in, better, best_of, settled, is_within_bound};
ghost use Rattle.drmaa_model.specs.Time.{lasts, advance_plan};
ghost use Rattle.plan_book.specs.Book.{plan_of, IsBook};
ghost use Rattle.plan_book.specs.Open.{IsPriorityBound};
ghost use Rattle.scheduler_core.specs.Demands.{IsUnmet};
ghost use Rattle.scheduler_core.specs.Firsts.{first_of};
ghost use Rattle.scheduler_core.specs.Launches.{seen, seen_row, may_launch, free_of, slots_of, IsMost};
ghost use Rattle.scheduler_core.specs.Sums.{IsKnown};

use crate::cores::Core;
use crate::demands::{Demand, is_met};
use crate::queues::{capped, has_room, left_in_queue};
use crate::reservations::lasting_of;
use crate::rows::{has_priority, is_beaten, is_reached};
use crate::sums::Known;
use crate::times::course_then;
use drmaa_model::{Accepted, Row, Wants};
use drmaa_types::{ArrayId, JobState, Moment, ReservationId};
use plan_book::Book;
use plan_book::courses::planned_end;
use plan_book::states::is_queued;

impl Core {
    /// Whether, once time has come to this moment, no job holds slots, no order stands and none is ready.
    pub fn settled(&self, at: Moment) -> bool
        ensures { result ≡ settled (advance_plan 0 at self.now.plan) }
    {
        let moment = self.book.moment_at(at);
        let used = self.book.held();
        if used > 0 {
            return false; // where no job holds slots, no order stands
        }
        first_ready_at(&self.book, moment, used).is_none()
    }
}

/// Of the jobs that may be launched once time has come to this moment the first by priority descending and number
/// ascending. It goes over the jobs behind those at the front that are over, up to the first that it finds of a priority
/// that no job's passes.
pub fn first_ready_at<'a>(book: &'a Book, moment: Moment, used: u32) -> Option<&'a Row>
    requires book { IsBook book.now }
    requires later { (plan_of book.now).moment ≤ moment }
    requires used { used ≡ held (plan_of book.now).rows }
    ensures { option_map (seen_row moment (plan_of book.now)) (option_copied result)
        ≡ best_of (filter (may_launch moment (plan_of book.now)) (map (seen_row moment (plan_of book.now)) (plan_of book.now).rows)) }
{
    if used >= book.total() {
        return None;
    }
    let greatest = book.priority_bound();
    let mut best: Option<&Row> = None;
    let mut known = Known::new();
    let mut unmet = None;
    for block in book.open_blocks() {
        if has_priority(best, greatest) {
            return best; // a later job of the same priority comes after it
        }
        best = best_among(
            book,
            best,
            &block[..],
            moment,
            used,
            greatest,
            &mut known,
            &mut unmet,
        );
    }
    best
}

/// The first in order of the best job before these and of those of these that may be launched. Where it finds one of a priority that no
/// job's passes, it looks at none behind it.
fn best_among<'a>(
    book: &Book,
    before: Option<&'a Row>,
    rows: &'a [Row],
    moment: Moment,
    used: u32,
    greatest: i32,
    known: &mut Known,
    unmet: &mut Option<Demand>,
) -> Option<&'a Row>
    requires book { IsBook book.now }
    requires later { (plan_of book.now).moment ≤ moment }
    requires used { used ≡ held (plan_of book.now).rows }
    requires bound { IsPriorityBound rows.now greatest }
    requires known { IsKnown (plan_of book.now).rows known.old }
    requires unmet { IsUnmet moment (plan_of book.now) unmet.old }
    ensures value { (rest : List Row) → IsPriorityBound rest greatest →
        first_of (option_map (seen_row moment (plan_of book.now)) (option_copied result)) (best_of (filter (may_launch moment (plan_of book.now)) (map (seen_row moment (plan_of book.now)) rest)))
        ≡ first_of (option_map (seen_row moment (plan_of book.now)) (option_copied before.entry)) (best_of (filter (may_launch moment (plan_of book.now)) (map (seen_row moment (plan_of book.now)) (rows.now ++ rest)))) }
    ensures known { IsKnown (plan_of book.now).rows known.new }
    ensures unmet { IsUnmet moment (plan_of book.now) unmet.new }
{
    let mut best = before;
    for row in rows {
        if has_priority(best, greatest) {
            return best;
        }
        best = best_with(book, best, row, moment, used, known, unmet);
    }
    best
}

/// The first in order of the best job so far and this one, where this one may be launched, and otherwise the best so far.
fn best_with<'a>(
    book: &Book,
    best: Option<&'a Row>,
    row: &'a Row,
    moment: Moment,
    used: u32,
    known: &mut Known,
    unmet: &mut Option<Demand>,
) -> Option<&'a Row>
    requires book { IsBook book.now }
    requires later { (plan_of book.now).moment ≤ moment }
    requires used { used ≡ held (plan_of book.now).rows }
    requires known { IsKnown (plan_of book.now).rows known.old }
    requires unmet { IsUnmet moment (plan_of book.now) unmet.old }
    ensures may { may_launch moment (plan_of book.now) (seen_row moment (plan_of book.now) row.now) ≡ true →
        option_copied result ≡ Some (option_map_or (λ (first : Row). better first row.now) (option_copied best.entry) row.now) }
    ensures not { may_launch moment (plan_of book.now) (seen_row moment (plan_of book.now) row.now) ≡ false → option_copied result ≡ option_copied best.entry }
    ensures known { IsKnown (plan_of book.now).rows known.new }
    ensures unmet { IsUnmet moment (plan_of book.now) unmet.new }
{
    if !is_queued(row.course.state) {
        return best; // time makes no job queued
    }
    if is_beaten(best, row) {
        return best;
    }
    if may_launch_at(book, row, moment, used, known, unmet) {
        Some(row)
    } else {
        best
    }
}

fn may_launch_at(
    book: &Book,
    row: &Row,
    moment: Moment,
    used: u32,
    known: &mut Known,
    unmet: &mut Option<Demand>,
) -> bool
    requires book { IsBook book.now }
    requires later { (plan_of book.now).moment ≤ moment }
    requires used { used ≡ held (plan_of book.now).rows }
    requires known { IsKnown (plan_of book.now).rows known.old }
    requires unmet { IsUnmet moment (plan_of book.now) unmet.old }
    ensures value { result ≡ may_launch moment (plan_of book.now) (seen_row moment (plan_of book.now) row.now) }
    ensures known { IsKnown (plan_of book.now).rows known.new }
    ensures unmet { IsUnmet moment (plan_of book.now) unmet.new }
{
    if !is_free(used, row.wants.min, book.total()) {
        return false;
    }
    if !has_slots(book, &row.wants, moment, row.wants.min, known, unmet) {
        return false;
    }
    comes_at(book, row, moment, known)
}

/// Whether a job may be launched as far as its state, its start and its array go.
fn comes_at(book: &Book, row: &Row, moment: Moment, known: &mut Known) -> bool
    requires book { IsBook book.now }
    requires few { (plan_of book.now).total < 2 ^ 32 }
    requires later { (plan_of book.now).moment ≤ moment }
    requires known { IsKnown (plan_of book.now).rows known.old }
    ensures value { result ≡ (is_queued (seen_row moment (plan_of book.now) row.now).course.state
        && is_reached moment row.now.wants.start && is_within_bound (plan_of book.now).rows row.now.wants) }
    ensures known { IsKnown (plan_of book.now).rows known.new }
{
    if !is_queued(row.course.state) {
        return false;
    }
    may_come(
        book,
        &row.wants,
        course_then(book, row, moment).state,
        moment,
        known,
    )
}

fn is_free(used: u32, least: u32, total: u32) -> bool
    ensures { result ≡ nat_le (used + least) total }
{
    u64::from(used) + u64::from(least) <= u64::from(total)
}

fn may_come(book: &Book, wants: &Wants, state: JobState, moment: Moment, known: &mut Known) -> bool
    requires book { IsBook book.now }
    requires few { (plan_of book.now).total < 2 ^ 32 }
    requires known { IsKnown (plan_of book.now).rows known.old }
    ensures value { result ≡ (is_queued state && is_reached moment wants.now.start && is_within_bound (plan_of book.now).rows wants.now) }
    ensures known { IsKnown (plan_of book.now).rows known.new }
{
    if !is_queued(state) {
        return false;
    }
    if !is_reached(moment, wants.start) {
        return false;
    }
    is_within_bound(book, wants, known)
}

fn is_within_bound(book: &Book, wants: &Wants, known: &mut Known) -> bool
    requires book { IsBook book.now }
    requires few { (plan_of book.now).total < 2 ^ 32 }
    requires known { IsKnown (plan_of book.now).rows known.old }
    ensures value { result ≡ is_within_bound (plan_of book.now).rows wants.now }
    ensures known { IsKnown (plan_of book.now).rows known.new }
{
    let Some(bound) = wants.bound else {
        return true;
    };
    let Some(array) = wants.array else {
        return true;
    };
    known.in_array(book, array) < bound
}

/// How many members of an array hold slots, of these jobs.
pub fn in_array(rows: &[Row], array: ArrayId) -> u32
    requires { in_array array rows.now < 2 ^ 32 }
    ensures { result ≡ in_array array rows.now }
{
    let mut sum = 0;
    for row in rows {
        sum += held_by_member(row, array);
    }
    sum
}

fn held_by_member(row: &Row, array: ArrayId) -> u32
    ensures { result ≡ holds_in array row.now }
{
    let Some(own) = row.wants.array else {
        return 0;
    };
    if own.0 == array.0 && row.course.held > 0 {
        1
    } else {
        0
    }
}

/// The slots held by those of these jobs that name a reservation.
pub fn in_reservation(rows: &[Row], number: ReservationId) -> u32
    requires { in_reservation number rows.now < 2 ^ 32 }
    ensures { result ≡ in_reservation number rows.now }
{
    let mut sum = 0;
    for row in rows {
        sum += held_inside(row, number);
    }
    sum
}

fn held_inside(row: &Row, number: ReservationId) -> u32
    ensures { result ≡ held_inside number row.now }
{
    let Some(own) = row.wants.reservation else {
        return 0;
    };
    if own.0 == number.0 {
        row.course.held
    } else {
        0
    }
}

/// The slots that a job may have more: those of its reservation, or else those that are free.
fn has_slots(
    book: &Book,
    wants: &Wants,
    moment: Moment,
    slots: u32,
    known: &mut Known,
    unmet: &mut Option<Demand>,
) -> bool
    requires book { IsBook book.now }
    requires few { (plan_of book.now).total < 2 ^ 32 }
    requires later { (plan_of book.now).moment ≤ moment }
    requires known { IsKnown (plan_of book.now).rows known.old }
    requires unmet { IsUnmet moment (plan_of book.now) unmet.old }
    ensures value { result ≡ slots_of (seen moment (plan_of book.now)) slots wants.now }
    ensures known { IsKnown (plan_of book.now).rows known.new }
    ensures unmet { IsUnmet moment (plan_of book.now) unmet.new }
{
    match wants.reservation {
        Some(number) => has_slots_in(book, number, moment, slots, known),
        None => has_slots_free(book, wants, moment, slots, known, unmet),
    }
}

/// The slots that an ordinary job may have more, of the calendar and within the limit of its queue.
fn has_slots_free(
    book: &Book,
    wants: &Wants,
    moment: Moment,
    slots: u32,
    known: &mut Known,
    unmet: &mut Option<Demand>,
) -> bool
    requires book { IsBook book.now }
    requires few { (plan_of book.now).total < 2 ^ 32 }
    requires later { (plan_of book.now).moment ≤ moment }
    requires known { IsKnown (plan_of book.now).rows known.old }
    requires unmet { IsUnmet moment (plan_of book.now) unmet.old }
    ensures value { result ≡ free_of (seen moment (plan_of book.now)) slots wants.now }
    ensures known { IsKnown (plan_of book.now).rows known.new }
    ensures unmet { IsUnmet moment (plan_of book.now) unmet.new }
{
    if !has_room(book, wants, slots, known) {
        return false;
    }
    let until = planned_end(wants, moment);
    is_met(book, moment, Demand { slots, until }, unmet)
}

fn has_slots_in(
    book: &Book,
    number: ReservationId,
    moment: Moment,
    slots: u32,
    known: &mut Known,
) -> bool
    requires book { IsBook book.now }
    requires few { (plan_of book.now).total < 2 ^ 32 }
    requires known { IsKnown (plan_of book.now).rows known.old }
    ensures value { result ≡ has_slots_in (seen moment (plan_of book.now)) slots number }
    ensures known { IsKnown (plan_of book.now).rows known.new }
{
    let Some(r) = lasting_of(book.reservations(), number, moment) else {
        return false;
    };
    if !covers(r, moment) {
        return false;
    }
    u64::from(known.in_reservation(book, number)) + u64::from(slots) <= u64::from(r.slots)
}

fn covers(r: &Accepted, moment: Moment) -> bool
    ensures { result ≡ covers moment r.now }
{
    r.from.number() <= moment.number() && moment.number() < r.until.number()
}

/// The slots of a reservation that are left.
fn left_in(book: &Book, number: ReservationId, moment: Moment) -> u32
    requires book { IsBook book.now }
    requires few { (plan_of book.now).total < 2 ^ 32 }
    ensures { result ≡ option_map_or (λ (r : Accepted). r.slots - in_reservation number (plan_of book.now).rows) (reservation_of number (filter (lasts moment) (plan_of book.now).reservations)) 0 }
{
    match lasting_of(book.reservations(), number, moment) {
        Some(r) => r
            .slots
            .saturating_sub(Known::new().in_reservation(book, number)),
        None => 0,
    }
}

/// The slots that a job gets which is ready for its least number.
pub fn slots_at(book: &Book, row: &Row, moment: Moment, used: u32) -> u32
    requires book { IsBook book.now }
    requires later { (plan_of book.now).moment ≤ moment }
    requires used { used ≡ held (plan_of book.now).rows }
    requires least { 1 ≤ row.now.wants.min }
    requires range { row.now.wants.min ≤ row.now.wants.max }
    requires free { used + row.now.wants.min ≤ (plan_of book.now).total }
    requires has { slots_of (seen moment (plan_of book.now)) row.now.wants.min row.now.wants ≡ true }
    ensures { IsMost (seen moment (plan_of book.now)) row.now.wants result }
{
    if row.wants.max == row.wants.min {
        return row.wants.min; // nothing else is asked for
    }
    let most = row.wants.max.min(book.total() - used);
    match row.wants.reservation {
        Some(number) => most.min(left_in(book, number, moment)),
        None => {
            let most = capped(most, left_in_queue(book, &row.wants, &mut Known::new()));
            let planned = planned_end(&row.wants, moment);
            match book
                .calendar()
                .largest(row.wants.min, most, moment, planned)
            {
                Some(slots) => slots,
                None => row.wants.min,
            }
        }
    }
}
