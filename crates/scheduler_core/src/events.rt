//! The next moment at which time may change something. It takes no memory.
ghost use Rattle.std.specs.Prelude.{◌≡◌, ◌==◌, false};
ghost use Rattle.std.specs.Option.{option_map_or};
ghost use Rattle.drmaa_model.specs.Events.{bounds_at, first_after, is_end_at, is_set_to, is_wanted_at, next_event, is_row_event};
ghost use Rattle.plan_book.specs.Blocks.{rows_in};
ghost use Rattle.scheduler_core.specs.Afters.{earlier, first_bound, first_row_event};

use crate::cores::Core;
use drmaa_model::{Accepted, Row};
use drmaa_types::{End, Moment};
use plan_book::states::is_waiting;

impl Core {
    /// The next moment, after this one, at which time may change something. It looks at no job at the front that
    /// is over.
    pub fn next_event(&self, after: Moment) -> Option<Moment>
        ensures { result ≡ next_event self.now.plan after }
    {
        earlier(
            next_block_event(after, self.book.open_blocks()),
            next_bound(after, self.book.reservations()),
        )
    }
}

// The earlier of two moments, where there are any.
fn earlier(first: Option<Moment>, second: Option<Moment>) -> Option<Moment>
    ensures { result ≡ earlier first second }
{
    match (first, second) {
        (Some(first), Some(second)) => Some(if second.number() < first.number() {
            second
        } else {
            first
        }),
        (Some(first), None) => Some(first),
        (None, second) => second,
    }
}

// A moment, where it is after another.
fn if_after(after: Moment, moment: Moment) -> Option<Moment>
    ensures { result ≡ first_after after (λ x. moment == x) }
{
    if after.number() < moment.number() {
        Some(moment)
    } else {
        None
    }
}

// The moment, where one is set and is after another.
fn next_set(after: Moment, set: Option<Moment>) -> Option<Moment>
    ensures { result ≡ first_after after (λ x. is_set_to x set) }
{
    match set {
        Some(moment) => if_after(after, moment),
        None => None,
    }
}

// An end, where it is after another moment.
fn end_after(after: Moment, end: End) -> Option<Moment>
    ensures { result ≡ first_after after (λ x. is_end_at x end) }
{
    match end {
        End::At(moment) => if_after(after, moment),
        End::Never => None,
    }
}

// The planned end, where there is one and it is after another moment.
fn next_end(after: Moment, planned: Option<End>) -> Option<Moment>
    ensures { result ≡ first_after after (λ x. option_map_or (is_end_at x) planned false) }
{
    match planned {
        Some(end) => end_after(after, end),
        None => None,
    }
}

// The next startTime or deadlineTime of a job that waits.
fn next_wanted(after: Moment, row: &Row) -> Option<Moment>
    ensures { result ≡ first_after after (λ x. is_wanted_at x row.now) }
{
    if is_waiting(row.course.state) {
        earlier(
            next_set(after, row.wants.start),
            next_set(after, row.wants.deadline),
        )
    } else {
        None
    }
}

// The next moment at which time may change something for a job.
fn next_of_row(after: Moment, row: &Row) -> Option<Moment>
    ensures { result ≡ first_after after (λ x. is_row_event x row.now) }
{
    earlier(next_wanted(after, row), next_end(after, row.course.planned))
}

// The next start or end of a reservation.
fn next_of_reservation(after: Moment, reservation: &Accepted) -> Option<Moment>
    ensures { result ≡ first_after after (λ x. bounds_at x reservation.now) }
{
    earlier(
        if_after(after, reservation.from),
        if_after(after, reservation.until),
    )
}

// The next moment at which time may change something for any of these jobs.
fn next_row_event(after: Moment, rows: &[Row]) -> Option<Moment>
    ensures { result ≡ first_row_event after rows.now }
{
    let mut best = None;
    for row in rows {
        best = earlier(best, next_of_row(after, row));
    }
    best
}

// The next moment at which time may change something for any of the jobs of these blocks.
fn next_block_event(after: Moment, blocks: &[Vec<Row>]) -> Option<Moment>
    ensures { result ≡ first_row_event after (rows_in blocks.now) }
{
    let mut best = None;
    for block in blocks {
        best = earlier(best, next_row_event(after, &block[..]));
    }
    best
}

// The next start or end of any of the reservations.
fn next_bound(after: Moment, reservations: &Vec<Accepted>) -> Option<Moment>
    ensures { result ≡ first_bound after reservations.now.items }
{
    let mut best = None;
    for reservation in reservations {
        best = earlier(best, next_of_reservation(after, reservation));
    }
    best
}
