//! The slots that the limit of a queue leaves to its ordinary jobs. None of it takes memory.
ghost use Rattle.std.specs.Prelude.{◌≡◌, ◌^◌, ◌<◌};
ghost use Rattle.drmaa_model.specs.Load.{held_in_queue, in_queue};
ghost use Rattle.plan_book.specs.Book.{plan_of, IsBook};
ghost use Rattle.scheduler_core.specs.Launches.{capped, queue_left, room_of};
ghost use Rattle.scheduler_core.specs.Sums.{IsKnown};

use crate::sums::Known;
use drmaa_model::{Row, Wants};
use drmaa_types::queue_at;
use plan_book::Book;

/// Whether so many slots are within the limit of the queue that an ordinary job is of, where it is of one.
pub fn has_room(book: &Book, wants: &Wants, slots: u32, known: &mut Known) -> bool
    requires book { IsBook book.now }
    requires few { (plan_of book.now).total < 2 ^ 32 }
    requires known { IsKnown (plan_of book.now).rows known.old }
    ensures value { result ≡ room_of (plan_of book.now) slots wants.now }
    ensures known { IsKnown (plan_of book.now).rows known.new }
{
    match left_in_queue(book, wants, known) {
        Some(left) => slots <= left,
        None => true,
    }
}

/// The slots that the limit of the job's queue leaves, where it is of one.
pub fn left_in_queue(book: &Book, wants: &Wants, known: &mut Known) -> Option<u32>
    requires book { IsBook book.now }
    requires few { (plan_of book.now).total < 2 ^ 32 }
    requires known { IsKnown (plan_of book.now).rows known.old }
    ensures value { result ≡ queue_left (plan_of book.now) wants.now }
    ensures known { IsKnown (plan_of book.now).rows known.new }
{
    let Some(place) = wants.queue else {
        return None;
    };
    let Some(queue) = queue_at(book.queues(), place) else {
        return None;
    };
    let used = known.in_queue(book, place);
    Some(queue.limit.saturating_sub(used))
}

/// So many slots at most, and no more than are left.
pub fn capped(most: u32, left: Option<u32>) -> u32
    ensures { result ≡ capped most left }
{
    match left {
        Some(left) => most.min(left),
        None => most,
    }
}

/// The slots held by those of these jobs that are ordinary ones of the queue at this place.
pub fn in_queue(rows: &[Row], place: u32) -> u32
    requires { in_queue place rows.now < 2 ^ 32 }
    ensures { result ≡ in_queue place rows.now }
{
    let mut sum = 0;
    for row in rows {
        sum += held_in_queue(row, place);
    }
    sum
}

fn held_in_queue(row: &Row, place: u32) -> u32
    ensures { result ≡ held_in_queue place row.now }
{
    let Some(own) = row.wants.queue else {
        return 0;
    };
    if row.wants.reservation.is_none() && own == place {
        row.course.held
    } else {
        0
    }
}
