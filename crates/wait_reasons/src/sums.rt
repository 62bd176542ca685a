//! Sums over the rows of all jobs, each made once for all waiting jobs that share it. None of it takes memory.
ghost use Rattle.std.specs.Prelude.{◌≡◌, ◌^◌, ◌<◌, List, IfSome};
ghost use Rattle.drmaa_model.specs.declared.rows.Row.{Row};
ghost use Rattle.drmaa_model.specs.Load.{holds_in, held_in_queue, held_inside};
ghost use Rattle.plan_book.specs.Blocks.{rows_in};
ghost use Rattle.wait_reasons.specs.Sums.{adds, sum_of, IsKnown};

use drmaa_model::Row;
use drmaa_types::{ArrayId, ReservationId};

/// How many sums are remembered: sixteen of each kind.
const PLACES: usize = 48;

/// What is summed over all rows.
#[derive(Clone, Copy, PartialEq, Eq)]
pub enum Share {
    /// How many members of this array hold slots.
    Array(ArrayId),
    /// The slots held by the ordinary jobs of the queue at this place.
    Queue(u32),
    /// The slots held by the jobs that name this reservation.
    Reservation(ReservationId),
}

/// A sum over all rows.
#[derive(Clone, Copy)]
pub struct Sum {
    pub share: Share,
    pub sum: u32,
}

/// What is known of all rows so far: sums, each at the place of its share. Where two have one place, the later takes it.
#[derive(Drop)]
pub struct Known {
    pub places: [Option<Sum>; PLACES],
}

fn place_of(share: Share) -> usize
    ensures { result < 48 }
{
    match share {
        Share::Array(array) => (array.0 % 16) as usize,
        Share::Queue(place) => 16 + (place % 16) as usize,
        Share::Reservation(number) => 32 + (number.0 % 16) as usize,
    }
}

fn held_by_member(row: &Row, array: ArrayId) -> u32
    ensures { result ≡ holds_in array row.now }
{
    let Some(own) = row.wants.array else {
        return 0;
    };
    if own.0 == array.0 && row.course.held > 0 {
        1
    } else {
        0
    }
}

fn held_in_queue(row: &Row, place: u32) -> u32
    ensures { result ≡ held_in_queue place row.now }
{
    let Some(own) = row.wants.queue else {
        return 0;
    };
    if row.wants.reservation.is_none() && own == place {
        row.course.held
    } else {
        0
    }
}

fn held_inside(row: &Row, number: ReservationId) -> u32
    ensures { result ≡ held_inside number row.now }
{
    let Some(own) = row.wants.reservation else {
        return 0;
    };
    if own.0 == number.0 {
        row.course.held
    } else {
        0
    }
}

/// What a job adds to a sum.
fn adds(row: &Row, share: Share) -> u32
    ensures { result ≡ adds share row.now }
{
    match share {
        Share::Array(array) => held_by_member(row, array),
        Share::Queue(place) => held_in_queue(row, place),
        Share::Reservation(number) => held_inside(row, number),
    }
}

/// The sum over these rows.
fn sum_of(rows: &[Row], share: Share) -> u32
    requires few { sum_of share rows.now < 2 ^ 32 }
    ensures { result ≡ sum_of share rows.now }
{
    let mut sum = 0;
    for row in rows {
        sum += adds(row, share);
    }
    sum
}

/// The sum over the jobs of these blocks.
fn sum_in(blocks: &[Vec<Row>], share: Share) -> u32
    requires few { sum_of share (rows_in blocks.now) < 2 ^ 32 }
    ensures { result ≡ sum_of share (rows_in blocks.now) }
{
    let mut sum = 0;
    for block in blocks {
        sum += sum_of(&block[..], share);
    }
    sum
}

impl Known {
    /// Nothing is known yet.
    pub fn new() -> Known
        ensures { (rows : List Row) → IsKnown rows result }
    {
        Known {
            places: [None; PLACES],
        }
    }

    /// The sum, if it is remembered.
    fn find(&self, share: Share) -> Option<u32>
        ensures { (rows : List Row) → IsKnown rows self.now → IfSome result (λ sum. sum ≡ sum_of share rows) }
    {
        let made = self.places[place_of(share)]?;
        if made.share == share {
            Some(made.sum)
        } else {
            None
        }
    }

    /// Remembers the sum.
    fn note(&mut self, share: Share, sum: u32)
        ensures { (rows : List Row) → IsKnown rows self.old → sum ≡ sum_of share rows → IsKnown rows self.new }
    {
        self.places[place_of(share)] = Some(Sum { share, sum });
    }

    /// The sum over all rows, which stand in these blocks.
    pub fn sum(&mut self, blocks: &[Vec<Row>], share: Share) -> u32
        requires few { sum_of share (rows_in blocks.now) < 2 ^ 32 }
        requires known { IsKnown (rows_in blocks.now) self.old }
        ensures value { result ≡ sum_of share (rows_in blocks.now) }
        ensures known { IsKnown (rows_in blocks.now) self.new }
    {
        if let Some(sum) = self.find(share) {
            return sum;
        }
        let sum = sum_in(blocks, share);
        self.note(share, sum);
        sum
    }
}
