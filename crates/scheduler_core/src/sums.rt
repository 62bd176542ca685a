//! Sums over all rows that the book keeps, and those that a search has made where the book lacks them, so that it makes none of them
//! anew for each waiting job. None of it takes memory.
ghost use Rattle.std.specs.Prelude.{◌≡◌, ℕ, ◌^◌, ◌<◌, List, IfSome};
ghost use Rattle.drmaa_model.specs.declared.rows.Row.{Row};
ghost use Rattle.drmaa_model.specs.Load.{in_array, in_queue, in_reservation};
ghost use Rattle.plan_book.specs.Book.{plan_of, IsBook};
ghost use Rattle.scheduler_core.specs.Sums.{IsMade, IsKnown};

use crate::block_sums::{members_holding, queue_holding, reservation_holding};
use drmaa_model::Target;
use drmaa_types::{ArrayId, ReservationId};
use plan_book::Book;

/// How many sums of one kind are remembered.
const PLACES: usize = 16;

/// A sum over all rows, for the array, the queue or the reservation of this number.
#[derive(Clone, Copy)]
pub struct Sum {
    pub number: u64,
    pub sum: u32,
}

/// Sums of one kind, each at the place of its number: where two share one, the later takes it.
#[derive(Drop)]
pub struct Sums {
    pub places: [Option<Sum>; PLACES],
}

/// What a search has found out of all rows.
#[derive(Drop)]
pub struct Known {
    /// How many members of an array hold slots.
    pub arrays: Sums,
    /// The slots held by the ordinary jobs of a queue.
    pub queues: Sums,
    /// The slots held by the jobs that name a reservation.
    pub reservations: Sums,
}

impl Sums {
    fn new() -> Sums
        ensures { (of : ℕ → ℕ) → IsMade of result }
    {
        Sums {
            places: [None; PLACES],
        }
    }

    /// The sum of this number, if it is remembered.
    fn find(&self, number: u64) -> Option<u32>
        ensures { (of : ℕ → ℕ) → IsMade of self.now → IfSome result (λ sum. sum ≡ of number) }
    {
        let made = self.places[place_of(number)]?;
        if made.number == number {
            Some(made.sum)
        } else {
            None
        }
    }

    /// Remembers the sum of this number.
    fn note(&mut self, number: u64, sum: u32)
        ensures { (of : ℕ → ℕ) → IsMade of self.old → sum ≡ of number → IsMade of self.new }
    {
        self.places[place_of(number)] = Some(Sum { number, sum });
    }
}

fn place_of(number: u64) -> usize
    ensures { result < 16 }
{
    (number % 16) as usize
}

impl Known {
    /// Nothing is known yet.
    pub fn new() -> Known
        ensures { (rows : List Row) → IsKnown rows result }
    {
        Known {
            arrays: Sums::new(),
            queues: Sums::new(),
            reservations: Sums::new(),
        }
    }

    /// How many members of an array hold slots. Where the book doesn't know, they are looked for between its first and its last member.
    pub fn in_array(&mut self, book: &Book, array: ArrayId) -> u32
        requires book { IsBook book.now }
        requires few { (plan_of book.now).total < 2 ^ 32 }
        requires known { IsKnown (plan_of book.now).rows self.old }
        ensures value { result ≡ in_array array (plan_of book.now).rows }
        ensures known { IsKnown (plan_of book.now).rows self.new }
    {
        if let Some(sum) = book.in_array(array) {
            return sum;
        }
        if let Some(sum) = self.arrays.find(array.0) {
            return sum;
        }
        let sum = members_holding(book.meant_rows(Target::Array(array)), array);
        self.arrays.note(array.0, sum);
        sum
    }

    /// The slots held by the ordinary jobs of the queue at this place. Where the book doesn't know, they are added up; jobs at the front
    /// that are over hold none.
    pub fn in_queue(&mut self, book: &Book, place: u32) -> u32
        requires book { IsBook book.now }
        requires few { (plan_of book.now).total < 2 ^ 32 }
        requires known { IsKnown (plan_of book.now).rows self.old }
        ensures value { result ≡ in_queue place (plan_of book.now).rows }
        ensures known { IsKnown (plan_of book.now).rows self.new }
    {
        if let Some(sum) = book.in_queue(place) {
            return sum;
        }
        let number = u64::from(place);
        if let Some(sum) = self.queues.find(number) {
            return sum;
        }
        let sum = queue_holding(book.open_blocks(), place);
        self.queues.note(number, sum);
        sum
    }

    /// The slots held by the jobs that name a reservation. Where the book doesn't know, they are added up; jobs at the front that are over
    /// hold none.
    pub fn in_reservation(&mut self, book: &Book, number: ReservationId) -> u32
        requires book { IsBook book.now }
        requires few { (plan_of book.now).total < 2 ^ 32 }
        requires known { IsKnown (plan_of book.now).rows self.old }
        ensures value { result ≡ in_reservation number (plan_of book.now).rows }
        ensures known { IsKnown (plan_of book.now).rows self.new }
    {
        if let Some(sum) = book.in_reservation(number) {
            return sum;
        }
        if let Some(sum) = self.reservations.find(number.0) {
            return sum;
        }
        let sum = reservation_holding(book.open_blocks(), number);
        self.reservations.note(number.0, sum);
        sum
    }
}
