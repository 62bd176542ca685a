//! The plan as it is kept, and what is read of it.
ghost use Rattle.std.specs.Prelude.{◌≡◌, ◌-◌, ◌<◌, ◌≤◌, ◌^◌, Bool, length, max, filter, SomeIff, IfSome, OnOk, IfErr};
ghost use Rattle.std.specs.List.{AllByRecursion};
ghost use Rattle.std.specs.Option.{option_copied, option_map};
ghost use Rattle.drmaa_types.specs.Queues.{most_queues};
ghost use Rattle.drmaa_model.specs.declared.rows.Row.{Row};
ghost use Rattle.drmaa_model.specs.Homes.{is_same_home};
ghost use Rattle.drmaa_model.specs.NextLaunch.{held};
ghost use Rattle.drmaa_model.specs.Plan.{opening_plan};
ghost use Rattle.drmaa_model.specs.Rows.{row_of};
ghost use Rattle.drmaa_model.specs.Size.{weight};
ghost use Rattle.drmaa_model.specs.Submitting.{kept_text, most_kept_text};
ghost use Rattle.drmaa_model.specs.Time.{advance_plan, is_accepted, rows_at, lasts, lapsed, called_in};
ghost use Rattle.drmaa_model.specs.Load.{in_array, in_queue, in_reservation, is_member, reservation_of};
ghost use Rattle.plan_book.specs.Book.{plan_of, calendar_of, IsBook, spare, course_then};
ghost use Rattle.plan_book.specs.Blocks.{rows_in};
ghost use Rattle.plan_book.specs.Due.{HasAllDue};
ghost use Rattle.plan_book.specs.Facts.{facts_of};
ghost use Rattle.plan_book.specs.Meant.{HasAllMeant, rows_of};
ghost use Rattle.plan_book.specs.Numbers.{HasAllFrom, HasNumbersOf};
ghost use Rattle.plan_book.specs.Open.{AreOpen, IsPriorityBound};
ghost use Rattle.plan_book.specs.Owed.{reports_to_come};
ghost use Rattle.plan_book.specs.Places.{AreSorted};

use crate::alarm_blocks::Alarm;
use crate::meant::MeantRows;
use crate::reservations::{is_lasting, reservation_of};
use crate::rows::Facts;
use crate::spans::{NumberRange, no_numbers};
use crate::summed_rows::Rows;
use crate::time::{course_at, is_past};
use drmaa_model::{Accepted, Course, Order, Row, Target};
use drmaa_types::{ArrayId, Change, JobId, Moment, QueueList, Refusal, ReservationId};
use reservation_calendar::Calendar;
use std::alloc::Global;

/// The plan as it is kept. Contracts see it as `plan_of` of it, and as the room that it has.
pub struct Book {
    pub total: u32,
    pub queues: QueueList,
    pub moment: Moment,
    pub rows: Rows,
    pub reservations: Vec<Accepted>,
    /// The bookings of the accepted reservations and of the started ordinary jobs.
    pub calendar: Calendar,
    pub orders: Vec<Order>,
    pub changes: Vec<Change>,
    pub next_job: u64,
    pub next_array: u64,
    pub next_reservation: u64,
    /// Before which moments time leaves jobs and reservations as they are. They may be sooner than need be.
    pub alarm: Alarm,
}

impl Drop for Book {
    fn drop(self) {
        let Book {
            total: _,
            queues: _,
            moment: _,
            rows: _,
            reservations: _,
            calendar: _,
            orders: _,
            changes: _,
            next_job: _,
            next_array: _,
            next_reservation: _,
            alarm: _,
        } = self;
    }
}

impl Book {
    /// No jobs, on a machine with so many slots and with these queues; it takes no memory.
    pub fn new(alloc: Global, slots: u32, queues: QueueList) -> Book
        requires few { length queues ≤ most_queues }
        ensures plan { plan_of result ≡ opening_plan slots queues }
        ensures book { IsBook result }
    {
        Book {
            total: slots,
            queues,
            moment: opening_moment(),
            rows: Rows::new(alloc),
            reservations: Vec::new(alloc),
            calendar: Calendar::new(alloc, slots),
            orders: Vec::new(alloc),
            changes: Vec::new(alloc),
            next_job: 1,
            next_array: 1,
            next_reservation: 1,
            alarm: Alarm::new(alloc),
        }
    }

    /// Takes the memory for so many further changes.
    pub fn reserve(&mut self, n: u32) -> Result<(), Refusal>
        requires book { IsBook self.old }
        ensures plan { plan_of self.new ≡ plan_of self.old }
        ensures book { IsBook self.new }
        ensures spare { OnOk result (n ≤ spare self.new) }
        ensures more { spare self.old ≤ spare self.new }
        ensures err { IfErr result (λ why. why ≡ Refusal.OutOfMemory) }
    {
        let wanted = self.rows.owed() + n as usize;
        match self.changes.reserve(wanted) {
            Ok(()) => Ok(()),
            Err(_) => Err(Refusal::OutOfMemory),
        }
    }

    /// The changes and the promised room.
    pub fn weight(&self) -> u64
        requires { weight (plan_of self.now) ≤ 4_000_000 }
        ensures { result ≡ weight (plan_of self.now) }
    {
        self.changes.len() as u64 + self.rows.promised()
    }

    /// The moment to which time comes by this one: it never falls.
    pub fn moment_at(&self, at: Moment) -> Moment
        ensures { result ≡ max (plan_of self.now).moment at }
    {
        if self.moment.number() < at.number() {
            at
        } else {
            self.moment
        }
    }

    /// What is known of a job once time has come to this moment.
    pub fn facts_at(&self, at: Moment, job: JobId) -> Option<Facts>
        requires book { IsBook self.now }
        ensures { result ≡ option_map facts_of (row_of job (rows_at at (plan_of self.now))) }
    {
        let moment = self.moment_at(at);
        match self.rows.row_of(job) {
            None => None,
            Some(row) => Some(facts_then(&self.reservations, row, moment)),
        }
    }

    /// The machine's queues.
    pub fn queues(&self) -> &QueueList
        requires book { IsBook self.now }
        ensures queues { result.now ≡ (plan_of self.now).queues }
        ensures few { length result.now ≤ most_queues }
    {
        &self.queues
    }

    /// The machine's slots.
    pub fn total(&self) -> u32
        ensures { result ≡ (plan_of self.now).total }
    {
        self.total
    }

    /// The moment to which time has come.
    pub fn moment(&self) -> Moment
        ensures { result ≡ (plan_of self.now).moment }
    {
        self.moment
    }

    /// The kept jobs, in order of number, block by block.
    pub fn blocks(&self) -> &[Vec<Row>]
        ensures { rows_in result.now ≡ (plan_of self.now).rows }
    {
        self.rows.blocks()
    }

    /// How many jobs are kept.
    pub fn count(&self) -> u128
        ensures { result ≡ length (plan_of self.now).rows }
    {
        self.rows.count()
    }

    /// The kept jobs from the block of this number on, in order of number. Before it all numbers are lower.
    pub fn blocks_from(&self, number: u64) -> &[Vec<Row>]
        ensures { HasAllFrom number (plan_of self.now).rows (rows_in result.now) }
    {
        self.rows.blocks_from(number)
    }

    /// The kept jobs from the block of the first on that is not over, in order of number. Before it none waits or is started.
    pub fn open_blocks(&self) -> &[Vec<Row>]
        ensures { AreOpen (plan_of self.now).rows (rows_in result.now) }
    {
        self.rows.open_blocks()
    }

    /// The kept jobs, but for some at the front and at the end which time leaves as they are on its way to this moment: those from the
    /// first to the last block of which the end has come, or where a reservation ends, all from the block of the first on that is not
    /// over.
    pub fn due_blocks(&self, at: Moment) -> &[Vec<Row>]
        requires book { IsBook self.now }
        ensures { HasAllDue at (plan_of self.now) (rows_in result.now) }
    {
        let moment = self.moment_at(at);
        if is_past(self.alarm.lasting, moment) {
            return self.rows.open_blocks();
        }
        self.rows.blocks_of(self.due_places(moment))
    }

    /// The kept jobs, but for some at the front and at the end of which none is meant: that of one job alone, or those of the blocks from
    /// the first member of an array to the last, or all where the array's span found no memory.
    pub fn meant_rows(&self, target: Target) -> MeantRows<'_>
        requires book { IsBook self.now }
        ensures { HasAllMeant target (plan_of self.now).rows (rows_of result) }
    {
        self.rows.meant_rows(target)
    }

    /// Numbers among which are those of all kept members of the array: from its first to its last, or all numbers up to the next one
    /// where its span found no memory.
    pub fn numbers_of_array(&self, array: ArrayId) -> NumberRange
        requires book { IsBook self.now }
        ensures { HasNumbersOf (is_member array) (plan_of self.now).rows result }
    {
        self.numbers_or_all(self.rows.numbers_of_array(array))
    }

    /// Numbers among which are those of all kept jobs of the home: from its first to its last, or all numbers up to the next one where
    /// its span found no memory. No job is of no home.
    pub fn numbers_of_home(&self, home: Option<u64>) -> NumberRange
        requires book { IsBook self.now }
        ensures { HasNumbersOf (λ (row : Row). is_same_home home row.home) (plan_of self.now).rows result }
    {
        match home {
            Some(home) => self.numbers_or_all(self.rows.numbers_of_home(home)),
            None => no_numbers(),
        }
    }

    /// These numbers, or all up to the next one.
    fn numbers_or_all(&self, range: Option<NumberRange>) -> NumberRange
        requires book { IsBook self.now }
        ensures { (test : Row → Bool) → IfSome range (HasNumbersOf test (plan_of self.now).rows) → HasNumbersOf test (plan_of self.now).rows result }
    {
        match range {
            Some(range) => range,
            None => NumberRange {
                first: 0,
                last: self.next_job,
            },
        }
    }

    /// A priority that no kept job's passes.
    pub fn priority_bound(&self) -> i32
        ensures { IsPriorityBound (plan_of self.now).rows result }
    {
        self.rows.priority_bound()
    }

    /// How many members of the array hold slots. None where it isn't known, since memory was wanting or it doesn't fit.
    pub fn in_array(&self, array: ArrayId) -> Option<u32>
        ensures { IfSome result (λ n. n ≡ in_array array (plan_of self.now).rows) }
    {
        self.rows.in_array(array)
    }

    /// The slots held by the ordinary jobs of the queue at this place. None where it isn't known, since memory was wanting or it doesn't fit.
    pub fn in_queue(&self, place: u32) -> Option<u32>
        ensures { IfSome result (λ n. n ≡ in_queue place (plan_of self.now).rows) }
    {
        self.rows.in_queue(place)
    }

    /// The slots held by the jobs that name the reservation. None where it isn't known, since memory was wanting or it doesn't fit.
    pub fn in_reservation(&self, number: ReservationId) -> Option<u32>
        ensures { IfSome result (λ n. n ≡ in_reservation number (plan_of self.now).rows) }
    {
        self.rows.in_reservation(number)
    }

    /// The slots that all jobs hold.
    pub fn held(&self) -> u32
        requires book { IsBook self.now }
        ensures { result ≡ held (plan_of self.now).rows }
    {
        self.rows.held(self.total)
    }

    /// The reports of starts and ends that the processes of all jobs may still bring.
    pub fn reports_to_come(&self) -> u64
        requires few { reports_to_come (plan_of self.now).rows < 2 ^ 64 }
        ensures { result ≡ reports_to_come (plan_of self.now).rows }
    {
        self.rows.reports_to_come()
    }

    /// The room that the text of the templates of all kept jobs leaves of the most that they may have. None exactly where it passes
    /// that.
    pub fn text_room(&self) -> Option<usize>
        ensures { SomeIff result (kept_text (plan_of self.now).rows ≤ most_kept_text) (most_kept_text - kept_text (plan_of self.now).rows) }
    {
        self.rows.text_room()
    }

    /// The accepted reservations, in order of number.
    pub fn reservations(&self) -> &Vec<Accepted>
        ensures { result.now.items ≡ (plan_of self.now).reservations }
    {
        &self.reservations
    }

    /// The signals that are still to be delivered, in order of asking.
    pub fn orders(&self) -> &Vec<Order>
        ensures { result.now.items ≡ (plan_of self.now).orders }
    {
        &self.orders
    }

    /// What became of the jobs' states, in order.
    pub fn changes(&self) -> &Vec<Change>
        ensures { result.now.items ≡ (plan_of self.now).changes }
    {
        &self.changes
    }

    /// The bookings of the accepted reservations and of the started ordinary jobs.
    pub fn calendar(&self) -> &Calendar
        ensures { result.now ≡ calendar_of self.now }
    {
        &self.calendar
    }

    /// The number of the next job.
    pub fn next_job(&self) -> u64
        ensures { result ≡ (plan_of self.now).next_job }
    {
        self.next_job
    }

    /// The number of the next array.
    pub fn next_array(&self) -> u64
        ensures { result ≡ (plan_of self.now).next_array }
    {
        self.next_array
    }

    /// The number of the next reservation.
    pub fn next_reservation(&self) -> u64
        ensures { result ≡ (plan_of self.now).next_reservation }
    {
        self.next_reservation
    }

    /// The course of a kept job once time has come to this moment.
    pub fn course_at(&self, at: Moment, row: &Row) -> Course
        requires book { IsBook self.now }
        ensures { result ≡ (course_then at (plan_of self.now) row.now) }
    {
        course_at(&self.reservations, row, self.moment_at(at))
    }

    /// The accepted reservation of this number as it is now, before time goes on, if there is one.
    pub fn reservation(&self, number: ReservationId) -> Option<&Accepted>
        requires book { IsBook self.now }
        ensures { option_copied result ≡ reservation_of number (plan_of self.now).reservations }
    {
        reservation_of(&self.reservations, number)
    }

    /// Whether a reservation will be accepted once time has come to this moment.
    pub fn is_accepted_at(&self, at: Moment, number: ReservationId) -> bool
        requires book { IsBook self.now }
        ensures { result ≡ is_accepted (advance_plan 0 at (plan_of self.now)).reservations number }
    {
        is_lasting(&self.reservations, number, self.moment_at(at))
    }

    /// The row of this job as it is now, before time goes on, if the job is kept.
    pub fn row(&self, job: JobId) -> Option<&Row>
        requires book { IsBook self.now }
        ensures { option_copied result ≡ row_of job (plan_of self.now).rows }
    {
        self.rows.row_of(job)
    }
}

/// Moment 0.
pub fn opening_moment() -> Moment
    ensures { result ≡ 0 }
{
    Moment::new(0).unwrap_or(Moment::greatest())
}

/// What is known of a job's row once time has come to this moment.
fn facts_then(rs: &Vec<Accepted>, row: &Row, moment: Moment) -> Facts
    requires sorted { AreSorted rs.now.items }
    ensures { result ≡ facts_of (called_in moment (filter (lasts moment) rs.now.items) (lapsed moment (filter (lasts moment) rs.now.items) row.now)) }
{
    Facts {
        job: row.job,
        home: row.home,
        course: course_at(rs, row, moment),
        rerunnable: row.wants.rerunnable,
    }
}
