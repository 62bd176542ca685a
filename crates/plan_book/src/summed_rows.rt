//! The rows of a book with what they come to, which is kept up. They stand in blocks of so many numbers each. Time goes over those behind
//! the settled blocks at the front alone, and what they come to is added up on the way; a call for an array goes over the blocks from its
//! first member's to its last one's, or over all where its span found no memory. Between which numbers the jobs of a home stand is known
//! too.
ghost use Rattle.std.specs.Prelude.{◌≡◌, ◌+◌, ◌≤◌, ◌^◌, ◌<◌, [], ◌++◌, ◌&&◌, ◌⊎◌, ℕ, false, not, map, filter, length, vec_len, vec_capacity, IfSome, OnOk, Some};
ghost use Rattle.std.specs.List.{AllByRecursion, flat_map};
ghost use Rattle.std.specs.Option.{option_copied};
ghost use Rattle.drmaa_model.specs.declared.calls.Target.{Target};
ghost use Rattle.drmaa_model.specs.declared.rows.Row.{Row};
ghost use Rattle.drmaa_model.specs.Controlling.{control_step, is_done};
ghost use Rattle.drmaa_model.specs.Effects.{left_by, is_forgotten};
ghost use Rattle.drmaa_model.specs.Fit.{IsRising, IsSound, number_of};
ghost use Rattle.drmaa_model.specs.Homes.{is_same_home};
ghost use Rattle.drmaa_model.specs.Load.{in_array, in_queue, in_reservation, is_member};
ghost use Rattle.drmaa_model.specs.NextLaunch.{held};
ghost use Rattle.drmaa_model.specs.Rows.{is_of, row_of, with_course};
ghost use Rattle.drmaa_model.specs.Size.{promised};
ghost use Rattle.drmaa_model.specs.Submitting.{kept_text};
ghost use Rattle.drmaa_model.specs.Targets.{is_meant};
ghost use Rattle.drmaa_model.specs.TimeLaws.{timed};
ghost use Rattle.plan_book.specs.Blocks.{IsInside, rows_in};
ghost use Rattle.plan_book.specs.Due.{HasAllOf};
ghost use Rattle.plan_book.specs.Lapses.{ends, kills_then};
ghost use Rattle.plan_book.specs.Meant.{HasAllMeant, rows_of};
ghost use Rattle.plan_book.specs.Numbers.{HasAllFrom, HasNumbersOf};
ghost use Rattle.plan_book.specs.Open.{AreOpen, IsPriorityBound};
ghost use Rattle.plan_book.specs.Owed.{owed, owed_kills, reports_to_come};
ghost use Rattle.plan_book.specs.Places.{AreSorted};
ghost use Rattle.plan_book.specs.Quiet.{block_of, AreCovered, IsAlarmed, IsOutside, IsSpared};
ghost use Rattle.plan_book.specs.Texts.{IsRoomBeside};

use crate::alarm_blocks::{Alarm, block_of};
use crate::block_walks::{
    count_in, greatest_under, greatest_without, room_beside, room_without_members, settled_from,
    sums_in,
};
use crate::blocks;
use crate::meant::MeantRows;
use crate::open_jobs::greatest_with;
use crate::rows::Places;
use crate::spans::{NumberRange, Spans};
use crate::sums::{Sums, going_on, no_sums, sums_of, with_others, without_job, without_others};
use crate::sweeps::controlled_course;
use crate::targets::is_done;
use crate::texts::{room_with, room_without_job, whole_room};
use crate::usage::Usage;
use drmaa_model::{Accepted, Course, Order, Row, Target};
use drmaa_types::{ArrayId, Change, Control, JobId, Moment, ReservationId};
use std::alloc::{AllocError, Global};
use std::marker::Model;

/// The kept jobs with what they come to. Contracts see their rows, and the blocks of numbers of which there is room for all.
pub struct Rows {
    /// Block by block, in order of number.
    blocks: Vec<Vec<Row>>,
    /// Jobs come in from this block on. Of the blocks before it those with no jobs give their memory back.
    first_seat: usize,
    sums: Sums,
    /// The room that the text of their templates leaves of the most that all kept jobs may have. None where it passes that.
    room: Option<usize>,
    /// The jobs of so many blocks at the front are settled.
    settled: usize,
    /// No job's priority passes it.
    greatest: i32,
    /// Between which numbers the members of arrays and the jobs of homes stand.
    spans: Spans,
    /// What arrays, queues and reservations have in use.
    usage: Usage,
}

impl Drop for Rows {
    fn drop(self) {
        let Rows {
            blocks: _,
            first_seat: _,
            sums: _,
            room: _,
            settled: _,
            greatest: _,
            spans: _,
            usage: _,
        } = self;
    }
}

impl Model for Rows {
    ghost use Rattle.std.specs.Prelude.{length};
    ghost use Rattle.plan_book.specs.Blocks.{KeptRows, rows_in};
    ghost use Rattle.plan_book.specs.Sums.{AreRows};

    ghost Value = { KeptRows };

    ghost view = { λ r. record { items = rows_in r.blocks.items; seats = record { from = r.first_seat; until = length r.blocks.items } } };

    ghost invariant = { λ r. AreRows r.blocks.items r.first_seat r.sums r.room r.settled r.greatest r.spans r.usage };
}

impl Rows {
    /// No jobs; it takes no memory.
    pub fn new(alloc: Global) -> Rows
        ensures items { result.items ≡ [] }
        ensures from { result.seats.from ≡ 0 }
        ensures until { result.seats.until ≡ 0 }
    {
        Rows {
            blocks: Vec::new(alloc),
            first_seat: 0,
            sums: no_sums(),
            room: whole_room(),
            settled: 0,
            greatest: i32::MIN,
            spans: Spans::new(alloc),
            usage: Usage::new(alloc),
        }
    }

    /// The rows, block by block.
    pub fn blocks(&self) -> &[Vec<Row>]
        ensures { rows_in result.now ≡ self.now.items }
    {
        &self.blocks[..]
    }

    /// How many there are.
    pub fn count(&self) -> u128
        ensures { result ≡ length self.now.items }
    {
        self.sums.count
    }

    /// The blocks from the first on that has a job which is not settled. Before it none waits or is started.
    pub fn open_blocks(&self) -> &[Vec<Row>]
        ensures { AreOpen self.now.items (rows_in result.now) }
    {
        &self.blocks[self.settled..]
    }

    /// The blocks from that of this number on. Before it all numbers are lower.
    pub fn blocks_from(&self, number: u64) -> &[Vec<Row>]
        ensures { HasAllFrom number self.now.items (rows_in result.now) }
    {
        let from = block_of(number).min(self.blocks.len());
        &self.blocks[from..]
    }

    /// The blocks among which all members of the array are: from its first member's to its last one's, or all where its span found no
    /// memory.
    pub fn blocks_of_array(&self, array: ArrayId) -> &[Vec<Row>]
        ensures { HasAllMeant (Target.Array array) self.now.items (rows_in result.now) }
    {
        let places = self.places_of(array);
        &self.blocks[places.from..places.until]
    }

    /// Rows among which are all that are meant: that of the job alone, or the blocks from the first member's of the array to the last one's.
    pub fn meant_rows(&self, target: Target) -> MeantRows<'_>
        ensures { HasAllMeant target self.now.items (rows_of result) }
    {
        match target {
            Target::Job(job) => MeantRows {
                alone: blocks::row_alone(&self.blocks, job),
                blocks: &self.blocks[..0],
            },
            Target::Array(array) => MeantRows {
                alone: &[],
                blocks: self.blocks_of_array(array),
            },
        }
    }

    /// The blocks of these numbers.
    pub(crate) fn blocks_of(&self, places: Places) -> &[Vec<Row>]
        ensures { HasAllOf places self.now.items (rows_in result.now) }
    {
        let until = places.until.min(self.blocks.len());
        let from = places.from.min(until);
        &self.blocks[from..until]
    }

    /// The places of the blocks outside of which no member of the array stands.
    fn places_of(&self, array: ArrayId) -> Places
        ensures span { result.from ≤ result.until }
        ensures within { result.until ≤ self.now.seats.until }
        ensures outside { AllByRecursion (λ (row : Row). IsOutside result (block_of row.job.0) → is_meant (Target.Array array) row ≡ false) self.now.items }
    {
        let len = self.blocks.len();
        match self.spans.arrays.numbers_of(array.0) {
            Some(range) => places_within(range, len),
            None => Places {
                from: 0,
                until: len,
            },
        }
    }

    /// Between which numbers the members of the array stand. None where its span found no memory, so that they may stand anywhere.
    pub(crate) fn numbers_of_array(&self, array: ArrayId) -> Option<NumberRange>
        ensures { IfSome result (HasNumbersOf (is_member array) self.now.items) }
    {
        self.spans.arrays.numbers_of(array.0)
    }

    /// Between which numbers the jobs of the home stand. None where its span found no memory, so that they may stand anywhere.
    pub(crate) fn numbers_of_home(&self, home: u64) -> Option<NumberRange>
        ensures { IfSome result (HasNumbersOf (λ (row : Row). is_same_home (Some home) row.home) self.now.items) }
    {
        self.spans.homes.numbers_of(home)
    }

    /// A priority that no job's passes.
    pub fn priority_bound(&self) -> i32
        ensures { IsPriorityBound self.now.items result }
    {
        self.greatest
    }

    /// How many members of the array hold slots. None where it isn't known, since memory was wanting or it doesn't fit.
    pub fn in_array(&self, array: ArrayId) -> Option<u32>
        ensures { IfSome result (λ n. n ≡ in_array array self.now.items) }
    {
        self.usage.in_array(array)
    }

    /// The slots held by the ordinary jobs of the queue at this place. None where it isn't known, since memory was wanting or it doesn't fit.
    pub fn in_queue(&self, place: u32) -> Option<u32>
        ensures { IfSome result (λ n. n ≡ in_queue place self.now.items) }
    {
        self.usage.in_queue(place)
    }

    /// The slots held by the jobs that name the reservation. None where it isn't known, since memory was wanting or it doesn't fit.
    pub fn in_reservation(&self, number: ReservationId) -> Option<u32>
        ensures { IfSome result (λ n. n ≡ in_reservation number self.now.items) }
    {
        self.usage.in_reservation(number)
    }

    /// The row of this job, if it is kept.
    pub fn row_of(&self, job: JobId) -> Option<&Row>
        ensures { option_copied result ≡ row_of job self.now.items }
    {
        blocks::row_of(&self.blocks, job)
    }

    /// The room that is promised to all jobs.
    pub fn promised(&self) -> u64
        requires { promised self.now.items < 2 ^ 64 }
        ensures { result ≡ promised self.now.items }
    {
        self.sums.promised as u64
    }

    /// The changes that all jobs may still make with no memory.
    pub fn owed(&self) -> usize
        requires { owed self.now.items < 2 ^ 64 }
        ensures { result ≡ owed self.now.items }
    {
        self.sums.owed as usize
    }

    /// The orders that time may ask for all jobs.
    pub fn owed_kills(&self) -> usize
        requires { owed_kills self.now.items < 2 ^ 64 }
        ensures { result ≡ owed_kills self.now.items }
    {
        self.sums.owed_kills as usize
    }

    /// The reports of starts and ends that the processes of all jobs may still bring.
    pub fn reports_to_come(&self) -> u64
        requires { reports_to_come self.now.items < 2 ^ 64 }
        ensures { result ≡ reports_to_come self.now.items }
    {
        self.sums.reports as u64
    }

    /// The slots that all jobs hold, which are no more than these.
    pub fn held(&self, total: u32) -> u32
        requires { held self.now.items ≤ total }
        ensures { result ≡ held self.now.items }
    {
        u32::try_from(self.sums.held).unwrap_or(total)
    }

    /// The room that the text of their templates leaves of the most that all kept jobs may have. None exactly where it passes that.
    pub fn text_room(&self) -> Option<usize>
        ensures { IsRoomBeside (kept_text self.now.items) result }
    {
        self.room
    }

    /// Takes the memory for the jobs of all numbers from the first to the last one. That of the blocks before them is given back, of those
    /// that have no jobs, since the jobs that come in have these numbers.
    ///
    /// # Errors
    ///
    /// Want of memory.
    pub(crate) fn reach(&mut self, first: u64, last: u64) -> Result<(), AllocError>
        ensures items { self.new.items ≡ self.old.items }
        ensures more { self.old.seats.until ≤ self.new.seats.until }
        ensures from { OnOk result (self.new.seats.from ≤ block_of first) }
        ensures until { OnOk result (block_of last < self.new.seats.until) }
    {
        blocks::reach(&mut self.blocks, first, last)?;
        let passed = self.first_seat;
        self.first_seat = block_of(first);
        self.let_go(Places {
            from: passed,
            until: self.first_seat,
        });
        Ok(())
    }

    /// The memory of these blocks is given back, of those that have no jobs and into which none comes.
    fn let_go(&mut self, places: Places)
        ensures items { self.new.items ≡ self.old.items }
        ensures seats { self.new.seats ≡ self.old.seats }
    {
        let until = places.until.min(self.first_seat);
        blocks::let_go(
            &mut self.blocks,
            Places {
                from: places.from,
                until,
            },
        );
    }

    /// Jobs come in that there is memory for, with greater numbers than the others.
    pub(crate) fn append_rows(&mut self, more: Vec<Row>)
        requires room { AllByRecursion (λ (row : Row). IsInside self.old.seats (block_of row.job.0)) more.items }
        requires rising { IsRising number_of (self.old.items ++ more.items) }
        ensures items { self.new.items ≡ self.old.items ++ more.items }
        ensures seats { self.new.seats ≡ self.old.seats }
    {
        self.sums = with_others(&self.sums, &sums_of(&more[..]));
        self.room = room_with(self.room, &more);
        self.greatest = greatest_with(self.greatest, &more);
        self.spans.put_rows(&more[..]);
        self.usage.add_rows(&more[..]);
        self.settled = first_block(self.settled, &more[..]);
        blocks::append(&mut self.blocks, more);
    }

    /// Gives the row of this job another course, if the job is kept.
    pub(crate) fn put_course(&mut self, job: JobId, course: &Course)
        ensures items { self.new.items ≡ map (with_course job course.now) self.old.items }
        ensures seats { self.new.seats ≡ self.old.seats }
    {
        match blocks::row_of(&self.blocks, job) {
            Some(row) => {
                self.sums = going_on(&self.sums, &row.course, course);
                self.usage.exchange(row, row.course.held, course.held);
                blocks::put_course(&mut self.blocks, job, course);
                self.settled = settled_from(&self.blocks[..], self.settled.min(block_of(job.0)));
            }
            None => {}
        }
    }

    /// The jobs whose time is over end or are asked to end, which are of these blocks. Each job's block has an end, before
    /// which time leaves its jobs as they are then. It goes over those of the blocks behind the settled ones at the front.
    pub(crate) fn sweep_rows(
        &mut self,
        places: Places,
        rs: &Vec<Accepted>,
        changes: &mut Vec<Change>,
        orders: &mut Vec<Order>,
        alarm: &mut Alarm,
        moment: Moment,
        entry: u64,
    )
        requires sorted { AreSorted rs.now.items }
        requires sound { AllByRecursion (λ (row : Row). IsSound row.wants row.course) self.old.items }
        requires covered { AreCovered alarm.old.ends.items self.old.items }
        requires outside { AllByRecursion (λ (row : Row). IsOutside places (block_of row.job.0) → IsSpared moment alarm.old.ends.items rs.now.items row) self.old.items }
        requires changes { vec_len changes.old + length (flat_map (ends entry moment rs.now.items) self.old.items) ≤ vec_capacity changes.old }
        requires orders { vec_len orders.old + length (flat_map (kills_then moment rs.now.items) self.old.items) ≤ vec_capacity orders.old }
        ensures items { self.new.items ≡ map (timed moment rs.now.items) self.old.items }
        ensures seats { self.new.seats ≡ self.old.seats }
        ensures changes { changes.new.items ≡ changes.old.items ++ flat_map (ends entry moment rs.now.items) self.old.items }
        ensures changes_len { vec_len changes.new ≡ vec_len changes.old + length (flat_map (ends entry moment rs.now.items) self.old.items) }
        ensures changes_capacity { vec_capacity changes.new ≡ vec_capacity changes.old }
        ensures orders { orders.new.items ≡ orders.old.items ++ flat_map (kills_then moment rs.now.items) self.old.items }
        ensures orders_len { vec_len orders.new ≡ vec_len orders.old + length (flat_map (kills_then moment rs.now.items) self.old.items) }
        ensures orders_capacity { vec_capacity orders.new ≡ vec_capacity orders.old }
        ensures alarmed { AllByRecursion (IsAlarmed alarm.new.ends.items rs.now.items) self.new.items }
        ensures blocks { length alarm.new.ends.items ≡ length alarm.old.ends.items }
    {
        let len = self.blocks.len();
        let from = places.from.min(len).max(self.settled);
        let until = places.until.min(len).max(from);
        let before = sums_in(&self.blocks[from..until]);
        let after = blocks::sweep_between(
            rs,
            &mut self.blocks,
            Places { from, until },
            changes,
            orders,
            alarm,
            moment,
            entry,
        );
        self.sums = with_others(&without_others(&self.sums, &before), &after);
        self.settled = settled_from(&self.blocks[..], self.settled);
    }

    /// The jobs on which the call acts go on: one, whose row is found by its number, or the members of an array.
    pub(crate) fn control_rows(&mut self, moment: Moment, target: &Target, what: Control)
        requires rising { IsRising number_of self.old.items }
        requires sound { AllByRecursion (λ (row : Row). IsSound row.wants row.course) self.old.items }
        ensures items { self.new.items ≡ map (control_step moment target.now what) self.old.items }
        ensures seats { self.new.seats ≡ self.old.seats }
    {
        match target {
            Target::Job(job) => self.control_job(moment, *job, what),
            Target::Array(array) => self.control_members(moment, *array, what),
        }
    }

    fn control_job(&mut self, moment: Moment, job: JobId, what: Control)
        requires { IsRising number_of self.old.items }
        ensures items { self.new.items ≡ map (control_step moment (Target.Job job) what) self.old.items }
        ensures seats { self.new.seats ≡ self.old.seats }
    {
        match self.row_of(job) {
            Some(row) => {
                let next = controlled_course(row, moment, &Target::Job(job), what);
                self.put_course(job, &next);
            }
            None => {}
        }
    }

    fn control_members(&mut self, moment: Moment, array: ArrayId, what: Control)
        requires { AllByRecursion (λ (row : Row). IsSound row.wants row.course) self.old.items }
        ensures items { self.new.items ≡ map (control_step moment (Target.Array array) what) self.old.items }
        ensures seats { self.new.seats ≡ self.old.seats }
    {
        let places = self.places_of(array);
        let target = Target::Array(array);
        let before = sums_in(&self.blocks[places.from..places.until]);
        blocks::control_between(&mut self.blocks, places, moment, &target, what);
        let after = sums_in(&self.blocks[places.from..places.until]);
        self.sums = with_others(&without_others(&self.sums, &before), &after);
        self.settled = settled_from(&self.blocks[..], self.settled);
    }

    /// Forgets the ended ones of the jobs that are meant: of one, whose row is found by its number, or of the members of an array.
    pub(crate) fn drop_done(&mut self, target: &Target)
        requires rising { IsRising number_of self.old.items }
        requires sound { AllByRecursion (λ (row : Row). IsSound row.wants row.course) self.old.items }
        ensures items { self.new.items ≡ filter (λ (row : Row). not (is_meant target.now row && is_done row)) self.old.items }
        ensures seats { self.new.seats ≡ self.old.seats }
    {
        match target {
            Target::Job(job) => self.drop_done_job(*job),
            Target::Array(array) => self.drop_done_members(*array),
        }
    }

    fn drop_done_job(&mut self, job: JobId)
        requires { IsRising number_of self.old.items }
        ensures items { self.new.items ≡ filter (λ (row : Row). not (is_meant (Target.Job job) row && is_done row)) self.old.items }
        ensures seats { self.new.seats ≡ self.old.seats }
    {
        match self.row_of(job) {
            Some(row) => {
                if is_done(row) {
                    self.drop_row(job);
                }
            }
            None => {}
        }
    }

    /// Forgets the job, if it is kept.
    fn drop_row(&mut self, job: JobId)
        ensures items { self.new.items ≡ filter (λ (row : Row). not (is_of job row)) self.old.items }
        ensures seats { self.new.seats ≡ self.old.seats }
    {
        match blocks::row_of(&self.blocks, job) {
            Some(row) => {
                let known = room_without_job(self.room, row);
                let priority = row.wants.priority;
                self.sums = without_job(&self.sums, &row.course);
                self.usage.exchange(row, row.course.held, 0);
                blocks::remove(&mut self.blocks, job);
                self.room = room_beside(known, &self.blocks[..]);
                self.greatest = greatest_without(self.greatest, priority, &self.blocks[..]);
                self.spans.prune(self.sums.count, &self.blocks[..]);
                let block = block_of(job.0);
                self.let_go(Places {
                    from: block,
                    until: block + 1,
                });
            }
            None => {}
        }
    }

    /// Forgets the ended members of an array. They come to nothing but themselves.
    fn drop_done_members(&mut self, array: ArrayId)
        requires { AllByRecursion (λ (row : Row). IsSound row.wants row.course) self.old.items }
        ensures items { self.new.items ≡ filter (λ (row : Row). not (is_meant (Target.Array array) row && is_done row)) self.old.items }
        ensures seats { self.new.seats ≡ self.old.seats }
    {
        let target = Target::Array(array);
        let places = self.places_of(array);
        let known = room_without_members(
            self.room,
            &self.blocks[places.from..places.until],
            &target,
        );
        blocks::drop_between(&mut self.blocks, places, &target);
        self.sums.count = count_in(&self.blocks[..]);
        self.room = room_beside(known, &self.blocks[..]);
        self.greatest = greatest_under(&self.blocks[..], self.greatest);
        self.spans.prune(self.sums.count, &self.blocks[..]);
        self.let_go(places);
    }

    /// Forgets the ended jobs of a home.
    pub(crate) fn drop_forgotten(&mut self, home: u64)
        requires { AllByRecursion (λ (row : Row). IsSound row.wants row.course) self.old.items }
        ensures items { self.new.items ≡ filter (λ (row : Row). not (is_forgotten home row)) self.old.items }
        ensures seats { self.new.seats ≡ self.old.seats }
    {
        blocks::drop_forgotten(&mut self.blocks[..], home);
        self.sums.count = count_in(&self.blocks[..]);
        self.room = room_beside(None, &self.blocks[..]);
        self.greatest = greatest_under(&self.blocks[..], self.greatest);
        self.spans.prune(self.sums.count, &self.blocks[..]);
        self.let_go(Places {
            from: 0,
            until: self.first_seat,
        });
    }

    /// The jobs of a home are left without one.
    pub(crate) fn leave_rows(&mut self, home: u64)
        ensures items { self.new.items ≡ map (λ (row : Row). record row { home = left_by home row.home }) self.old.items }
        ensures seats { self.new.seats ≡ self.old.seats }
    {
        blocks::leave_rows(&mut self.blocks[..], home);
    }
}

/// The places, among so many blocks, of those of these numbers.
fn places_within(range: NumberRange, len: usize) -> Places
    ensures span { result.from ≤ result.until }
    ensures within { result.until ≤ len }
    ensures outside { (number : ℕ) → block_of number < len → IsOutside result (block_of number) → (number < range.first) ⊎ (range.last < number) }
{
    let until = (block_of(range.last) + 1).min(len);
    Places {
        from: block_of(range.first).min(until),
        until,
    }
}

/// So many blocks at the front are before those of these jobs.
fn first_block(settled: usize, more: &[Row]) -> usize
    ensures less { result ≤ settled }
    ensures before { AllByRecursion (λ (row : Row). result ≤ block_of row.job.0) more.now }
{
    let mut first = settled;
    for row in more {
        first = first.min(block_of(row.job.0));
    }
    first
}
