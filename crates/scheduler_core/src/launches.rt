//! The next launch.
ghost use Rattle.std.specs.Prelude.{true, ◌≡◌, ◌+◌, ◌^◌, ◌<◌, ◌≤◌, IfOk, OnErr, None, Ok};
ghost use Rattle.std.specs.Option.{option_map};
ghost use Rattle.job_template.specs.Launch.{launch_words};
ghost use Rattle.drmaa_model.specs.Launching.{launch};
ghost use Rattle.drmaa_model.specs.NextLaunch.{held, is_ready, slots_for, next_launch};
ghost use Rattle.drmaa_model.specs.Time.{advance_plan};
ghost use Rattle.plan_book.specs.Book.{plan_of, IsBook};
ghost use Rattle.plan_book.specs.Occasions.{plan_at, StepsAt};
ghost use Rattle.scheduler_core.specs.Launches.{IsLaunchOf, IsNext, IsNextIn, handed_out, launch_booking, seen, seen_row};

use crate::cores::Core;
use crate::ready::{first_ready_at, slots_at};
use crate::times::course_then;
use drmaa_model::{Launch, NoEntry, Row};
use drmaa_types::{End, Moment, Shared, TextList};
use job_template::launch_words;
use plan_book::courses::{launched, planned_end};
use plan_book::{Book, Booked, Edit, Move, Occasion};
use reservation_calendar::{Booking, Key};
use std::alloc::{AllocError, Global};

/// The job that is next in order: what its launch does, and what is handed out.
#[derive(Drop)]
pub struct NextLaunch {
    pub m: Move,
    pub launch: Launch,
}

impl Core {
    /// The job that would be launched at this moment, if there is one. Where there is none it takes no memory.
    ///
    /// # Errors
    ///
    /// Want of memory for the words of the launch.
    pub fn next_launch(&self, at: Moment) -> Result<Option<NextLaunch>, AllocError>
        ensures next { IfOk result (IsNextIn (advance_plan 0 at self.now.plan)) }
        ensures told { IfOk result (λ o. option_map handed_out o ≡ launch.told (advance_plan 0 at self.now.plan)) }
        ensures nothing { next_launch (advance_plan 0 at self.now.plan) ≡ None → result ≡ Ok None }
    {
        next_launch(&self.book, self.alloc, at)
    }

    /// Hands out the job that is next in order.
    ///
    /// # Errors
    ///
    /// A journal that would be too large, and else want of memory, for the entry or for what the launch changes. Nothing has changed
    /// then.
    pub fn take_launch(&mut self, occasion: Occasion, next: &NextLaunch) -> Result<(), NoEntry>
        requires next { IsNext (plan_at occasion self.old.plan) next.now }
        ensures meets { StepsAt occasion (launch.effect occasion.entry) self.old.plan result self.new.plan }
        ensures spare { self.old.spare ≤ self.new.spare + 2 }
        ensures err { OnErr result (self.old.spare ≤ self.new.spare) }
    {
        self.book.make(occasion, &next.m)
    }
}

/// The job that would be launched at this moment.
fn next_launch(book: &Book, alloc: Global, at: Moment) -> Result<Option<NextLaunch>, AllocError>
    requires book { IsBook book.now }
    ensures next { IfOk result (IsNextIn (advance_plan 0 at (plan_of book.now))) }
    ensures some { next_launch (advance_plan 0 at (plan_of book.now)) ≡ None → result ≡ Ok None }
{
    let moment = book.moment_at(at);
    let used = book.held();
    match first_ready_at(book, moment, used) {
        None => Ok(None),
        Some(row) => Ok(Some(next_of(book, alloc, row, moment, used)?)),
    }
}

fn next_of(
    book: &Book,
    alloc: Global,
    row: &Row,
    moment: Moment,
    used: u32,
) -> Result<NextLaunch, AllocError>
    requires book { IsBook book.now }
    requires later { (plan_of book.now).moment ≤ moment }
    requires used { used ≡ held (plan_of book.now).rows }
    requires ready { is_ready (seen moment (plan_of book.now)) row.now.wants.min (seen_row moment (plan_of book.now) row.now) ≡ true }
    requires range { row.now.wants.min ≤ row.now.wants.max }
    requires least { 1 ≤ row.now.wants.min }
    requires attempt { (seen_row moment (plan_of book.now) row.now).course.attempt + 1 < 2 ^ 32 }
    ensures { IfOk result (IsLaunchOf (record row.now { course = (seen_row moment (plan_of book.now) row.now).course }) moment (slots_for (seen moment (plan_of book.now)) (seen_row moment (plan_of book.now) row.now))) }
{
    let before = course_then(book, row, moment);
    let slots = slots_at(book, row, moment, used);
    let planned = planned_end(&row.wants, moment);
    let after = launched(&before, moment, slots, planned);
    let m = Move {
        job: row.job,
        home: row.home,
        before,
        after,
        orders: Edit::Keep,
        booked: booking_of(row, moment, slots, planned),
    };
    let launch = Launch {
        job: row.job,
        attempt: before.attempt + 1,
        slots,
        words: words_of(alloc, row)?,
    };
    Ok(NextLaunch { m, launch })
}

/// The booking of a launch: an ordinary job takes slots of the calendar.
fn booking_of(row: &Row, moment: Moment, slots: u32, planned: End) -> Booked
    ensures { result ≡ launch_booking row.now moment slots planned }
{
    match row.wants.reservation {
        Some(_) => Booked::Same,
        None => Booked::Books(Booking {
            key: Key::Job(row.job),
            slots,
            from: moment,
            until: planned,
        }),
    }
}

fn words_of(alloc: Global, row: &Row) -> Result<Shared<TextList>, AllocError>
    ensures { IfOk result (λ words. words ≡ launch_words row.now.template) }
{
    match launch_words(alloc, row.template.get()) {
        Ok(words) => Shared::new(alloc, words),
        Err(_) => Err(AllocError),
    }
}
