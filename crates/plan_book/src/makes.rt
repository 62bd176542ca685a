//! How one job goes on: its move is made on an occasion, where the journal and the memory have room for it, or nothing changes.
ghost use Rattle.std.specs.Prelude.{false, ◌≡◌, ◌≢◌, ◌+◌, ◌≤◌, IsOk, true, IfErr, OnOk, OnErr, Ok, Err};
ghost use Rattle.drmaa_model.specs.Fit.{IsFit};
ghost use Rattle.drmaa_model.specs.Size.{room_of, weight};
ghost use Rattle.drmaa_model.specs.Time.{advance_plan};
ghost use Rattle.plan_book.specs.Book.{plan_of, calendar_of, HasRoom, spare, spare_orders, IsMove, IsBook, grows, more_orders, changed, moved};
ghost use Rattle.plan_book.specs.Occasions.{plan_at, RefusesAt, StepsAt};
ghost use Rattle.plan_book.specs.Places.{AreSorted};
ghost use Rattle.plan_book.specs.Quiet.{IsQuiet};
ghost use Rattle.plan_book.specs.Ties.{MayMake, IsBeside, KeepsTie, booked_first, cancelled_last, is_booking};

use crate::alarms::soonest_with;
use crate::book::Book;
use crate::bookings::make_booking;
use crate::changes::push_change;
use crate::moves::{Booked, Move};
use crate::occasions::Occasion;
use crate::orders::edit_orders;
use crate::rooms::room_of;
use drmaa_model::NoEntry;
use drmaa_types::{Change, JobId, Moment, Refusal};
use reservation_calendar::{Calendar, Key};
use std::alloc::AllocError;

impl Book {
    /// The weight after a move of a job to which its room is promised.
    fn weight_after(&self, m: &Move) -> u64
        requires light { weight (plan_of self.now) ≤ 4_000_000 }
        requires promised { room_of m.now.before ≤ weight (plan_of self.now) }
        ensures { result + room_of m.now.before ≡ weight (plan_of self.now) + room_of m.now.after + changed m.now }
    {
        self.weight() + room_of(&m.after) + m.changed() as u64 - room_of(&m.before)
    }

    /// Takes the memory that a move wants.
    fn make_room(&mut self, m: &Move) -> Result<(), AllocError>
        requires room { HasRoom self.old }
        ensures calendar { self.new.calendar ≡ self.old.calendar }
        ensures plan { plan_of self.new ≡ plan_of self.old }
        ensures room { HasRoom self.new }
        ensures changes { OnOk result (grows m.now ≤ spare self.new) }
        ensures orders { OnOk result (more_orders m.now ≤ spare_orders self.new) }
        ensures more { spare self.old ≤ spare self.new }
        ensures enough { grows m.now ≤ spare self.old → more_orders m.now ≤ spare_orders self.old → IsOk result }
        ensures quiet { IsQuiet self.old.alarm (plan_of self.old) → IsQuiet self.new.alarm (plan_of self.new) }
    {
        self.changes.reserve(self.rows.owed() + m.grows())?;
        self.orders
            .reserve(self.rows.owed_kills() + m.more_orders())
    }

    /// Refuses on an occasion: nothing happens but what time does.
    ///
    /// # Errors
    ///
    /// A journal that would be too large, and else want of memory for the entry. Nothing has changed then.
    pub fn refuse<T>(
        &mut self,
        occasion: Occasion,
        why: Refusal,
    ) -> Result<Result<T, Refusal>, NoEntry>
        requires book { IsBook self.old }
        ensures meets { RefusesAt occasion why (plan_of self.old) result (plan_of self.new) }
        ensures book { IsBook self.new }
        ensures spare { spare self.new ≡ spare self.old }
        ensures memory { occasion.has_memory ≡ true → result ≢ Err NoEntry.OutOfMemory }
    {
        if let Err(fault) = occasion.admit(self.weight()) {
            return Err(fault);
        }
        self.advance(occasion.at, occasion.entry);
        Ok(Err(why))
    }

    /// Time goes on to a moment and nothing else happens. It has no limit, since the journal's size stays the same, and takes
    /// no memory.
    pub fn pass_time(&mut self, at: Moment, entry: u64)
        requires book { IsBook self.old }
        ensures plan { plan_of self.new ≡ advance_plan entry at (plan_of self.old) }
        ensures size { weight (plan_of self.new) ≡ weight (plan_of self.old) }
        ensures book { IsBook self.new }
        ensures spare { spare self.new ≡ spare self.old }
    {
        self.advance(at, entry); // by the rules of time alone
    }

    /// Makes a move on an occasion.
    ///
    /// # Errors
    ///
    /// A journal that would be too large, and else want of memory, for the entry or for the move. Nothing has changed then.
    pub fn make(&mut self, occasion: Occasion, m: &Move) -> Result<(), NoEntry>
        requires book { IsBook self.old }
        requires move_is { IsMove (plan_at occasion (plan_of self.old)) m.now }
        requires may { MayMake (calendar_of self.old) m.now.booked }
        requires beside { IsBeside (plan_of self.old).reservations m.now.booked }
        requires fit { IsFit (moved occasion.entry m.now (plan_at occasion (plan_of self.old))) }
        requires tie { KeepsTie m.now.booked m.now.job (plan_at occasion (plan_of self.old)) (moved occasion.entry m.now (plan_at occasion (plan_of self.old))) }
        ensures meets { StepsAt occasion (moved occasion.entry m.now) (plan_of self.old) result (plan_of self.new) }
        ensures book { IsBook self.new }
        ensures spare { spare self.old ≤ spare self.new + grows m.now }
        ensures err { OnErr result (spare self.old ≤ spare self.new) }
        ensures memory { occasion.has_memory ≡ true → grows m.now ≤ spare self.old → more_orders m.now ≡ 0 → is_booking m.now.booked ≡ false
            → result ≢ Err NoEntry.OutOfMemory }
    {
        occasion.admit(self.weight_after(m))?;
        self.make_room(m)?;
        book_first(&mut self.calendar, &m.booked)?;
        self.advance(occasion.at, occasion.entry);
        self.move_now(occasion.entry, m);
        cancel_last(&mut self.calendar, m.job, &m.booked);
        Ok(())
    }

    /// Makes a move that there is room for.
    fn move_now(&mut self, entry: u64, m: &Move)
        requires room { HasRoom self.old }
        requires fit { IsFit (plan_of self.old) }
        requires move_is { IsMove (plan_of self.old) m.now }
        requires changes { grows m.now ≤ spare self.old }
        requires orders { more_orders m.now ≤ spare_orders self.old }
        requires quiet { IsQuiet self.old.alarm (plan_of self.old) }
        requires sorted { AreSorted self.old.reservations.items }
        ensures plan { plan_of self.new ≡ moved entry m.now (plan_of self.old) }
        ensures calendar { self.new.calendar ≡ self.old.calendar }
        ensures room { HasRoom self.new }
        ensures spare { spare self.old ≤ spare self.new + grows m.now }
        ensures quiet { IsQuiet self.new.alarm (plan_of self.new) }
    {
        let soonest = soonest_with(&self.reservations, &self.rows, m.job, &m.after);
        self.alarm.lower(m.job, soonest);
        let change = Change {
            entry,
            job: m.job,
            home: m.home,
            from: m.before.state,
            to: m.after.state,
        };
        push_change(&mut self.changes, change);
        edit_orders(&mut self.orders, m.job, m.orders);
        self.rows.put_course(m.job, &m.after);
    }
}

/// Makes the booking of a move, where it has one.
fn book_first(calendar: &mut Calendar, booked: &Booked) -> Result<(), NoEntry>
    requires { MayMake calendar.old booked.now }
    ensures booked { OnOk result (calendar.new ≡ booked_first booked.now calendar.old) }
    ensures err { OnErr result (calendar.new ≡ calendar.old) }
    ensures memory { IfErr result (λ why. why ≡ NoEntry.OutOfMemory) }
    ensures no_booking { is_booking booked.now ≡ false → result ≡ Ok tt }
{
    match booked {
        Booked::Books(booking) => make_booking(calendar, booking),
        Booked::Same | Booked::Cancels => Ok(()),
    }
}

/// Cancels the booking of a job, where a move does so. It takes no memory.
fn cancel_last(calendar: &mut Calendar, job: JobId, booked: &Booked)
    ensures { calendar.new ≡ cancelled_last booked.now job calendar.old }
{
    match booked {
        Booked::Cancels => {
            calendar.cancel(Key::Job(job));
        }
        Booked::Same | Booked::Books(_) => {}
    }
}
