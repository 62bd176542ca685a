//! Reservations that come and go, each with its booking in the calendar.
ghost use Rattle.std.specs.Prelude.{◌≡◌, ◌≢◌, ◌+◌, ◌^◌, ◌<◌, ◌++◌, ◌∷◌, [], filter, true, Err, OnOk, OnErr, IfErr};
ghost use Rattle.drmaa_model.specs.Fit.{IsFit};
ghost use Rattle.drmaa_model.specs.Requests.{is_other, end_reservation, with_reservation, without_reservation};
ghost use Rattle.reservation_calendar.specs.Schedules.{without};
ghost use Rattle.plan_book.specs.Book.{plan_of, calendar_of, HasPlace, HasRoom, IsBook, spare};
ghost use Rattle.plan_book.specs.Occasions.{plan_at, StepsAt};
ghost use Rattle.plan_book.specs.Places.{AreSorted};
ghost use Rattle.plan_book.specs.Quiet.{IsQuiet};
ghost use Rattle.plan_book.specs.Ties.{IsFree, booked_for};

use crate::alarms::first_end;
use crate::book::Book;
use crate::occasions::Occasion;
use drmaa_model::{Accepted, NoEntry};
use drmaa_types::{End, ReservationId};
use reservation_calendar::{Booking, Calendar, Key};
use std::alloc::AllocError;

impl Book {
    /// Accepts a reservation on an occasion. It has the next number, and its slots fit.
    ///
    /// # Errors
    ///
    /// A journal that would be too large, and else want of memory. Nothing has changed then.
    pub fn accept(&mut self, occasion: Occasion, accepted: Accepted) -> Result<(), NoEntry>
        requires book { IsBook self.old }
        requires number { accepted.reservation.0 ≡ (plan_of self.old).next_reservation }
        requires next { (plan_of self.old).next_reservation + 1 < 2 ^ 64 }
        requires free { IsFree (calendar_of self.old) (booked_for accepted) }
        requires fit { IsFit (with_reservation accepted (plan_at occasion (plan_of self.old))) }
        ensures meets { StepsAt occasion (with_reservation accepted) (plan_of self.old) result (plan_of self.new) }
        ensures book { IsBook self.new }
        ensures spare { spare self.new ≡ spare self.old }
    {
        occasion.admit(self.weight())?;
        self.make_place()?;
        book_accepted(&mut self.calendar, &accepted)?;
        self.advance(occasion.at, occasion.entry);
        self.put_reservation(accepted);
        Ok(())
    }

    /// Takes the memory for one more reservation.
    fn make_place(&mut self) -> Result<(), AllocError>
        requires room { HasRoom self.old }
        ensures plan { plan_of self.new ≡ plan_of self.old }
        ensures calendar { self.new.calendar ≡ self.old.calendar }
        ensures room { HasRoom self.new }
        ensures spare { spare self.new ≡ spare self.old }
        ensures place { OnOk result (HasPlace self.new) }
        ensures quiet { IsQuiet self.old.alarm (plan_of self.old) → IsQuiet self.new.alarm (plan_of self.new) }
    {
        self.reservations.reserve(1)
    }

    fn put_reservation(&mut self, accepted: Accepted)
        requires room { HasRoom self.old }
        requires place { HasPlace self.old }
        requires next { self.old.next_reservation + 1 < 2 ^ 64 }
        requires quiet { IsQuiet self.old.alarm (plan_of self.old) }
        ensures plan { plan_of self.new ≡ with_reservation accepted (plan_of self.old) }
        ensures calendar { self.new.calendar ≡ self.old.calendar }
        ensures room { HasRoom self.new }
        ensures spare { spare self.new ≡ spare self.old }
        ensures quiet { IsQuiet self.new.alarm (plan_of self.new) }
    {
        self.alarm.lower_lasting(End::At(accepted.until));
        self.reservations.push_reserved(accepted);
        self.next_reservation += 1;
    }

    /// Ends a reservation on an occasion. The waiting jobs that name it end with it, and the started ones are asked to end. It takes
    /// no memory.
    ///
    /// # Errors
    ///
    /// A journal that would be too large, and else want of memory for the entry. Nothing has changed then.
    pub fn end_reservation(
        &mut self,
        occasion: Occasion,
        reservation: ReservationId,
    ) -> Result<(), NoEntry>
        requires book { IsBook self.old }
        ensures meets { StepsAt occasion ((end_reservation reservation).effect occasion.entry) (plan_of self.old) result (plan_of self.new) }
        ensures book { IsBook self.new }
        ensures spare { spare self.new ≡ spare self.old }
        ensures memory { occasion.has_memory ≡ true → result ≢ Err NoEntry.OutOfMemory }
    {
        if let Err(fault) = occasion.admit(self.weight()) {
            return Err(fault);
        }
        self.advance(occasion.at, occasion.entry);
        self.drop_reservation(reservation);
        let lasting = first_end(&self.reservations);
        self.sweep(self.all_blocks(), lasting, occasion.entry);
        Ok(())
    }

    fn drop_reservation(&mut self, reservation: ReservationId)
        requires room { HasRoom self.old }
        requires sorted { AreSorted self.old.reservations.items }
        ensures plan { plan_of self.new ≡ without_reservation reservation (plan_of self.old) }
        ensures calendar { self.new.calendar ≡ record self.old.calendar { bookings = without (Key.Reservation reservation) self.old.calendar.bookings } }
        ensures sorted { AreSorted self.new.reservations.items }
        ensures room { HasRoom self.new }
        ensures spare { spare self.new ≡ spare self.old }
        ensures alarm { self.new.alarm ≡ self.old.alarm }
    {
        self.calendar.cancel(Key::Reservation(reservation));
        keep_others(&mut self.reservations, reservation);
    }
}

/// Keeps the reservations of all other numbers.
fn keep_others(rs: &mut Vec<Accepted>, reservation: ReservationId)
    ensures { rs.new.items ≡ filter (is_other reservation) rs.old.items }
{
    rs.retain(|r| r.reservation.0 != reservation.0);
}

/// Books an accepted reservation.
fn book_accepted(calendar: &mut Calendar, accepted: &Accepted) -> Result<(), NoEntry>
    requires { IsFree calendar.old (booked_for accepted.now) }
    ensures booked { OnOk result (calendar.new ≡ record calendar.old { bookings = calendar.old.bookings ++ booked_for accepted.now ∷ [] }) }
    ensures err { OnErr result (calendar.new ≡ calendar.old) }
    ensures memory { IfErr result (λ why. why ≡ NoEntry.OutOfMemory) }
{
    let booking = Booking {
        key: Key::Reservation(accepted.reservation),
        slots: accepted.slots,
        from: accepted.from,
        until: End::At(accepted.until),
    };
    make_booking(calendar, &booking)
}

/// Makes a booking that fits.
pub fn make_booking(calendar: &mut Calendar, booking: &Booking) -> Result<(), NoEntry>
    requires { IsFree calendar.old booking.now }
    ensures booked { OnOk result (calendar.new ≡ record calendar.old { bookings = calendar.old.bookings ++ booking.now ∷ [] }) }
    ensures err { OnErr result (calendar.new ≡ calendar.old) }
    ensures memory { IfErr result (λ why. why ≡ NoEntry.OutOfMemory) }
{
    match calendar.book(booking.key, booking.slots, booking.from, booking.until) {
        Ok(()) => Ok(()),
        Err(_) => Err(NoEntry::OutOfMemory),
    }
}
