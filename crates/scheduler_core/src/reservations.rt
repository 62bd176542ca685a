//! The accepted reservations, and how one is ended. None of it takes memory.
ghost use Rattle.std.specs.Prelude.{◌≡◌, ◌≢◌, true, Err, filter};
ghost use Rattle.std.specs.Option.{option_copied};
ghost use Rattle.drmaa_model.specs.Load.{reservation_of};
ghost use Rattle.drmaa_model.specs.Requests.{end_reservation};
ghost use Rattle.drmaa_model.specs.Time.{advance_plan, lasts, is_accepted};
ghost use Rattle.plan_book.specs.Occasions.{MeetsAt};
ghost use Rattle.scheduler_core.specs.Reservations.{reservation_from};

use crate::cores::Core;
use drmaa_model::{Accepted, NoEntry};
use drmaa_types::{Moment, Refusal, ReservationId, Which};
use plan_book::Occasion;

impl Core {
    /// The accepted reservation of this number, once time has come to this moment.
    pub fn reservation(&self, at: Moment, reservation: ReservationId) -> Option<&Accepted>
        ensures { option_copied result ≡ reservation_of reservation (advance_plan 0 at self.now.plan).reservations }
    {
        lasting_of(
            self.book.reservations(),
            reservation,
            self.book.moment_at(at),
        )
    }

    /// The number of the first reservation in the list of accepted ones, which stand in order of number, that is this one or above
    /// it, once time has come to this moment.
    pub fn next_reservation(&self, at: Moment, from: ReservationId) -> Option<ReservationId>
        ensures { result ≡ reservation_from from.0 (advance_plan 0 at self.now.plan).reservations }
    {
        lasting_from(self.book.reservations(), from.0, self.book.moment_at(at))
    }

    /// Ends a reservation: the waiting jobs that name it end with it, and the started ones are asked to end. It takes no memory.
    ///
    /// # Errors
    ///
    /// No entry: a journal that would be too large, and else want of memory for the entry.
    ///
    /// A refusal: `InvalidArgument(Reservation)` where it is not accepted.
    pub fn end_reservation(
        &mut self,
        occasion: Occasion,
        reservation: ReservationId,
    ) -> Result<Result<(), Refusal>, NoEntry>
        ensures meets { MeetsAt occasion (end_reservation reservation) self.old.plan result self.new.plan }
        ensures spare { self.new.spare ≡ self.old.spare }
        ensures memory { occasion.has_memory ≡ true → result ≢ Err NoEntry.OutOfMemory }
    {
        let moment = self.book.moment_at(occasion.at);
        if !is_lasting(self.book.reservations(), reservation, moment) {
            return self
                .book
                .refuse(occasion, Refusal::InvalidArgument(Which::Reservation));
        }
        self.book.end_reservation(occasion, reservation)?;
        Ok(Ok(()))
    }
}

/// Whether a reservation is accepted and lasts at this moment.
fn is_lasting(rs: &Vec<Accepted>, number: ReservationId, moment: Moment) -> bool
    ensures { result ≡ is_accepted (filter (lasts moment) rs.now.items) number }
{
    lasting_of(rs, number, moment).is_some()
}

/// The reservation of this number, where it lasts at this moment.
pub fn lasting_of(rs: &Vec<Accepted>, number: ReservationId, moment: Moment) -> Option<&Accepted>
    ensures { option_copied result ≡ reservation_of number (filter (lasts moment) rs.now.items) }
{
    for r in rs {
        if moment.number() < r.until.number() && r.reservation.0 == number.0 {
            return Some(r);
        }
    }
    None
}

/// The first reservation that lasts at this moment and whose number is this one or above it.
fn lasting_from(rs: &Vec<Accepted>, number: u64, moment: Moment) -> Option<ReservationId>
    ensures { result ≡ reservation_from number (filter (lasts moment) rs.now.items) }
{
    for r in rs {
        if moment.number() < r.until.number() && number <= r.reservation.0 {
            return Some(r.reservation);
        }
    }
    None
}
