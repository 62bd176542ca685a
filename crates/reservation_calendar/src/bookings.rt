//! A booking: slots from a moment until an end, under the key of a job or of a reservation.
ghost use Rattle.std.specs.Prelude.{◌≡◌};
ghost use Rattle.reservation_calendar.specs.Loads.{is_before};

use drmaa_types::{End, JobId, Moment, ReservationId};

/// What a booking is for.
#[derive(Clone, Copy, Debug, PartialEq, Eq, PartialOrd, Ord)]
pub enum Key {
    Job(JobId),
    Reservation(ReservationId),
}

/// Slots that are taken from a moment, which is part of the interval, until an end, which is not.
#[derive(Clone, Copy, Debug, PartialEq, Eq)]
pub struct Booking {
    pub key: Key,
    pub slots: u32,
    pub from: Moment,
    pub until: End,
}

impl Booking {
    ghost use Rattle.std.specs.Prelude.{◌≡◌};
    ghost use Rattle.reservation_calendar.specs.Loads.{covers};

    /// Whether the booking covers the moment.
    pub fn covers(&self, x: Moment) -> bool
        ensures { result ≡ covers x self.now }
    {
        self.from <= x && is_before(x, &self.until)
    }
}

/// Whether the moment is before the end: it is before `Never`.
pub fn is_before(x: Moment, until: &End) -> bool
    ensures { result ≡ is_before x until.now }
{
    match until {
        End::At(end) => x < *end,
        End::Never => true,
    }
}
