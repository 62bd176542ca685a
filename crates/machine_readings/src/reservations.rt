//! The accepted reservations.
ghost use Rattle.std.specs.Prelude.{◌≡◌, ◌==◌, filter};
ghost use Rattle.std.specs.List.{list_any};
ghost use Rattle.std.specs.Option.{option_copied};
ghost use Rattle.drmaa_model.specs.declared.reservations.Accepted.{Accepted};
ghost use Rattle.drmaa_model.specs.Homes.{is_same_home};
ghost use Rattle.drmaa_model.specs.Time.{advance_plan};
ghost use Rattle.machine_readings.specs.Nexts.{AfterAccepted};
ghost use Rattle.machine_readings.specs.Stores.{IsStore};

use crate::sessions::is_same_home;
use crate::store::Store;
use drmaa_model::Accepted;
use drmaa_types::{Moment, ReservationId};

impl Store {
    /// The first accepted reservation whose number is this one or above it.
    pub fn next_accepted(&self, at: Moment, from: u64) -> Option<&Accepted>
        requires { IsStore self.now }
        ensures { AfterAccepted (advance_plan 0 at self.now.core.plan).reservations from (option_copied result) }
    {
        match self.core.next_reservation(at, ReservationId(from)) {
            Some(number) => self.core.reservation(at, number),
            None => None,
        }
    }

    /// Whether a reservation is accepted, and belongs to this home.
    pub fn has_reservation_at(&self, at: Moment, home: Option<u64>, number: ReservationId) -> bool
        requires { IsStore self.now }
        ensures { result ≡ list_any (λ (a : Accepted). a.reservation.0 == number.0) (filter (λ (a : Accepted). is_same_home home a.home) (advance_plan 0 at self.now.core.plan).reservations) }
    {
        match self.core.reservation(at, number) {
            Some(accepted) => is_same_home(home, accepted.home),
            None => false,
        }
    }
}
