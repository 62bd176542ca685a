//! The accepted reservations, as a list in order of number.
ghost use Rattle.std.specs.Prelude.{◌≡◌, IfOk, IfErr, None, filter};
ghost use Rattle.std.specs.Option.{option_copied};
ghost use Rattle.drmaa_model.specs.Fit.{reservation_number};
ghost use Rattle.drmaa_model.specs.Load.{reservation_of};
ghost use Rattle.drmaa_model.specs.Time.{is_accepted, lasts};
ghost use Rattle.plan_book.specs.Places.{IsAt, AreSorted};

use drmaa_model::Accepted;
use drmaa_types::{Moment, ReservationId};

/// Where the reservation of this number stands. It is found by halves.
fn place_of(rs: &Vec<Accepted>, number: ReservationId) -> Result<usize, usize>
    requires sorted { AreSorted rs.now.items }
    ensures found { IfOk result (IsAt reservation_number number.0 rs.now.items) }
    ensures absent { IfErr result (λ _. reservation_of number rs.now.items ≡ None) }
{
    rs.binary_search_by_key(&number.0, |r| r.reservation.0)
}

/// The accepted reservation of this number, if there is one.
pub fn reservation_of(rs: &Vec<Accepted>, number: ReservationId) -> Option<&Accepted>
    requires sorted { AreSorted rs.now.items }
    ensures { option_copied result ≡ reservation_of number rs.now.items }
{
    match place_of(rs, number) {
        Ok(place) => Some(&rs[place]),
        Err(_) => None,
    }
}

/// Whether the reservation is accepted.
pub fn is_accepted(rs: &Vec<Accepted>, number: ReservationId) -> bool
    requires sorted { AreSorted rs.now.items }
    ensures { result ≡ is_accepted rs.now.items number }
{
    reservation_of(rs, number).is_some()
}

/// Whether the reservation is accepted and lasts at this moment.
pub fn is_lasting(rs: &Vec<Accepted>, number: ReservationId, moment: Moment) -> bool
    requires sorted { AreSorted rs.now.items }
    ensures { result ≡ is_accepted (filter (lasts moment) rs.now.items) number }
{
    match reservation_of(rs, number) {
        Some(r) => moment.number() < r.until.number(),
        None => false,
    }
}
