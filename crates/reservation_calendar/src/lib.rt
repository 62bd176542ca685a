//! The calendar: bookings of slots over moments, and what fits beside them.
#![tactic(auto)]

mod bookings;
mod boundaries;
mod calendar;
mod heights;
mod keyed;
mod laws;
mod timeline;

pub use bookings::{Booking, Key};
pub use calendar::Calendar;
pub use laws::{
    least_fitting_start_is_the_first_or_an_end, least_overfull_is_the_first_or_a_start,
    load_falls_by_what_is_cancelled, load_falls_only_at_ends, load_rises_only_at_starts,
};
