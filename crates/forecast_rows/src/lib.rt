//! Forecasts that were worked out by hand, computed.
#![tactic(auto)]

mod rows;

pub use rows::{a_job_starts_where_a_reservation_ends, a_job_starts_where_another_ends};
