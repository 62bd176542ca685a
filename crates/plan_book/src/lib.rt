//! The plan as it is kept: jobs, reservations, orders and changes, with the room that is promised, and the ways in which all
//! operations change it.
#![tactic(auto)]

mod advances;
mod alarm_blocks;
mod alarms;
mod arrivals;
mod block_walks;
mod blocks;
mod book;
mod bookings;
mod changes;
mod controls;
pub mod courses;
mod homes;
mod lapses;
mod makes;
mod meant;
mod moves;
mod occasions;
mod open_jobs;
mod orders;
mod reservations;
mod rooms;
mod rows;
mod spans;
pub mod states;
mod summed_rows;
mod sums;
mod sweeps;
pub mod targets;
mod texts;
mod time;
mod usage;

pub use alarm_blocks::Alarm;
pub use book::Book;
pub use meant::MeantRows;
pub use moves::{Booked, Edit, Move};
pub use occasions::Occasion;
pub use rows::Facts;
pub use spans::NumberRange;
pub use summed_rows::Rows;
