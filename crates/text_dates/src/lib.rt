//! The moments of scripts in their two spellings: a number of seconds, or a date and a time of day.
#![tactic(auto)]

mod dates;
mod said;

pub use dates::{DateTime, moment_of};
pub use said::Said;
