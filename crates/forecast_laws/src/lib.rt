//! What is true of forecasts of starts: each law is the contract of a function that does nothing.
#![tactic(auto)]

mod laws;

pub use laws::{nothing_happens_between_events, there_is_one_forecast};
