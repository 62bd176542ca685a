//! Waits: a client looks again and again until a listed job has reached a state, or its time is over.
#![tactic(auto)]

mod waits;

pub use waits::wait;
