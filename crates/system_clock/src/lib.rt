//! The clock of this machine, as the callers of a scheduler read it.
#![tactic(auto)]

mod clocks;

pub use clocks::{SystemClock, SystemClocks};
