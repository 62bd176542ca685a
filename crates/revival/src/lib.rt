//! A machine that outlives its process: a journal is replayed, and the jobs end whose processes are gone.
#![tactic(auto)]

mod ends;
mod laws;
mod revives;

pub use laws::stops_are_legal;
pub use revives::{ReviveFault, revive};
