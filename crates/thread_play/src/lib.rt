//! Plays a script for threads: its setup block, then its clients' blocks in threads beside launcher and reaper.
#![tactic(auto)]

mod crews;
mod ends;
mod firsts;
mod laws;
mod runs;
mod workers;

pub use laws::a_run_is_printable;
pub use runs::{ClockList, Run, play_threads};
