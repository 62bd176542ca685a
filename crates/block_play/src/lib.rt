//! Plays a block of a script by one client of a shared machine.
#![tactic(auto)]

mod blocks;
mod calls;
mod lines;
mod registering;
mod stops;
mod waits;

pub use blocks::{play_block, play_setup};
pub use script_play::Names;
pub use stops::Stopped;
