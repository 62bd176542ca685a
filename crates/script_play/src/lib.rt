//! Plays a script on one thread, on the sequential machine.
#![tactic(auto)]

mod blocks;
mod crews;
mod hearing;
mod laws;
mod lines;
mod names;
mod players;
mod serial;

pub use laws::{each_beginning_is_heard, each_script_can_be_played};
pub use names::Names;
pub use players::beginning;
pub use serial::{Played, copy_of, new_machine, play, play_on};
