//! Launcher and reaper: who starts children and reports of them.
#![tactic(auto)]

mod asking;
mod attending;
mod launching;
mod laws;
mod pairs;
mod pauses;
mod reaper;
mod reaping;

pub use attending::{Done, finish, run_attendant};
pub use launching::{Launched, launch_once};
pub use laws::{nothing_is_kept, the_outside_agrees};
pub use pairs::{Attended, Pair, attend_there, settle};
pub use reaper::{Hand, Held, Reaper};
pub use reaping::{Polled, reap_once};
