//! The commands that play a script on one thread: on a new machine, where the script alone is read, or on one that goes on from a
//! journal that stands before the script.
#![tactic(auto)]

mod continues;
mod ended;
mod inputs;
mod plays;
mod registers;

pub use continues::run_continue;
pub use ended::Ended;
pub use inputs::read_script;
pub use plays::{Output, run_play};
pub use registers::are_enough;
