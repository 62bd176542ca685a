//! The command `script` of the program that shows what a journal tells: commands for a shell are read from a source, one a line, and
//! the script for threads that runs each of them as a job is written to a sink.
#![tactic(auto)]

mod running;
mod words;

pub use command_scripts::Machine;
pub use journal_commands::Status;
pub use running::run_batch;
pub use words::machine_of;
