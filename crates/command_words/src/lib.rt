//! The words of the program's command line, and the command that they ask for. `clap` reads them, and the numbers among them are read
//! as everywhere else in this repository.
#![tactic(auto)]

mod asking;
mod commands;
mod grammar;
mod laws;
mod reading;

pub use asking::command_of;
pub use commands::{Command, RecurWords, SoakWords, Unit};
pub use laws::words_name_one_command;
