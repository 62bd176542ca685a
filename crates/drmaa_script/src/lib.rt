//! The commands of the program `drmaa`: scripts of clients are played, and the journal of what they were answered or the listing
//! of their jobs is written; and journals are checked, or written as version 2 or in their JSON form.
#![tactic(auto)]

mod commands;
mod outcomes;
mod printed;
mod soaks;
mod threads;

pub use command_words::{Command, RecurWords, SoakWords, Unit};
pub use commands::run;
pub use journal_commands::{Status, migrating_keeps_the_journal};
pub use outcomes::Outcome;
pub use printed::{PrintedCallback, printed_callbacks};
pub use system_clock::{SystemClock, SystemClocks};
