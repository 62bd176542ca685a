//! The command `lint` of the program that shows what a journal tells: a script of either kind is read from a source, and what may be
//! amiss with it is written to a sink; of one that is in no grammar the first bad line is told, with what is wrong with it.
#![tactic(auto)]

mod judging;
mod outcomes;
mod running;
mod words;

pub use journal_commands::Status;
pub use outcomes::Outcome;
pub use running::run_lint;
pub use words::asks_for_lint;
