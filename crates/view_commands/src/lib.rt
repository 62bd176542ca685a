//! The commands of the program that shows what a journal tells: a journal of either version is read from a source, and what is told
//! of its jobs, of their runs, or of why jobs wait, or a chart, is written to a sink.
#![tactic(auto)]

mod judging;
mod outcomes;
mod running;
mod views;

pub use journal_commands::Status;
pub use outcomes::Outcome;
pub use run_views::Verdict;
pub use running::run;
pub use views::{VIEWS, View, spell_view, view_of};
