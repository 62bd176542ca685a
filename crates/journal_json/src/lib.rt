//! The JSON form of a journal.
#![tactic(auto)]

mod entries;
mod journals;
mod machines;
mod texts;

pub use journals::json_journal;
