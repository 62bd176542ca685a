//! The sequential machine: each call is one step, and one entry of its history.
#![tactic(auto)]

mod applying;
mod chronicles;
mod looks;
mod machines;
mod performs;
mod recorded_calls;
mod waits;

pub use chronicles::Ask;
pub use drmaa_model::{Answer, Call, Config, Entry, NoEntry, Question, Reply, Started};
pub use machines::{Machine, a_history_is_legal};
pub use waits::Awaited;
