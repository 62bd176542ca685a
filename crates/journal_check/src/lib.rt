//! Whether a journal is the history of a machine: each entry is replayed, and its reply compared with the machine's.
#![tactic(auto)]

mod checks;
mod laws;
mod steps;

pub use checks::{Replayed, Verdict, check, replay_history};
pub use laws::{a_fault_is_not_legal, one_first_fault};
