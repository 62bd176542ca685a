//! A soak: a script of many steps is made, read and played, and what came of it is counted.
#![tactic(auto)]

mod printed;
mod soaks;
mod summaries;

pub use printed::print_summary;
pub use soaks::soak;
pub use summaries::{Summary, summary_of};
