//! The sessions of a scheduler: named sessions in order of their creation, and the session numbers
//! that stand for them.
#![tactic(auto)]

mod kinds;
mod names;
mod numbers;
mod table;

pub use table::SessionTable;
