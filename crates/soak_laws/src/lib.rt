//! What the script of a soak is, and that its play is whole: each law is the contract of a function that does nothing.
#![tactic(auto)]

mod laws;

pub use laws::{each_soak_is_one_script, no_soak_fills_the_journal};
