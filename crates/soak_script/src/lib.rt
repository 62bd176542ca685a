//! The script of a soak: so many steps, runs and reservations, that numbers drawn from a seed decide.
#![tactic(auto)]

mod draws;
mod lines;
mod scripts;

pub use scripts::soak_script;
