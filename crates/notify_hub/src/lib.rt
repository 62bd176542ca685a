//! The hub: a caller's callbacks follow the history of a shared machine.
#![tactic(auto)]

mod following;
mod hub;

pub use hub::Hub;
