//! What the lines of scripts ask, and what a play of them means.
#![tactic(auto)]

mod asking;
mod attempts;
mod given;
mod in_session;
mod numbers;
mod reports;
mod templates;

pub use asking::ask;
pub use attempts::Attempts;
pub use given::{Given, learn_reply};
pub use numbers::{number_of, numbers_of};
