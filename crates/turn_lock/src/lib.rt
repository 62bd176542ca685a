//! A lock by tickets over a value that keeps a history: who holds the turn knows that the value's
//! history begins with all that it had seen, and that its own entries are all in it, each once.
#![tactic(auto)]

mod bench;
mod laws;
mod locks;
mod openers;
mod order;
mod passes;
mod plays;
mod turns;
mod views;

pub use drmaa_types::{CallerId, Chronicle, ChronicleEntry};
pub use laws::no_two_turns;
pub use locks::TurnLock;
pub use openers::Opener;
pub use passes::{NotePass, Pass};
pub use turns::{Busy, Turn};
pub use views::{Kind, Stage, View};
