//! One machine for many threads, with one history: each call is one entry, after all that its client had seen.
#![tactic(auto)]

mod asks;
mod asks_with;
mod bells;
mod calls;
mod desks;
mod machines;
mod particulars;
mod shortages;
mod told;
mod tries;
mod waits;

pub use bells::{Bell, News, Pace, Strokes};
pub use desks::Desk;
pub use drmaa_machine::{Answer, Awaited, Call, Config, Entry, Machine, NoEntry, Question, Reply};
pub use machines::{Client, MachineOpener, Note, SharedMachine};
pub use told::{JobNumbers, ReservationNumbers, SubmittedArray, Told};
pub use tries::TryFault;
pub use turn_lock::Busy;
pub use waits::WaitLook;
