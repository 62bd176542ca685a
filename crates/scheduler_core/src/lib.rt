//! The core of the scheduler: jobs, reservations, orders, changes and time. It answers for all of them, without sessions.
#![tactic(auto)]

mod batches;
mod block_sums;
mod bulks;
mod controls;
mod cores;
mod demands;
mod events;
mod facts;
mod launches;
mod named;
mod queues;
mod ready;
mod reaps;
mod refusals;
mod reports;
mod requests;
mod reservations;
mod rows;
mod running;
mod signals;
mod starts;
mod submits;
mod sums;
mod targets;
mod times;

pub use cores::Core;
pub use drmaa_model::{
    Accepted, Indices, Kill, Launch, Phase, Report, Signal, Started, Submitted, Target,
};
pub use facts::RowFacts;
pub use launches::NextLaunch;
pub use signals::NextSignal;
