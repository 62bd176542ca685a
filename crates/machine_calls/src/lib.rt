//! The calls of the machine, over what it stores: each is one step of the world, and an entry more.
#![tactic(auto)]

mod closings;
mod concludes;
mod copies;
mod launches;
mod operations;
mod places;
mod replies;
mod reports;
mod sessions;
mod settles;
mod signals;
mod submissions;

pub use closings::{close, destroy, register};
pub use launches::take_launch;
pub use operations::{control, end_reservation, reap};
pub use replies::Replies;
pub use reports::report;
pub use sessions::{attach, create, monitor};
pub use settles::{read, wait};
pub use signals::take_signal;
pub use submissions::{request_reservation, submit};
