//! What a machine keeps, and what is read of it: who may ask, what is told of jobs and reservations, and how far a wait has
//! come. Nothing here changes the machine.
#![tactic(auto)]

mod homes;
mod infos;
mod listings;
mod present;
mod queues;
mod replies;
mod reservations;
mod rows;
mod sessions;
mod store;
mod waits;

pub use listings::copied;
pub use store::Store;
pub use waits::is_timed_out;
