//! What a client of a shared machine calls: typed sessions, jobs, arrays and reservations. Each call is one entry of the
//! machine's history, and a wait for all of several jobs is one for each; names and templates are told without one.
#![tactic(auto)]

mod all_waits;
mod arrays;
mod job_sessions;
mod jobs;
mod lists;
mod machines;
mod managers;
mod particulars;
mod reservation_sessions;
mod reservations;
mod templates;
mod tries;
mod versions;
mod waits;

pub use arrays::JobArray;
pub use call_history::Bell;
pub use job_sessions::JobSession;
pub use jobs::Job;
pub use machines::{open_desk, plain_clock, plain_machine};
pub use managers::SessionManager;
pub use monitor_session::MonitoringSession;
pub use reservation_sessions::ReservationSession;
pub use reservations::Reservation;
pub use templates::{plain_command, plain_job};
pub use versions::Version;
