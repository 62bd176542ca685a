//! What a job and a reservation are asked for with: their templates, what is wrong with one, and the words
//! that start a job.
#![tactic(auto)]

mod additions;
mod attributes;
mod builders;
mod copies;
mod expansion;
mod frames;
mod jobs;
mod launch;
mod queues;
mod reservation_builders;
mod same;
mod templates;
mod texts;
mod variables;
mod wants;

pub use expansion::expand;
pub use frames::validate_reservation;
pub use jobs::validate_job;
pub use launch::launch_words;
pub use queues::{queue_limit, queue_of};
pub use templates::{Frame, JobTemplate, ReservationTemplate};
pub use texts::{text_length, without_template};
