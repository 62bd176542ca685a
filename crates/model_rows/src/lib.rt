//! Histories that are worked out by hand, computed: each call is answered as it must be.
#![tactic(auto)]

mod arrays;
mod controls;
mod events;
mod jobs;
mod monitoring;
mod queues;
mod reservations;

pub use arrays::{
    a_job_that_never_ran_has_started, a_wait_answers_or_times_out,
    an_array_is_controlled_as_a_whole, an_array_runs_within_its_bound,
};
pub use controls::{a_job_is_killed, a_job_is_queued_again, a_job_is_suspended};
pub use events::time_has_a_next_event;
pub use jobs::{
    a_job_gets_the_most_slots, a_lesser_job_is_launched_first, a_priority_comes_before_a_number,
    one_job_is_run, sessions_come_and_go, time_ends_jobs,
};
pub use monitoring::a_job_outlives_its_session;
pub use queues::{
    a_job_names_a_queue_that_is_there, a_queue_bounds_its_jobs,
    no_queue_bounds_the_jobs_of_a_reservation,
};
pub use reservations::{
    a_frame_is_filled_from_its_start, a_job_waits_in_its_reservation,
    a_launch_keeps_out_of_reservations, a_reservation_is_told_and_ended,
};
