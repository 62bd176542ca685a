//! The data of the scheduler's machine and, in `specs/`, the definitions that every contract cites.
#![tactic(auto)]

mod answers;
mod calls;
mod configs;
mod courses;
mod entries;
mod faults;
mod histories;
mod laws;
mod looks;
mod replies;
mod reservations;
mod rows;
mod runs;
mod same;

pub use answers::{
    a_launch_is_the_next, a_refusal_changes_nothing_but_time, a_refusal_is_the_first_that_holds,
    a_reply_is_of_its_call, a_signal_is_the_first_order, a_wait_answers_what_is_reached,
};
pub use calls::{Call, Indices, Report, Target};
pub use configs::Config;
pub use courses::{Course, Kill, Order, Phase};
pub use entries::{Entry, EntryList};
pub use faults::NoEntry;
pub use histories::{a_step_goes_on, each_prefix_is_legal};
pub use laws::{
    a_launch_or_a_report_moves_one_job, a_legal_history_keeps_within_the_journal,
    a_legal_history_leads_to_a_consistent_world, a_report_finds_room, a_step_keeps_the_world,
    every_operation_keeps_a_plan_fit, time_leaves_the_size, time_rests_in_a_legal_world,
};
pub use looks::{Answer, Question};
pub use replies::{Launch, Reply, Signal, Submitted};
pub use reservations::Accepted;
pub use rows::{Row, Started, Wants};
pub use runs::{
    a_launch_is_new, a_report_is_of_the_last_launch, a_settled_plan_is_quiet,
    an_interval_fits_where_its_starts_do, reservations_are_honoured,
    the_next_launch_is_the_first_ready,
};
