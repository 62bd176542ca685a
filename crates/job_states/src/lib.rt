//! The rules of the job state model: where a job may go, and where a control call, an exit or a
//! failed start leads it. All of them are functions of values, and none takes memory.
#![tactic(auto)]

mod laws;
mod rules;

pub use laws::{
    controls_go_along_edges, edges_keep_what_has_come, exits_go_along_edges,
    failed_starts_go_along_edges, nothing_leads_to_undetermined, nothing_leaves_an_ended_job,
    terminating_a_started_job_leaves_its_state,
};
pub use rules::{after_control, after_exit, after_start_failure, has_started, has_terminated, may};
