//! What a history tells of its jobs: each run, with the report that ended it; and the jobs as they are now, with counts.
#![tactic(auto)]

mod all_rows;
mod ends;
mod events;
mod job_counts;
mod job_events;
mod job_rows;
mod jobs;
mod pairing;
mod past;
mod printed;
mod reaped_rows;
mod runs;
mod session_names;
mod submissions;
mod tales;
mod told;
mod used_names;

pub use job_counts::print_jobs;
pub use jobs::{Verdict, verdict_of};
pub use pairing::runs_of;
pub use printed::print_log;
pub use runs::{EndReport, Ending, Run, RunEnd, RunEvent, RunList};
pub use submissions::{JobRange, Submission};
pub use told::{Happening, JobEvent, Told};
