//! A face in the manner of DRMAA version 1 (GFD.22): one session at a time, and calls without objects. Each call is a list of
//! the machine's own calls, which goes on up to the first refusal.
#![tactic(auto)]

mod asking;
mod face;
mod faults;
mod jobs;
mod sessions;
mod synchronizing;
mod waiting;

pub use face::Face;
pub use faults::FaceFault;
pub use jobs::BulkJobs;
pub use synchronizing::Pick;
