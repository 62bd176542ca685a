//! What monitoring shows of jobs: their listing.
#![tactic(auto)]

mod columns;
mod listings;
mod monitoring;

pub use listings::listing;
pub use monitoring::MonitoringSession;
