//! Why a job that waits is not launched: a reason for each condition of readiness that fails.
#![tactic(auto)]

mod conditions;
mod finding;
mod laws;
mod printed;
mod reasons;
mod sums;
mod views;

pub use finding::reasons_of;
pub use laws::{a_reason_stands_exactly_where_it_is_so, no_reason_where_ready};
pub use printed::push_reasons;
pub use reasons::{Reason, ReasonList};
pub use views::print_why;
