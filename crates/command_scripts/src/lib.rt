//! Scripts that run commands: each command is a job of its own.
#![tactic(auto)]

mod batches;
mod laws;
mod printing;
mod reading;
mod sizes;
mod writing;

pub use batches::{Batch, Machine};
pub use laws::{a_batch_is_one_script, each_template_is_taken, what_is_read_is_a_batch};
pub use printing::print_script;
pub use reading::read_batch;
pub use text_lines::TextFault;
pub use writing::write_script;
