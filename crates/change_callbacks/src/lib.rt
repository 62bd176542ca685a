//! Who hears of the changes of jobs' states: callbacks, and the ears that hand changes to them.
#![tactic(auto)]

mod callbacks;
mod closures;
mod ears;
mod handed;
mod handing;
mod memory;

pub use callbacks::{Callback, Callbacks};
pub use closures::{ClosureCallback, Listener};
pub use ears::Ears;
pub use memory::MemoryCallback;
