//! Children: the traits of a spawner and of a child that it starts, a spawner that starts nothing
//! and plays the fates that it was given, and the spawner of real processes.
#![tactic(auto)]

mod children;
mod counts;
mod fates;
mod hosts;
mod local;
mod memory;
mod memory_children;
mod shell;
mod signals;
mod spawners;
mod system;

pub use children::Child;
pub use fates::{Asked, Fate, FateList};
pub use hosts::{Host, Process};
pub use local::{LocalChild, LocalSpawner};
pub use memory::MemorySpawner;
pub use memory_children::MemoryChild;
pub use spawners::Spawner;
pub use system::{SystemHost, SystemProcess};
