//! What a machine keeps. Contracts see the world that it is of.

use drmaa_model::{Config, Entry};
use scheduler_core::Core;
use session_table::SessionTable;
use std::alloc::Global;

/// What a machine keeps.
#[derive(Drop)]
pub struct Store {
    pub alloc: Global,
    pub config: Config,
    pub core: Core,
    pub sessions: SessionTable,
    /// How many callbacks were registered.
    pub registrations: u32,
    /// How many entries were made.
    pub entries: u64,
    /// The entries, in order.
    pub history: Vec<Entry>,
}
