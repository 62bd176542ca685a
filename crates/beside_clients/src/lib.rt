//! Who works beside the clients of a machine: the hub's client, and what stays true of it, of launcher and of reaper.
#![tactic(auto)]

mod hub_clients;

pub use hub_clients::{Seated, follow, pump_last, pump_once};
