//! A callback that keeps what it hears, up to a fixed number, and tells it.
ghost use Rattle.std.specs.Prelude.{◌≡◌, ◌∷◌, [], Some, IfOk, IfErr};
ghost use Rattle.drmaa_types.specs.Readings.{counted_on};
ghost use Rattle.drmaa_types.specs.declared.refusals.Refusal.TheVariants.{OutOfMemory};
ghost use Rattle.change_callbacks.specs.Hearing.{Hears, heard_item};
ghost use Rattle.change_callbacks.specs.Gathered.{told_list, with_call};

use crate::Callback;
use drmaa_types::{Notification, Refusal};
use std::alloc::Global;
use std::marker::Model;

/// How many notifications a `MemoryCallback` keeps.
const CAPACITY: usize = 4_096;

/// A callback that keeps the first 4,096 notifications. It tells them as long as there were no more;
/// after a call beyond these it tells the number alone.
pub struct MemoryCallback {
    calls: u64,
    items: Vec<Notification>,
}

// By hand, so that how its parts are let go is proved here once, and not again in each crate that lets one go.
impl Drop for MemoryCallback {
    fn drop(self) {
        let MemoryCallback { calls: _, items: _ } = self;
    }
}

impl Model for MemoryCallback {
    ghost use Rattle.std.specs.Prelude.{◌≡◌, ◌≤◌, min, vec_len, vec_capacity};
    ghost use Rattle.change_callbacks.specs.Gathered.{Gathered, capacity};

    ghost Value = { Gathered };

    ghost view = { λ m. record { calls = m.calls; items = m.items.items } };

    ghost invariant = { λ m. (vec_len m.items ≡ min m.calls capacity) × (capacity ≤ vec_capacity m.items) };
}

impl MemoryCallback {
    /// A callback that has heard nothing. All of its memory is taken here.
    pub fn new(alloc: Global) -> Result<MemoryCallback, Refusal>
        ensures ok { IfOk result (λ callback. callback ≡ record { calls = 0; items = [] }) }
        ensures told { IfOk result (λ callback. told_list callback ≡ Some []) }
        ensures err { IfErr result (λ refusal. refusal ≡ OutOfMemory) }
    {
        match Vec::with_capacity(alloc, CAPACITY) {
            Ok(items) => Ok(MemoryCallback { calls: 0, items }),
            Err(_) => Err(Refusal::OutOfMemory),
        }
    }
}

impl Callback for MemoryCallback {
    ghost counted = { λ m. m.calls };

    ghost told = { told_list };

    /// Hears a notification, and keeps it where there are fewer than 4,096.
    fn notify(&mut self, n: &Notification)
        ensures counted { self.new.calls ≡ counted_on self.old.calls }
        ensures told { Hears (told_list self.old) (n.now ∷ []) (told_list self.new) }
        ensures seen { self.new ≡ with_call self.old n.now }
    {
        if self.items.len() < CAPACITY {
            self.items.push_reserved(*n);
        }
        self.calls = self.calls.saturating_add(1);
    }

    fn calls(&self) -> u64 {
        self.calls
    }

    fn heard(&self, n: u64) -> Option<Notification> {
        if self.calls > CAPACITY as u64 || n == 0 {
            return None;
        }
        self.items.get((n - 1) as usize).copied()
    }
}
