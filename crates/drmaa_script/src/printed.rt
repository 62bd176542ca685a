//! Callbacks that print what they hear.
ghost use Rattle.std.specs.Prelude.{◌≡◌, ℕ, ◌+◌, ◌∷◌, [], All, IfOk, IfSome, None, length, slice_get};
ghost use Rattle.drmaa_types.specs.Readings.{counted_on};
ghost use Rattle.change_callbacks.specs.Hearing.{Hears};

use change_callbacks::{Callback, Callbacks};
use drmaa_types::Notification;
use std::alloc::AllocError;

/// How many callbacks hear a run of the program.
const COUNT: u32 = 64;

/// A callback that prints each notification to standard error, as `callback K job N STATE`. It tells the number of calls alone.
#[derive(Drop)]
pub struct PrintedCallback {
    rt: HostRuntime,
    number: u32,
    calls: u64,
}

impl Callback for PrintedCallback {
    ghost counted = { λ c. c.calls };

    ghost told = { λ _. None };

    fn notify(&mut self, n: &Notification)
        ensures counted { self.new.calls ≡ counted_on self.old.calls }
        ensures told { Hears None (n.now ∷ []) None }
    {
        // Where standard error takes nothing, there is nobody to tell.
        let _ = eprintln!(self.rt;
            "callback {} job {} {}",
            self.number,
            n.job.0,
            n.state.name()
        );
        self.calls = self.calls.saturating_add(1);
    }

    fn calls(&self) -> u64 {
        self.calls
    }

    fn heard(&self, n: u64) -> Option<Notification> {
        let _ = n;
        None
    }
}

/// The callbacks of the numbers from 1 to 64, in this order, none of which was called yet.
pub fn printed_callbacks(rt: HostRuntime) -> Result<Callbacks<PrintedCallback>, AllocError>
    ensures count { IfOk result (λ callbacks. length callbacks ≡ 64) }
    ensures numbers { IfOk result (λ callbacks. (k : ℕ) → IfSome (slice_get callbacks k) (λ callback. callback.number ≡ k + 1)) }
    ensures calls { IfOk result (λ callbacks. All (λ callback. callback.calls ≡ 0) callbacks) }
{
    let mut callbacks = Vec::new(rt.alloc());
    for number in 1..=COUNT {
        callbacks.push(PrintedCallback {
            rt,
            number,
            calls: 0,
        })?;
    }
    Ok(Callbacks::from_vec(callbacks))
}
