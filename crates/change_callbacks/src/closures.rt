//! A callback that calls a closure of the caller's.
ghost use Rattle.std.specs.Prelude.{◌≡◌, ◌∷◌, [], Option, None};
ghost use Rattle.drmaa_types.specs.Readings.{counted_on};
ghost use Rattle.change_callbacks.specs.Hearing.{Hears};

use crate::Callback;
use drmaa_types::Notification;

/// A closure in a box, so that callbacks over different closures stand in one list.
pub type Listener = Box<dyn FnMut(&Notification) + Send>;

/// A callback that calls a closure with each notification, and tells the number of calls alone. The
/// closure may be called on every notification, now and after each call.
pub struct ClosureCallback {
    pub listener: Listener,
    pub calls: u64,
    pub ghost callable: { Listener.IsAlwaysCallable listener },
}

// By hand, so that how its parts are let go is proved here once, and not again in each crate that lets one go.
impl Drop for ClosureCallback {
    fn drop(self) {
        let ClosureCallback {
            listener: _,
            calls: _,
        } = self;
    }
}

impl ClosureCallback {
    /// A callback that has heard nothing, over a closure that may be called on every notification.
    /// It takes no memory.
    pub fn new(listener: Listener) -> ClosureCallback
        requires { Listener.IsAlwaysCallable listener }
        ensures listener { result.listener ≡ listener }
        ensures calls { result.calls ≡ 0 }
    {
        ClosureCallback { listener, calls: 0 }
    }
}

impl Callback for ClosureCallback {
    ghost counted = { λ c. c.calls };

    ghost told = { λ c. None };

    /// Calls the closure once, and counts the call.
    fn notify(&mut self, n: &Notification)
        ensures counted { self.new.calls ≡ counted_on self.old.calls }
        ensures told { Hears None (n.now ∷ []) None }
        ensures called { (shown : _) × Listener.step self.old.listener shown tt self.new.listener × (shown.now ≡ n.now) }
    {
        let ClosureCallback { listener, calls } = self;
        listener(n);
        *calls = calls.saturating_add(1);
    }

    fn calls(&self) -> u64 {
        self.calls
    }

    fn heard(&self, n: u64) -> Option<Notification> {
        let _ = n;
        None
    }
}
