//! What a callback is, seen by contracts as what it heard.
ghost use Rattle.std.specs.Prelude.{◌≡◌, ℕ, List, [], ◌∷◌, Option};
ghost use Rattle.drmaa_types.specs.Readings.{counted_on};
ghost use Rattle.drmaa_types.specs.declared.changes.Notification.{Notification};
ghost use Rattle.change_callbacks.specs.Hearing.{Hears, heard_item};

use drmaa_types::{ListOf, Notification};

/// Something of the caller's that hears notifications (GFD.231, notifications). It is given no
/// object of the library.
pub trait Callback: Drop {
    /// How many calls there were. The number stays at its greatest value once it is there.
    ghost counted: { Self → ℕ };

    /// The notifications heard, in order, where they are told.
    ghost told: { Self → Option (List Notification) };

    /// Hears a notification.
    fn notify(&mut self, n: &Notification)
        ensures counted { counted self.new ≡ counted_on (counted self.old) }
        ensures told { Hears (told self.old) (n.now ∷ []) (told self.new) };

    /// The number of calls.
    fn calls(&self) -> u64
        ensures { result ≡ counted self.now };

    /// The notification heard with this number, counted from 1. None exactly where the notifications
    /// are not told, or there is none of this number.
    fn heard(&self, n: u64) -> Option<Notification>
        ensures { result ≡ heard_item (told self.now) n };
}

/// The callbacks of a caller, in its order: the first one has the number 1.
pub type Callbacks<B> = ListOf<B>;
