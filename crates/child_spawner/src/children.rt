//! A child that was started.
ghost use Rattle.std.specs.Prelude.{◌≡◌, ℕ, ◌<◌, ◌≤◌, Option, option_map, OnOk, OnErr, IfOk, IfSome, IfNone, IsSome};
ghost use Rattle.drmaa_types.specs.Counts.{Rose};
ghost use Rattle.child_spawner.specs.Children.{Told, exit_of, after_poll, after_signal};

use drmaa_types::{Exit, Failed, SignalKind};

/// A child that was started. It counts its faults, and may tell what becomes of it.
pub trait Child {
    /// How many polls and signals of this child failed.
    ghost faults: { Self → ℕ };

    /// What the child tells of itself, where it tells.
    ghost told: { Self → Option Told };

    /// How the child ended, or None while it runs. Failed where that could not be learnt.
    fn poll(&mut self) -> Result<Option<Exit>, Failed>
        ensures cause { OnErr result (Rose (faults self.old) (faults self.new)) }
        ensures counted { OnOk result (faults self.new ≡ faults self.old) }
        ensures never_falls { faults self.old ≤ faults self.new }

        // Where the child tells, a poll fails only where its fate names a failing poll,
        ensures named { OnErr result (IfSome (told self.old) (λ child. IsSome child.fate.failing_poll)) }
        // it runs on only where polls are left, and ends by a kill or else as its fate says.
        ensures running { IfOk result (λ seen. IfNone seen
            (IfSome (told self.old) (λ child. 0 < child.polls_left))) }
        ensures ended { IfOk result (λ seen. IfSome seen
            (λ exit. IfSome (told self.old) (λ child. exit ≡ exit_of child))) }
        ensures told { told self.new ≡ option_map (after_poll result) (told self.old) };

    /// Sends the child's process this signal. Failed where that could not be done.
    fn signal(&mut self, kind: SignalKind) -> Result<(), Failed>
        ensures cause { OnErr result (Rose (faults self.old) (faults self.new)) }
        ensures counted { OnOk result (faults self.new ≡ faults self.old) }
        ensures never_falls { faults self.old ≤ faults self.new }

        // Where the child tells, a signal fails only where its fate names a failing signal.
        ensures named { OnErr result (IfSome (told self.old) (λ child. IsSome child.fate.failing_signal)) }
        ensures told { told self.new ≡ option_map (after_signal kind result) (told self.old) };
}
