//! The children of the spawner that starts nothing.
ghost use Rattle.std.specs.Prelude.{◌≡◌, ℕ, ◌<◌, ◌≤◌, ◌↔◌, Option, Some, option_map, OnOk, OnErr, IfOk, IfSome, IfNone, IsSome, IsErr, IsNone, IsTrue, is_ok, if◌then◌else◌};
ghost use Rattle.drmaa_types.specs.Readings.{counted_on};
ghost use Rattle.drmaa_types.specs.Counts.{Rose};
ghost use Rattle.child_spawner.specs.Children.{Told, started_child, exit_of, after_poll, after_signal};

use crate::counts::counted_on;
use crate::{Child, Fate};
use drmaa_types::{Exit, Failed, JobId, SignalKind};
use std::marker::Model;

/// The signal that ends a child that was killed.
const KILLED: u8 = 9;

/// A child that stands for no process and plays its fate.
pub struct MemoryChild {
    start: u64,
    job: JobId,
    attempt: u32,
    fate: Fate,
    killed: bool,
    stops: u64,
    conts: u64,
    kills: u64,
    polls_left: u32,
    polls: u64,
    signals: u64,
    faults: u64,
}

// By hand, so that how its parts are let go is proved here once, and not again in each crate that lets one go.
impl Drop for MemoryChild {
    fn drop(self) {
        let MemoryChild {
            start: _,
            job: _,
            attempt: _,
            fate: _,
            killed: _,
            stops: _,
            conts: _,
            kills: _,
            polls_left: _,
            polls: _,
            signals: _,
            faults: _,
        } = self;
    }
}

impl Model for MemoryChild {
    ghost use Rattle.child_spawner.specs.Memory.{Played};

    ghost Value = { Played };

    ghost view = { λ c. record {
      told = record {
        start = c.start;
        job = c.job;
        attempt = c.attempt;
        fate = c.fate;
        killed = c.killed;
        stops = c.stops;
        conts = c.conts;
        kills = c.kills;
        polls_left = c.polls_left;
      };
      polls = c.polls;
      signals = c.signals;
      faults = c.faults;
    } };
}

impl MemoryChild {
    /// The child of the start with this number, which has been asked nothing yet.
    pub(crate) fn new(start: u64, job: JobId, attempt: u32, fate: Fate) -> MemoryChild
        ensures { result ≡ record {
          told = started_child start job attempt fate;
          polls = 0;
          signals = 0;
          faults = 0;
        } }
    {
        MemoryChild {
            start,
            job,
            attempt,
            fate,
            killed: false,
            stops: 0,
            conts: 0,
            kills: 0,
            polls_left: fate.polls,
            polls: 0,
            signals: 0,
            faults: 0,
        }
    }
}

impl Child for MemoryChild {
    ghost faults = { λ c. c.faults };

    ghost told = { λ c. Some c.told };

    /// Whether the child has ended. Failed exactly at the poll that its fate names, None exactly at
    /// each other poll while polls are left.
    fn poll(&mut self) -> Result<Option<Exit>, Failed>
        ensures cause { OnErr result (Rose self.old.faults self.new.faults) }
        ensures counted { OnOk result (self.new.faults ≡ self.old.faults) }
        ensures never_falls { self.old.faults ≤ self.new.faults }
        ensures named { OnErr result (IsSome self.old.told.fate.failing_poll) }
        ensures running { IfOk result (λ seen. IfNone seen (0 < self.old.told.polls_left)) }
        ensures ended { IfOk result (λ seen. IfSome seen (λ exit. exit ≡ exit_of self.old.told)) }
        ensures told { Some self.new.told ≡ option_map (after_poll result) (Some self.old.told) }

        ensures failing { IsErr result
            ↔ (self.old.told.fate.failing_poll ≡ Some (counted_on self.old.polls)) }
        ensures over { IfOk result (λ seen. IfSome seen (λ exit. self.old.told.polls_left ≡ 0)) }
        ensures seen { self.new ≡ record {
          told = after_poll result self.old.told;
          polls = counted_on self.old.polls;
          signals = self.old.signals;
          faults = if is_ok result then self.old.faults else counted_on self.old.faults;
        } }
    {
        self.polls = counted_on(self.polls);
        if is_named(self.fate.failing_poll, self.polls) {
            self.faults = counted_on(self.faults);
            return Err(Failed);
        }
        if self.polls_left > 0 {
            self.polls_left -= 1;
            return Ok(None);
        }
        Ok(Some(if self.killed {
            Exit::Signal(KILLED)
        } else {
            self.fate.exit
        }))
    }

    /// Takes the signal. Failed exactly at the signal that the fate names. A kill leaves no polls.
    fn signal(&mut self, kind: SignalKind) -> Result<(), Failed>
        ensures cause { OnErr result (Rose self.old.faults self.new.faults) }
        ensures counted { OnOk result (self.new.faults ≡ self.old.faults) }
        ensures never_falls { self.old.faults ≤ self.new.faults }
        ensures named { OnErr result (IsSome self.old.told.fate.failing_signal) }
        ensures told { Some self.new.told ≡ option_map (after_signal kind result) (Some self.old.told) }

        ensures failing { IsErr result
            ↔ (self.old.told.fate.failing_signal ≡ Some (counted_on self.old.signals)) }
        ensures seen { self.new ≡ record {
          told = after_signal kind result self.old.told;
          polls = self.old.polls;
          signals = counted_on self.old.signals;
          faults = if is_ok result then self.old.faults else counted_on self.old.faults;
        } }
    {
        self.signals = counted_on(self.signals);
        if is_named(self.fate.failing_signal, self.signals) {
            self.faults = counted_on(self.faults);
            return Err(Failed);
        }
        match kind {
            SignalKind::Stop => self.stops = counted_on(self.stops),
            SignalKind::Cont => self.conts = counted_on(self.conts),
            SignalKind::Kill => {
                self.kills = counted_on(self.kills);
                self.killed = true;
                self.polls_left = 0;
            }
        }
        Ok(())
    }
}

/// Whether the call with this number, counted from 1, is the one named to fail.
fn is_named(named: Option<u32>, number: u64) -> bool
    ensures { IsTrue result ↔ (named ≡ Some number) }
{
    match named {
        Some(named) => named as u64 == number,
        None => false,
    }
}
