//! Who plays: a client, the launcher and the reaper, each at its desk, with the children.
ghost use Rattle.std.specs.Prelude.{◌≡◌, []};
ghost use Rattle.turn_lock.specs.Tokens.{BelongsTo};
ghost use Rattle.call_history.specs.Clients.{retired_of};

use crate::asking::{Ask, Said, answers, call_of};
use crate::machines::desk;
use crate::telling::{Start, has_asked};
use attendant::{Done, Launched, Reaper, finish, launch_once, reap_once, run_attendant};
use call_history::{Bell, Desk, MachineOpener, SharedMachine};
use child_spawner::{MemoryChild, MemorySpawner};
use drmaa_types::{Refusal, StepClock};
use std::alloc::Global;
use std::marker::Model;
use std::sync::Wait;
use std::time::Clock as Pause;

/// The three, with the children. Contracts see the machine that all are at. None holds a turn between two steps.
#[derive(Drop)]
pub struct Stage<'a> {
    client: Desk<'a, StepClock>,
    launcher: Desk<'a, StepClock>,
    reaping: Desk<'a, StepClock>,
    spawner: MemorySpawner,
    reaper: Reaper<MemoryChild>,
}

impl<'a> Model for Stage<'a> {
    ghost use Rattle.std.specs.Prelude.{◌≡◌};
    ghost use Rattle.drmaa_model.specs.declared.configs.Config.{Config};
    ghost use Rattle.turn_lock.specs.Tokens.{Named, IsFree};

    ghost Value = { Named Config };

    ghost view = { λ s. s.client.shared.now };

    ghost invariant = { λ s. IsFree s.client.shared.now s.client.client
        × (s.launcher.shared.now ≡ s.client.shared.now) × IsFree s.launcher.shared.now s.launcher.client
        × (s.reaping.shared.now ≡ s.client.shared.now) × IsFree s.reaping.shared.now s.reaping.client };
}

/// One client, who is over.
fn one_over<R: Wait>(rt: &R) -> Done {
    let done = Done::new(1);
    done.client_ended(rt);
    done
}

impl<'a> Stage<'a> {
    /// The three at a machine that nobody has called. The client has the number 0, the launcher 1, the reaper 2.
    pub fn open(
        alloc: Global,
        shared: &'a SharedMachine,
        opener: &mut MachineOpener,
        bell: &'a Bell,
        spawner: MemorySpawner,
    ) -> Stage<'a>
        requires opener { BelongsTo shared.now opener.old }
        requires retired { retired_of opener.old ≡ [] }
        ensures opener { BelongsTo shared.now opener.new }
        ensures machine { result ≡ shared.now }
    {
        Stage {
            client: desk(shared, opener, bell),
            launcher: desk(shared, opener, bell),
            reaping: desk(shared, opener, bell),
            spawner,
            reaper: Reaper::new(alloc),
        }
    }

    /// Asks as the client. Whether it is told this.
    pub fn asks<R: Wait>(&mut self, rt: &R, alloc: Global, ask: Ask, said: Said) -> bool
        ensures { self.new ≡ self.old }
    {
        answers(&self.client.call(rt, call_of(alloc, ask)), said)
    }

    /// A round of the launcher. Whether it comes to this.
    pub fn launches<R: Wait>(&mut self, rt: &R, wanted: Result<Launched, Refusal>) -> bool
        ensures { self.new ≡ self.old }
    {
        let (spawner, reaper) = (&mut self.spawner, &mut self.reaper);
        launch_once(rt, &mut self.launcher, spawner, reaper) == wanted
    }

    /// A round of the reaper. Whether it comes to this.
    pub fn reaps<R: Wait>(&mut self, rt: &R, wanted: Result<u32, Refusal>) -> bool
        ensures { self.new ≡ self.old }
    {
        reap_once(rt, &mut self.reaping, &mut self.reaper) == wanted
    }

    /// Rounds of both until the machine is settled, once the clients are over. Whether it is.
    pub fn attends<R: Wait + Pause>(&mut self, rt: &R) -> bool
        ensures { self.new ≡ self.old }
    {
        let done = one_over(rt);
        let over = done.clients_over(rt);
        let (launcher, reaping) = (&mut self.launcher, &mut self.reaping);
        let (spawner, reaper) = (&mut self.spawner, &mut self.reaper);
        let settled = run_attendant(rt, launcher, reaping, spawner, reaper, &done).is_ok();
        over && settled
    }

    /// Rounds of both until the machine is settled. Whether it is.
    pub fn finishes<R: Wait + Pause>(&mut self, rt: &R) -> bool
        ensures { self.new ≡ self.old }
    {
        let (launcher, reaping) = (&mut self.launcher, &mut self.reaping);
        let (spawner, reaper) = (&mut self.spawner, &mut self.reaper);
        finish(rt, launcher, reaping, spawner, reaper).is_ok()
    }

    /// Whether the spawner was asked for these starts, in order.
    pub fn has_asked(&self, starts: &[Start]) -> bool {
        has_asked(&self.spawner, starts)
    }

    /// The clients of the three are taken back.
    pub fn leave(self, shared: &SharedMachine, opener: &mut MachineOpener)
        requires machine { self ≡ shared.now }
        requires opener { BelongsTo shared.now opener.old }
        ensures opener { BelongsTo shared.now opener.new }
    {
        shared.retire(opener, self.client.client);
        shared.retire(opener, self.launcher.client);
        shared.retire(opener, self.reaping.client);
    }
}
