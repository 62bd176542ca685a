//! The client beside launcher and reaper.
ghost use Rattle.std.specs.Prelude.{◌≡◌};
ghost use Rattle.turn_lock.specs.Tokens.{IsFree};

use super::client::submit;
use attendant::{Done, Reaper, run_attendant};
use call_history::{Bell, Desk};
use child_spawner::{LocalChild, LocalSpawner};
use client_sessions::{open_desk, plain_machine};
use drmaa_types::{Moment, Refusal, StepClock};
use std::alloc::Global;
use std::sync::Wait;
use std::thread::{Threads, join};
use std::time::Clock as Pause;

/// How many jobs run at once.
const SLOTS: u32 = 4;

/// Launches and reaps until the client is over and all its jobs have ended.
fn attend<R: Wait + Pause>(
    rt: &R,
    alloc: Global,
    mut launcher: Desk<StepClock>,
    mut reaping: Desk<StepClock>,
    mut spawner: LocalSpawner,
    done: &Done,
) -> Result<(), Refusal>
    requires lock { reaping.shared.now ≡ launcher.shared.now }
    requires launcher { IsFree launcher.shared.now launcher.client }
    requires reaping { IsFree reaping.shared.now reaping.client }
{
    let mut reaper: Reaper<LocalChild> = Reaper::new(alloc);
    run_attendant(
        rt,
        &mut launcher,
        &mut reaping,
        &mut spawner,
        &mut reaper,
        done,
    )
}

/// The client's calls; then launcher and reaper are told that it is over.
fn call<R: Wait + Pause>(
    rt: &R,
    alloc: Global,
    mut desk: Desk<StepClock>,
    count: usize,
    done: &Done,
) -> Option<Vec<u64>>
    requires { IsFree desk.shared.now desk.client }
{
    let spent = submit(rt, alloc, &mut desk, count);
    done.client_ended(rt);
    spent
}

/// Both in threads, side by side.
fn side_by_side<'a, R: Threads + Wait + Pause + Sync>(
    rt: &R,
    alloc: Global,
    launcher: Desk<'a, StepClock>,
    reaping: Desk<'a, StepClock>,
    client: Desk<'a, StepClock>,
    spawner: LocalSpawner,
    count: usize,
) -> (Result<(), Refusal>, Option<Vec<u64>>)
    requires lock { reaping.shared.now ≡ launcher.shared.now }
    requires launcher { IsFree launcher.shared.now launcher.client }
    requires reaping { IsFree reaping.shared.now reaping.client }
    requires client { IsFree client.shared.now client.client }
{
    let done = Done::new(1);
    let over = &done;
    join(
        rt,
        move || -> Result<(), Refusal>
            requires lock { reaping.shared.now ≡ launcher.shared.now }
            requires launcher { IsFree launcher.shared.now launcher.client }
            requires reaping { IsFree reaping.shared.now reaping.client }
        { attend(rt, alloc, launcher, reaping, spawner, over) },
        move || -> Option<Vec<u64>>
            requires { IsFree client.shared.now client.client }
        { call(rt, alloc, client, count, over) },
    )
}

/// A clock that stands still, so that no limit is reached.
fn stopped() -> StepClock {
    StepClock::new(Moment::new(0).unwrap_or(Moment::greatest()), 0)
}

/// Runs so many jobs on a machine of its own. The nanoseconds of each call by which one was submitted; None where one was refused.
pub fn run<R: Threads + Wait + Pause + Sync>(
    rt: &R,
    alloc: Global,
    spawner: LocalSpawner,
    count: usize,
) -> Option<Vec<u64>> {
    let (shared, mut opener) = plain_machine(alloc, SLOTS, "bench").ok()?;
    let bell = Bell::new();
    let client = open_desk(&shared, &mut opener, stopped(), &bell);
    let launcher = open_desk(&shared, &mut opener, stopped(), &bell);
    let reaping = open_desk(&shared, &mut opener, stopped(), &bell);
    let (attended, spent) = side_by_side(rt, alloc, launcher, reaping, client, spawner, count);
    match attended {
        Ok(()) => spent,
        Err(_) => None,
    }
}
