//! The program of the page of `client_sessions`, word for word.
#![tactic(auto)]

ghost use Rattle.turn_lock.specs.Tokens.{IsFree};

use attendant::{Reaper, launch_once, reap_once};
use call_history::Desk;
use child_spawner::{FateList, MemorySpawner};
use client_sessions::{Bell, SessionManager, open_desk, plain_clock, plain_command, plain_machine};
use drmaa_types::{Clock, JobState, PlaceList, Refusal, Timeout};
use std::alloc::Global;
use std::sync::Wait;
use std::test::Fail;
use std::time::Clock as Pause;

/// A round of the launcher and one of the reaper. How many reports the reaper made.
fn serve<R: Wait, C: Clock>(rt: &R, alloc: Global, desk: &mut Desk<C>) -> Result<u32, Refusal>
    requires { IsFree desk.old.shared.now desk.old.client }
    ensures { IsFree desk.new.shared.now desk.new.client }
{
    let mut spawner = MemorySpawner::new(alloc, FateList::new(alloc), PlaceList::new(alloc));
    let mut reaper = Reaper::new(alloc);
    launch_once(rt, desk, &mut spawner, &mut reaper)?;
    reap_once(rt, desk, &mut reaper)
}

/// Runs a job from its submission to its end, and answers the state that it ends in.
fn run_one<R: Wait + Pause, C: Clock>(
    rt: &R,
    alloc: Global,
    desk: &mut Desk<C>,
) -> Result<JobState, Refusal>
    requires { IsFree desk.old.shared.now desk.old.client }
{
    let session = SessionManager {}.create_job_session(rt, desk, None)?;
    let job = session.run_job(rt, desk, plain_command(alloc, "true")?)?;
    serve(rt, alloc, desk)?;
    job.wait_terminated(alloc, rt, desk, Timeout::Infinite)?;
    job.get_state(rt, desk)
}

fn main(rt: HostRuntime) -> Result<(), Fail> {
    let alloc = rt.alloc();
    let (shared, mut opener) = plain_machine(alloc, 4, "local")?;
    let bell = Bell::silent();
    let mut desk = open_desk(&shared, &mut opener, plain_clock(), &bell);
    let state = run_one(&rt, alloc, &mut desk)?;
    println!(rt; "{state:?}")?;
    Ok(())
}
