//! The program of the page of `drmaa1_face`, word for word.
#![tactic(auto)]

ghost use Rattle.turn_lock.specs.Tokens.{IsFree};

use attendant::{Reaper, launch_once, reap_once};
use call_history::Desk;
use child_spawner::{FateList, MemorySpawner};
use client_sessions::{Bell, open_desk, plain_clock, plain_command, plain_machine};
use drmaa_types::{Control, PlaceList, StepClock, Timeout};
use drmaa1_face::{Face, Pick};
use std::alloc::Global;
use std::sync::Wait;
use std::test::Fail;
use std::time::Clock;

fn use_jobs<R: Wait + Clock + Print>(
    rt: &R,
    alloc: Global,
    desk: &mut Desk<StepClock>,
) -> Result<(), Fail>
    requires { IsFree desk.old.shared.now desk.old.client }
{
    let mut face = Face::new();
    face.init(rt, desk, None)?; // drmaa_init
    let job = face.run(rt, desk, plain_command(alloc, "true")?)?; // drmaa_run_job
    let more = face.run_bulk(rt, desk, plain_command(alloc, "true")?, 1, 2, 1)?; // drmaa_run_bulk_jobs
    face.control(rt, desk, more.first, Control::Terminate)?; // drmaa_control
    println!(rt; "{:?}", face.ps(rt, desk, more.first)?)?; // drmaa_job_ps
    attend(rt, alloc, desk)?;
    let info = face.wait(alloc, rt, desk, Some(job), Timeout::Infinite)?; // drmaa_wait
    println!(rt; "{:?}", info.state)?;
    face.synchronize(alloc, rt, desk, Pick::All, Timeout::Seconds(60), true)?; // drmaa_synchronize
    face.exit(rt, desk)?; // drmaa_exit
    Ok(())
}

fn attend<R: Wait>(rt: &R, alloc: Global, desk: &mut Desk<StepClock>) -> Result<(), Fail>
    requires { IsFree desk.old.shared.now desk.old.client }
    ensures { IsFree desk.new.shared.now desk.new.client }
{
    let mut spawner = MemorySpawner::new(alloc, FateList::new(alloc), PlaceList::new(alloc));
    let mut reaper = Reaper::new(alloc);
    launch_once(rt, desk, &mut spawner, &mut reaper)?;
    launch_once(rt, desk, &mut spawner, &mut reaper)?;
    reap_once(rt, desk, &mut reaper)?;
    Ok(())
}

fn main(rt: HostRuntime) -> Result<(), Fail> {
    let (shared, mut opener) = plain_machine(rt.alloc(), 4, "local")?;
    let bell = Bell::silent();
    let mut desk = open_desk(&shared, &mut opener, plain_clock(), &bell);
    use_jobs(&rt, rt.alloc(), &mut desk)
}
