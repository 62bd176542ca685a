//! A job that another thread forgets while it is waited for.
ghost use Rattle.turn_lock.specs.Tokens.{IsFree};

use crate::answers::{Said, ending};
use crate::calls::Ask;
use crate::steps::{Step, machine, stopped, take_steps};
use crate::stories::GONE;
use call_history::{Bell, Busy, Desk, Question};
use client_sessions::{Job, open_desk};
use drmaa_types::{Clock, JobId, Moment, SessionId, StepClock, Timeout};
use drmaa1_face::Face;
use std::alloc::Global;
use std::process::Abort;
use std::sync::Wait;
use std::thread::{Threads, join};
use std::time::Clock as Pause;

/// How often somebody looks who waits at the lock.
const LOOKS: u32 = 100_000_000;

/// How many clients have the turn or wait for it.
fn line_of(desk: &mut Desk<StepClock>) -> u64
    requires { IsFree desk.old.shared.now desk.old.client }
    ensures { IsFree desk.new.shared.now desk.new.client }
{
    match desk
        .shared
        .try_look(&mut desk.client, &mut desk.clock, Question::Held)
    {
        Ok(_) => 0,
        Err(Busy { served, drawn }) => drawn.saturating_sub(served),
    }
}

/// Looks until so many clients have the turn or wait for it. Whether they came to that.
fn await_line(desk: &mut Desk<StepClock>, length: u64) -> bool
    requires { IsFree desk.old.shared.now desk.old.client }
    ensures { IsFree desk.new.shared.now desk.new.client }
{
    for _ in 0..LOOKS {
        if line_of(desk) >= length {
            return true;
        }
    }
    false
}

/// A clock that stays at moment 0. One reading, at which its client has the turn, is held until another waits for the turn.
#[derive(Drop)]
struct HeldClock<'a> {
    other: Desk<'a, StepClock>,
    readings: u32,
    is_awaited: bool,
    ghost free: { IsFree other.shared.now other.client },
}

impl Clock for HeldClock<'_> {
    ghost use Rattle.std.specs.Prelude.{None};
    ghost use Rattle.drmaa_types.specs.Readings.{nobodys};

    ghost given = { λ _. nobodys None };

    ghost least = { λ _. 0 };

    fn now(&mut self) -> Moment {
        self.readings = self.readings.saturating_add(1);
        if self.readings == HELD {
            self.is_awaited = await_line(&mut self.other, 2);
        }
        Moment::new(0).unwrap()
    }
}

/// A session with a job that has ended: four readings.
const ENDED: &[Step] = &[
    (Ask::Init, Said::Done),
    (Ask::Run, Said::Job(1)),
    (Ask::Launch(1), Said::AsWanted),
    (Ask::End(1), Said::AsWanted),
];

/// The reading of the wait's look, behind those and the one at which it begins.
const HELD: u32 = 6;

/// The job.
const JOB: Job = Job {
    session: SessionId(1),
    job: JobId(1),
};

/// Waits for the job. What is told, and whether another client waited for the turn at the wait's look.
fn await_job<R: Wait + Pause>(
    rt: &R,
    alloc: Global,
    mut desk: Desk<HeldClock>,
    mut face: Face,
) -> (Said, bool)
    requires { IsFree desk.shared.now desk.client }
{
    let job = Some(JobId(1));
    let told = ending(face.wait(alloc, rt, &mut desk, job, Timeout::Infinite));
    (told, desk.clock.is_awaited)
}

/// Forgets the job, once another client has the turn. Whether it was there.
fn forget_job<R: Wait>(rt: &R, mut desk: Desk<StepClock>) -> bool
    requires { IsFree desk.shared.now desk.client }
{
    await_line(&mut desk, 1) && JOB.reap(rt, &mut desk).is_ok()
}

/// One thread waits for the job, and another forgets it.
fn both<'a, R: Threads + Wait + Pause + Sync>(
    rt: &R,
    alloc: Global,
    waiting: Desk<'a, HeldClock<'a>>,
    face: Face,
    reaping: Desk<'a, StepClock>,
) -> ((Said, bool), bool)
    requires { IsFree waiting.shared.now waiting.client × IsFree reaping.shared.now reaping.client }
{
    join(
        rt,
        move || -> (Said, bool)
            requires { IsFree waiting.shared.now waiting.client }
        { await_job(rt, alloc, waiting, face) },
        move || -> bool
            requires { IsFree reaping.shared.now reaping.client }
        { forget_job(rt, reaping) },
    )
}

/// How many steps there were before, and what both threads are told.
fn told<R: Abort + Threads + Wait + Pause + Sync>(
    rt: &R,
    alloc: Global,
) -> (usize, ((Said, bool), bool)) {
    let (shared, mut opener) = machine(rt, alloc);
    let bell = Bell::silent();
    let other = open_desk(&shared, &mut opener, stopped(), &bell);
    let reaping = open_desk(&shared, &mut opener, stopped(), &bell);
    let clock = HeldClock {
        other,
        readings: 0,
        is_awaited: false,
    };
    let mut waiting = open_desk(&shared, &mut opener, clock, &bell);
    let mut face = Face::new();
    let taken = take_steps(rt, alloc, &mut waiting, &mut face, ENDED);
    (taken, both(rt, alloc, waiting, face, reaping))
}

#[test]
fn a_job_is_forgotten_while_it_is_waited_for(rt: HostRuntime) {
    assert!(rt; told(&rt, rt.alloc()) == (4, ((GONE, true), true)));
}
