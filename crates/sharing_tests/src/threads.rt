//! Waits that are answered by what other threads report.
ghost use Rattle.turn_lock.specs.Tokens.{IsFree};

use crate::jobs::{SESSION, end, job_of, launch, open, run};
use crate::machines::{at, desk, machine, numbers, stopped};
use call_history::{Bell, Desk};
use client_sessions::Job;
use drmaa_types::{Exit, Refusal, StepClock, Timeout};
use std::alloc::Global;
use std::process::Abort;
use std::sync::Wait;
use std::thread::{Threads, join};
use std::time::Clock as Pause;

/// Waits for the end of the first job, for as long as it takes.
fn await_end<R: Wait + Pause>(
    rt: &R,
    alloc: Global,
    mut desk: Desk<StepClock>,
) -> Result<Job, Refusal>
    requires { IsFree desk.shared.now desk.client }
{
    SESSION.wait_any_terminated(rt, &mut desk, numbers(alloc, &[1]), Timeout::Infinite)
}

/// Launches the first job, and reports its end.
fn report_end<R: Wait>(rt: &R, mut desk: Desk<StepClock>) -> bool
    requires { IsFree desk.shared.now desk.client }
{
    let launched = launch(rt, &mut desk, 1);
    let ended = end(rt, &mut desk, 1, Exit::Code(0));
    launched && ended
}

/// One thread waits for the job, and another reports its end.
fn both<'a, R: Threads + Wait + Pause + Sync>(
    rt: &R,
    alloc: Global,
    waiting: Desk<'a, StepClock>,
    reporting: Desk<'a, StepClock>,
) -> (Result<Job, Refusal>, bool)
    requires { IsFree waiting.shared.now waiting.client × IsFree reporting.shared.now reporting.client }
{
    join(
        rt,
        move || -> Result<Job, Refusal>
            requires { IsFree waiting.shared.now waiting.client }
        { await_end(rt, alloc, waiting) },
        move || -> bool
            requires { IsFree reporting.shared.now reporting.client }
        { report_end(rt, reporting) },
    )
}

/// Whether a job was run, and what both threads come to.
fn reported<R: Abort + Threads + Wait + Pause + Sync>(
    rt: &R,
    alloc: Global,
) -> (bool, bool, (Result<Job, Refusal>, bool)) {
    let (shared, mut opener) = machine(rt, alloc, 4_000_000);
    let bell = Bell::new();
    let mut waiting = desk(&shared, &mut opener, &bell, stopped(0));
    let reporting = desk(&shared, &mut opener, &bell, stopped(0));
    let opened = open(rt, alloc, &mut waiting);
    let run = run(rt, alloc, &mut waiting, 1);
    (opened, run, both(rt, alloc, waiting, reporting))
}

#[test]
fn a_report_of_another_thread_answers_a_wait(rt: HostRuntime) {
    assert!(rt; reported(&rt, rt.alloc()) == (true, true, (Ok(job_of(1)), true)));
}

/// Whether a job was run, and what a wait of three seconds for its end is told, by a clock that is a second later each time.
fn unstruck<R: Abort + Wait + Pause>(rt: &R, alloc: Global) -> (bool, bool, Result<Job, Refusal>) {
    let (shared, mut opener) = machine(rt, alloc, 4_000_000);
    let bell = Bell::new();
    let mut client = desk(&shared, &mut opener, &bell, StepClock::new(at(0), 1));
    let opened = open(rt, alloc, &mut client);
    let run = run(rt, alloc, &mut client, 1);
    let timeout = Timeout::Seconds(3);
    let told = SESSION.wait_any_terminated(rt, &mut client, numbers(alloc, &[1]), timeout);
    (opened, run, told)
}

#[test]
fn a_wait_at_a_bell_that_nobody_strikes_ends_by_its_clock(rt: HostRuntime) {
    assert!(rt; unstruck(&rt, rt.alloc()) == (true, true, Err(Refusal::Timeout)));
}
