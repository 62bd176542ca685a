//! A client that submits jobs one after the other, and measures each call by which it does.
ghost use Rattle.turn_lock.specs.Tokens.{IsFree};

use call_history::Desk;
use client_sessions::{Job, JobSession, SessionManager, plain_job};
use drmaa_types::{Clock, Text, Timeout};
use std::alloc::Global;
use std::sync::Wait;
use std::time::{Clock as Pause, Instant};

/// How many jobs the client is ahead of those that have ended, at most.
const AHEAD: usize = 16;

/// Runs the job `true`. How long the call took, in nanoseconds, and the job.
fn run_one<R: Wait + Pause, C: Clock>(
    rt: &R,
    alloc: Global,
    desk: &mut Desk<C>,
    session: JobSession,
) -> Option<(u64, Job)>
    requires { IsFree desk.old.shared.now desk.old.client }
    ensures { IsFree desk.new.shared.now desk.new.client }
{
    let command = Text::from_string(String::from_str(alloc, "true").ok()?);
    let begun = Instant::now(rt).ok()?;
    let job = session.run_job(rt, desk, plain_job(alloc, command)).ok()?;
    let spent = begun.elapsed(rt).ok()?.as_nanos();
    Some((u64::try_from(spent).ok()?, job))
}

/// Waits for the end of a job, and takes it out of the machine.
fn end_one<R: Wait + Pause, C: Clock>(
    rt: &R,
    alloc: Global,
    desk: &mut Desk<C>,
    job: Job,
) -> Option<()>
    requires { IsFree desk.old.shared.now desk.old.client }
    ensures { IsFree desk.new.shared.now desk.new.client }
{
    job.wait_terminated(alloc, rt, desk, Timeout::Infinite)
        .ok()?;
    job.reap(rt, desk).ok()
}

/// Submits so many jobs, each in a call of its own, and reaps them as they end. The nanoseconds of each submission, in order; None
/// where one was refused.
pub fn submit<R: Wait + Pause, C: Clock>(
    rt: &R,
    alloc: Global,
    desk: &mut Desk<C>,
    count: usize,
) -> Option<Vec<u64>>
    requires { IsFree desk.old.shared.now desk.old.client }
{
    let session = SessionManager {}.create_job_session(rt, desk, None).ok()?;
    let mut spent = Vec::new(alloc);
    let mut jobs = Vec::new(alloc);
    for number in 0..count {
        let (nanoseconds, job) = run_one(rt, alloc, desk, session)?;
        spent.push(nanoseconds).ok()?;
        jobs.push(job).ok()?;
        if let Some(earlier) = number.checked_sub(AHEAD) {
            end_one(rt, alloc, desk, *jobs.get(earlier)?)?;
        }
    }
    Some(spent)
}
