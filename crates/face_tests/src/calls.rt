//! The calls of a face's user, of the launcher and of the reaper, each as it is answered.
ghost use Rattle.std.specs.Prelude.{◌≡◌};
ghost use Rattle.turn_lock.specs.Tokens.{IsFree};

use crate::answers::{Said, as_wanted, done, ending, job, jobs, state};
use call_history::{Call, Desk, NoEntry, Reply};
use client_sessions::plain_command;
use drmaa_types::{Clock, Control, Exit, IdList, JobId, Timeout};
use drmaa1_face::{Face, Pick};
use job_template::JobTemplate;
use std::alloc::Global;
use std::process::Abort;
use std::sync::Wait;
use std::time::Clock as Pause;

/// Which jobs are waited for.
#[derive(Clone, Copy)]
pub enum Picked {
    All,
    These(&'static [u64]),
}

/// What is called.
#[derive(Clone, Copy)]
pub enum Ask {
    Init,
    Exit,
    Run,
    /// Jobs with indices: the first, the last and the step.
    RunBulk(u32, u32, u32),
    Control(u64, Control),
    Ps(u64),
    Wait(Option<JobId>, Timeout),
    Synchronize(Picked, Timeout, bool),
    /// The next launch, which is to be of this job.
    Launch(u64),
    /// The first launch of this job has ended with code 0.
    End(u64),
}

/// A template of which the command alone is set.
fn plain(rt: &impl Abort, alloc: Global) -> JobTemplate {
    match plain_command(alloc, "true") {
        Ok(template) => template,
        Err(_) => panic!(rt; "there is memory"),
    }
}

/// A list of numbers. Where memory is wanting it is empty, and then no test passes.
fn numbers(alloc: Global, listed: &[u64]) -> IdList {
    match Vec::from_slice(alloc, listed) {
        Ok(list) => IdList::from_vec(list),
        Err(_) => IdList::new(alloc),
    }
}

fn pick(alloc: Global, picked: Picked) -> Pick {
    match picked {
        Picked::All => Pick::All,
        Picked::These(jobs) => Pick::These(numbers(alloc, jobs)),
    }
}

fn wait_for<R: Wait + Pause, C: Clock>(
    rt: &R,
    alloc: Global,
    desk: &mut Desk<C>,
    face: &mut Face,
    job: Option<JobId>,
    timeout: Timeout,
) -> Said
    requires { IsFree desk.old.shared.now desk.old.client }
    ensures client { IsFree desk.new.shared.now desk.new.client }
    ensures shared { desk.new.shared.now ≡ desk.old.shared.now }
{
    ending(face.wait(alloc, rt, desk, job, timeout))
}

fn synchronize<R: Wait + Pause, C: Clock>(
    rt: &R,
    alloc: Global,
    desk: &mut Desk<C>,
    face: &mut Face,
    picked: Picked,
    timeout: Timeout,
    dispose: bool,
) -> Said
    requires { IsFree desk.old.shared.now desk.old.client }
    ensures client { IsFree desk.new.shared.now desk.new.client }
    ensures shared { desk.new.shared.now ≡ desk.old.shared.now }
{
    done(face.synchronize(alloc, rt, desk, pick(alloc, picked), timeout, dispose))
}

/// Whether a launch of this job is told.
fn is_launch(told: &Result<Reply, NoEntry>, number: u64) -> bool {
    match told {
        Ok(Reply::Launch(launch)) => launch.job.0 == number,
        _ => false,
    }
}

/// Launches the next job, which is to have this number.
fn launch<R: Wait, C: Clock>(rt: &R, desk: &mut Desk<C>, number: u64) -> bool
    requires { IsFree desk.old.shared.now desk.old.client }
    ensures client { IsFree desk.new.shared.now desk.new.client }
    ensures shared { desk.new.shared.now ≡ desk.old.shared.now }
{
    let told = desk.call(rt, Call::TakeLaunch);
    is_launch(&told, number)
}

/// Reports that the first launch of a job has ended with code 0.
fn end<R: Wait, C: Clock>(rt: &R, desk: &mut Desk<C>, number: u64) -> bool
    requires { IsFree desk.old.shared.now desk.old.client }
    ensures client { IsFree desk.new.shared.now desk.new.client }
    ensures shared { desk.new.shared.now ≡ desk.old.shared.now }
{
    let call = Call::Exited {
        job: JobId(number),
        attempt: 1,
        exit: Exit::Code(0),
    };
    desk.ask_for::<R, ()>(rt, call).is_ok()
}

/// What a step is answered.
pub fn answer<R: Abort + Wait + Pause, C: Clock>(
    rt: &R,
    alloc: Global,
    desk: &mut Desk<C>,
    face: &mut Face,
    asked: Ask,
) -> Said
    requires { IsFree desk.old.shared.now desk.old.client }
    ensures client { IsFree desk.new.shared.now desk.new.client }
    ensures shared { desk.new.shared.now ≡ desk.old.shared.now }
{
    match asked {
        Ask::Init => done(face.init(rt, desk, None)),
        Ask::Exit => done(face.exit(rt, desk)),
        Ask::Run => job(face.run(rt, desk, plain(rt, alloc))),
        Ask::RunBulk(begin, end, step) => {
            jobs(face.run_bulk(rt, desk, plain(rt, alloc), begin, end, step))
        }
        Ask::Control(job, what) => done(face.control(rt, desk, JobId(job), what)),
        Ask::Ps(job) => state(face.ps(rt, desk, JobId(job))),
        Ask::Wait(job, timeout) => wait_for(rt, alloc, desk, face, job, timeout),
        Ask::Synchronize(pick, timeout, dispose) => {
            synchronize(rt, alloc, desk, face, pick, timeout, dispose)
        }
        Ask::Launch(job) => as_wanted(launch(rt, desk, job)),
        Ask::End(job) => as_wanted(end(rt, desk, job)),
    }
}
