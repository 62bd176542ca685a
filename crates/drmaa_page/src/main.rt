//! The program of the page of `drmaa`, word for word.
#![tactic(auto)]

ghost use Rattle.std.specs.Prelude.{◌≡◌};
ghost use Rattle.turn_lock.specs.Tokens.{IsFree};

use drmaa::{
    Bytes, Callbacks, Clock, Desk, Ended, JobState, JobTemplate, MemoryCallback, Refusal,
    SessionManager, SystemClock, Text, Timeout, journal_bytes, plain_config, with_local_machine,
};
use std::alloc::Global;
use std::fs;
use std::sync::Wait;
use std::test::Fail;
use std::thread::Threads;
use std::time::Clock as Pause;

/// A job that runs a line of `sh`.
fn shell(alloc: Global, line: &str) -> Result<JobTemplate, Refusal> {
    Ok(JobTemplate::command(alloc, "sh")?.args(&["-c", line])?)
}

/// How the last job ended, and what is said of an array that ends before it begins.
#[derive(Drop)]
struct Report {
    last: JobState,
    refused: String,
}

/// Ten processes compute a square each, at most four at once; a further one collects what they wrote.
fn squares<R: Wait + Pause, C: Clock>(
    rt: &R,
    alloc: Global,
    desk: &mut Desk<C>,
) -> Result<Report, Refusal>
    requires { IsFree desk.old.shared.now desk.old.client }
    ensures { IsFree desk.old.shared.now desk.new.client }
{
    let session = SessionManager {}.create_job_session(rt, desk, None)?;
    let line = "echo $(($DRMAA2_INDEX$ * $DRMAA2_INDEX$)) > square-$DRMAA2_INDEX$";
    let array = session.run_bulk_jobs(rt, desk, shell(alloc, line)?, 1, 10, 1, Some(4))?;
    array.wait_terminated(alloc, rt, desk, Timeout::Infinite)?;
    let line = "cat square-* | sort -n > squares; rm square-*";
    let job = session.run_job(rt, desk, shell(alloc, line)?)?;
    job.wait_terminated(alloc, rt, desk, Timeout::Infinite)?;
    let last = job.get_state(rt, desk)?;
    let refused = match session.run_bulk_jobs(rt, desk, shell(alloc, "true")?, 10, 1, 1, None) {
        Ok(_) => String::new(alloc),
        Err(refusal) => format!(in alloc; "{refusal}")?,
    };
    Ok(Report { last, refused })
}

/// Does the work on a machine of its own with eight slots, in this folder. Its report, how many entries the machine's history has
/// then, and its journal.
fn run<E: Threads + Wait + Pause + Sync>(
    threads: &E,
    rt: HostRuntime,
) -> Result<(Report, usize, Bytes), Refusal> {
    let alloc = rt.alloc();
    let callbacks: Callbacks<MemoryCallback> = Callbacks::new(alloc);
    let ended = with_local_machine(
        threads,
        rt,
        plain_config(alloc, 8, "local")?,
        Text::of(alloc, ".")?,
        callbacks,
        |desk: &mut Desk<SystemClock>| -> Result<Report, Refusal>
            requires { IsFree desk.old.shared.now desk.old.client }
            ensures { IsFree desk.old.shared.now desk.new.client }
        { squares(threads, alloc, desk) },
    )?;
    let Ended { value, machine, .. } = ended;
    let journal = journal_bytes(alloc, machine.config(), machine.entries())?;
    Ok((value?, machine.entries().len(), journal))
}

fn main(rt: HostRuntime) -> Result<(), Fail> {
    let (Report { last, refused }, entries, journal) = run(&rt, rt)?;
    fs::write(&rt, "journal", journal.as_slice())?;
    print!(rt; "{}", fs::read_to_string(&rt, "squares")?)?;
    println!(rt; "the last job: {last}")?;
    println!(rt; "refused: {refused}")?;
    println!(rt; "{entries} entries")?;
    Ok(())
}
