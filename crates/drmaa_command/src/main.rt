//! The program `drmaa`: plays scripts of clients, one made of random numbers too, and writes the journal of what they were answered,
//! the listing of their jobs or counts; and checks journals, writes them in other forms, forecasts their starts, and goes on with
//! them by reservations or a further script.
#![tactic(auto)]

use byte_streams::{StdSink, StdSource};
use call_history::Bell;
use child_spawner::LocalSpawner;
use drmaa_script::{Outcome, Status, SystemClocks, printed_callbacks, run};
use drmaa_types::{Text, TextList};
use std::alloc::{AllocError, Global};
use std::io::IsTerminal;
use std::process::ExitCode;
use std::sync::Wait;
use std::thread::Threads;
use std::time::Clock as Pause;
use std::{env, io};

/// The uses of the program, for who sits at a terminal.
const USAGE: &str = "\
usage: drmaa threads|serial|table <SCRIPT, or drmaa soak N SEED
       drmaa check|migrate|json|forecast <JOURNAL, or continue <JOURNAL_AND_SCRIPT
       drmaa recur NAME UNIT N COUNT @M SECONDS SLOTS <JOURNAL";

/// The words behind the program's name.
fn words(rt: &HostRuntime) -> Result<TextList, io::Error> {
    let mut words = Vec::new(rt.alloc());
    for word in env::args(rt)?.skip(1) {
        words.push(Text::from_string(word))?;
    }
    Ok(TextList::from_vec(words))
}

/// The status where the words could not be taken: one that is not UTF-8 is part of no command.
fn word_status(error: &io::Error) -> Status {
    if error.kind() == io::ErrorKind::OutOfMemory {
        Status::Memory
    } else {
        Status::Words
    }
}

/// Runs the command that the words name on standard input and standard output, with the processes and the clock of this machine.
fn status_of<E: Threads + Wait + Pause + Sync>(
    threads: &E,
    rt: HostRuntime,
    words: &TextList,
) -> Result<Status, AllocError> {
    let folder = Text::from_string(String::from_str(rt.alloc(), ".")?);
    let mut source = StdSource::new(rt.stdin());
    let mut sink = StdSink::new(rt.stdout());
    let mut spawner = LocalSpawner::new(rt, folder);
    let callbacks = printed_callbacks(rt)?;
    let Outcome { status, .. } = run(
        threads,
        rt.alloc(),
        words,
        &mut source,
        &mut sink,
        &SystemClocks::new(rt),
        &mut spawner,
        &Bell::new(),
        callbacks,
    );
    Ok(status)
}

/// Says on standard error how the run ended, and at a terminal how the program is used. Where standard error takes nothing, the
/// number alone has to tell.
fn say(rt: &HostRuntime, status: &Status) {
    let _ = eprintln!(rt; "drmaa: {status}");
    if matches!(status, Status::Words) && rt.stderr().is_terminal() {
        let _ = eprintln!(rt; "{USAGE}");
    }
}

fn main(rt: HostRuntime) -> ExitCode {
    let status = match words(&rt) {
        Ok(words) => status_of(&rt, rt, &words).unwrap_or(Status::Memory),
        Err(error) => word_status(&error),
    };
    if !matches!(status, Status::Done) {
        say(&rt, &status);
    }
    ExitCode::from(status.number())
}
