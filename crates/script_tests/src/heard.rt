//! What callbacks hear of a play on one thread, and of a run in threads.
use crate::settings::{outcome, sink, source, spawner};
use byte_streams::MemorySink;
use change_callbacks::{Callback, Callbacks, MemoryCallback};
use drmaa_script::Outcome;
use drmaa_types::JobState;
use std::alloc::Global;
use std::sync::Wait;
use std::test::Fail;
use std::thread::Threads;
use std::time::Clock as Pause;

/// A callback is registered before a job is run, and another one after that job was held and released. The job's start fails, and a
/// second job is terminated.
const SCRIPT: &str =
    "machine 4 \"node1\" suspend\ntemplate t\ncommand \"true\"\nend\nclient\ncreate-jobs s \"s\"\nregister\nrun j s t\nhold s j\nrelease s j\nregister\nlaunch\nstart-failed j\nrun k s t\nterminate s k\nend\n";

/// A job and its new state.
type Heard = (u64, JobState);

/// What the first callback hears.
const WHOLE: &[Heard] = &[
    (1, JobState::QueuedHeld),
    (1, JobState::Queued),
    (1, JobState::Running),
    (1, JobState::Failed),
    (2, JobState::Failed),
];

/// What the second one hears.
const LATER: &[Heard] = &[
    (1, JobState::Running),
    (1, JobState::Failed),
    (2, JobState::Failed),
];

/// The setup block registers a callback before the client's job is run. Another callback is registered by no line, and hears nothing.
const THREADS: &str =
    "machine 4 \"node1\" suspend\ntemplate t\ncommand \"true\"\nend\nsetup\ncreate-jobs z \"s\"\nregister\nend\nclient\nopen-jobs s \"s\"\nrun j s t\nwait-terminated s infinite j\nend\n";

/// What the callback of the setup block hears.
const IN_THREADS: &[Heard] = &[(1, JobState::Running), (1, JobState::Done)];

/// A command, its script, the status, and what each callback heard. There are two register lines, and one in the script for threads;
/// where there are fewer callbacks nothing is played, and a callback that no line registers hears nothing.
type Row = (&'static str, &'static str, u8, &'static [&'static [Heard]]);

const ROWS: &[Row] = &[
    ("serial", SCRIPT, 0, &[WHOLE, LATER, &[]]),
    ("serial", SCRIPT, 2, &[&[]]),
    ("table", SCRIPT, 0, &[WHOLE, LATER]),
    ("table", SCRIPT, 2, &[]),
    ("threads", THREADS, 0, &[IN_THREADS, &[]]),
    ("threads", THREADS, 2, &[]),
];

/// So many callbacks that keep what they hear.
fn callbacks(alloc: Global, count: usize) -> Result<Callbacks<MemoryCallback>, Fail> {
    let mut callbacks = Vec::new(alloc);
    for _ in 0..count {
        callbacks.push(MemoryCallback::new(alloc)?)?;
    }
    Ok(Callbacks::from_vec(callbacks))
}

/// Whether a callback heard this and nothing else.
fn has_heard(callback: &MemoryCallback, wanted: &[Heard]) -> bool {
    for (heard, n) in wanted.iter().zip(1..=8) {
        let (job, state) = heard;
        match callback.heard(n) {
            Some(told) if told.job.0 == *job && told.state == *state => {}
            _ => return false,
        }
    }
    callback.calls() == wanted.len() as u64
}

/// Whether each callback heard what is wanted of it.
fn have_heard(callbacks: &[MemoryCallback], wanted: &[&[Heard]]) -> bool {
    for (callback, wanted) in callbacks.iter().zip(wanted.iter()) {
        if !has_heard(callback, *wanted) {
            return false;
        }
    }
    callbacks.len() == wanted.len()
}

/// The status of a run with these callbacks, and these.
fn heard_run<E: Threads + Wait + Pause + Sync>(
    rt: &E,
    alloc: Global,
    word: &str,
    text: &str,
    sink: &mut MemorySink,
    callbacks: Callbacks<MemoryCallback>,
) -> (u8, Callbacks<MemoryCallback>) {
    let mut source = source(alloc, text.as_bytes(), &[]);
    let mut spawner = spawner(alloc, &[]);
    let Outcome {
        status,
        callbacks,
        ..
    } = outcome(rt, alloc, word, &mut source, sink, &mut spawner, callbacks);
    (status.number(), callbacks)
}

#[test]
fn callbacks_hear_what_comes_behind_them(rt: HostRuntime) -> Result<(), Fail> {
    let alloc = rt.alloc();
    for (word, text, wanted, heard) in ROWS {
        let mut sink = sink(&rt, alloc, 2000, &[]);
        let callbacks = callbacks(alloc, heard.len())?;
        let (status, callbacks) = heard_run(&rt, alloc, *word, *text, &mut sink, callbacks);
        assert!(rt; status == *wanted, "{word}");
        assert!(rt; have_heard(callbacks.as_slice(), *heard));
        assert!(rt; sink.bytes().is_empty() == (*wanted == 2));
    }
    Ok(())
}
