//! Scripts for threads, with a spawner that starts nothing.
use crate::settings::{has_begun, is_legal, numbers, sink, source, spawner, times};
use byte_streams::MemorySink;
use child_spawner::MemorySpawner;
use std::alloc::Global;
use std::process::Abort;
use std::sync::Wait;
use std::thread::Threads;
use std::time::Clock as Pause;

/// Two clients of a session that setup has made: each runs a job, waits for its end, asks for its information and reaps it.
pub const NIGHTLY: &str =
    "machine 4 \"node1\" suspend\ntemplate t\ncommand \"sh\"\narg \"-c\"\narg \"exit 0\"\ndirectory \"/tmp\"\noutput \"out.txt\"\nenv \"A\" \"b\"\nminslots 1\nlimit WALLCLOCK_TIME 3600\nend\nsetup\ncreate-jobs z \"nightly\"\nend\nclient\nopen-jobs s \"nightly\"\nrun j s t\nwait-terminated s infinite j\ninfo s j\nreap s j\nend\nclient\nopen-jobs s \"nightly\"\nrun j s t\nwait-terminated s infinite j\ninfo s j\nreap s j\nend\n";

/// A machine, and nobody who calls it.
const MACHINE: &str = "machine 4 \"node1\" suspend\n";

/// The status of a run of this script, and how many clocks it gives back.
fn ran<E: Threads + Wait + Pause + Sync>(
    rt: &E,
    alloc: Global,
    text: &str,
    sink: &mut MemorySink,
    spawner: &mut MemorySpawner,
) -> (u8, usize) {
    let mut source = source(alloc, text.as_bytes(), &[]);
    numbers(rt, alloc, "threads", &mut source, sink, spawner)
}

/// How many infos the journal has, how many of them are of a job that is done, how many notes, and how many of these are that a
/// start failed.
fn counts(journal: &[u8]) -> [usize; 4] {
    [
        times(journal, "= info {"),
        times(journal, " state DONE "),
        times(journal, " note "),
        times(journal, "note startFailed"),
    ]
}

/// The second start fails, and with it the job of one of the clients. Setup, clients, launcher, reaper and the hub are six callers.
#[test]
fn clients_in_threads_leave_a_legal_journal(rt: HostRuntime) {
    let alloc = rt.alloc();
    let mut sink = sink(&rt, alloc, 8000, &[]);
    let mut spawner = spawner(alloc, &[2]);
    let ran = ran(&rt, alloc, NIGHTLY, &mut sink, &mut spawner);
    let counts = counts(sink.bytes());
    let begun = has_begun(&spawner, &[true, false]);
    let legal = is_legal(&rt, alloc, sink.bytes());
    assert!(rt; (ran, counts) == ((0, 6), [2, 1, 1, 1]));
    assert!(rt; (begun, legal) == (true, true));
}

/// Nothing is called and nothing started. Setup, launcher, reaper and the hub have a clock where there are no clients.
#[test]
fn a_machine_alone_is_called_by_nobody(rt: HostRuntime) {
    let alloc = rt.alloc();
    let mut sink = sink(&rt, alloc, 100, &[]);
    let mut spawner = spawner(alloc, &[]);
    let ran = ran(&rt, alloc, MACHINE, &mut sink, &mut spawner);
    let quiet = has_begun(&spawner, &[]);
    let empty = sink.bytes() == "drmaa-journal 2 4 \"node1\" suspend []\nend 0\n".as_bytes();
    assert!(rt; (ran, quiet, empty) == ((0, 4), true, true));
}
