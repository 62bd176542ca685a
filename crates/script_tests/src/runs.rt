//! Runs on sources and sinks in memory whose calls fail one after the other.
use crate::settings::{numbers, places, source, spawner};
use byte_streams::MemorySink;
use std::alloc::Global;
use std::process::Abort;
use std::sync::Wait;
use std::thread::Threads;
use std::time::Clock as Pause;

const SCRIPT: &str =
    "machine 4 \"node1\" suspend\ntemplate t\ncommand \"true\"\nend\nclient\ncreate-jobs s \"s\"\nrun j s t\nlaunch\nexit j 0\nstate s j\nend\n";

const JOURNAL: &str =
    "drmaa-journal 2 4 \"node1\" suspend []\n1 1 @0 create-jobs \"s\" = session 1\n2 1 @0 run 1 {command \"true\"} = job 1\n3 2 @0 launch = launch 1 1 1 [\"\" \"\" \"\" \"\" \"apart\" \"0\" \"true\"]\n4 3 @0 exit 1 1 code 0 = ok\n5 1 @0 state 1 1 = state DONE\nend 5\n";

const OLD_JOURNAL: &str =
    "drmaa-journal 1 4 \"node1\" suspend\n1 1 @0 create-jobs \"s\" = session 1\n2 1 @0 run 1 {command \"true\"} = job 1\n3 2 @0 launch = launch 1 1 1 [\"\" \"\" \"\" \"\" \"apart\" \"0\" \"true\"]\n4 3 @0 exit 1 1 code 0 = ok\n5 1 @0 state 1 1 = state DONE\nend 5\n";

const TABLE: &str = "       job state         slots name\n         1 DONE              1 -\n";

/// The JSON form of the journal.
const FORM: &str =
    "{\"entries\":[{\"at\":0,\"call\":\"create-jobs \\\"s\\\"\",\"caller\":1,\"n\":1,\"reply\":\"session 1\"},{\"at\":0,\"call\":\"run 1 {command \\\"true\\\"}\",\"caller\":1,\"n\":2,\"reply\":\"job 1\"},{\"at\":0,\"call\":\"launch\",\"caller\":2,\"n\":3,\"reply\":\"launch 1 1 1 [\\\"\\\" \\\"\\\" \\\"\\\" \\\"\\\" \\\"apart\\\" \\\"0\\\" \\\"true\\\"]\"},{\"at\":0,\"call\":\"exit 1 1 code 0\",\"caller\":3,\"n\":4,\"reply\":\"ok\"},{\"at\":0,\"call\":\"state 1 1\",\"caller\":1,\"n\":5,\"reply\":\"state DONE\"}],\"machine\":{\"name\":\"node1\",\"queues\":[],\"slots\":4,\"suspend\":true}}\n";

/// Ten jobs wait, each for one of four slots and for ten seconds.
const WAITING: &str =
    "drmaa-journal 2 4 \"node1\" suspend []\n1 1 @0 create-jobs \"s\" = session 1\n2 1 @0 bulk 1 {command \"true\" limit WALLCLOCK_TIME 10} 1 10 1 - = array 1 1 10\nend 2\n";

/// When they start.
const STARTS: &str =
    "1 @0 1\n2 @0 1\n3 @0 1\n4 @0 1\n5 @10 1\n6 @10 1\n7 @10 1\n8 @10 1\n9 @20 1\n10 @20 1\nstarts 10\n";

/// Three reservations, a month apart from 31 January 2025 on, on a machine with a session for them.
const MONTHLY: &str = "recur q months 1 3 @1738281600 3600 2";

const SESSION: &str =
    "drmaa-journal 2 4 \"node1\" suspend []\n1 1 @0 create-reservations \"q\" = session 1\nend 1\n";

const RESERVED: &str =
    "drmaa-journal 2 4 \"node1\" suspend []\n1 1 @0 create-reservations \"q\" = session 1\n2 0 @0 open-reservations \"q\" = session 2\n3 0 @0 reserve 2 {start @1738281600 duration 3600 minslots 2} = reserved 1 2 @1738281600 @1738285200\n4 0 @0 reserve 2 {start @1740700800 duration 3600 minslots 2} = reserved 2 2 @1740700800 @1740704400\n5 0 @0 reserve 2 {start @1743379200 duration 3600 minslots 2} = reserved 3 2 @1743379200 @1743382800\nend 5\n";

/// A journal with a job that is started, and a script that asks for its state.
const OLD_AND_NEW: &str =
    "drmaa-journal 2 4 \"node1\" suspend []\n1 1 @0 create-jobs \"s\" = session 1\n2 1 @0 run 1 {command \"true\"} = job 1\n3 2 @0 launch = launch 1 1 1 [\"\" \"\" \"\" \"\" \"apart\" \"0\" \"true\"]\nend 3\nmachine 4 \"node1\" suspend\nclient\nstate #1 #1\nend\n";

/// Its process is gone, and nobody can learn how it ended.
const CONTINUED: &str =
    "drmaa-journal 2 4 \"node1\" suspend []\n1 1 @0 create-jobs \"s\" = session 1\n2 1 @0 run 1 {command \"true\"} = job 1\n3 2 @0 launch = launch 1 1 1 [\"\" \"\" \"\" \"\" \"apart\" \"0\" \"true\"]\n4 0 @0 exit-unknown 1 1 = ok\n5 1 @0 state 1 1 = state FAILED\nend 5\n";

/// A client plays its block with the names of setup. Its job is held, and so nobody else has an entry.
const THREADS_SCRIPT: &str =
    "machine 4 \"node1\" suspend\ntemplate t\ncommand \"true\"\nhold\nend\nsetup\ncreate-jobs z \"nightly\"\nend\nclient\nopen-jobs s \"nightly\"\nrun j s t\nwait-started s 1 j\nterminate s j\nwait-terminated s infinite j\nstate s j\nend\n";

/// The client reads 10, 11 and so on from its clock; a wait reads its beginning, and then its look.
const THREADS_JOURNAL: &str =
    "drmaa-journal 2 4 \"node1\" suspend []\n1 0 @0 create-jobs \"nightly\" = session 1\n2 1 @10 open-jobs \"nightly\" = session 2\n3 1 @11 run 2 {command \"true\" hold} = job 1\n4 1 @13 wait-started 2 @12 1 [1] = refused 3\n5 1 @14 terminate 2 1 = ok\n6 1 @16 wait-terminated 2 @15 infinite [1] = reached 1\n7 1 @17 state 2 1 = state FAILED\nend 7\n";

/// Each command, what it reads, and what it writes.
const COMMANDS: &[(&str, &str, &str)] = &[
    ("serial", SCRIPT, JOURNAL),
    ("threads", THREADS_SCRIPT, THREADS_JOURNAL),
    ("table", SCRIPT, TABLE),
    ("check", JOURNAL, "legal 5\n"),
    ("migrate", OLD_JOURNAL, JOURNAL),
    ("json", JOURNAL, FORM),
    ("forecast", WAITING, STARTS),
    (MONTHLY, SESSION, RESERVED),
    ("continue", OLD_AND_NEW, CONTINUED),
];

/// A run: its words, its text and the reads that fail, how many bytes can be written, the writes that fail, and whether finishing
/// fails.
#[derive(Clone, Copy)]
struct Setting<'a> {
    line: &'a str,
    text: &'a str,
    reads: &'a [u64],
    room: usize,
    writes: &'a [u64],
    finish_fails: bool,
}

/// A run of these words on this text of which nothing fails.
fn plain<'a>(line: &'a str, text: &'a str) -> Setting<'a> {
    Setting {
        line,
        text,
        reads: &[],
        room: 1000,
        writes: &[],
        finish_fails: false,
    }
}

/// A sink as the setting has it.
fn sink_of(rt: &impl Abort, alloc: Global, run: &Setting) -> MemorySink {
    match MemorySink::new(alloc, run.room, places(alloc, run.writes), run.finish_fails) {
        Ok(sink) => sink,
        Err(_) => panic!(rt; "there is memory"),
    }
}

/// Whether a run ends with this status, and the bytes that it writes are so many first ones of this text.
fn ends<E: Abort + Threads + Wait + Pause + Sync>(
    rt: &E,
    alloc: Global,
    run: &Setting,
    status: u8,
    written: &str,
    count: usize,
) -> bool {
    let mut source = source(alloc, run.text.as_bytes(), run.reads);
    let mut sink = sink_of(rt, alloc, run);
    let mut spawner = spawner(alloc, &[]);
    let (number, _) = numbers(rt, alloc, run.line, &mut source, &mut sink, &mut spawner);
    number == status && is_front(sink.bytes(), written, count)
}

/// Whether these are so many first bytes of the text.
fn is_front(bytes: &[u8], text: &str, count: usize) -> bool {
    bytes.len() == count && text.as_bytes().starts_with(bytes)
}

/// How many calls move so many bytes, of which each moves at most 64.
fn calls(length: usize) -> u64 {
    length.div_ceil(64) as u64
}

#[test]
fn each_read_may_fail(rt: HostRuntime) {
    for (word, text, written) in COMMANDS {
        // The last read finds the end, and no other one follows.
        let last = calls(text.len()).saturating_add(1);
        for failing in 1..=last.saturating_add(1) {
            let (status, count) = if failing <= last {
                (3, 0)
            } else {
                (0, written.len())
            };
            let reads = [failing];
            let run = Setting {
                reads: &reads,
                ..plain(word, text)
            };
            assert!(rt;
                ends(&rt, rt.alloc(), &run, status, written, count),
                "{word} {failing}"
            );
        }
    }
}

#[test]
fn each_write_may_fail(rt: HostRuntime) {
    for (word, text, written) in COMMANDS {
        let last = calls(written.len());
        for failing in 1..=last.saturating_add(1) {
            let (status, count) = if failing <= last {
                (4, (failing.saturating_sub(1) as usize).saturating_mul(64))
            } else {
                (0, written.len())
            };
            let writes = [failing];
            let run = Setting {
                writes: &writes,
                ..plain(word, text)
            };
            assert!(rt;
                ends(&rt, rt.alloc(), &run, status, written, count),
                "{word} {failing}"
            );
        }
    }
}

#[test]
fn the_last_bytes_may_find_no_room_and_finishing_may_fail(rt: HostRuntime) {
    for (word, text, written) in COMMANDS {
        let length = written.len();
        for (room, finish_fails, status) in [
            (length, false, 0),
            (length.saturating_sub(1), false, 4),
            (length, true, 4),
        ] {
            let run = Setting {
                room,
                finish_fails,
                ..plain(word, text)
            };
            assert!(rt;
                ends(&rt, rt.alloc(), &run, status, written, room),
                "{word} {room}"
            );
        }
    }
}

/// A journal whose fourth entry is not legal, since the job was not launched.
const ILLEGAL: &str =
    "drmaa-journal 2 4 \"node1\" suspend []\n1 1 @0 create-jobs \"s\" = session 1\n2 1 @0 run 1 {command \"true\"} = job 1\n3 3 @0 exit 1 0 code 0 = refused 6 QUEUED\n4 3 @0 exit 1 0 code 0 = ok\nend 4\n";

/// A journal whose last entry is not legal, since the job was launched, and a script behind it.
const FORGED: &str =
    "drmaa-journal 2 4 \"node1\" suspend []\n1 1 @0 create-jobs \"s\" = session 1\n2 1 @0 run 1 {command \"true\"} = job 1\n3 2 @0 launch = launch 1 1 1 [\"\" \"\" \"\" \"\" \"apart\" \"0\" \"true\"]\n4 1 @0 state 1 1 = state QUEUED\nend 4\nmachine 4 \"node1\" suspend\nclient\nstate #1 #1\nend\n";

/// Words, a text, the reads that fail, and the number of the status; each write would fail. A cause that comes first hides
/// those behind it: the words, reading, the text, what is wrong with the journal, writing.
const ORDER: &[(&str, &str, &[u64], u8)] = &[
    ("", SCRIPT, &[1], 2),
    ("serial x", SCRIPT, &[1], 2),
    ("Serial", SCRIPT, &[1], 2),
    ("threads x", SCRIPT, &[1], 2),
    ("-serial", SCRIPT, &[1], 2),
    ("--help", SCRIPT, &[1], 2),
    ("forecast x", SCRIPT, &[1], 2),
    ("recur q days 0 1 @0 1 1", SCRIPT, &[1], 2),
    ("continue x", SCRIPT, &[1], 2),
    ("soak 1 x", SCRIPT, &[1], 2),
    ("serial", JOURNAL, &[5], 3),
    ("table", JOURNAL, &[5], 3),
    ("threads", JOURNAL, &[5], 3),
    ("check", SCRIPT, &[3], 3),
    ("migrate", SCRIPT, &[3], 3),
    ("json", SCRIPT, &[3], 3),
    ("forecast", ILLEGAL, &[3], 3),
    (MONTHLY, ILLEGAL, &[3], 3),
    ("continue", FORGED, &[3], 3),
    ("serial", JOURNAL, &[], 1),
    ("table", JOURNAL, &[], 1),
    ("threads", SCRIPT, &[], 1),
    ("check", SCRIPT, &[], 1),
    ("migrate", SCRIPT, &[], 1),
    ("json", SCRIPT, &[], 1),
    ("forecast", SCRIPT, &[], 1),
    (MONTHLY, SCRIPT, &[], 1),
    ("continue", SCRIPT, &[], 1),
    ("check", ILLEGAL, &[], 7),
    ("forecast", ILLEGAL, &[], 7),
    (MONTHLY, ILLEGAL, &[], 7),
    ("continue", FORGED, &[], 7),
    ("serial", SCRIPT, &[], 4),
    ("threads", THREADS_SCRIPT, &[], 4),
    ("migrate", OLD_JOURNAL, &[], 4),
    ("json", ILLEGAL, &[], 4),
    ("forecast", WAITING, &[], 4),
    (MONTHLY, SESSION, &[], 4),
    ("continue", OLD_AND_NEW, &[], 4),
    // It reads nothing.
    ("soak 4 1", SCRIPT, &[1], 4),
];

#[test]
fn causes_come_in_their_order(rt: HostRuntime) {
    for (line, text, reads, status) in ORDER {
        let run = Setting {
            reads,
            writes: &[1, 2, 3, 4, 5],
            ..plain(line, text)
        };
        assert!(rt;
            ends(&rt, rt.alloc(), &run, *status, "", 0),
            "{line} {status}"
        );
    }
}
