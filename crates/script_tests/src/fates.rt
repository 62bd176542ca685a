//! Runs in threads in which starts, polls and signals fail. None of these faults ends a run, and the journal says of each what became
//! of its job.
use crate::nights::NIGHTLY;
use crate::settings::{fated_spawner, has_begun, is_legal, numbers, sink, source, times};
use child_spawner::Fate;
use drmaa_types::Exit;
use std::alloc::Global;
use std::process::Abort;
use std::sync::Wait;
use std::thread::Threads;
use std::time::Clock as Pause;

/// A client runs a job, which may run again after a start that failed, and waits for its end.
const RERUNNABLE: &str =
    "machine 4 \"node1\" suspend\ntemplate t\ncommand \"true\"\nrerunnable\nend\nclient\ncreate-jobs s \"s\"\nrun j s t\nwait-terminated s infinite j\nstate s j\nend\n";

/// A client has its job killed once that has started, and waits for its end.
const KILLED: &str =
    "machine 4 \"node1\" suspend\ntemplate t\ncommand \"true\"\nend\nclient\ncreate-jobs s \"s\"\nrun j s t\nwait-started s infinite j\nterminate s j\nwait-terminated s infinite j\nstate s j\nend\n";

/// A client suspends its job once that has started, and then has it killed.
const STOPPED: &str =
    "machine 4 \"node1\" suspend\ntemplate t\ncommand \"true\"\nend\nclient\ncreate-jobs s \"s\"\nrun j s t\nwait-started s infinite j\nsuspend s j\nterminate s j\nwait-terminated s infinite j\nstate s j\nend\n";

/// A text, and how often a journal has it.
type Count = (&'static str, usize);

/// A script, the fates of its children in order and the starts that fail, counted from 1; whether each start that is asked for
/// begins; and what the journal may then have, of which one comes true.
struct Play {
    about: &'static str,
    script: &'static str,
    fates: &'static [Fate],
    failing: &'static [u64],
    begun: &'static [bool],
    outcomes: &'static [&'static [Count]],
}

/// A child that ends at once with code 0.
const PLAIN: Fate = Fate {
    polls: 0,
    exit: Exit::Code(0),
    failing_poll: None,
    failing_signal: None,
};

/// The first launch is that of job 1, so the first child is its own.
const PLAYS: &[Play] = &[
    Play {
        about: "the first poll of the first child fails",
        script: NIGHTLY,
        fates: &[Fate {
            failing_poll: Some(1),
            ..PLAIN
        }],
        failing: &[],
        begun: &[true, true],
        outcomes: &[&[
            (" started 1 1 = ok\n", 1),
            (" started 2 1 = ok\n", 1),
            (" exit-unknown 1 1 = ok\n", 1),
            (" exit 2 1 code 0 = ok\n", 1),
            (" exit-unknown ", 1),
            (" = info {", 2),
            (" state FAILED ", 1),
            (" state DONE ", 1),
            (" note exitUnknown}\n", 1),
            (" note ", 1),
        ]],
    },
    Play {
        about: "the third poll of the second child fails",
        script: NIGHTLY,
        fates: &[
            PLAIN,
            Fate {
                polls: 5,
                exit: Exit::Code(3),
                failing_poll: Some(3),
                ..PLAIN
            },
        ],
        failing: &[],
        begun: &[true, true],
        outcomes: &[&[
            (" exit 1 1 code 0 = ok\n", 1),
            (" exit-unknown 2 1 = ok\n", 1),
            (" exit 2 ", 0),
            (" state FAILED ", 1),
            (" state DONE ", 1),
            (" note exitUnknown}\n", 1),
        ]],
    },
    Play {
        about: "both starts fail",
        script: NIGHTLY,
        fates: &[],
        failing: &[1, 2],
        begun: &[false, false],
        outcomes: &[&[
            (" start-failed 1 1 = ok\n", 1),
            (" start-failed 2 1 = ok\n", 1),
            (" started ", 0),
            (" exit ", 0),
            (" state FAILED ", 2),
            (" note startFailed}\n", 2),
        ]],
    },
    Play {
        about: "a third start begins where the first two fail",
        script: RERUNNABLE,
        fates: &[],
        failing: &[1, 2],
        begun: &[false, false, true],
        outcomes: &[&[
            (" start-failed 1 1 = ok\n", 1),
            (" start-failed 1 2 = ok\n", 1),
            (" started 1 3 = ok\n", 1),
            (" exit 1 3 code 0 = ok\n", 1),
            (" = state DONE\n", 1),
        ]],
    },
    Play {
        about: "no start begins",
        script: RERUNNABLE,
        fates: &[],
        failing: &[1, 2, 3],
        begun: &[false, false, false],
        outcomes: &[&[
            (" start-failed 1 3 = ok\n", 1),
            (" started ", 0),
            (" exit ", 0),
            (" = state FAILED\n", 1),
        ]],
    },
    Play {
        about: "the first signal of a long child fails",
        script: KILLED,
        fates: &[Fate {
            polls: 1_000,
            failing_signal: Some(1),
            ..PLAIN
        }],
        failing: &[],
        begun: &[true],
        outcomes: &[
            &[
                (" terminate 1 1 = ok\n", 1),
                (" signal-failed 1 1 kill = ok\n", 1),
                (" signal-done ", 0),
                (" exit 1 1 code 0 = ok\n", 1),
                (" = state FAILED\n", 1),
            ],
            // It ends before its kill is handed out.
            &[
                (" terminate 1 1 = ok\n", 1),
                (" signal", 0),
                (" exit 1 1 code 0 = ok\n", 1),
                (" = state FAILED\n", 1),
            ],
            // It has ended before.
            &[
                (" terminate 1 1 = refused 6 DONE\n", 1),
                (" signal", 0),
                (" exit 1 1 code 0 = ok\n", 1),
                (" = state DONE\n", 1),
            ],
        ],
    },
    Play {
        about: "a kill reaches an endless child",
        script: KILLED,
        fates: &[Fate {
            polls: u32::MAX,
            ..PLAIN
        }],
        failing: &[],
        begun: &[true],
        outcomes: &[&[
            (" terminate 1 1 = ok\n", 1),
            (" signal-done 1 1 kill = ok\n", 1),
            (" signal-failed ", 0),
            (" exit 1 1 signal 9 = ok\n", 1),
            (" = state FAILED\n", 1),
        ]],
    },
    Play {
        about: "a stop fails, and the kill behind it reaches the child",
        script: STOPPED,
        fates: &[Fate {
            polls: u32::MAX,
            failing_signal: Some(1),
            ..PLAIN
        }],
        failing: &[],
        begun: &[true],
        outcomes: &[&[
            (" suspend 1 1 = ok\n", 1),
            (" signal-failed 1 1 stop = ok\n", 1),
            (" terminate 1 1 = ok\n", 1),
            (" signal-done 1 1 kill = ok\n", 1),
            (" exit 1 1 signal 9 = ok\n", 1),
            (" = state FAILED\n", 1),
        ]],
    },
];

/// Whether the journal has each text as often as this.
fn has_counts(journal: &[u8], counts: &[Count]) -> bool {
    for (text, count) in counts {
        if times(journal, *text) != *count {
            return false;
        }
    }
    true
}

/// Whether one of the outcomes came true.
fn is_one_of(journal: &[u8], outcomes: &[&[Count]]) -> bool {
    for counts in outcomes {
        if has_counts(journal, *counts) {
            return true;
        }
    }
    false
}

/// Whether a run ends with status 0 and a legal journal, which has what it may have, and whether the spawner was asked for these starts.
fn goes<E: Abort + Threads + Wait + Pause + Sync>(rt: &E, alloc: Global, play: &Play) -> [bool; 4] {
    let mut source = source(alloc, play.script.as_bytes(), &[]);
    let mut sink = sink(rt, alloc, 8000, &[]);
    let mut spawner = fated_spawner(alloc, play.fates, play.failing);
    let (status, _) = numbers(rt, alloc, "threads", &mut source, &mut sink, &mut spawner);
    let journal = sink.bytes();
    [
        status == 0,
        is_legal(rt, alloc, journal),
        is_one_of(journal, play.outcomes),
        has_begun(&spawner, play.begun),
    ]
}

#[test]
fn no_fault_of_a_child_ends_a_run(rt: HostRuntime) {
    for play in PLAYS {
        let about = play.about;
        assert!(rt; goes(&rt, rt.alloc(), play) == [true; 4], "{about}");
    }
}
