//! Launches of new attempts, starts that fail, and ends.
use crate::asking::{Ask, Said};
use crate::machines::Fails;
use crate::playing::{Play, Step, run_plays};
use crate::telling::Event;
use crate::wording::{CREATE, RUN, RUN_AGAIN};
use drmaa_types::{Exit, JobState};

/// A child is started once, with its job's words, runs for two polls, and its end is reported once.
const A_CHILD_IS_STARTED_AND_REAPED: Play = Play {
    about: "a child is started and reaped",
    journal: 4_000_000,
    courses: &[(2, Exit::Code(0), Fails::Never)],
    failing: &[],
    steps: &[
        CREATE,
        Step::LaunchesNone,
        Step::Client(RUN, Said::Job(1)),
        Step::Launches(1),
        Step::LaunchesNone,
        Step::Reaps(0),
        Step::Client(Ask::State(1), Said::State(JobState::Running)),
        Step::Reaps(0),
        Step::Reaps(1),
        Step::Client(Ask::State(1), Said::State(JobState::Done)),
        Step::Reaps(0),
    ],
    launcher: &[(1, 1, Event::Launched), (1, 1, Event::Started)],
    reaper: &[(1, 1, Event::Exited(Exit::Code(0)))],
    asked: &[(1, 1, true)],
};

/// A start that fails is reported as such, and ends a job that is not rerunnable.
const A_START_THAT_FAILS_ENDS_THE_JOB: Play = Play {
    about: "a start that fails ends the job",
    journal: 4_000_000,
    courses: &[],
    failing: &[1],
    steps: &[
        CREATE,
        Step::Client(RUN, Said::Job(1)),
        Step::FailsToStart(1),
        Step::Client(Ask::State(1), Said::State(JobState::Failed)),
        Step::LaunchesNone,
        Step::Reaps(0),
    ],
    launcher: &[(1, 1, Event::Launched), (1, 1, Event::StartFailed)],
    reaper: &[],
    asked: &[(1, 1, false)],
};

/// A rerunnable job is launched again after a first and a second start that failed, and not after a third.
const A_RERUNNABLE_START_IS_TRIED_THREE_TIMES: Play = Play {
    about: "a rerunnable start is tried three times",
    journal: 4_000_000,
    courses: &[],
    failing: &[1, 2, 3],
    steps: &[
        CREATE,
        Step::Client(RUN_AGAIN, Said::Job(1)),
        Step::FailsToStart(1),
        Step::Client(Ask::State(1), Said::State(JobState::Requeued)),
        Step::FailsToStart(1),
        Step::Client(Ask::State(1), Said::State(JobState::Requeued)),
        Step::FailsToStart(1),
        Step::Client(Ask::State(1), Said::State(JobState::Failed)),
        Step::LaunchesNone,
    ],
    launcher: &[
        (1, 1, Event::Launched),
        (1, 1, Event::StartFailed),
        (1, 2, Event::Launched),
        (1, 2, Event::StartFailed),
        (1, 3, Event::Launched),
        (1, 3, Event::StartFailed),
    ],
    reaper: &[],
    asked: &[(1, 1, false), (1, 2, false), (1, 3, false)],
};

/// A rerunnable job that ends with the code 99 is launched again, and each end is reported of its own attempt. A report of the first
/// attempt that comes late is refused.
const A_SECOND_ATTEMPT_HAS_ITS_OWN_END: Play = Play {
    about: "a second attempt has its own end",
    journal: 4_000_000,
    courses: &[
        (0, Exit::Code(99), Fails::Never),
        (0, Exit::Code(0), Fails::Never),
    ],
    failing: &[],
    steps: &[
        CREATE,
        Step::Client(RUN_AGAIN, Said::Job(1)),
        Step::Launches(1),
        Step::Reaps(1),
        Step::Client(Ask::State(1), Said::State(JobState::Requeued)),
        Step::Launches(1),
        Step::Client(
            Ask::Exited(1, Exit::Code(0)),
            Said::InState(JobState::Running),
        ),
        Step::Client(Ask::State(1), Said::State(JobState::Running)),
        Step::Reaps(1),
        Step::Client(Ask::State(1), Said::State(JobState::Done)),
    ],
    launcher: &[
        (1, 1, Event::Launched),
        (1, 1, Event::Started),
        (1, 2, Event::Launched),
        (1, 2, Event::Started),
    ],
    reaper: &[
        (1, 1, Event::Exited(Exit::Code(99))),
        (1, 2, Event::Exited(Exit::Code(0))),
    ],
    asked: &[(1, 1, true), (1, 2, true)],
};

/// A poll that fails takes the child out, and its end is reported as one that can't be learnt.
const AN_END_THAT_IS_NOT_LEARNT_FAILS_THE_JOB: Play = Play {
    about: "an end that is not learnt fails the job",
    journal: 4_000_000,
    courses: &[(0, Exit::Code(0), Fails::Poll)],
    failing: &[],
    steps: &[
        CREATE,
        Step::Client(RUN, Said::Job(1)),
        Step::Client(RUN, Said::Job(2)),
        Step::Launches(1),
        Step::Launches(2),
        Step::Reaps(2),
        Step::Client(Ask::State(1), Said::State(JobState::Failed)),
        Step::Client(Ask::State(2), Said::State(JobState::Done)),
        Step::Reaps(0),
    ],
    launcher: &[
        (1, 1, Event::Launched),
        (1, 1, Event::Started),
        (2, 1, Event::Launched),
        (2, 1, Event::Started),
    ],
    reaper: &[
        (1, 1, Event::ExitUnknown),
        (2, 1, Event::Exited(Exit::Code(0))),
    ],
    asked: &[(1, 1, true), (2, 1, true)],
};

/// A report of the same end that another caller made before leaves nothing to report but a refused entry, which counts.
const A_REPORT_THAT_IS_REFUSED_COUNTS: Play = Play {
    about: "a report that is refused counts",
    journal: 4_000_000,
    courses: &[],
    failing: &[],
    steps: &[
        CREATE,
        Step::Client(RUN, Said::Job(1)),
        Step::Launches(1),
        Step::Client(Ask::Exited(1, Exit::Code(1)), Said::Unit),
        Step::Client(Ask::State(1), Said::State(JobState::Failed)),
        Step::Reaps(1),
        Step::Client(Ask::State(1), Said::State(JobState::Failed)),
        Step::Reaps(0),
    ],
    launcher: &[(1, 1, Event::Launched), (1, 1, Event::Started)],
    reaper: &[(1, 1, Event::Exited(Exit::Code(0)))],
    asked: &[(1, 1, true)],
};

/// The loops go on until all jobs have ended.
const THE_LOOPS_END_ONCE_ALL_IS_SETTLED: Play = Play {
    about: "the loops end once all is settled",
    journal: 4_000_000,
    courses: &[
        (3, Exit::Code(0), Fails::Never),
        (5, Exit::Signal(11), Fails::Never),
    ],
    failing: &[3],
    steps: &[
        CREATE,
        Step::Attends,
        Step::Client(RUN, Said::Job(1)),
        Step::Client(RUN, Said::Job(2)),
        Step::Attends,
        Step::Client(Ask::State(1), Said::State(JobState::Done)),
        Step::Client(Ask::State(2), Said::State(JobState::Failed)),
        Step::Client(RUN, Said::Job(3)),
        Step::Finishes,
        Step::Client(Ask::State(3), Said::State(JobState::Failed)),
    ],
    launcher: &[
        (1, 1, Event::Launched),
        (1, 1, Event::Started),
        (2, 1, Event::Launched),
        (2, 1, Event::Started),
        (3, 1, Event::Launched),
        (3, 1, Event::StartFailed),
    ],
    reaper: &[
        (1, 1, Event::Exited(Exit::Code(0))),
        (2, 1, Event::Exited(Exit::Signal(11))),
    ],
    asked: &[(1, 1, true), (2, 1, true), (3, 1, false)],
};

/// Ten jobs on four slots. Child 1 ends at its first poll, and 2, 3 and 4 each a round later. Each other child is started once the
/// fourth before it has ended, and so ends in a round of its own: four children are started, and no fifth; in each round after that
/// one ends, and the next is started in its place. Each is started and reaped once, in order.
const TEN_JOBS_SHARE_FOUR_SLOTS: Play = Play {
    about: "ten jobs share four slots",
    journal: 4_000_000,
    courses: &[
        (0, Exit::Code(0), Fails::Never),
        (1, Exit::Code(2), Fails::Never),
        (2, Exit::Signal(15), Fails::Never),
        (3, Exit::Code(0), Fails::Never),
        (3, Exit::Code(99), Fails::Never),
        (3, Exit::Code(0), Fails::Never),
        (3, Exit::Code(0), Fails::Never),
        (3, Exit::Code(0), Fails::Never),
        (3, Exit::Code(0), Fails::Never),
        (3, Exit::Code(1), Fails::Never),
    ],
    failing: &[],
    steps: &[
        CREATE,
        Step::Client(RUN, Said::Job(1)),
        Step::Client(RUN, Said::Job(2)),
        Step::Client(RUN, Said::Job(3)),
        Step::Client(RUN, Said::Job(4)),
        Step::Client(RUN, Said::Job(5)),
        Step::Client(RUN, Said::Job(6)),
        Step::Client(RUN, Said::Job(7)),
        Step::Client(RUN, Said::Job(8)),
        Step::Client(RUN, Said::Job(9)),
        Step::Client(RUN, Said::Job(10)),
        Step::Launches(1),
        Step::Launches(2),
        Step::Launches(3),
        Step::Launches(4),
        Step::LaunchesNone,
        Step::Client(Ask::State(5), Said::State(JobState::Queued)),
        Step::Reaps(1),
        Step::Launches(5),
        Step::LaunchesNone,
        Step::Client(Ask::State(6), Said::State(JobState::Queued)),
        Step::Reaps(1),
        Step::Launches(6),
        Step::LaunchesNone,
        Step::Client(Ask::State(7), Said::State(JobState::Queued)),
        Step::Reaps(1),
        Step::Launches(7),
        Step::LaunchesNone,
        Step::Client(Ask::State(8), Said::State(JobState::Queued)),
        Step::Reaps(1),
        Step::Launches(8),
        Step::LaunchesNone,
        Step::Client(Ask::State(9), Said::State(JobState::Queued)),
        Step::Reaps(1),
        Step::Launches(9),
        Step::LaunchesNone,
        Step::Client(Ask::State(10), Said::State(JobState::Queued)),
        Step::Reaps(1),
        Step::Launches(10),
        Step::LaunchesNone,
        Step::Reaps(1),
        Step::Reaps(1),
        Step::Reaps(1),
        Step::Reaps(1),
        Step::Reaps(0),
        Step::Client(Ask::State(1), Said::State(JobState::Done)),
        Step::Client(Ask::State(4), Said::State(JobState::Done)),
        Step::Client(Ask::State(6), Said::State(JobState::Done)),
        Step::Client(Ask::State(7), Said::State(JobState::Done)),
        Step::Client(Ask::State(8), Said::State(JobState::Done)),
        Step::Client(Ask::State(9), Said::State(JobState::Done)),
        Step::Client(Ask::State(2), Said::State(JobState::Failed)),
        Step::Client(Ask::State(3), Said::State(JobState::Failed)),
        Step::Client(Ask::State(5), Said::State(JobState::Failed)),
        Step::Client(Ask::State(10), Said::State(JobState::Failed)),
    ],
    launcher: &[
        (1, 1, Event::Launched),
        (1, 1, Event::Started),
        (2, 1, Event::Launched),
        (2, 1, Event::Started),
        (3, 1, Event::Launched),
        (3, 1, Event::Started),
        (4, 1, Event::Launched),
        (4, 1, Event::Started),
        (5, 1, Event::Launched),
        (5, 1, Event::Started),
        (6, 1, Event::Launched),
        (6, 1, Event::Started),
        (7, 1, Event::Launched),
        (7, 1, Event::Started),
        (8, 1, Event::Launched),
        (8, 1, Event::Started),
        (9, 1, Event::Launched),
        (9, 1, Event::Started),
        (10, 1, Event::Launched),
        (10, 1, Event::Started),
    ],
    reaper: &[
        (1, 1, Event::Exited(Exit::Code(0))),
        (2, 1, Event::Exited(Exit::Code(2))),
        (3, 1, Event::Exited(Exit::Signal(15))),
        (4, 1, Event::Exited(Exit::Code(0))),
        (5, 1, Event::Exited(Exit::Code(99))),
        (6, 1, Event::Exited(Exit::Code(0))),
        (7, 1, Event::Exited(Exit::Code(0))),
        (8, 1, Event::Exited(Exit::Code(0))),
        (9, 1, Event::Exited(Exit::Code(0))),
        (10, 1, Event::Exited(Exit::Code(1))),
    ],
    asked: &[
        (1, 1, true),
        (2, 1, true),
        (3, 1, true),
        (4, 1, true),
        (5, 1, true),
        (6, 1, true),
        (7, 1, true),
        (8, 1, true),
        (9, 1, true),
        (10, 1, true),
    ],
};

const PLAYS: &[Play] = &[
    A_CHILD_IS_STARTED_AND_REAPED,
    A_START_THAT_FAILS_ENDS_THE_JOB,
    A_RERUNNABLE_START_IS_TRIED_THREE_TIMES,
    A_SECOND_ATTEMPT_HAS_ITS_OWN_END,
    AN_END_THAT_IS_NOT_LEARNT_FAILS_THE_JOB,
    A_REPORT_THAT_IS_REFUSED_COUNTS,
    THE_LOOPS_END_ONCE_ALL_IS_SETTLED,
    TEN_JOBS_SHARE_FOUR_SLOTS,
];

#[test]
fn children_are_started_and_reaped(rt: HostRuntime) {
    run_plays(&rt, rt.alloc(), PLAYS);
}
