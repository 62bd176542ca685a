//! A journal that is full. Its size is the number of entries and of changes, and 1 for a job that waits, 4 for one that is
//! handed out, 3 for one whose process is alive.
use crate::asking::{Ask, Said};
use crate::machines::Fails;
use crate::playing::{Play, Step, run_plays};
use crate::telling::{Event, Told};
use crate::wording::{CREATE, RUN};
use drmaa_types::{Control, Exit, JobState, SignalKind};

const LAUNCHED: &[Told] = &[(1, 1, Event::Launched), (1, 1, Event::Started)];

/// The journal has the size 10 once job 1 is started. A second launch would make it 15; after the end of job 1 it is 9, and
/// then the launch fits.
const A_LAUNCH_WAITS_FOR_ROOM: Play = Play {
    about: "a launch waits for room",
    journal: 14,
    courses: &[],
    failing: &[],
    steps: &[
        CREATE,
        Step::Client(RUN, Said::Job(1)),
        Step::Client(RUN, Said::Job(2)),
        Step::Launches(1),
        Step::CannotLaunch(15),
        Step::Reaps(1),
        Step::Launches(2),
    ],
    launcher: &[
        (1, 1, Event::Launched),
        (1, 1, Event::Started),
        (2, 1, Event::Launched),
        (2, 1, Event::Started),
    ],
    reaper: &[(1, 1, Event::Exited(Exit::Code(0)))],
    asked: &[(1, 1, true), (2, 1, true)],
};

/// The journal has the size 9 once the kill is asked for, and taking the order would make it 10. The end is reported all the
/// same, and the round is refused for the order.
const AN_ORDER_IS_NOT_TAKEN_WITHOUT_ROOM: Play = Play {
    about: "an order is not taken without room",
    journal: 9,
    courses: &[(1, Exit::Code(0), Fails::Never)],
    failing: &[],
    steps: &[
        CREATE,
        Step::Client(RUN, Said::Job(1)),
        Step::Launches(1),
        Step::Client(Ask::Control(1, Control::Terminate), Said::Unit),
        Step::CannotReap(10),
        Step::CannotReap(10),
        Step::Client(Ask::State(1), Said::State(JobState::Failed)),
        Step::Reaps(0),
    ],
    launcher: LAUNCHED,
    reaper: &[(1, 1, Event::Exited(Exit::Code(0)))],
    asked: &[(1, 1, true)],
};

/// The order is taken, and the report of its delivery would make the size 11. The child ends by the kill, and with the report of
/// its end the order is dropped.
const A_DELIVERY_IS_NOT_REPORTED_WITHOUT_ROOM: Play = Play {
    about: "a delivery is not reported without room",
    journal: 10,
    courses: &[(5, Exit::Code(0), Fails::Never)],
    failing: &[],
    steps: &[
        CREATE,
        Step::Client(RUN, Said::Job(1)),
        Step::Launches(1),
        Step::Client(Ask::Control(1, Control::Terminate), Said::Unit),
        Step::CannotReap(11),
        Step::Reaps(0),
        Step::Client(Ask::State(1), Said::State(JobState::Failed)),
    ],
    launcher: LAUNCHED,
    reaper: &[
        (1, 1, Event::Signal(SignalKind::Kill)),
        (1, 1, Event::Exited(Exit::Signal(9))),
    ],
    asked: &[(1, 1, true)],
};

/// A stop that was delivered is kept with that, and each round tries to report it, until the child has ended.
const A_DELIVERY_IS_KEPT_UNTIL_THE_END: Play = Play {
    about: "a delivery is kept until the end",
    journal: 11,
    courses: &[(2, Exit::Code(0), Fails::Never)],
    failing: &[],
    steps: &[
        CREATE,
        Step::Client(RUN, Said::Job(1)),
        Step::Launches(1),
        Step::Client(Ask::Control(1, Control::Suspend), Said::Unit),
        Step::CannotReap(12),
        Step::CannotReap(12),
        Step::CannotReap(12),
        Step::Reaps(0),
        Step::Client(Ask::State(1), Said::State(JobState::Done)),
    ],
    launcher: LAUNCHED,
    reaper: &[
        (1, 1, Event::Signal(SignalKind::Stop)),
        (1, 1, Event::Exited(Exit::Code(0))),
    ],
    asked: &[(1, 1, true)],
};

const PLAYS: &[Play] = &[
    A_LAUNCH_WAITS_FOR_ROOM,
    AN_ORDER_IS_NOT_TAKEN_WITHOUT_ROOM,
    A_DELIVERY_IS_NOT_REPORTED_WITHOUT_ROOM,
    A_DELIVERY_IS_KEPT_UNTIL_THE_END,
];

#[test]
fn a_full_journal_keeps_its_promises(rt: HostRuntime) {
    run_plays(&rt, rt.alloc(), PLAYS);
}
