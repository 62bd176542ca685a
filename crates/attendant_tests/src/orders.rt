//! Orders: signals that are sent, that fail, and that wait for a child.
use crate::asking::{Ask, Said};
use crate::machines::Fails;
use crate::playing::{Play, Step, run_plays};
use crate::telling::{Event, Told};
use crate::wording::{CREATE, RUN};
use drmaa_types::{Control, Exit, JobState, SignalKind};

const LAUNCHED: &[Told] = &[(1, 1, Event::Launched), (1, 1, Event::Started)];

/// A child that would end by itself in this round is sent its kill first, and one that would run on ends by it.
const A_KILL_COMES_BEFORE_THE_END: Play = Play {
    about: "a kill comes before the end",
    journal: 4_000_000,
    courses: &[(0, Exit::Code(0), Fails::Never)],
    failing: &[],
    steps: &[
        CREATE,
        Step::Client(RUN, Said::Job(1)),
        Step::Launches(1),
        Step::Client(Ask::Control(1, Control::Terminate), Said::Unit),
        Step::Client(Ask::State(1), Said::State(JobState::Running)),
        Step::Reaps(2),
        Step::Client(Ask::State(1), Said::State(JobState::Failed)),
        Step::Reaps(0),
    ],
    launcher: LAUNCHED,
    reaper: &[
        (1, 1, Event::Signal(SignalKind::Kill)),
        (1, 1, Event::SignalDone(SignalKind::Kill)),
        (1, 1, Event::Exited(Exit::Signal(9))),
    ],
    asked: &[(1, 1, true)],
};

/// A kill that can't be delivered is reported as such. The child ends by itself, and its job has failed.
const A_KILL_THAT_FAILS_IS_REPORTED: Play = Play {
    about: "a kill that fails is reported",
    journal: 4_000_000,
    courses: &[(1_000, Exit::Code(0), Fails::Signal)],
    failing: &[],
    steps: &[
        CREATE,
        Step::Client(RUN, Said::Job(1)),
        Step::Launches(1),
        Step::Client(Ask::Control(1, Control::Terminate), Said::Unit),
        Step::Reaps(1),
        Step::Client(Ask::State(1), Said::State(JobState::Running)),
        Step::Finishes,
        Step::Client(Ask::State(1), Said::State(JobState::Failed)),
    ],
    launcher: LAUNCHED,
    reaper: &[
        (1, 1, Event::Signal(SignalKind::Kill)),
        (1, 1, Event::SignalFailed(SignalKind::Kill)),
        (1, 1, Event::Exited(Exit::Code(0))),
    ],
    asked: &[(1, 1, true)],
};

/// After a kill that failed a second one may be asked for, and is delivered.
const A_SECOND_KILL_IS_DELIVERED: Play = Play {
    about: "a second kill is delivered",
    journal: 4_000_000,
    courses: &[(1_000, Exit::Code(0), Fails::Signal)],
    failing: &[],
    steps: &[
        CREATE,
        Step::Client(RUN, Said::Job(1)),
        Step::Launches(1),
        Step::Client(Ask::Control(1, Control::Terminate), Said::Unit),
        Step::Reaps(1),
        Step::Client(Ask::Control(1, Control::Terminate), Said::Unit),
        Step::Reaps(2),
        Step::Client(Ask::State(1), Said::State(JobState::Failed)),
    ],
    launcher: LAUNCHED,
    reaper: &[
        (1, 1, Event::Signal(SignalKind::Kill)),
        (1, 1, Event::SignalFailed(SignalKind::Kill)),
        (1, 1, Event::Signal(SignalKind::Kill)),
        (1, 1, Event::SignalDone(SignalKind::Kill)),
        (1, 1, Event::Exited(Exit::Signal(9))),
    ],
    asked: &[(1, 1, true)],
};

/// Each order is taken and delivered once, one in a round, and the child ends as its fate says.
const A_STOP_AND_A_CONTINUE_ARE_DELIVERED: Play = Play {
    about: "a stop and a continue are delivered",
    journal: 4_000_000,
    courses: &[(3, Exit::Code(0), Fails::Never)],
    failing: &[],
    steps: &[
        CREATE,
        Step::Client(RUN, Said::Job(1)),
        Step::Launches(1),
        Step::Client(Ask::Control(1, Control::Suspend), Said::Unit),
        Step::Client(Ask::Control(1, Control::Resume), Said::Unit),
        Step::Reaps(1),
        Step::Reaps(1),
        Step::Reaps(0),
        Step::Reaps(1),
        Step::Client(Ask::State(1), Said::State(JobState::Done)),
    ],
    launcher: LAUNCHED,
    reaper: &[
        (1, 1, Event::Signal(SignalKind::Stop)),
        (1, 1, Event::SignalDone(SignalKind::Stop)),
        (1, 1, Event::Signal(SignalKind::Cont)),
        (1, 1, Event::SignalDone(SignalKind::Cont)),
        (1, 1, Event::Exited(Exit::Code(0))),
    ],
    asked: &[(1, 1, true)],
};

/// Another caller launched job 1, so its child is not in the list: its order is kept, and no other is taken meanwhile.
const AN_ORDER_WITHOUT_A_CHILD_IS_KEPT: Play = Play {
    about: "an order without a child is kept",
    journal: 4_000_000,
    courses: &[(2, Exit::Code(0), Fails::Never)],
    failing: &[],
    steps: &[
        CREATE,
        Step::Client(RUN, Said::Job(1)),
        Step::Client(RUN, Said::Job(2)),
        Step::Client(Ask::TakeLaunch, Said::Launch(1, 1)),
        Step::Client(Ask::Started(1), Said::Unit),
        Step::Launches(2),
        Step::Client(Ask::Control(1, Control::Terminate), Said::Unit),
        Step::Client(Ask::Control(2, Control::Terminate), Said::Unit),
        Step::Reaps(0),
        Step::Reaps(0),
        Step::Reaps(1),
        Step::Client(Ask::State(2), Said::State(JobState::Failed)),
        Step::Reaps(0),
    ],
    launcher: &[(2, 1, Event::Launched), (2, 1, Event::Started)],
    reaper: &[
        (1, 1, Event::Signal(SignalKind::Kill)),
        (2, 1, Event::Exited(Exit::Code(0))),
    ],
    asked: &[(2, 1, true)],
};

/// Another caller launched job 1 and has not reported its start: a kill that is asked for is not handed out before that report.
const A_KILL_WAITS_FOR_THE_START: Play = Play {
    about: "a kill waits for the start",
    journal: 4_000_000,
    courses: &[],
    failing: &[],
    steps: &[
        CREATE,
        Step::Client(RUN, Said::Job(1)),
        Step::Client(Ask::TakeLaunch, Said::Launch(1, 1)),
        Step::Client(Ask::Control(1, Control::Terminate), Said::Unit),
        Step::Client(Ask::State(1), Said::State(JobState::Running)),
        Step::Reaps(0),
        Step::Client(Ask::Started(1), Said::Unit),
        Step::Reaps(0),
        Step::Client(Ask::State(1), Said::State(JobState::Running)),
    ],
    launcher: &[],
    reaper: &[(1, 1, Event::Signal(SignalKind::Kill))],
    asked: &[],
};

/// A child that has ended and was not polled since is sent its stop. The end is reported behind that.
const A_STOP_REACHES_A_CHILD_THAT_HAS_JUST_ENDED: Play = Play {
    about: "a stop reaches a child that has just ended",
    journal: 4_000_000,
    courses: &[(0, Exit::Code(0), Fails::Never)],
    failing: &[],
    steps: &[
        CREATE,
        Step::Client(RUN, Said::Job(1)),
        Step::Launches(1),
        Step::Client(Ask::Control(1, Control::Suspend), Said::Unit),
        Step::Client(Ask::State(1), Said::State(JobState::Suspended)),
        Step::Reaps(2),
        Step::Client(Ask::State(1), Said::State(JobState::Done)),
        Step::Reaps(0),
    ],
    launcher: LAUNCHED,
    reaper: &[
        (1, 1, Event::Signal(SignalKind::Stop)),
        (1, 1, Event::SignalDone(SignalKind::Stop)),
        (1, 1, Event::Exited(Exit::Code(0))),
    ],
    asked: &[(1, 1, true)],
};

/// The end of job 1 is reported by another caller before its stop is taken, which removes the order. Its child is not signalled.
const AN_END_REMOVES_THE_ORDER: Play = Play {
    about: "an end removes the order",
    journal: 4_000_000,
    courses: &[
        (1, Exit::Code(0), Fails::Never),
        (0, Exit::Code(0), Fails::Never),
    ],
    failing: &[],
    steps: &[
        CREATE,
        Step::Client(RUN, Said::Job(1)),
        Step::Client(RUN, Said::Job(2)),
        Step::Launches(1),
        Step::Launches(2),
        Step::Client(Ask::Control(1, Control::Suspend), Said::Unit),
        Step::Client(Ask::Exited(1, Exit::Code(0)), Said::Unit),
        Step::Client(Ask::State(1), Said::State(JobState::Done)),
        Step::Reaps(1),
        Step::Client(Ask::State(2), Said::State(JobState::Done)),
        Step::Reaps(1),
        Step::Reaps(0),
    ],
    launcher: &[
        (1, 1, Event::Launched),
        (1, 1, Event::Started),
        (2, 1, Event::Launched),
        (2, 1, Event::Started),
    ],
    reaper: &[
        (2, 1, Event::Exited(Exit::Code(0))),
        (1, 1, Event::Exited(Exit::Code(0))),
    ],
    asked: &[(1, 1, true), (2, 1, true)],
};

/// A child that would never end by itself ends by its kill.
const A_KILL_ENDS_AN_ENDLESS_CHILD: Play = Play {
    about: "a kill ends an endless child",
    courses: &[(u32::MAX, Exit::Code(0), Fails::Never)],
    ..A_KILL_COMES_BEFORE_THE_END
};

const PLAYS: &[Play] = &[
    A_KILL_COMES_BEFORE_THE_END,
    A_KILL_ENDS_AN_ENDLESS_CHILD,
    A_KILL_THAT_FAILS_IS_REPORTED,
    A_SECOND_KILL_IS_DELIVERED,
    A_STOP_AND_A_CONTINUE_ARE_DELIVERED,
    AN_ORDER_WITHOUT_A_CHILD_IS_KEPT,
    A_KILL_WAITS_FOR_THE_START,
    A_STOP_REACHES_A_CHILD_THAT_HAS_JUST_ENDED,
    AN_END_REMOVES_THE_ORDER,
];

#[test]
fn orders_are_delivered_to_their_children(rt: HostRuntime) {
    run_plays(&rt, rt.alloc(), PLAYS);
}
