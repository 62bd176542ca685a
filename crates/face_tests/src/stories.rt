//! What one user of the face is answered, step by step.
use crate::answers::Said;
use crate::calls::{Ask, Picked};
use crate::steps::{Step, play};
use drmaa_types::{Control, JobId, JobState, Note, Timeout, Which};

/// There is no such job.
pub const GONE: Said = Said::Wrong(Which::Job);

const AT_ONCE: Timeout = Timeout::Seconds(0);

/// A wait for all jobs that ends at its first looks.
const ALL: Ask = Ask::Synchronize(Picked::All, AT_ONCE, false);

/// A job that never starts is waited for in vain, terminated, waited for and forgotten.
pub const VAIN: &[Step] = &[
    (Ask::Init, Said::Done),
    (Ask::Run, Said::Job(1)),
    (ALL, Said::Timeout),
    (Ask::Control(1, Control::Terminate), Said::Done),
    (
        Ask::Wait(None, AT_ONCE),
        Said::Ended(1, JobState::Failed, Note::Terminated),
    ),
    (Ask::Ps(1), GONE),
];

/// No call is served but `init` while no session is active, and `init` is not while one is.
const SESSIONS: &[Step] = &[
    (Ask::Run, Said::Inactive),
    (Ask::Init, Said::Done),
    (Ask::Init, Said::Active),
    (Ask::Exit, Said::Done),
    (Ask::Ps(1), Said::Inactive),
    (Ask::Exit, Said::Inactive),
    (Ask::Init, Said::Done),
];

#[test]
fn one_session_is_active_at_a_time(rt: HostRuntime) {
    play(&rt, rt.alloc(), SESSIONS);
}

const BULK: &[Step] = &[
    (Ask::Init, Said::Done),
    (Ask::RunBulk(1, 3, 1), Said::Jobs(1, 3)),
    (Ask::Run, Said::Job(4)),
];

#[test]
fn bulk_jobs_are_told_by_their_first(rt: HostRuntime) {
    play(&rt, rt.alloc(), BULK);
}

/// A job is held and released, launched, suspended and resumed, and terminated; its process is not killed yet.
const CONTROLLED: &[Step] = &[
    (Ask::Init, Said::Done),
    (Ask::Run, Said::Job(1)),
    (Ask::Control(1, Control::Hold), Said::Done),
    (Ask::Ps(1), Said::State(JobState::QueuedHeld)),
    (Ask::Control(1, Control::Release), Said::Done),
    (Ask::Ps(1), Said::State(JobState::Queued)),
    (Ask::Launch(1), Said::AsWanted),
    (Ask::Control(1, Control::Suspend), Said::Done),
    (Ask::Ps(1), Said::State(JobState::Suspended)),
    (Ask::Control(1, Control::Resume), Said::Done),
    (Ask::Ps(1), Said::State(JobState::Running)),
    (Ask::Control(1, Control::Terminate), Said::Done),
    (Ask::Ps(1), Said::State(JobState::Running)),
];

#[test]
fn a_job_is_controlled_in_each_way(rt: HostRuntime) {
    play(&rt, rt.alloc(), CONTROLLED);
}

/// Of two jobs the second ends first, and is told first.
const ANY: &[Step] = &[
    (Ask::Init, Said::Done),
    (Ask::RunBulk(1, 2, 1), Said::Jobs(1, 2)),
    (Ask::Launch(1), Said::AsWanted),
    (Ask::Launch(2), Said::AsWanted),
    (Ask::End(2), Said::AsWanted),
    (
        Ask::Wait(None, Timeout::Infinite),
        Said::Ended(2, JobState::Done, Note::None),
    ),
    (Ask::Ps(2), GONE),
    (Ask::Ps(1), Said::State(JobState::Running)),
    (Ask::End(1), Said::AsWanted),
    (
        Ask::Wait(Some(JobId(1)), Timeout::Infinite),
        Said::Ended(1, JobState::Done, Note::None),
    ),
    (Ask::Wait(None, Timeout::Infinite), Said::Wrong(Which::Jobs)),
];

#[test]
fn any_job_that_has_ended_is_told(rt: HostRuntime) {
    play(&rt, rt.alloc(), ANY);
}

/// All are waited for, and stay; then all are forgotten. One that is picked twice is not there the second time.
const EACH: &[Step] = &[
    (Ask::Init, Said::Done),
    (Ask::RunBulk(1, 3, 1), Said::Jobs(1, 3)),
    (Ask::Launch(1), Said::AsWanted),
    (Ask::Launch(2), Said::AsWanted),
    (Ask::Launch(3), Said::AsWanted),
    (Ask::End(2), Said::AsWanted),
    (Ask::End(1), Said::AsWanted),
    (ALL, Said::Timeout),
    (Ask::End(3), Said::AsWanted),
    (ALL, Said::Done),
    (Ask::Ps(1), Said::State(JobState::Done)),
    (
        Ask::Synchronize(Picked::These(&[3, 3]), AT_ONCE, true),
        GONE,
    ),
    (
        Ask::Synchronize(Picked::All, Timeout::Infinite, true),
        Said::Done,
    ),
    (Ask::Ps(1), GONE),
    (Ask::Ps(2), GONE),
    (ALL, Said::Done),
];

#[test]
fn all_jobs_are_waited_for(rt: HostRuntime) {
    play(&rt, rt.alloc(), EACH);
}
